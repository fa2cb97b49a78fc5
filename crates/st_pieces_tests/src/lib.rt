//! What no clause says of a run over lines: that memory suffices at each limit, and that the outcome is the expected one.
#![tactic(auto)]

#[cfg(test)]
mod limits;
#[cfg(test)]
mod outside;
#[cfg(test)]
mod words;
