//! Tests of the table of ids and of its texts.
#![tactic(auto)]

#[cfg(test)]
mod names;
#[cfg(test)]
mod sessions;
#[cfg(test)]
mod texts;
