//! What no clause says of rows in blocks and of windows: that there is an answer, with ample memory, over many blocks and
//! groups, and over many commits.
#![tactic(auto)]

#[cfg(test)]
mod rows;
#[cfg(test)]
mod windows;
