//! What no clause says of two parts of a commit as one change: that there is an answer. The answers were worked out by hand.
#![tactic(auto)]

#[cfg(test)]
mod joining;
