//! What no clause says of the rules on parts of one commit: that there is an answer. The answers were worked out by hand.
#![tactic(auto)]

#[cfg(test)]
mod joining;
