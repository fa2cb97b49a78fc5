//! What no clause says of the axioms: that there is an answer. The answers were worked out by hand.
#![tactic(auto)]

#[cfg(test)]
mod axioms;
