//! What no clause says of the fields at which a change and a step clash: answers that were worked out by hand.
#![tactic(auto)]

#[cfg(test)]
mod clashing;
