//! What no clause says of the rules on two steps in turn: that there is an answer. The answers were worked out by hand.
#![tactic(auto)]

#[cfg(test)]
mod composing;
#[cfg(test)]
mod turns;
