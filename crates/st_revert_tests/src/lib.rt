//! What no clause says of steps that are taken back and of steps over commits: that there is an answer. The answers were
//! worked out by hand.
#![tactic(auto)]

#[cfg(test)]
mod bridging;
#[cfg(test)]
mod steps;
#[cfg(test)]
mod taking_back;
