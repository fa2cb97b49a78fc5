//! What no clause says of what a change does, of steps in turn and of the way back: that there is an answer, with verdicts and steps
//! that were worked out by hand.
#![tactic(auto)]

#[cfg(test)]
mod carrying;
#[cfg(test)]
mod names;
#[cfg(test)]
mod turning;
