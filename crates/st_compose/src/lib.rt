//! Two steps in turn as one, or the least field at which the second doesn't go on from where the first leads.
#![tactic(auto)]

mod clashes;
mod composition;
mod rising;

pub use clashes::clashes_in_turn;
pub use composition::{agree_in_turn, compose};
