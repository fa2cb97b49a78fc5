//! A change told as a step, and whether nodes stand in a ring where changes leave them.
#![tactic(auto)]

mod left;
mod links;
mod rings;
mod told;

pub use left::{has_ring_after, has_ring_of_made};
pub use told::step_of;
