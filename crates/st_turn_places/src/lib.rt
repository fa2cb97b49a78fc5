//! Nodes that one step leaves elsewhere than another, which goes behind it, finds them.
#![tactic(auto)]

mod left;
mod places;
mod twice;

pub use places::{Placed, places_after, places_before};
pub use twice::push_twice;
