//! Which nodes a listing of a change names, and where it finds them. No document is at hand.
#![tactic(auto)]

mod names;
mod places;

pub use names::names_listed;
pub use places::places_listed;
