//! Where names of one step stand in the way of another behind it: nodes that are made again, and cells that are owned too early.
#![tactic(auto)]

mod names;
mod owners;

pub use names::push_made;
pub use owners::push_owners;
