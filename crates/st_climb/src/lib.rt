//! The nodes above a node, and sets of nodes.
#![tactic(auto)]

mod climb;
mod sets;

pub use climb::{Above, upwards};
pub use sets::{add_all, add_one, new_names, without};
