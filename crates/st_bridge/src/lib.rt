//! A step over a commit, whole or void before it and after it.
#![tactic(auto)]

mod entries;
mod rows;
mod void;
mod ways;
mod whole;

pub use void::bridge_void_agreed;
pub use whole::{bridge, bridge_agreed};
