//! Changes and steps with each empty cell counted that stays empty.
#![tactic(auto)]

mod rows;
mod whole;

pub use whole::{thin_change, thin_step};
