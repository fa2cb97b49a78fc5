//! What is left of a step behind a first part of it, from marks alone: what is listed, as laws and as running code.
#![tactic(auto)]

mod cells;
mod laws;
mod listing;
mod loose;
mod new;
mod registers;
mod rows;
mod stripping;

pub use laws::{rests_of_steps_are_covered, rests_of_steps_are_listed};
pub use stripping::strip;
