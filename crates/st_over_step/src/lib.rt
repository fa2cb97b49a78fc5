//! Whether a step stands over the document for which a forest stands.
#![tactic(auto)]

mod cells;
mod each;
mod over;
mod owners;
mod parts;
mod rows;
mod schemas;

pub use over::{is_over_step, is_over_step_of_new_cells};
