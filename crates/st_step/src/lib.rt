//! The step between a document and a later one.
#![tactic(auto)]

mod marks;
mod new;
mod registers;
mod rows;
mod same;
mod schemas;
mod sources;
mod step;

pub use step::step_to;
