//! Changes and steps whose empty cells are counted, with each of them named, as the rows of a document name them.
#![tactic(auto)]

mod listed;
mod rows;

pub use listed::{list_change, list_step};
