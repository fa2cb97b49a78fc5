//! What undo reads of what a client keeps, as a trait, so that it rests on this alone.
#![tactic(auto)]

mod history;

pub use history::History;
