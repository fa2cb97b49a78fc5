//! The rows and registers of a step after a change, with empty cells named or counted, in one walk for each row.
#![tactic(auto)]

mod names;
mod registers;
mod rows;

pub use registers::registers_across;
pub use rows::{Crossing, rows_across};
