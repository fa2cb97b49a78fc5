//! The change that lists an intent in a document.
#![tactic(auto)]

mod change;
mod climb;
mod listings;
mod lists;
mod look;
mod marks;
mod named;
mod registers;
mod rows;
mod sets;
mod targets;
mod wants;

pub use change::embed;
pub use climb::{known_upwards, mentioned_nodes};
pub use lists::push_if_some;
pub use look::is_in;
pub use marks::{push_cell, tells};
pub use registers::{holds_mentioned, is_loose, is_nowhere, is_same_occupant};
pub use rows::is_full;
pub use sets::{add_cleared, add_nodes};
pub use targets::rows_of_cells;
