//! Rows: what steps and changes of one row become, on their marks alone, and what these have to do with the rows of documents.
#![tactic(auto)]

mod cell_view;
mod front_mark;
mod laws;
mod mark_builder;
mod merge_walk;
mod node_set;
mod pieces;
mod row_bridge;
mod row_compose;
mod row_effect;
mod row_invert;
mod row_rebase;
mod rows;
mod touches;
mod values;

pub use laws::{
    rows_are_joined, rows_are_listed, rows_are_of_documents, rows_have_changes, rows_have_steps,
    rows_hold,
};
pub use merge_walk::{Table, lay_alike, lay_beside, lay_in_turn, lay_in_turn_alike};
pub use node_set::is_among;
pub use pieces::{Piece, Turn, turn_alike};
pub use row_bridge::bridge;
pub use row_compose::{compose, compose_alike, join, join_alike};
pub use row_effect::{effect, void_effect};
pub use row_invert::invert;
pub use row_rebase::{rebase, rebase_agreed};
pub use rows::{SlotTurn, after, slot_turn};
pub use values::{RowChange, RowHeld, RowStep};
