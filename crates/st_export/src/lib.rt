//! The live tree that a forest shows, as JSON text.
#![tactic(auto)]

mod registers;
mod text;
mod values;
mod walk;

pub use text::{NoNode, export, export_at};
