//! Where what one step leaves isn't what another finds: rows, registers, cells and schemas, rule by rule.
#![tactic(auto)]

mod cells;
mod left;
mod registers;
mod rows;
mod schemas;

pub use cells::push_cells;
pub use registers::push_registers;
pub use rows::push_rows;
pub use schemas::have_schemas_in_turn;
