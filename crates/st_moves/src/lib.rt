//! The document between an earlier and a later one, and a change rewritten for it: what a rebase does first.
#![tactic(auto)]

mod carry;
mod index;
mod laws;
mod marks;
mod registers;
mod rows;

pub use carry::carry_row;
pub use index::{index_registers_over, index_rows, register_over_in, row_in};
pub use laws::{
    between_stands_between, changes_are_carried, documents_have_room, intents_fit_between,
    rows_are_carried,
};
pub use marks::{Between, carry_marks};
