//! The rebase of a change over a step, put together from what each kind of field does: laws of whole changes, and one field
//! as running code.
#![tactic(auto)]

mod base;
mod change;
mod laws;
mod registers;
mod room;
mod row_rest;
mod rows;

pub use change::{rebase_agreed, rebase_with_base};
pub use laws::{changes_are_rebased, changes_are_rebased_from_between};
pub use registers::rebase_register;
pub use room::has_room_in_rows;
