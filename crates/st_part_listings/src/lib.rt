//! What two parts of a commit say together of registers and nodes, by where both put nodes. No document is at hand.
#![tactic(auto)]

mod joint_puts;
mod nodes;
mod registers;
mod unions;

pub use joint_puts::Tables;
pub use nodes::{loose_of_parts, needs_of_parts};
pub use registers::registers_of_parts;
pub use unions::{Named, table_of, union};
