//! A whole change over a step, with empty cells named or counted, in one walk for each row.
#![tactic(auto)]

mod bare;
mod change;
mod fields;
mod look;
mod loose;
mod registers;
mod rows;

pub use bare::bare_marks;
pub use change::rebase_with_base;
pub use look::item_at;
pub use rows::told_row;
