//! Whether a change and a step agree, decided from their marks.
#![tactic(auto)]

mod agreement;
mod look;
mod named;
mod names;
mod places;
mod registers;
mod rising;
mod rows;
mod search;

pub use agreement::{FieldApart, agree, refused_at};
pub use look::{register_at, row_at};
pub use named::clashes;
