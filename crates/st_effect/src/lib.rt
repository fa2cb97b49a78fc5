//! What a change does where it stands: its verdict, and the step to the document after it, told by its marks alone.
#![tactic(auto)]

mod effects;
mod laws;
mod listing;
mod loose;
mod names;
mod registers;
mod rows;
mod schemas;
mod short;

pub use effects::{Consequence, effect};
pub use laws::changes_have_short_rows;
pub use short::has_short_rows;
