//! Changes over steps, and steps over changes, of whole documents, with empty cells named or counted.
#![tactic(auto)]

mod base;
mod room;
mod whole;

pub use base::base_after;
pub use room::can_be_laid;
pub use whole::rebase;
