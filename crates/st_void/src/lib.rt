//! Which nodes stand above which before and after a change, whether it is void, and why: told by its marks alone.
#![tactic(auto)]

mod climb;
mod rings;
mod standing;
mod verdicts;

pub use climb::{is_above, is_live};
pub use standing::{When, above};
pub use verdicts::verdict;
