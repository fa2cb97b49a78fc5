//! Changes that name more than they mention, and the parts of one commit: what is listed, as laws and as running code.
#![tactic(auto)]

mod laws;
mod parts;
mod rows;
mod rows_of_parts;
mod short;
mod trimming;

pub use laws::{parts_are_listed, rows_of_parts_are_listed, trimmed_changes_are_changes};
pub use parts::join_agreed;
pub use short::has_short_rows;
pub use trimming::{trim_change, trim_listing};
