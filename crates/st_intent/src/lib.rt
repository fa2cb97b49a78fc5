//! Whether what a commit wants obeys its own rules.
#![tactic(auto)]

mod distinct;
mod finds;
mod groups;
mod puts;
mod rings;
mod rules;
mod same;

pub use finds::{is_cleared, is_made, is_new, is_put, new_row_of, put_of};
pub use rules::is_intent;
pub use same::{is_before, is_same_anchor};
