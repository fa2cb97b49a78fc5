//! Edits and transactions of a client, on its main line and on its branches: what they mean, and what becomes of its lists and
//! of what is kept of it.
#![tactic(auto)]

pub mod branch_edits;
mod edits;
mod transactions;

pub use edits::edit;
pub use transactions::{abort, begin, commit, need};
