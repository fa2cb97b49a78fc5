//! Undoing a commit of a client's own, by what is kept of each commit of the log.
#![tactic(auto)]

mod logged;
mod undoing;

pub use logged::{Logged, log_commit};
pub use undoing::undo;
