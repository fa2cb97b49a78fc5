//! Undoing a commit of one's own, from what is kept of the commits.
#![tactic(auto)]

mod carrying;
mod faults;
mod undoing;

pub use faults::UndoFault;
pub use undoing::undo;
