//! The edit manager: what it keeps of a log and of commits that are pending, what it lends, and what its calls that take an entry
//! have to do.
#![tactic(auto)]

mod callers;
mod calls;
mod head;
mod history;
mod keeping;
mod laws;
mod lending;
mod manager;
mod noting;
mod receiving;
mod telling;

pub use callers::number_after;
pub use calls::{Manages, ReceiveFault, Received, Spent};
pub use laws::{contexts_are_judged, new_names_are_new};
pub use manager::{AddFault, Manager, NoSession};
