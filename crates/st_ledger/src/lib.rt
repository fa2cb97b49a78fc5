//! The ledger of a log: what the tests of a message read that need no document.
#![tactic(auto)]

mod carrying;
mod entering;
mod ledger;
mod references;
mod refusing;
mod room;
mod sessions;

pub use ledger::Ledger;
pub use room::names_of_change;
