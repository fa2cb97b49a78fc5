//! Writes the text of an entry of a log, as its author told it.
#![tactic(auto)]

mod entry;
mod known;
mod numbers;

pub use entry::{Author, Authors};
pub use known::{Known, KnownChanges};
pub use numbers::Numbers;
