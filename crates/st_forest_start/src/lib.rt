//! The forest of an opening document.
#![tactic(auto)]

mod maps;
mod opened;
mod rows;

pub use opened::start;
