//! Whether one document extends another, and the way back between two documents.
#![tactic(auto)]

mod between;
mod extends;
mod same;

pub use between::{NotLater, back};
pub use extends::is_extended_by;
