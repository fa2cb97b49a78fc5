//! Listings of two steps put together, and whom a step finds: no document is at hand.
#![tactic(auto)]

mod found;
mod merging;
mod schemas;
mod unions;

pub use found::{nodes_found, nodes_listed};
pub use schemas::schemas_in_turn;
pub use unions::{Named, union};
