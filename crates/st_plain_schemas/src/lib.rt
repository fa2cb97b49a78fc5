//! Widening the schema of a client's main line, and what is kept of each schema that a commit brought in.
#![tactic(auto)]

mod known;
mod upgrading;

pub use known::{KnownSchema, keep, know, schema_of};
pub use upgrading::{keep_upgrade, upgrade};
