//! What a kind of field refuses is what the rules on agreement name: laws.
#![tactic(auto)]

mod laws;

pub use laws::{registers_clash_as_listed, rows_clash_as_listed};
