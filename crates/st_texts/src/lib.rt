//! The text of each entry of a log: what another machine would receive.
#![tactic(auto)]

mod laws;

pub use laws::{entries_have_one_text, texts_stay};
