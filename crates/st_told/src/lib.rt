//! What a change tells of its intent.
#![tactic(auto)]

mod laws;

pub use laws::{alike_intents_fit, one_intent};
