//! Documents and intents that are drawn at random, the same for the same first number: what tests carry out, embed and compare.
#![tactic(auto)]

mod documents;
mod intents;

pub use documents::{after, between, carry, empty_list, others, root_alone};
pub use intents::{Draw, intent_over};
