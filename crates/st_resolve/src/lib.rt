//! What edits of a live tree mean: the intent of a commit, or the first refusal.
#![tactic(auto)]

mod edits;
mod intents;
mod moves;
mod new_trees;
mod paths;
mod rules;

pub use edits::{clear, insert, move_items, need, remove, resolve, set};
