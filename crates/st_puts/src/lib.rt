//! What is read off the marks of a change and a step alone, without a document: where nodes stand after the step, where the
//! change puts them, and which nodes its intent names and mentions.
#![tactic(auto)]

mod climb;
mod maps;
mod names;
mod puts;
mod spots;

pub use climb::{mentioned_after, upwards};
pub use names::named_before;
pub use puts::puts_of;
pub use spots::{places_after, places_beside};
