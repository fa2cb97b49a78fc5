//! What is asked of a message beside a log: definitions, and laws about them.
#![tactic(auto)]

mod laws;
mod message;

pub use laws::{authors_lists_grow, changes_make_all_names};
pub use message::{Message, ReplayCause, Said};
