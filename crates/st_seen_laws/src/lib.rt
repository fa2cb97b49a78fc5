//! What the author of a message tells is read beside the log as what it is.
#![tactic(auto)]

mod laws;

pub use laws::{
    seen_names_are_read_back, texts_have_few_ids, told_changes_are_read, told_messages_are_read,
};
