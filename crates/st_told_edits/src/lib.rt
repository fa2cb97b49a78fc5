//! The change that an edit means in the document that a client shows.
#![tactic(auto)]

mod edit;

pub use edit::told_of_edit;
