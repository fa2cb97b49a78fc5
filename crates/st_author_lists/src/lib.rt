//! Each commit fits where its author wrote it.
#![tactic(auto)]

mod laws;

pub use laws::{
    author_lists_are_shown, author_lists_grow, authors_are_fitted, authors_begin, authors_go_on,
    entries_have_texts, known_changes_stay, written_changes_are_known,
};
