//! The id of each commit is among those that its session's texts carry up to it.
#![tactic(auto)]

mod laws;

pub use laws::{
    author_names_are_numbered, few_ids_stay, ids_begin, ids_go_on, logs_grow, names_are_numbered,
};
