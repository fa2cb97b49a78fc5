//! Two intents of one commit, joined into one.
#![tactic(auto)]

mod groups;
mod joins;
mod laws;
mod lists;
mod puts;
mod sets;

pub use joins::join;
pub use laws::{
    joins_fit, joins_make_the_names_of_both, listed_joins_are_intents, parts_have_a_join,
};
