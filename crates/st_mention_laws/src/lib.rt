//! What an intent mentions in a document and in one that extends it: laws about the definitions of st_marks. And, in specs/,
//! what shows a change or a step but for which empty cells it names.
#![tactic(auto)]

mod laws;

pub use laws::{
    embeddings_are_shown, mentions_are_closed, mentions_are_covered, names_of_steps_are_closed,
    names_stay_the_same, steps_are_shown,
};
