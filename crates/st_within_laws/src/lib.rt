//! Intents that can be told keep documents so, and their changes can be told. Laws about the definitions in `st_change_laws`
//! and `st_normal_texts`.
#![tactic(auto)]

mod kinds;
mod laws;

pub use kinds::{NameKind, ShortNames};
pub use laws::{
    changes_are_normal_texts, changes_are_within, documents_stay_within,
    intents_are_within_their_revision, rows_stay_short,
};
