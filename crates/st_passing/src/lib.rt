//! Changes and steps that pass each other.
#![tactic(auto)]

mod laws;
mod raise;

pub use laws::{
    cells_that_meet_differ, document_rows_left_are_raised, document_rows_pass, mentions_stay,
    rows_left_are_raised, rows_pass, rows_that_pass_stay, silent_rows_pass,
};
pub use raise::{Seat, does_not_meet, raise_beside, raise_counts, raise_in_place};
