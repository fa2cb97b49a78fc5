//! Steps in turn as one, and the way back over a step: what is listed, as laws and as running code.
#![tactic(auto)]

mod composition;
mod laws;
mod listing;
mod loose;
mod loose_back;
mod registers;
mod rows;
mod rows_back;
mod short;
mod way_back;

pub use composition::compose_agreed;
pub use laws::{
    full_and_void_lead_to_each_other, mentioned_nodes_are_listed, names_dropped_are_the_seconds,
    rows_left_are_found, steps_go_over_void_commits, steps_have_short_rows,
    steps_in_turn_are_listed, ways_back_are_listed,
};
pub use short::has_short_rows;
pub use way_back::invert;
