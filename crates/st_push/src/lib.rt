//! Laws on lists of changes that stand in turn, and on what a manager keeps of a log.
#![tactic(auto)]

mod laws;

pub use laws::{
    changes_are_pushed, extends_beside, later_lists_extend, one_list_shows, references_are_raised,
    seats_take_commits, shown_lists_run,
};
