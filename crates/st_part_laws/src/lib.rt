//! The parts of a document that were made under some schemas, and which schemas are in effect: laws about the definitions
//! in specs/.
#![tactic(auto)]

mod laws;

pub use laws::{
    commits_are_within, entries_are_in_line, name_in_turn, parts_are_carried, parts_are_sound,
    parts_go_back, parts_stay_closed, schemas_can_be_told, schemas_go_by_commits,
    the_part_in_effect_is_carried, the_part_in_effect_is_left,
};
