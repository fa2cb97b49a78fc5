//! Whole changes over steps that don't meet them: laws about the definitions of st_passing.
#![tactic(auto)]

mod laws;

pub use laws::{
    bases_pass, changes_pass, loose_nodes_pass, mentioned_nodes_pass, new_nodes_pass,
    nodes_stand_alike, passing_steps_leave_mentioned, registers_pass, steps_pass, verdicts_pass,
    verdicts_stay, whole_changes_pass,
};
