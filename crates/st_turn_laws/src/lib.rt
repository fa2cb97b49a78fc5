//! Steps that stand in turn over documents: laws about the definitions of st_marks.
#![tactic(auto)]

mod laws;

pub use laws::steps_in_turn_agree;
