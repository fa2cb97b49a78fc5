//! Two steps in normal form of which the second finds what the first leaves stand over documents in turn. Laws about the
//! definitions of st_marks.
#![tactic(auto)]

mod laws;

pub use laws::stand_in_turn;
