//! Three arguments of an axiom: those that its calls don't refuse stand over documents, and so both sides are one. Laws about the
//! definitions of st_marks.
#![tactic(auto)]

mod laws;

pub use laws::{
    associative_is_one, next_is_not_refused, over_parts_is_one, stand_over_both,
    three_stand_in_turn,
};
