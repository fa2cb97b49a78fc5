//! Over each step there is a way back.
#![tactic(auto)]

mod laws;

pub use laws::each_step_has_a_way_back;
