//! What a step lists after a change that stands beside it, read off what both list: laws.
#![tactic(auto)]

mod laws;

pub use laws::{
    registers_beside_are_crossed, rows_beside_are_crossed, steps_beside_are_crossed,
    steps_over_changes_are_covered,
};
