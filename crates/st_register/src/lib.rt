//! Registers as a kind of field: a field that holds at most one node.
#![tactic(auto)]

mod form;
mod joined;
mod kind;
mod laws;
mod told;
mod values;

pub use kind::Register;
pub use laws::{
    registers_are_joined, registers_are_listed, registers_are_of_documents, registers_have_changes,
    registers_have_steps, registers_hold,
};
pub use values::{RegChange, RegHeld, RegSwap};
