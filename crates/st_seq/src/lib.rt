//! Rows as a kind of field.
#![tactic(auto)]

mod form;
mod kind;
mod name_clashes;
mod new_nodes;
mod owners;

pub use kind::Sequence;
