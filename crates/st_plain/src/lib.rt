//! The world of a trace: the log, the clients and what each of them shows.
#![tactic(auto)]

mod branch_edit_steps;
mod branch_steps;
mod counting;
mod edit_steps;
mod laws;
mod log;
mod pending;
mod sessions;
mod undo_steps;
mod upgrade_steps;
mod world;
mod writing;

pub use laws::{each_step_has_a_next, sound_worlds_are_worlds, worlds_are_small};
pub use world::{Spent, World};
pub use writing::Writing;
