//! Changes and steps read from JSON values, over how a name is told.
#![tactic(auto)]

mod change;
mod parts;
mod step;

pub use change::read_change;
pub use parts::{Fields, Ground, Nodes, StepFields, StepNodes, Turn};
pub use step::read_step;
