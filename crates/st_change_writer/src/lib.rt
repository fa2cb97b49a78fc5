//! Changes and steps written as text, without JSON values between.
#![tactic(auto)]

mod change;
mod lists;
mod marks;
mod names;
mod nodes;
mod schema;
mod step;

pub use change::{push_change, push_edits};
pub use names::{Plain, PushNames, push_op_atom, push_op_rev};
pub use step::push_step;
