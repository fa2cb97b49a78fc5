//! The axioms of the algebra: each call makes the calls of both sides and gives what they come to, which over documents is one value,
//! but where its contract tells otherwise.
#![tactic(auto)]

mod calls;
mod changes;
mod empty;
mod laws;
mod nothing;
mod parts;
mod sides;
mod steps;
mod together;
mod values;

pub use changes::{over_nothing, over_parts, there_and_back};
pub use empty::nothing_over;
pub use laws::{outcomes_are_one, sides_make_the_same, sides_move_alike};
pub use parts::parts_over;
pub use sides::{ChangeSides, StepSides};
pub use steps::{associative, bridge_in_turn, neutral};
