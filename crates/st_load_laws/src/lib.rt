//! What a load makes of a world, and why it comes to an end.
#![tactic(auto)]

mod laws;

pub use laws::{loads_come_to_an_end, loads_grow_slowly};
