//! A load of four clients: steps drawn by a generator of numbers, the same for the same seed.
#![tactic(auto)]

mod make;
mod work;

pub use work::{Plan, Work};
