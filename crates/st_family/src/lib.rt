//! Whole changes and steps, with the test that they agree: each call answers a field at which they don't.
#![tactic(auto)]

mod over_step;

pub use over_step::rebase;
