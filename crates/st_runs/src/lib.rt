//! Lists that are kept as runs: each run stands for some items that follow one another.
#![tactic(auto)]

mod run;
mod runs;

pub use run::Run;
pub use runs::{Range, RunPlace, Runs};
