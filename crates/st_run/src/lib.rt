//! A run: from the words, the source and the sink of a program to its answers and its outcome.
#![tactic(auto)]

mod algebra;
mod command;
mod compat;
mod laws;
mod replay;
mod reply;
mod text;
mod trace;
mod tree;
mod work;

pub use command::run;
pub use laws::{each_input_has_answers, each_run_has_an_answer};
