//! The world of a trace by lists alone: what a step makes of it, and its answer.
#![tactic(auto)]

mod edit_word;

pub use edit_word::EditWord;
