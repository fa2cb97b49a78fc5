//! JSON values of one form: lines both ways, members, items, texts and whole numbers.
#![tactic(auto)]

mod fault;
mod line;
mod look;

pub use fault::{BadCause, NotJson, Shape};
pub use line::{read_line, write_line};
pub use look::{int, item, member, number, only, text};
