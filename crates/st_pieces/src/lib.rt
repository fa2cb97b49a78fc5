//! Answers line by line, over a source that is read in pieces.
#![tactic(auto)]

mod echo;
mod laws;
mod lines;
mod reading;
mod responder;
mod send;
mod take;

pub use echo::Echo;
pub use laws::answered_lines_are_counted;
pub use lines::answer_lines;
pub use responder::{Reply, Responder, RunEnd};
pub use send::write_all;
