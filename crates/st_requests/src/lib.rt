//! Requests to the algebra of changes, and the lines that answer them.
#![tactic(auto)]

mod answer;
mod form;
mod normal;
mod read;
mod request;

pub use answer::{apart_line, change_line, effect_line, step_line};
pub use normal::is_normal;
pub use read::read_request;
pub use request::Request;
