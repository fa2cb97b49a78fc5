//! The words of the command line.
#![tactic(auto)]

mod number;
mod parser;
mod request;
mod table;

pub use request::{Request, request_of};
