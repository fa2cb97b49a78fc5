//! What is answered to an input, and what of it is written at each outcome.
#![tactic(auto)]

mod cause;
mod command;
mod outcome;
mod tally;

pub use cause::EndCause;
pub use command::Command;
pub use outcome::Outcome;
pub use tally::Tally;
