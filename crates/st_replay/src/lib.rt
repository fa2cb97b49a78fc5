//! The replay of messages: what a value is as a message beside a log, what its change means in its author's document, whether it
//! is valid, and how it enters the log.
#![tactic(auto)]

mod authors;
mod enter;
mod judge;
mod known;
mod laws;
mod meant;
mod message;
mod replay;
mod seen;

pub use enter::number_commit;
pub use known::is_known;
pub use laws::{accepted_commits_may_enter, others_have_no_number};
pub use meant::authors_intent;
pub use message::read_message;
pub use replay::{Replay, Taken};
