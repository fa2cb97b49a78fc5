//! What a client does with the log: it receives entries, sends texts, joins, and catches up where it comes back.
#![tactic(auto)]

mod client;
mod log_steps;
mod reconnecting;
mod texts;

pub use client::{add_client, add_replica};
pub use log_steps::{deliver, names_waiting, take_text};
pub use reconnecting::{catch_up, refusal_to_reconnect};
pub use texts::texts_in_turn;
