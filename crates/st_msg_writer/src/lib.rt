//! Messages of sessions written as text.
#![tactic(auto)]

mod push;

pub use push::{Head, push_ack, push_commit, push_join, push_leave};
