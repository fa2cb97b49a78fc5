//! Clients that received the same show the same.
#![tactic(auto)]

mod laws;

pub use laws::{loads_end_alike, received_alike_show_alike};
