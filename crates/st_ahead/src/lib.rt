//! What is kept of each session that is connected: the commits of others that it hasn't received, each with the step that it is over
//! all that the session sent.
#![tactic(auto)]

mod bridge;
mod carrying;
mod entering;
mod lag;
mod taking;

pub use bridge::bridge_of;
pub use entering::{lags_ack, lags_join, lags_leave};
pub use lag::{Ahead, Lag};
pub use taking::lags_take;
