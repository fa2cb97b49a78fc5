//! What is kept of each session that is connected: what it sent above its known reference, and the step from the document over which
//! it writes to that of all commits.
#![tactic(auto)]

mod entering;
mod following;
mod rising;
mod seat;
mod seating;

pub use entering::{no_step, seats_ack, seats_join, seats_leave};
pub use seat::{Seat, Turns};
pub use seating::seats_take;
