//! The commits above a floor, with what each of them did.
#![tactic(auto)]

mod kept;
mod window;

pub use kept::{Gone, Kept};
pub use window::Window;
