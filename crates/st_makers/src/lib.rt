//! Under which schema each node was made, and its home, looked up in ordered maps.
#![tactic(auto)]

mod homes;
mod makers;
mod opening;

pub use makers::Makers;
