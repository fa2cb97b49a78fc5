//! The document that a tree opens with, and that it is sound in form.
#![tactic(auto)]

mod laws;

pub use laws::start_is_sound;
