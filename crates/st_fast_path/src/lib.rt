//! A whole change and a whole step that pass each other: the test, and both over each other.
#![tactic(auto)]

mod laws;
mod passes;
mod raising;

pub use laws::tests_tell;
pub use passes::pass;
pub use raising::raise_both;
