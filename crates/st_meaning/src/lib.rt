//! What a change tells: the intent whose change it is in a document.
#![tactic(auto)]

mod clears;
mod groups;
mod laws;
mod meaning;
mod places;
mod puts;

pub use laws::one_meaning;
pub use meaning::intent;
