//! What a kind of field does with changes and steps, and the laws that every kind keeps.
#![tactic(auto)]

mod apart;
mod both;
mod kind;

pub use apart::Apart;
pub use both::{Sides, rebase_over_both};
pub use kind::FieldKind;
