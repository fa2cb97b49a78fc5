//! Changes and steps that stand over one document: laws about the definitions of st_marks.
#![tactic(auto)]

mod laws;

pub use laws::changes_agree_with_steps;
