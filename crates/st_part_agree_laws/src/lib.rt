//! Two parts of a commit over documents: laws about the definitions of st_marks.
#![tactic(auto)]

mod laws;

pub use laws::parts_agree;
