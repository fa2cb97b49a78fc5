//! Two changes and documents over which they stand as parts of one commit: that is exactly where both obey the rules of normal
//! form and they agree by the rules that are told from the two alone. Laws about the definitions in specs/.
#![tactic(auto)]

mod laws;

pub use laws::{one_change_of_parts, part_agreement_is_exact, parts_stand};
