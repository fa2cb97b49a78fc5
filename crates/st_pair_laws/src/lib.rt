//! A change, a step and one document: the two stand over one exactly where both obey the rules of normal form and they agree by the
//! rules that are told from the two alone. Laws about the definitions in specs/.
#![tactic(auto)]

mod laws;

pub use laws::{agreement_is_exact, one_answer_beside, room_is_enough, stand_beside};
