//! Normal form and documents: a change that obeys the rules of normal form stands over each document in which it finds what
//! is so, and what it finds has such a document, the seed. So it is normal; and a normal change obeys the rules. Laws about the
//! definitions in specs/.
#![tactic(auto)]

mod laws;

pub use laws::{
    changes_stand_over, changes_that_obey_are_normal, embeddings_obey_rules, laid_is_sound,
    mentions_are_exact, normal_changes_obey, normal_steps_obey, seed_is_sound, two_have_one_seed,
};
