//! Steps and documents: a step that obeys the rules of normal form leads on from each document in which it finds what is so, and
//! what it finds has such a document. So a step is normal exactly where it obeys the rules. Laws about the definitions in specs/.
#![tactic(auto)]

mod laws;

pub use laws::{
    step_mentions_are_exact, steps_are_normal_where_they_obey, steps_find_what_is_so,
    steps_stand_over, steps_that_obey_are_normal,
};
