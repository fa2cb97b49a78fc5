//! Lists of commits in any order of delivery: laws about the definitions in specs/.
#![tactic(auto)]

mod laws;

pub use laws::{
    another_first, each_has_a_verdict, fit_beside, fit_in_turn, fit_later, made_under, names_stay,
    rows_have_room, sublists,
};
