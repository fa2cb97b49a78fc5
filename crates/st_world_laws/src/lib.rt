//! Laws about the worlds that steps lead to, by their lists alone.
#![tactic(auto)]

mod laws;

pub use laws::{each_step_leads_on, opened_worlds_are_worlds, worlds_go_on};
