//! Whether changes and steps are in normal form, judged by the rules of normal form as they stand alone.
#![tactic(auto)]

mod change_check;
mod change_rules;
mod entries;
mod extract;
mod index;
mod links;
mod listing;
mod lookup;
mod normal;
mod registers;
mod rings;
mod rising;
mod row_rules;
mod rules;
mod scan;
mod shared_rules;
mod step_check;
mod step_rules;

pub use normal::{Check, NotNormal};
