//! What edits of a live tree mean, as definitions, and the laws that what they mean fits. The code that resolves edits
//! stands above, in `st_resolve`.
#![tactic(auto)]

mod laws;
mod names;

pub use laws::{new_trees_fit, resolved_edits_count_on, resolved_edits_fit, simple_edits_fit};
pub use names::{NameCounters, Takes};
