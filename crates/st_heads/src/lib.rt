//! What is remembered of commits that were carried out, and the way back over one of them: made of the commit and the
//! document before it, so that an undo needs no document of long ago.
#![tactic(auto)]

mod back;
mod between;
mod heads;
mod laws;
mod replica;
mod transactions;
mod ways;

pub use back::way_back;
pub use between::way_between;
pub use heads::{Head, carry_one};
pub use laws::{
    edits_are_parts, remembered_runs, remembered_ways_undo, undoings_fit, ways_lead_back,
};
pub use replica::{Replica, commit_new, last_in_effect};
pub use ways::{Carried, Way};
