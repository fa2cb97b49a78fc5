//! What a commit wants, what it says where it stands, and what a document becomes by it: the types of intents,
//! changes and steps, and laws about the definitions in specs/.
#![tactic(auto)]

mod changes;
mod copies;
mod intents;
mod laws;
mod laws_of_listings;
mod lengths;
mod marks;
mod places;
mod schemas;
mod steps;
mod verdicts;

pub use changes::{Change, NewNode};
pub use intents::{Group, Intent, Owned, Put, To};
pub use laws::{
    back_leads_back, carrying_out_extends, extends_in_turn, fits_later, joined_in_turn, one_tree,
    one_verdict, retreat_extends, rows_keep_their_order, run_in_turn,
};
pub use laws_of_listings::{one_embedding, one_step};
pub use lengths::{after, before};
pub use marks::{How, Loose, Mark, RegMark, RegStep, RowMarks};
pub use places::{Slot, Spot};
pub use schemas::{SchemaEntry, SchemaStep};
pub use steps::Step;
pub use verdicts::Verdict;
