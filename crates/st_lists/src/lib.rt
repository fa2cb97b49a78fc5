//! The world of a trace as lists alone: the log, and the clients with their pending commits and waiting texts.
#![tactic(auto)]

mod clients;
mod counts;
mod laws;
mod limits;
mod lists;
mod log;

pub use clients::{branch_place, enqueue, find_branch, next_rev, taken_after, texts_from};
pub use counts::{count_own, ids_carried, names_edited, names_in, names_in_text, names_made};
pub use laws::{lines_are_among, lines_are_written};
pub use limits::{names_limit_passed, own_limit_passed, pending_limit_passed};
pub use lists::{Body, Branch, Client, Entry, Transaction, WorldState};
pub use log::{append_entry, clashes, floor, minimum};
