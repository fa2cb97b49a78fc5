//! The ids of sessions: final numbers in clusters, and stable ids.
#![tactic(auto)]

mod at;
mod cluster;
mod compressor;
mod copy;
mod free;
mod ids;
mod laws;
mod look;
mod names;
mod spans;

pub use at::At;
pub use compressor::Compressor;
pub use free::{is_v4, spans_clash, uuid_of};
pub use ids::{Cluster, IdFault, IdRange, SessionIds, Unknown};
pub use laws::{
    carried_ids_have_numbers, final_numbers_are_distinct, final_numbers_stay, reached_tables_go_on,
    table_is_as_it_was, tables_go_on,
};
