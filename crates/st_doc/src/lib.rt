//! The plain document, which keeps every cell that was ever made.
#![tactic(auto)]

mod carry;
mod climb;
mod contents;
mod copy;
mod doc;
mod evictions;
mod fits;
mod laws;
mod live;
mod live_text;
mod maps;
mod names;
mod opening;
mod order;
mod query;
mod room;
mod rows;
mod seats;
mod start;
mod targets;
mod verdict;

pub use doc::Doc;
pub use laws::each_node_shows_a_tree;
pub use start::rows_of;
