//! A row of slots, kept in blocks.
#![tactic(auto)]

mod block;
mod chunks;
mod gap;
mod group;
mod row;
mod splice;

pub use gap::Range;
pub use row::ChunkRow;
