//! A way down the tree that a forest shows, node by node.
#![tactic(auto)]

mod cursor;
mod finding;
mod hops;
mod walking;

pub use cursor::{AtRoot, Cursor, NoField};
pub use finding::{child, item_at};
pub use hops::Hop;
pub use walking::{NoNode, walk};
