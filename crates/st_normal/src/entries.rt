//! What is looked up: where nodes are found, and from which others they hang.

use st_ids::NodeId;
use st_marks::How;

/// A node that is listed where it stands, and what becomes of it.
#[derive(Clone, Copy)]
pub struct Found {
    pub node: NodeId,
    pub how: How,
}

/// A node that stands in the row or a register of another.
#[derive(Clone, Copy)]
pub struct Link {
    pub node: NodeId,
    pub up: NodeId,
}
