//! What a commit wants, by names alone.

use crate::changes::NewNode;
use st_ids::{CellId, FieldId, List, NodeId, Rev, Text};

/// What a commit wants: new nodes, new cells, registers to be cleared, nodes to be put somewhere, nodes that have to be
/// live, or a new schema. It names no positions.
#[derive(Drop, PartialEq, Eq)]
pub struct Intent {
    pub rev: Rev,
    pub under: Rev,
    pub new: List<NewNode>,
    pub groups: List<Group>,
    pub clear: List<FieldId>,
    pub put: List<Put>,
    pub need: List<NodeId>,
    pub schema: Option<Text>,
}

/// New cells in a node's row, directly after a cell or at the row's start.
#[derive(Drop, PartialEq, Eq)]
pub struct Group {
    pub node: NodeId,
    pub after: Option<CellId>,
    pub cells: List<Owned>,
}

/// A cell and the node that owns it.
#[derive(Clone, Copy, PartialEq, Eq)]
pub struct Owned {
    pub cell: CellId,
    pub node: NodeId,
}

/// Puts a node somewhere.
#[derive(Drop, PartialEq, Eq)]
pub struct Put {
    pub node: NodeId,
    pub to: To,
}

/// Where a node is put. A cell tells its row, since each cell is in one.
#[derive(Drop, PartialEq, Eq)]
pub enum To {
    Nowhere,
    Cell(CellId),
    Register(FieldId),
}
