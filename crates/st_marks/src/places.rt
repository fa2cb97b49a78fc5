//! Where nodes stand, and what a row's cells hold.

use st_ids::{CellId, FieldId, NodeId};

/// A cell of a row, with its owner: full where the owner stands in it.
#[derive(Clone, Copy, PartialEq, Eq)]
pub struct Slot {
    pub cell: CellId,
    pub node: NodeId,
    pub full: bool,
}

/// Where a node stands: nowhere, in a cell of a node's row, or in a register.
#[derive(Drop, PartialEq, Eq)]
pub enum Spot {
    Nowhere,
    Row { node: NodeId, cell: CellId },
    Register(FieldId),
}
