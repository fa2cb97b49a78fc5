//! What a listing says of cells, registers and nodes that are nowhere.

use st_ids::{CellId, FieldId, List, NodeId};

/// What becomes of a node where it stands.
#[derive(Clone, Copy, PartialEq, Eq)]
pub enum How {
    /// It is only mentioned.
    Stay,
    /// A change puts it where it is.
    Here,
    /// It goes elsewhere or nowhere.
    Leave,
}

/// What a listing says of a cell of a row, or of some cells side by side.
#[derive(Clone, Copy, PartialEq, Eq)]
pub enum Mark {
    /// So many full cells whose nodes aren't mentioned.
    Skip(u32),
    /// An empty cell that stays empty.
    Gap(CellId),
    /// A full cell, whose node stays or leaves.
    Touch {
        cell: CellId,
        node: NodeId,
        how: How,
    },
    /// A new cell, full with its owner or empty.
    Make {
        cell: CellId,
        node: NodeId,
        full: bool,
    },
    /// An empty cell that becomes full with its owner.
    Fill {
        cell: CellId,
        node: NodeId,
    },
}

/// The whole row of a node.
#[derive(Drop, PartialEq, Eq)]
pub struct RowMarks {
    pub node: NodeId,
    pub marks: List<Mark>,
}

/// What a change says of a register: who is there, what becomes of that node, whether the register is cleared, and
/// which other node comes in.
#[derive(Drop, PartialEq, Eq)]
pub struct RegMark {
    pub field: FieldId,
    pub held: Option<NodeId>,
    pub how: How,
    pub clear: bool,
    pub fill: Option<NodeId>,
}

/// Who is in a register before a step and after it.
#[derive(Drop, PartialEq, Eq)]
pub struct RegStep {
    pub field: FieldId,
    pub before: Option<NodeId>,
    pub after: Option<NodeId>,
}

/// A mentioned node that is nowhere.
#[derive(Clone, Copy, PartialEq, Eq)]
pub struct Loose {
    pub node: NodeId,
    pub how: How,
}
