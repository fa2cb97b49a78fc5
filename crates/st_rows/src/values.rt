//! What a row holds, and what a change and a step say of it.

use st_ids::{Copied, List, NodeId, Rev};
use st_marks::{Mark, Slot};
use std::alloc::{AllocError, Global};

/// The cells of a row, in order.
#[derive(Drop, PartialEq, Eq)]
pub struct RowHeld {
    pub cells: List<Slot>,
}

/// What a change says of a row. `in_new`: the row's own node is one that the commit makes. `new`: nodes that the commit
/// makes, in rising order, among them those that own cells of the marks.
#[derive(Drop, PartialEq, Eq)]
pub struct RowChange {
    pub rev: Rev,
    pub in_new: bool,
    pub new: List<NodeId>,
    pub marks: List<Mark>,
}

/// What a step says of a row.
#[derive(Drop, PartialEq, Eq)]
pub struct RowStep {
    pub marks: List<Mark>,
}

impl Copied for RowHeld {
    fn copy(&self, alloc: Global) -> Result<Self, AllocError> {
        Ok(RowHeld {
            cells: self.cells.copy(alloc)?,
        })
    }
}

impl Copied for RowChange {
    fn copy(&self, alloc: Global) -> Result<Self, AllocError> {
        Ok(RowChange {
            rev: self.rev,
            in_new: self.in_new,
            new: self.new.copy(alloc)?,
            marks: self.marks.copy(alloc)?,
        })
    }
}

impl Copied for RowStep {
    fn copy(&self, alloc: Global) -> Result<Self, AllocError> {
        Ok(RowStep {
            marks: self.marks.copy(alloc)?,
        })
    }
}
