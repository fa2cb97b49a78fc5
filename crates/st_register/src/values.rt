//! What a register holds, and what a change and a step say of it.

use st_ids::{Copied, NodeId, Rev};
use st_marks::How;
use std::alloc::{AllocError, Global};

/// Who is in a register.
#[derive(Clone, Copy, PartialEq, Eq)]
pub struct RegHeld {
    pub node: Option<NodeId>,
}

/// What a change says of a register: who is there, what becomes of that node, whether the register is cleared, and
/// which other node comes in. `in_new`: it is a register of a node that the commit makes. `fill_new`: the commit makes
/// the node that comes in.
#[derive(Clone, Copy, PartialEq, Eq)]
pub struct RegChange {
    pub rev: Rev,
    pub in_new: bool,
    pub held: Option<NodeId>,
    pub how: How,
    pub clear: bool,
    pub fill: Option<NodeId>,
    pub fill_new: bool,
}

/// Who is in a register before a step and after it.
#[derive(Clone, Copy, PartialEq, Eq)]
pub struct RegSwap {
    pub before: Option<NodeId>,
    pub after: Option<NodeId>,
}

impl Copied for RegHeld {
    fn copy(&self, _alloc: Global) -> Result<Self, AllocError> {
        Ok(*self)
    }
}

impl Copied for RegChange {
    fn copy(&self, _alloc: Global) -> Result<Self, AllocError> {
        Ok(*self)
    }
}

impl Copied for RegSwap {
    fn copy(&self, _alloc: Global) -> Result<Self, AllocError> {
        Ok(*self)
    }
}
