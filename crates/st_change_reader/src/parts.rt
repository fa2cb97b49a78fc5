//! Parts of a change or a step, while it is read.

use st_ids::{List, NodeId, Rev};
use st_marks::{Loose, NewNode, RegMark, RegStep, RowMarks};

/// The revision of a change, under which schema it was made, and whether that is in effect.
#[derive(Clone, Copy)]
pub struct Ground {
    pub rev: Rev,
    pub under: Rev,
    pub base: bool,
}

/// The fields that a change lists.
#[derive(Drop)]
pub struct Fields {
    pub rows: List<RowMarks>,
    pub regs: List<RegMark>,
}

/// The nodes that a change needs, and those that it makes.
#[derive(Drop)]
pub struct Nodes {
    pub need: List<NodeId>,
    pub new: List<NewNode>,
}

/// Who is in a register before a step and after it.
#[derive(Clone, Copy)]
pub struct Turn {
    pub before: Option<NodeId>,
    pub after: Option<NodeId>,
}

/// The fields that a step lists.
#[derive(Drop)]
pub struct StepFields {
    pub rows: List<RowMarks>,
    pub regs: List<RegStep>,
}

/// The nodes that a step makes, and those that are nowhere.
#[derive(Drop)]
pub struct StepNodes {
    pub new: List<NewNode>,
    pub loose: List<Loose>,
}
