//! A commit as it is listed in the document where it stands.

use crate::marks::{Loose, RegMark, RowMarks};
use st_ids::{Leaf, List, NodeId, Rev, Text};

/// A node that a commit makes; `leaf` is its value, if it is a leaf.
#[derive(Drop, PartialEq, Eq)]
pub struct NewNode {
    pub node: NodeId,
    pub ty: Text,
    pub leaf: Option<Leaf>,
}

/// What a commit does, by the fields that it touches. All lists rise by name. `base` says whether the schema of
/// `under` is in effect where the commit stands (for a change of schema: is the last in effect).
#[derive(Drop, PartialEq, Eq)]
pub struct Change {
    pub rev: Rev,
    pub under: Rev,
    pub base: bool,
    pub need: List<NodeId>,
    pub new: List<NewNode>,
    pub rows: List<RowMarks>,
    pub regs: List<RegMark>,
    pub loose: List<Loose>,
    pub schema: Option<Text>,
}
