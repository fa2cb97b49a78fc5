//! The nodes of trees under their names.

use st_ids::{CellId, FieldId, Leaf, List, NodeId, Text};

/// Where a node stands.
#[derive(Debug, Drop, PartialEq)]
pub enum FlatAt {
    /// The root of a document.
    Root,
    /// A top item, which waits in a cell for its place.
    Top(CellId),
    /// In a cell of an array node's row.
    Row { node: NodeId, cell: CellId },
    /// Under a key of a node.
    Register(FieldId),
}

/// A node under its name.
#[derive(Debug, Drop, PartialEq)]
pub struct FlatNode {
    pub node: NodeId,
    pub ty: Text,
    pub leaf: Option<Leaf>,
    /// Whether it is an array node.
    pub row: bool,
    pub at: FlatAt,
}

/// The nodes of trees in preorder.
#[derive(Debug, Drop, PartialEq)]
pub struct Flat {
    pub nodes: List<FlatNode>,
}
