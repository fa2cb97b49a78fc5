//! Trees of nodes.

use st_ids::{Key, Leaf, List, Text};

/// A node and what is below it. A leaf has a value and no fields.
#[cycle(tree)]
#[derive(Debug, Drop, PartialEq)]
pub struct Tree {
    pub ty: Text,
    pub leaf: Option<Leaf>,
    pub fields: List<Field>,
}

/// A field of a node: the row of an array node, under the empty key, or what stands under a key.
#[cycle(tree)]
#[derive(Debug, Drop, PartialEq)]
pub struct Field {
    pub key: Key,
    pub row: bool,
    pub items: List<Tree>,
}
