//! The document.

use st_ids::{CellId, FieldId, List, NodeId};
use st_marks::{NewNode, Owned, SchemaEntry, Spot};
use std::collections::BTreeMap;

/// A document: its nodes, all cells ever made in each row, and where each node stands. Look-ups by name take
/// logarithmic time.
#[derive(Drop)]
pub struct Doc {
    pub(crate) nodes: BTreeMap<NodeId, NewNode>,
    pub(crate) rows: BTreeMap<NodeId, List<Owned>>,
    pub(crate) row_of: BTreeMap<CellId, NodeId>,
    pub(crate) place: BTreeMap<NodeId, Spot>,
    pub(crate) held: BTreeMap<FieldId, NodeId>,
    pub(crate) schemas: List<SchemaEntry>,
}
