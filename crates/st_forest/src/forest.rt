//! The tables.

use st_chunks::ChunkRow;
use st_ids::{FieldId, List, NodeId};
use st_marks::{NewNode, SchemaEntry, Spot};
use std::collections::BTreeMap;

/// A node, and where it stands.
#[derive(Drop)]
pub struct Seated {
    pub node: NewNode,
    pub place: Spot,
}

/// A document as a client keeps it: of each node what it is and where it stands, of each row its slots, with all cells ever made, of
/// each register who is in it, and the schema entries in effect.
#[derive(Drop)]
pub struct Forest {
    pub nodes: BTreeMap<NodeId, Seated>,
    pub rows: BTreeMap<NodeId, ChunkRow>,
    pub held: BTreeMap<FieldId, NodeId>,
    pub schemas: List<SchemaEntry>,
}
