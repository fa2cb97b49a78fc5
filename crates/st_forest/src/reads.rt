//! What a forest tells of the document for which it stands.
ghost use Rattle.std.specs.Prelude.{◌≡◌, [], length, option_map, slice_get, unwrap_or};
ghost use Rattle.std.specs.Option.{option_copied};
ghost use Rattle.st_marks.specs.Document.{Document, content, last_of, revs};

use crate::forest::Forest;
use st_chunks::ChunkRow;
use st_ids::{FieldId, NodeId, Rev};
use st_marks::{NewNode, SchemaEntry, Spot};

// The revision of the last entry.
fn last_rev(entries: &[SchemaEntry]) -> Option<Rev>
    ensures { result ≡ last_of (revs entries.now) }
{
    Some(entries.last()?.rev)
}

impl Forest {
    ghost use Rattle.st_forest.specs.Stands.{StandsFor, named};

    /// A node, if it is there.
    pub fn node(&self, node: NodeId) -> Option<&NewNode>
        ensures { (D : Document) → StandsFor self.now D
            → option_copied result ≡ option_map (named node) (D.nodes node) }
    {
        Some(&self.nodes.get(&node)?.node)
    }

    /// Where a node stands, if it is there.
    pub fn place(&self, node: NodeId) -> Option<&Spot>
        ensures { (D : Document) → StandsFor self.now D
            → option_copied result ≡ option_map (λ _. D.place node) (D.nodes node) }
    {
        Some(&self.nodes.get(&node)?.place)
    }

    /// The slots of a node's row; `None` says that it has no cells.
    pub fn slots(&self, node: NodeId) -> Option<&ChunkRow>
        ensures { (D : Document) → StandsFor self.now D → unwrap_or (option_copied result) [] ≡ content D node }
    {
        self.rows.get(&node)
    }

    /// The node that stands in a register, if there is one.
    pub fn held(&self, field: &FieldId) -> Option<NodeId>
        ensures { (D : Document) → StandsFor self.now D → result ≡ D.held field.now }
    {
        self.held.get(field).copied()
    }

    /// The revision of the last schema entry in effect, if there is one.
    pub fn under(&self) -> Option<Rev>
        ensures { (D : Document) → StandsFor self.now D → result ≡ last_of (revs D.schemas) }
    {
        last_rev(self.schemas.as_slice())
    }

    /// How many schema entries are in effect.
    pub fn schemas(&self) -> usize
        ensures { (D : Document) → StandsFor self.now D → result ≡ length D.schemas }
    {
        self.schemas.len()
    }

    /// The schema entry in effect at a place, counted from 0.
    pub fn entry(&self, i: usize) -> Option<&SchemaEntry>
        ensures { (D : Document) → StandsFor self.now D → option_copied result ≡ slice_get D.schemas i }
    {
        self.schemas.get(i)
    }
}
