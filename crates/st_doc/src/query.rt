//! What a document tells of a node.
ghost use Rattle.std.specs.Prelude.{◌≡◌, option_map, slice_get, unwrap_or};
ghost use Rattle.std.specs.BTreeMap.{get};
ghost use Rattle.std.specs.Option.{option_copied};
ghost use Rattle.st_marks.specs.declared.places.Spot.{Spot as Standing};
ghost use Rattle.st_marks.specs.Document.{last_of, revs};

use crate::doc::Doc;
use crate::live::is_full;
use crate::rows::cells_of;
use st_ids::{CellId, FieldId, NodeId, Rev, Text};
use st_marks::{SchemaEntry, Slot, Spot};

// The revision of the last entry.
#[tactic(auto, using(crate::proofs::Queries::last_entry))]
fn last_rev(entries: &[SchemaEntry]) -> Option<Rev>
    ensures { result ≡ last_of (revs entries.now) }
{
    Some(entries.last()?.rev)
}

impl Doc {
    ghost use Rattle.st_doc.specs.Doc.{document_of};
    ghost use Rattle.st_marks.specs.LiveTree.{live_slots};

    /// The type of a node, if it is there.
    pub fn type_of(&self, node: NodeId) -> Option<&Text>
        ensures { option_copied result ≡ option_map (λ t. t.ty) ((document_of self.now).nodes node) }
    {
        Some(&self.nodes.get(&node)?.ty)
    }

    /// Where a node stands; `None` says nowhere too.
    pub fn place(&self, node: NodeId) -> Option<&Spot>
        ensures { unwrap_or (option_copied result) Standing.Nowhere ≡ (document_of self.now).place node }
    {
        self.place.get(&node)
    }

    /// The node that stands in a register, if there is one.
    pub fn held(&self, field: &FieldId) -> Option<NodeId>
        ensures { result ≡ (document_of self.now).held field.now }
    {
        self.held.get(field).copied()
    }

    /// The node in whose row a cell is, if it is in one.
    pub fn row_of(&self, cell: CellId) -> Option<NodeId>
        ensures { result ≡ (document_of self.now).row_of cell }
    {
        self.row_of.get(&cell).copied()
    }

    /// The revision of the last schema entry in effect, if there is one.
    pub fn under(&self) -> Option<Rev>
        ensures { result ≡ last_of (revs (document_of self.now).schemas) }
    {
        last_rev(self.schemas.as_slice())
    }

    /// The full cell of an index in a node's row, with its node.
    pub fn live_slot(&self, node: NodeId, index: u32) -> Option<Slot>
        ensures { result ≡ slice_get (live_slots (document_of self.now) node) index }
    {
        let mut left = index;
        for owned in cells_of(&self.rows, node) {
            if is_full(&self.place, owned) {
                if left == 0 {
                    return Some(Slot {
                        cell: owned.cell,
                        node: owned.node,
                        full: true,
                    });
                }
                left -= 1;
            }
        }
        None
    }
}
