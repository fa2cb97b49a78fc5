//! What a row shows.
ghost use Rattle.std.specs.Prelude.{◌≡◌, IfOk, unwrap_or};
ghost use Rattle.std.specs.BTreeMap.{get};
ghost use Rattle.st_ids.specs.Order.{node_cmp};
ghost use Rattle.st_marks.specs.declared.places.Spot.{Spot as Standing};
ghost use Rattle.st_marks.specs.Document.{is_cell};

use crate::doc::Doc;
use crate::rows::cells_of;
use st_ids::{List, NodeId, is_same_cell};
use st_marks::{Owned, Slot, Spot};
use std::alloc::{AllocError, Global};
use std::collections::BTreeMap;

/// Whether a cell is full: its owner stands in it.
pub fn is_full(place: &BTreeMap<NodeId, Spot>, owned: &Owned) -> bool
    ensures { result ≡ is_cell owned.now.cell (unwrap_or (get node_cmp place.now owned.now.node) Standing.Nowhere) }
{
    match place.get(&owned.node) {
        Some(Spot::Row { cell, .. }) => is_same_cell(owned.cell, *cell),
        _ => false,
    }
}

impl Doc {
    ghost use Rattle.st_doc.specs.Doc.{document_of};
    ghost use Rattle.st_marks.specs.LiveTree.{live_slots};

    /// The full cells of a node's row, in order, each with its node: what the row shows, so the i-th is the item of
    /// index i.
    pub fn live_slots(&self, alloc: Global, node: NodeId) -> Result<List<Slot>, AllocError>
        ensures { IfOk result (λ slots. slots ≡ live_slots (document_of self.now) node) }
    {
        let mut slots = List::new(alloc);
        for owned in cells_of(&self.rows, node) {
            if is_full(&self.place, owned) {
                slots.push(Slot {
                    cell: owned.cell,
                    node: owned.node,
                    full: true,
                })?;
            }
        }
        Ok(slots)
    }
}
