//! What becomes of a cell of a row.
ghost use Rattle.std.specs.Prelude.{◌≡◌};
ghost use Rattle.std.specs.BTreeMap.{get};
ghost use Rattle.std.specs.BTreeSet.{contains};
ghost use Rattle.std.specs.List.{list_any};
ghost use Rattle.st_ids.specs.Order.{cell_cmp, node_cmp};
ghost use Rattle.st_ids.specs.declared.names.CellId.{CellId as Cell};
ghost use Rattle.st_marks.specs.Row.{step_cell};
ghost use Rattle.st_doc.specs.Doc.{document_of};
ghost use Rattle.st_embed.specs.inside.Marks.{mark_of};
ghost use Rattle.st_step.specs.inside.Marks.{differs, step_mark};

use st_doc::Doc;
use st_embed::is_full;
use st_ids::{CellId, NodeId};
use st_marks::{How, Mark, Owned};
use std::collections::{BTreeMap, BTreeSet};

// The mark of a cell that both documents have, unless it is counted.
fn old_mark(mentioned: &BTreeSet<NodeId>, owned: Owned, before: bool, after: bool) -> Option<Mark>
    ensures { result ≡ mark_of (step_cell (contains node_cmp mentioned.now) owned.cell owned.node before after) }
{
    let Owned { cell, node } = owned;
    if before && after {
        return if mentioned.contains(&node) {
            let how = How::Stay;
            Some(Mark::Touch { cell, node, how })
        } else {
            None
        };
    }
    if before {
        let how = How::Leave;
        return Some(Mark::Touch { cell, node, how });
    }
    Some(if after {
        Mark::Fill { cell, node }
    } else {
        Mark::Gap(cell)
    })
}

/// The mark of a cell of the later document, unless it is counted. `cells` are those of the earlier one.
pub fn step_mark(
    cells: &BTreeMap<CellId, NodeId>,
    doc: &Doc,
    later: &Doc,
    mentioned: &BTreeSet<NodeId>,
    owned: Owned,
) -> Option<Mark>
    requires { (c : Cell) → get cell_cmp cells.now c ≡ (document_of doc.now).row_of c }
    ensures { result ≡ mark_of (step_mark (contains node_cmp mentioned.now)
        (document_of doc.now) (document_of later.now) owned) }
{
    let full = is_full(later, owned);
    if cells.contains_key(&owned.cell) {
        return old_mark(mentioned, owned, is_full(doc, owned), full);
    }
    let Owned { cell, node } = owned;
    Some(Mark::Make { cell, node, full })
}

// Whether a cell of the later document is new, or is full in one of both alone.
fn differs(cells: &BTreeMap<CellId, NodeId>, doc: &Doc, later: &Doc, owned: Owned) -> bool
    requires { (c : Cell) → get cell_cmp cells.now c ≡ (document_of doc.now).row_of c }
    ensures { result ≡ differs (document_of doc.now) (document_of later.now) owned }
{
    !(cells.contains_key(&owned.cell) && is_full(doc, owned) == is_full(later, owned))
}

/// Whether a cell of a node's row is new, or is full in one of both documents alone.
pub fn row_differs(cells: &BTreeMap<CellId, NodeId>, doc: &Doc, later: &Doc, node: NodeId) -> bool
    requires { (c : Cell) → get cell_cmp cells.now c ≡ (document_of doc.now).row_of c }
    ensures { result ≡ list_any (differs (document_of doc.now) (document_of later.now))
        ((document_of later.now).rows node) }
{
    for owned in later.cells(node) {
        if differs(cells, doc, later, *owned) {
            return true;
        }
    }
    false
}
