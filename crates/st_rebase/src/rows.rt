//! The rows of a change over what is left of a step.
ghost use Rattle.std.specs.Prelude.{◌≡◌, ◌<◌, ◌^◌, ◌∷◌, ◌↔◌, [], length, min, true, IfOk, List as Seq, Some};
ghost use Rattle.std.specs.BTreeSet.{contains};
ghost use Rattle.st_ids.specs.Listing.{item_of};
ghost use Rattle.st_ids.specs.Order.{node_cmp};
ghost use Rattle.st_ids.specs.declared.names.NodeId.{NodeId as Node};
ghost use Rattle.st_kind.specs.Named.{Nodes};
ghost use Rattle.st_marks.specs.declared.marks.RowMarks.{RowMarks as Row};
ghost use Rattle.st_marks.specs.declared.places.Slot.{Slot};
ghost use Rattle.st_marks.specs.Listings.{cells_made};
ghost use Rattle.st_marks.specs.Row.{RowPart, embed_row, merge, spread};
ghost use Rattle.st_rows.specs.Changes.{IsRowChange, Keeps, may_list};
ghost use Rattle.st_rows.specs.Rows.{IsRowStep};
ghost use Rattle.st_moves.specs.Index.{IsIndex};
ghost use Rattle.st_rebase.specs.inside.Room.{AreRowsOver, IsRowOver};

use crate::row_rest::rest_marks;
use st_ids::{Copied, List, NodeId};
use st_marks::{Mark, RowMarks, before};
use st_moves::{index_rows, row_in};
use st_rows::rebase_agreed;
use std::alloc::{AllocError, Global};
use std::collections::{BTreeMap, BTreeSet};

/// More cells than this aren't counted.
const MOST: u64 = 4_294_967_296;

// How many cells a mark makes.
fn made_one(mark: &Mark) -> u64
    ensures { result ≡ length (cells_made (spread (mark.now ∷ []))) }
{
    match mark {
        Mark::Skip(_) => 0,
        Mark::Make { .. } => 1,
        _ => 0,
    }
}

// How many cells the marks make, and 2^32 where there are more.
fn made(marks: &List<Mark>) -> u64
    ensures { result ≡ min (length (cells_made (spread marks.now))) (2 ^ 32) }
{
    let mut count: u64 = 0;
    for mark in marks.as_slice() {
        count = MOST.min(count.saturating_add(made_one(mark)));
    }
    count
}

/// Whether what a change's row lists after a step's is fewer than 2^32 cells.
pub fn has_room(change: &List<Mark>, step: &List<Mark>) -> bool
    ensures { (result ≡ true) ↔ (may_list (spread change.now) (spread step.now) < 2 ^ 32) }
{
    made(change) + made(step) + before(step) < MOST
}

// A row's marks over what is left of the step's, where there is room; as they are where there is none.
fn marks_over(
    alloc: Global,
    marks: &List<Mark>,
    rest: &List<Mark>,
) -> Result<List<Mark>, AllocError>
    ensures { (p : RowPart) (m : Nodes) (c d : Seq Slot) → may_list (spread marks.now) (spread rest.now) < 2 ^ 32
        → IsRowChange p c marks.now → (s : IsRowStep m c d rest.now) → Keeps p c d s.grows
        → IfOk result (λ over. over ≡ merge (embed_row p d)) }
{
    if has_room(marks, rest) {
        rebase_agreed(alloc, marks, rest)
    } else {
        marks.copy(alloc)
    }
}

// A row's marks over the step's row.
fn marks_over_step(
    alloc: Global,
    marks: &List<Mark>,
    step: &List<Mark>,
    named: &BTreeSet<NodeId>,
) -> Result<List<Mark>, AllocError>
    ensures { (n : Node) → IfOk result (λ over. IsRowOver (contains node_cmp named.now) (Some (record { node = n; marks = step.now })) (record { node = n; marks = marks.now }) (record { node = n; marks = over })) }
{
    let rest = rest_marks(alloc, named, step.as_slice())?;
    marks_over(alloc, marks, &rest)
}

// A row over the step's row.
fn row_over_step(
    alloc: Global,
    row: &RowMarks,
    step: &RowMarks,
    named: &BTreeSet<NodeId>,
) -> Result<RowMarks, AllocError>
    ensures node { IfOk result (λ t. t.node ≡ row.now.node) }
    ensures over { IfOk result (IsRowOver (contains node_cmp named.now) (Some step.now) row.now) }
{
    let marks = marks_over_step(alloc, &row.marks, &step.marks, named)?;
    Ok(RowMarks {
        node: row.node,
        marks,
    })
}

/// A row of a change over what is left of the step's row, where the nodes of `named` stand already as the step puts them; as it
/// is where the step doesn't list the row.
pub fn rebase_row(
    alloc: Global,
    row: &RowMarks,
    step: &List<RowMarks>,
    index: &BTreeMap<NodeId, usize>,
    named: &BTreeSet<NodeId>,
) -> Result<RowMarks, AllocError>
    requires { IsIndex node_cmp (λ (r : Row). r.node) step.now index.now }
    ensures node { IfOk result (λ t. t.node ≡ row.now.node) }
    ensures over { IfOk result (IsRowOver (contains node_cmp named.now) (item_of node_cmp (λ (s : Row). s.node) step.now row.now.node) row.now) }
{
    match row_in(step, index, row.node) {
        None => row.copy(alloc),
        Some(step) => row_over_step(alloc, row, step, named),
    }
}

// The rows of a change, each over the step's row of its node.
fn rows_over(
    alloc: Global,
    rows: &[RowMarks],
    step: &List<RowMarks>,
    index: &BTreeMap<NodeId, usize>,
    named: &BTreeSet<NodeId>,
) -> Result<List<RowMarks>, AllocError>
    requires { IsIndex node_cmp (λ (r : Row). r.node) step.now index.now }
    ensures { IfOk result (AreRowsOver (contains node_cmp named.now) step.now rows.now) }
{
    let mut over = List::new(alloc);
    for row in rows {
        over.push(rebase_row(alloc, row, step, index, named)?)?;
    }
    Ok(over)
}

/// The rows of a change over what is left of a step's rows, where the nodes of `named` stand already as the step puts them.
pub fn rebase_rows(
    alloc: Global,
    rows: &List<RowMarks>,
    step: &List<RowMarks>,
    named: &BTreeSet<NodeId>,
) -> Result<List<RowMarks>, AllocError>
    ensures { IfOk result (AreRowsOver (contains node_cmp named.now) step.now rows.now) }
{
    let index = index_rows(alloc, step.as_slice())?;
    rows_over(alloc, rows.as_slice(), step, &index, named)
}
