//! A change of a row after a step that stands beside it.
ghost use Rattle.std.specs.Prelude.{◌≡◌, ◌^◌, ◌<◌, ◌∷◌, [], IfOk, List as Seq};
ghost use Rattle.std.specs.BTreeMap.{get};
ghost use Rattle.st_ids.specs.Order.{node_cmp};
ghost use Rattle.st_kind.specs.Named.{Nodes};
ghost use Rattle.st_kind.specs.Refused.{IfMemory, IsApartWhere};
ghost use Rattle.st_marks.specs.declared.places.Slot.{Slot};
ghost use Rattle.st_marks.specs.Row.{RowPart, spread, merge, embed_row};
ghost use Rattle.st_marks.specs.Listings.{cells_before};
ghost use Rattle.st_rows.specs.Views.{DifferAt};
ghost use Rattle.st_rows.specs.Cells.{rebased_mark as rebased_cell, rebased_piece, gained_cell, emptied_mark as emptied_cell, filled_mark as filled_cell, how_there as there};
ghost use Rattle.st_rows.specs.Changes.{IsRowChange, Keeps, may_list};
ghost use Rattle.st_rows.specs.Reading.{cell_of};
ghost use Rattle.st_rows.specs.Pieces.{IsSingle};
ghost use Rattle.st_rows.specs.Rows.{IsRowStep};
ghost use Rattle.st_rows.specs.Walks.{Then};

use crate::merge_walk::{Table, lay_beside};
use crate::pieces::Piece;
use crate::touches::touches;
use st_ids::{CellId, Copied, List, NodeId, Or};
use st_kind::Apart;
use st_marks::{How, Mark};
use std::alloc::{AllocError, Global};
use std::collections::BTreeMap;

/// How a node is touched where the step puts it.
fn how_there(x: Mark, how: How) -> How
    ensures { result ≡ there (cell_of x) how }
{
    match x {
        Mark::Fill { .. } => How::Here,
        _ => match how {
            How::Stay => How::Stay,
            _ => How::Leave,
        },
    }
}

/// What the change says of a cell that the step fills.
fn filled_mark(seen: &BTreeMap<NodeId, How>, cell: CellId, node: NodeId, x: Mark) -> Mark
    ensures { spread (result ∷ []) ≡ filled_cell cell node (cell_of x) (get node_cmp seen.now node) ∷ [] }
{
    match seen.get(&node).copied() {
        None => Mark::Skip(1),
        Some(how) => Mark::Touch {
            cell,
            node,
            how: how_there(x, how),
        },
    }
}

/// What the change says of a cell that the step empties.
fn emptied_mark(cell: CellId, node: NodeId, x: Mark) -> Mark
    ensures { spread (result ∷ []) ≡ emptied_cell cell node (cell_of x) ∷ [] }
{
    match x {
        Mark::Touch { how: How::Here, .. } => Mark::Fill { cell, node },
        _ => Mark::Gap(cell),
    }
}

/// What the change says of a cell that the step makes.
pub fn gained_cell(seen: &BTreeMap<NodeId, How>, cell: CellId, node: NodeId, full: bool) -> Mark
    ensures { spread (result ∷ []) ≡ gained_cell (get node_cmp seen.now) cell node full ∷ [] }
{
    if full {
        filled_mark(seen, cell, node, Mark::Gap(cell))
    } else {
        Mark::Gap(cell)
    }
}

/// What the change says of a cell that both find.
pub fn both(seen: &BTreeMap<NodeId, How>, x: Mark, y: Mark) -> Mark
    requires { IsSingle x }
    ensures { spread (result ∷ []) ≡ rebased_cell (get node_cmp seen.now) (cell_of x) (cell_of y) ∷ [] }
{
    match y {
        Mark::Touch {
            cell,
            node,
            how: How::Leave,
        } => emptied_mark(cell, node, x),
        Mark::Fill { cell, node } => filled_mark(seen, cell, node, x),
        _ => x,
    }
}

/// What the change says of a cell that the step alone lists.
fn beside_none(seen: &BTreeMap<NodeId, How>, y: Mark) -> Mark
    requires { IsSingle y }
    ensures { spread (result ∷ []) ≡ rebased_piece (get node_cmp seen.now) (Then (cell_of y)) ∷ [] }
{
    match y {
        Mark::Make { cell, node, full } => gained_cell(seen, cell, node, full),
        _ => y,
    }
}

/// A change beside a step, with how the change touches nodes.
#[derive(Drop)]
struct Beside<'a> {
    seen: &'a BTreeMap<NodeId, How>,
}

impl<'a> Table for Beside<'a> {
    ghost use Rattle.std.specs.BTreeMap.{get};
    ghost use Rattle.st_ids.specs.Order.{node_cmp};
    ghost use Rattle.st_rows.specs.Cells.{rebased_piece};

    ghost cell = { λ t. rebased_piece (get node_cmp t.seen.now) };

    #[inline(always)]
    fn mark(&self, piece: Piece) -> Mark {
        match piece {
            Piece::Counted(k) => Mark::Skip(k),
            Piece::Both(x, y) => both(self.seen, x, y),
            Piece::First(x) => x,
            Piece::Then(y) => beside_none(self.seen, y),
        }
    }
}

/// The change where it stands after a step.
pub fn rebase(
    alloc: Global,
    change: &List<Mark>,
    step: &List<Mark>,
) -> Result<List<Mark>, Or<Apart>>
    requires { may_list (spread change.now) (spread step.now) < 2 ^ 32 }
    ensures rebased { (p : RowPart) (m : Nodes) (c d : Seq Slot) → IsRowChange p c change.now → (s : IsRowStep m c d step.now) → Keeps p c d s.grows
        → IfMemory result (λ marks. marks ≡ merge (embed_row p d)) }
    ensures apart { IsApartWhere result (DifferAt (cells_before (spread change.now)) (cells_before (spread step.now))) }
{
    let seen = match touches(alloc, change.as_slice()) {
        Ok(seen) => seen,
        Err(_) => return Err(Or::NoMemory),
    };
    lay_beside(
        alloc,
        &Beside { seen: &seen },
        change.as_slice(),
        step.as_slice(),
    )
}

/// The change where it stands after a step, for two that are known to stand over one row: it doesn't test whether they
/// agree, and of two that don't, anything may be answered.
pub fn rebase_agreed(
    alloc: Global,
    change: &List<Mark>,
    step: &List<Mark>,
) -> Result<List<Mark>, AllocError>
    requires { may_list (spread change.now) (spread step.now) < 2 ^ 32 }
    ensures { (p : RowPart) (m : Nodes) (c d : Seq Slot) → IsRowChange p c change.now → (s : IsRowStep m c d step.now) → Keeps p c d s.grows
        → IfOk result (λ marks. marks ≡ merge (embed_row p d)) }
{
    match rebase(alloc, change, step) {
        Ok(marks) => Ok(marks),
        Err(Or::Fault(_)) => change.copy(alloc),
        Err(Or::NoMemory) => Err(AllocError),
    }
}
