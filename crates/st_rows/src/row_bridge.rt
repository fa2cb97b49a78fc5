//! A step of a row after a change that stands beside it.
ghost use Rattle.std.specs.Prelude.{◌≡◌, ◌^◌, ◌<◌, ◌∷◌, [], false, List as Seq};
ghost use Rattle.std.specs.BTreeMap.{get};
ghost use Rattle.st_ids.specs.Listing.{IsRising};
ghost use Rattle.st_ids.specs.Order.{node_cmp};
ghost use Rattle.st_kind.specs.Named.{Nodes, named_beside};
ghost use Rattle.st_kind.specs.Refused.{IfMemory, IsApartWhere};
ghost use Rattle.st_marks.specs.declared.places.Slot.{Slot};
ghost use Rattle.st_marks.specs.Embedding.{is_among as among};
ghost use Rattle.st_marks.specs.Row.{RowPart, spread};
ghost use Rattle.st_marks.specs.Listings.{cells_before};
ghost use Rattle.st_rows.specs.Views.{DifferAt};
ghost use Rattle.st_rows.specs.Cells.{turned_mark as turned_cell, stepped_mark as stepped_cell, bridged_mark as bridged_cell, bridged_piece, full_first as full_by_change, full_then as full_by_both, made_full as full_if_made, gained_full as full_if_gained};
ghost use Rattle.st_rows.specs.Changes.{IsRowChange, Keeps, StandsOver, may_list, placed_by, row_after};
ghost use Rattle.st_rows.specs.Reading.{cell_of};
ghost use Rattle.st_rows.specs.Pieces.{IsSingle};
ghost use Rattle.st_rows.specs.Rows.{IsRowStep, NamesMoved};
ghost use Rattle.st_rows.specs.Walks.{First, Then};

use crate::cell_view::{after, before};
use crate::merge_walk::{Table, lay_beside};
use crate::node_set::is_among;
use crate::pieces::Piece;
use crate::row_rebase::{both, gained_cell};
use crate::touches::touches;
use st_ids::{CellId, List, NodeId, Or};
use st_kind::Apart;
use st_marks::{How, Mark};
use std::alloc::Global;
use std::collections::BTreeMap;

/// What a step says of a cell whose owner it names, by whether it is full before and whether it is full after.
fn turned_mark(cell: CellId, node: NodeId, full_before: bool, full_after: bool) -> Mark
    ensures { spread (result ∷ []) ≡ turned_cell cell node full_before full_after ∷ [] }
{
    if full_before {
        Mark::Touch {
            cell,
            node,
            how: if full_after { How::Stay } else { How::Leave },
        }
    } else if full_after {
        Mark::Fill { cell, node }
    } else {
        Mark::Gap(cell)
    }
}

/// What the step says of a cell that both find, by whether it is full before and whether it is full after.
fn stepped_mark(x: Mark, y: Mark, full_before: bool, full_after: bool) -> Mark
    requires { IsSingle y }
    ensures { spread (result ∷ []) ≡ stepped_cell (cell_of x) (cell_of y) full_before full_after ∷ [] }
{
    match x {
        Mark::Touch { cell, node, .. } => turned_mark(cell, node, full_before, full_after),
        Mark::Fill { cell, node } => turned_mark(cell, node, full_before, full_after),
        Mark::Gap(_) => match y {
            Mark::Fill { cell, node } => turned_mark(cell, node, full_before, full_after),
            _ => y,
        },
        _ => y,
    }
}

/// A step beside a change that was and is void or not: how the change touches nodes, whether its row is that of a new
/// node, and its new nodes.
#[derive(Drop)]
struct Across<'a> {
    seen: &'a BTreeMap<NodeId, How>,
    in_new: bool,
    new: &'a List<NodeId>,
    was_void: bool,
    is_void: bool,
    ghost rising: { IsRising node_cmp (λ n. n) new.now },
}

impl<'a> Across<'a> {
    /// Whether a cell that both find is full before.
    fn full_first(&self, x: Mark) -> bool
        ensures { result ≡ full_by_change self.now.was_void (cell_of x) }
    {
        if self.was_void {
            before(x).full
        } else {
            after(x).full
        }
    }

    /// Whether a cell that both find is full after.
    fn full_then(&self, x: Mark, y: Mark) -> bool
        requires { IsSingle x }
        ensures { result ≡ full_by_both self.now.is_void (get node_cmp self.now.seen.now) (cell_of x) (cell_of y) }
    {
        if self.is_void {
            after(y).full
        } else {
            after(both(self.seen, x, y)).full
        }
    }

    /// What the step says of a cell that both find.
    fn found_mark(&self, x: Mark, y: Mark) -> Mark
        requires first { IsSingle x }
        requires then { IsSingle y }
        ensures { spread (result ∷ []) ≡ bridged_cell self.now.was_void self.now.is_void (get node_cmp self.now.seen.now) (cell_of x) (cell_of y) ∷ [] }
    {
        if self.was_void && self.is_void {
            y
        } else {
            stepped_mark(x, y, self.full_first(x), self.full_then(x, y))
        }
    }

    /// Whether a cell that the change makes is full.
    fn made_full(&self, node: NodeId, full: bool, void: bool) -> bool
        ensures { result ≡ full_if_made (placed_by self.now.in_new self.now.new.now) node full void }
    {
        if void {
            full && self.in_new && is_among(self.new, node)
        } else {
            full
        }
    }

    /// Whether a cell that the step makes is full.
    fn gained_full(&self, cell: CellId, node: NodeId, full: bool) -> bool
        ensures { result ≡ full_if_gained (get node_cmp self.now.seen.now) cell node full self.now.is_void }
    {
        if self.is_void {
            full
        } else {
            after(gained_cell(self.seen, cell, node, full)).full
        }
    }

    /// What the step says of a cell that the change makes.
    fn first(&self, x: Mark) -> Mark
        requires { IsSingle x }
        ensures { spread (result ∷ []) ≡ bridged_piece self.now.was_void self.now.is_void (placed_by self.now.in_new self.now.new.now) (get node_cmp self.now.seen.now) (First (cell_of x)) ∷ [] }
    {
        match x {
            Mark::Make { cell, node, full } => turned_mark(
                cell,
                node,
                self.made_full(node, full, self.was_void),
                self.made_full(node, full, self.is_void),
            ),
            _ => x,
        }
    }

    /// What the step says of a cell that it makes.
    fn then(&self, y: Mark) -> Mark
        requires { IsSingle y }
        ensures { spread (result ∷ []) ≡ bridged_piece self.now.was_void self.now.is_void (placed_by self.now.in_new self.now.new.now) (get node_cmp self.now.seen.now) (Then (cell_of y)) ∷ [] }
    {
        match y {
            Mark::Make { cell, node, full } => Mark::Make {
                cell,
                node,
                full: self.gained_full(cell, node, full),
            },
            _ => y,
        }
    }
}

impl<'a> Table for Across<'a> {
    ghost use Rattle.std.specs.BTreeMap.{get};
    ghost use Rattle.st_ids.specs.Order.{node_cmp};
    ghost use Rattle.st_rows.specs.Cells.{bridged_piece};
    ghost use Rattle.st_rows.specs.Changes.{placed_by};

    ghost cell = { λ t. bridged_piece t.was_void t.is_void (placed_by t.in_new t.new.now) (get node_cmp t.seen.now) };

    #[inline(always)]
    fn mark(&self, piece: Piece) -> Mark {
        match piece {
            Piece::Counted(k) => Mark::Skip(k),
            Piece::Both(x, y) => self.found_mark(x, y),
            Piece::First(x) => self.first(x),
            Piece::Then(y) => self.then(y),
        }
    }
}

/// The step where it stands after a change, which was void before the step or not, and is void after it or not. `in_new`
/// and `new` as in `void_effect`.
pub fn bridge(
    alloc: Global,
    step: &List<Mark>,
    change: &List<Mark>,
    in_new: bool,
    new: &List<NodeId>,
    was_void: bool,
    is_void: bool,
) -> Result<List<Mark>, Or<Apart>>
    requires rising { IsRising node_cmp (λ n. n) new.now }
    requires room { may_list (spread change.now) (spread step.now) < 2 ^ 32 }
    ensures bridged { (p : RowPart) (m : Nodes) (c d : Seq Slot) → IsRowChange p c change.now → (s : IsRowStep m c d step.now) → NamesMoved m s.grows
        → StandsOver p (among new.now) c d s.grows → (is_void ≡ false → Keeps p c d s.grows)
        → IfMemory result (λ t. (r : IsRowStep (named_beside m p.mentioned (among new.now) was_void is_void)
        (row_after (placed_by in_new new.now) p was_void c) (row_after (placed_by in_new new.now) p is_void d) t)
        × NamesMoved (named_beside m p.mentioned (among new.now) was_void is_void) r.grows) }
    ensures apart { IsApartWhere result (DifferAt (cells_before (spread change.now)) (cells_before (spread step.now))) }
{
    let seen = match touches(alloc, change.as_slice()) {
        Ok(seen) => seen,
        Err(_) => return Err(Or::NoMemory),
    };
    lay_beside(
        alloc,
        &Across {
            seen: &seen,
            in_new,
            new,
            was_void,
            is_void,
        },
        change.as_slice(),
        step.as_slice(),
    )
}
