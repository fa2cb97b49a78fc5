//! A row of a change, carried to where a step puts the nodes that are mentioned after it.
ghost use Rattle.std.specs.Prelude.{◌≡◌, ◌^◌, ◌<◌, ◌∷◌, [], IfOk, if◌then◌else◌};
ghost use Rattle.std.specs.BTreeMap.{get};
ghost use Rattle.std.specs.BTreeSet.{contains};
ghost use Rattle.st_ids.specs.Order.{node_cmp};
ghost use Rattle.st_marks.specs.declared.intents.To.{To as Aim};
ghost use Rattle.st_marks.specs.Row.{Counted, how as how_at, spread};
ghost use Rattle.st_marks.specs.Listings.{cells_before};
ghost use Rattle.st_rows.specs.Changes.{may_list};
ghost use Rattle.st_rows.specs.Differences.{IsApart, first_difference};
ghost use Rattle.st_rows.specs.Merged.{IsMerged};
ghost use Rattle.st_rows.specs.Reading.{cell_of};
ghost use Rattle.st_rows.specs.Pieces.{IsSingle};
ghost use Rattle.st_rows.specs.Walks.{Then};
ghost use Rattle.st_moves.specs.Carried.{carried_found, carried_piece, carry_row as carried_row, empty_mark, full_mark, read_again};

use st_ids::{CellId, List, NodeId, Or, is_same_cell};
use st_kind::Apart;
use st_marks::{How, Mark, To};
use st_rows::{Piece, Table, lay_beside};
use std::alloc::Global;
use std::collections::{BTreeMap, BTreeSet};

/// What becomes of a node in a cell, by where it is put.
fn how(puts: &BTreeMap<NodeId, To>, node: NodeId, cell: CellId) -> How
    ensures { result ≡ how_at (get node_cmp puts.now node) (Aim.Cell cell) }
{
    match puts.get(&node) {
        None => How::Stay,
        Some(To::Cell(other)) => {
            if is_same_cell(*other, cell) {
                How::Here
            } else {
                How::Leave
            }
        }
        Some(_) => How::Leave,
    }
}

/// What is said of a full cell.
fn full(puts: &BTreeMap<NodeId, To>, named: &BTreeSet<NodeId>, cell: CellId, node: NodeId) -> Mark
    ensures { spread (result ∷ []) ≡ full_mark (get node_cmp puts.now) (contains node_cmp named.now) cell node ∷ [] }
{
    if named.contains(&node) {
        let how = how(puts, node, cell);
        Mark::Touch { cell, node, how }
    } else {
        Mark::Skip(1)
    }
}

/// What is said of an empty cell.
fn empty(puts: &BTreeMap<NodeId, To>, cell: CellId, node: NodeId) -> Mark
    ensures { spread (result ∷ []) ≡ empty_mark (get node_cmp puts.now) cell node ∷ [] }
{
    match how(puts, node, cell) {
        How::Here => Mark::Fill { cell, node },
        _ => Mark::Gap(cell),
    }
}

/// What is said of a cell that the step leaves as it is.
fn again(puts: &BTreeMap<NodeId, To>, named: &BTreeSet<NodeId>, x: Mark) -> Mark
    requires { IsSingle x }
    ensures { spread (result ∷ []) ≡ read_again (get node_cmp puts.now) (contains node_cmp named.now) (cell_of x) ∷ [] }
{
    match x {
        Mark::Touch { cell, node, .. } => full(puts, named, cell, node),
        _ => x,
    }
}

/// What is said of a cell that the step empties.
fn left(puts: &BTreeMap<NodeId, To>, named: &BTreeSet<NodeId>, cell: CellId, node: NodeId) -> Mark
    ensures { spread (result ∷ []) ≡ (if contains node_cmp named.now node then empty_mark (get node_cmp puts.now) cell node else Counted) ∷ [] }
{
    if named.contains(&node) {
        empty(puts, cell, node)
    } else {
        Mark::Skip(1)
    }
}

/// What is said of a cell that both find.
fn both(puts: &BTreeMap<NodeId, To>, named: &BTreeSet<NodeId>, x: Mark, y: Mark) -> Mark
    requires { IsSingle x }
    ensures { spread (result ∷ []) ≡ carried_found (get node_cmp puts.now) (contains node_cmp named.now) (cell_of x) (cell_of y) ∷ [] }
{
    match y {
        Mark::Touch {
            cell,
            node,
            how: How::Leave,
        } => left(puts, named, cell, node),
        Mark::Touch { cell, node, .. } => full(puts, named, cell, node),
        Mark::Fill { cell, node } => {
            if named.contains(&node) {
                full(puts, named, cell, node)
            } else {
                x
            }
        }
        Mark::Make { .. } => x,
        _ => again(puts, named, x),
    }
}

/// What is said of a cell that the step makes.
fn alone(puts: &BTreeMap<NodeId, To>, named: &BTreeSet<NodeId>, y: Mark) -> Mark
    requires { IsSingle y }
    ensures { spread (result ∷ []) ≡ carried_piece (get node_cmp puts.now) (contains node_cmp named.now) (Then (cell_of y)) ∷ [] }
{
    match y {
        Mark::Make {
            cell,
            node,
            full: was,
        } => {
            if was && named.contains(&node) {
                full(puts, named, cell, node)
            } else {
                empty(puts, cell, node)
            }
        }
        _ => y,
    }
}

/// A change beside a step: where the change puts nodes, and which it mentions after the step.
#[derive(Drop)]
struct Carried<'a> {
    puts: &'a BTreeMap<NodeId, To>,
    named: &'a BTreeSet<NodeId>,
}

impl<'a> Table for Carried<'a> {
    ghost use Rattle.std.specs.BTreeMap.{get};
    ghost use Rattle.std.specs.BTreeSet.{contains};
    ghost use Rattle.st_ids.specs.Order.{node_cmp};
    ghost use Rattle.st_moves.specs.Carried.{carried_piece};

    ghost cell = { λ t. carried_piece (get node_cmp t.puts.now) (contains node_cmp t.named.now) };

    #[inline(always)]
    fn mark(&self, piece: Piece) -> Mark {
        match piece {
            Piece::Counted(k) => Mark::Skip(k),
            Piece::Both(x, y) => both(self.puts, self.named, x, y),
            Piece::First(x) => x,
            Piece::Then(y) => alone(self.puts, self.named, y),
        }
    }
}

/// The row of a change in the document between, from that of the change and that of the step. It is refused exactly where the
/// two don't find the same.
pub fn carry_row(
    alloc: Global,
    puts: &BTreeMap<NodeId, To>,
    named: &BTreeSet<NodeId>,
    change: &[Mark],
    step: &[Mark],
) -> Result<List<Mark>, Or<Apart>>
    requires { may_list (spread change.now) (spread step.now) < 2 ^ 32 }
    ensures merged { IfOk result (λ marks. IsMerged marks) }
    ensures cells { IfOk result (λ marks. spread marks ≡ carried_row (get node_cmp puts.now) (contains node_cmp named.now) (spread change.now) (spread step.now)) }
    ensures apart { IsApart (first_difference (cells_before (spread change.now)) (cells_before (spread step.now))) result }
{
    lay_beside(alloc, &Carried { puts, named }, change, step)
}
