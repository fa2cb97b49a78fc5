//! A row of a step after a change, in one walk.
ghost use Rattle.std.specs.Prelude.{Bool, ◌≡◌, ◌<◌, ◌^◌, ◌∷◌, [], ◌&&◌, ◌||◌, not, None, map, if◌then◌else◌, IfOk};
ghost use Rattle.std.specs.BTreeMap.{get};
ghost use Rattle.std.specs.BTreeSet.{contains};
ghost use Rattle.st_ids.specs.Order.{node_cmp};
ghost use Rattle.st_marks.specs.Row.{spread};
ghost use Rattle.st_rows.specs.Changes.{full_after as full_by, may_list};
ghost use Rattle.st_rows.specs.Merged.{IsMerged};
ghost use Rattle.st_rows.specs.Pieces.{IsSingle};
ghost use Rattle.st_rows.specs.Reading.{cell_of};
ghost use Rattle.st_rows.specs.Walks.{First, Then};
ghost use Rattle.st_reading.specs.Bridge.{crossed_cell, crossed_piece, crossed_row, full_beside, full_beyond, stepped as step_mark, target_by, turned as turned_cell};
ghost use Rattle.st_read_laws.specs.Reading.{read};

use crate::reading::Reading;
use st_ids::{CellId, List, NodeId, is_same_cell};
use st_marks::{How, Mark, To};
use st_rows::{Piece, Table, lay_alike};
use std::alloc::{AllocError, Global};
use std::collections::{BTreeMap, BTreeSet};

// Whether a cell is full after a node was put, if it was put.
fn full_after(
    puts: &BTreeMap<NodeId, To>,
    put: bool,
    cell: CellId,
    node: NodeId,
    full: bool,
) -> bool
    ensures { result ≡ full_by (if put then get node_cmp puts.now node else None) cell full }
{
    if !put {
        return full;
    }
    match puts.get(&node) {
        None => full,
        Some(To::Cell(other)) => is_same_cell(*other, cell),
        Some(_) => false,
    }
}

// A cell by whether it is full before and after.
fn turned<R: Reading>(reading: &R, cell: CellId, node: NodeId, before: bool, after: bool) -> Mark
    ensures { spread (result ∷ []) ≡ read R.listed (turned_cell cell node before after) ∷ [] }
{
    if before {
        Mark::Touch {
            cell,
            node,
            how: if after { How::Stay } else { How::Leave },
        }
    } else if after {
        Mark::Fill { cell, node }
    } else {
        reading.empty(cell)
    }
}

// A mark, read so.
fn kept<R: Reading>(reading: &R, mark: Mark) -> Mark
    requires { IsSingle mark }
    ensures { spread (result ∷ []) ≡ read R.listed (cell_of mark) ∷ [] }
{
    match mark {
        Mark::Gap(cell) => reading.empty(cell),
        _ => mark,
    }
}

// A cell that both find, by whether it is full before and after.
fn stepped<R: Reading>(reading: &R, x: Mark, y: Mark, before: bool, after: bool) -> Mark
    requires { IsSingle y }
    ensures { spread (result ∷ []) ≡ read R.listed (step_mark (cell_of x) (cell_of y) before after) ∷ [] }
{
    match x {
        Mark::Touch { cell, node, .. } => turned(reading, cell, node, before, after),
        Mark::Fill { cell, node } => turned(reading, cell, node, before, after),
        _ => match y {
            Mark::Touch { cell, node, .. } => turned(reading, cell, node, before, after),
            Mark::Fill { cell, node } => turned(reading, cell, node, before, after),
            _ => kept(reading, y),
        },
    }
}

/// A step beside a change that was and is void or not: where the change puts nodes, and its new nodes where its row is that of a
/// new node.
#[derive(Drop)]
struct Across<'a, R: Reading> {
    reading: &'a R,
    puts: &'a BTreeMap<NodeId, To>,
    placed: &'a BTreeSet<NodeId>,
    was: bool,
    is: bool,
}

impl<'a, R: Reading> Across<'a, R> {
    // Whether a cell is full after the change's puts.
    fn full_now(&self, void: bool, cell: CellId, node: NodeId, full: bool) -> bool
        ensures { result ≡ full_by (target_by void (contains node_cmp self.now.placed.now) (get node_cmp self.now.puts.now) node) cell full }
    {
        let put = !void || self.placed.contains(&node);
        full_after(self.puts, put, cell, node, full)
    }

    fn before(&self, x: Mark, y: Mark) -> bool
        ensures { result ≡ full_beside (target_by self.now.was (contains node_cmp self.now.placed.now) (get node_cmp self.now.puts.now)) (cell_of x) (cell_of y) }
    {
        match y {
            Mark::Touch { cell, node, .. } => self.full_now(self.was, cell, node, true),
            Mark::Fill { cell, node } => self.full_now(self.was, cell, node, false),
            _ => match x {
                Mark::Touch { cell, node, .. } => self.full_now(self.was, cell, node, true),
                Mark::Fill { cell, node } => self.full_now(self.was, cell, node, false),
                _ => true,
            },
        }
    }

    fn after(&self, x: Mark, y: Mark) -> bool
        ensures { result ≡ full_beyond (target_by self.now.is (contains node_cmp self.now.placed.now) (get node_cmp self.now.puts.now)) (cell_of x) (cell_of y) }
    {
        match y {
            Mark::Touch {
                cell,
                node,
                how: How::Leave,
            } => self.full_now(self.is, cell, node, false),
            Mark::Touch { cell, node, .. } => self.full_now(self.is, cell, node, true),
            Mark::Fill { cell, node } => self.full_now(self.is, cell, node, true),
            _ => match x {
                Mark::Touch { cell, node, .. } => self.full_now(self.is, cell, node, true),
                Mark::Fill { cell, node } => self.full_now(self.is, cell, node, false),
                _ => true,
            },
        }
    }

    fn both(&self, x: Mark, y: Mark) -> Mark
        requires { IsSingle y }
        ensures { spread (result ∷ []) ≡ read R.listed (crossed_cell self.now.was self.now.is (contains node_cmp self.now.placed.now) (get node_cmp self.now.puts.now) (cell_of x) (cell_of y)) ∷ [] }
    {
        if self.was && self.is {
            kept(self.reading, y)
        } else {
            stepped(self.reading, x, y, self.before(x, y), self.after(x, y))
        }
    }

    // Whether a cell that the change makes is full.
    fn made(&self, void: bool, node: NodeId, full: bool) -> bool
        ensures { result ≡ (if void then full && contains node_cmp self.now.placed.now node else full) }
    {
        if void {
            full && self.placed.contains(&node)
        } else {
            full
        }
    }

    fn first(&self, x: Mark) -> Mark
        requires { IsSingle x }
        ensures { spread (result ∷ []) ≡ read R.listed (crossed_piece self.now.was self.now.is (contains node_cmp self.now.placed.now) (get node_cmp self.now.puts.now) (First (cell_of x))) ∷ [] }
    {
        match x {
            Mark::Make { cell, node, full } => turned(
                self.reading,
                cell,
                node,
                self.made(self.was, node, full),
                self.made(self.is, node, full),
            ),
            _ => kept(self.reading, x),
        }
    }

    fn then(&self, y: Mark) -> Mark
        requires { IsSingle y }
        ensures { spread (result ∷ []) ≡ read R.listed (crossed_piece self.now.was self.now.is (contains node_cmp self.now.placed.now) (get node_cmp self.now.puts.now) (Then (cell_of y))) ∷ [] }
    {
        match y {
            Mark::Make { cell, node, full } => Mark::Make {
                cell,
                node,
                full: self.full_now(self.is, cell, node, full),
            },
            _ => kept(self.reading, y),
        }
    }
}

impl<'a, R: Reading> Table for Across<'a, R> {
    ghost use Rattle.std.specs.BTreeMap.{get};
    ghost use Rattle.std.specs.BTreeSet.{contains};
    ghost use Rattle.st_ids.specs.Order.{node_cmp};
    ghost use Rattle.st_reading.specs.Bridge.{crossed_piece};
    ghost use Rattle.st_read_laws.specs.Reading.{read};

    ghost cell = { λ t. λ p. read R.listed (crossed_piece t.was t.is (contains node_cmp t.placed.now) (get node_cmp t.puts.now) p) };

    #[inline(always)]
    fn mark(&self, piece: Piece) -> Mark {
        match piece {
            Piece::Counted(k) => Mark::Skip(k),
            Piece::Both(x, y) => self.both(x, y),
            Piece::First(x) => self.first(x),
            Piece::Then(y) => self.then(y),
        }
    }
}

/// A row of a step after a change that stands beside it, in one walk. The change was void before the step or not, and is void after
/// it or not; `placed` are its new nodes, where the row is that of a new node, and else none.
pub fn cross_row<R: Reading>(
    alloc: Global,
    reading: &R,
    puts: &BTreeMap<NodeId, To>,
    placed: &BTreeSet<NodeId>,
    was: bool,
    is: bool,
    change: &[Mark],
    step: &[Mark],
) -> Result<List<Mark>, AllocError>
    requires { may_list (spread change.now) (spread step.now) < 2 ^ 32 }
    ensures { IfOk result (λ marks. IsMerged marks × (spread marks ≡ crossed_row R.listed was is (contains node_cmp placed.now) (get node_cmp puts.now) (spread change.now) (spread step.now))) }
{
    lay_alike(
        alloc,
        &Across {
            reading,
            puts,
            placed,
            was,
            is,
        },
        change,
        step,
    )
}
