//! A row of a change over a step, in one walk.
ghost use Rattle.std.specs.Prelude.{Bool, ◌≡◌, ◌↔◌, ◌<◌, ◌^◌, ◌∷◌, [], true, map, if◌then◌else◌, IfOk};
ghost use Rattle.std.specs.BTreeMap.{get};
ghost use Rattle.std.specs.BTreeSet.{contains};
ghost use Rattle.st_ids.specs.Order.{node_cmp};
ghost use Rattle.st_ids.specs.declared.names.NodeId.{NodeId as Node};
ghost use Rattle.st_kind.specs.Named.{Nodes};
ghost use Rattle.st_marks.specs.declared.changes.Change.{Change};
ghost use Rattle.st_marks.specs.declared.intents.Intent.{Intent};
ghost use Rattle.st_marks.specs.declared.intents.To.{To as Aim};
ghost use Rattle.st_marks.specs.declared.steps.Step.{Step};
ghost use Rattle.st_marks.specs.Document.{Document, content};
ghost use Rattle.st_marks.specs.Embedding.{IsEmbedding, IsMentionedByIntent, row_part};
ghost use Rattle.st_marks.specs.Extends.{IsExtendedBy};
ghost use Rattle.st_marks.specs.Intent.{Fits, put_of};
ghost use Rattle.st_marks.specs.Row.{spread, merge, embed_row, step_row, how as how_at};
ghost use Rattle.st_marks.specs.Step.{IsStep};
ghost use Rattle.st_rows.specs.Changes.{may_list};
ghost use Rattle.st_rows.specs.Merged.{IsMerged};
ghost use Rattle.st_rows.specs.Pieces.{IsSingle};
ghost use Rattle.st_rows.specs.Reading.{cell_of};
ghost use Rattle.st_rows.specs.Walks.{Then};
ghost use Rattle.st_reading.specs.Over.{empty_cell, found_cell, full_cell, over_piece, over_row as rebased_row, read_cell};
ghost use Rattle.st_reading.specs.Pieces.{AreAlike};
ghost use Rattle.st_read_laws.specs.Reading.{read};

use crate::reading::Reading;
use st_ids::{CellId, List, NodeId, is_same_cell};
use st_marks::{How, Mark, To};
use st_rows::{Piece, Table, lay_alike};
use std::alloc::{AllocError, Global};
use std::collections::{BTreeMap, BTreeSet};

/// What becomes of a node in a cell, by where it is put.
fn how(puts: &BTreeMap<NodeId, To>, node: NodeId, cell: CellId) -> How
    ensures { result ≡ how_at (get node_cmp puts.now node) (Aim.Cell cell) }
{
    match puts.get(&node) {
        None => How::Stay,
        Some(To::Cell(other)) => {
            if is_same_cell(*other, cell) {
                How::Here
            } else {
                How::Leave
            }
        }
        Some(_) => How::Leave,
    }
}

/// What is said of a full cell.
fn full(puts: &BTreeMap<NodeId, To>, named: &BTreeSet<NodeId>, cell: CellId, node: NodeId) -> Mark
    ensures { spread (result ∷ []) ≡ full_cell (get node_cmp puts.now) (contains node_cmp named.now) cell node ∷ [] }
{
    if named.contains(&node) {
        let how = how(puts, node, cell);
        Mark::Touch { cell, node, how }
    } else {
        Mark::Skip(1)
    }
}

/// What is said of an empty cell.
fn empty<R: Reading>(reading: &R, puts: &BTreeMap<NodeId, To>, cell: CellId, node: NodeId) -> Mark
    ensures { spread (result ∷ []) ≡ empty_cell R.listed (get node_cmp puts.now) cell node ∷ [] }
{
    match how(puts, node, cell) {
        How::Here => Mark::Fill { cell, node },
        _ => reading.empty(cell),
    }
}

/// What is said of a cell that the step leaves as it is.
fn again<R: Reading>(
    reading: &R,
    puts: &BTreeMap<NodeId, To>,
    named: &BTreeSet<NodeId>,
    x: Mark,
) -> Mark
    requires { IsSingle x }
    ensures { spread (result ∷ []) ≡ read_cell R.listed (get node_cmp puts.now) (contains node_cmp named.now) (cell_of x) ∷ [] }
{
    match x {
        Mark::Skip(_) => x,
        Mark::Gap(cell) => reading.empty(cell),
        Mark::Touch { cell, node, .. } => full(puts, named, cell, node),
        Mark::Make { .. } => Mark::Skip(1),
        Mark::Fill { .. } => x,
    }
}

/// What is said of a cell that both find.
fn both<R: Reading>(
    reading: &R,
    puts: &BTreeMap<NodeId, To>,
    named: &BTreeSet<NodeId>,
    x: Mark,
    y: Mark,
) -> Mark
    requires { IsSingle x }
    ensures { spread (result ∷ []) ≡ found_cell R.listed (get node_cmp puts.now) (contains node_cmp named.now) (cell_of x) (cell_of y) ∷ [] }
{
    match y {
        Mark::Touch {
            cell,
            node,
            how: How::Leave,
        } => empty(reading, puts, cell, node),
        Mark::Touch { cell, node, .. } => full(puts, named, cell, node),
        Mark::Fill { cell, node } => full(puts, named, cell, node),
        _ => again(reading, puts, named, x),
    }
}

/// What is said of a cell that the step makes.
fn alone<R: Reading>(
    reading: &R,
    puts: &BTreeMap<NodeId, To>,
    named: &BTreeSet<NodeId>,
    y: Mark,
) -> Mark
    ensures { spread (result ∷ []) ≡ over_piece R.listed (get node_cmp puts.now) (contains node_cmp named.now) (Then (cell_of y)) ∷ [] }
{
    match y {
        Mark::Make {
            cell,
            node,
            full: was,
        } => {
            if was {
                full(puts, named, cell, node)
            } else {
                empty(reading, puts, cell, node)
            }
        }
        _ => Mark::Skip(1),
    }
}

/// What is said of a cell that the change makes.
fn own<R: Reading>(reading: &R, x: Mark) -> Mark
    requires { IsSingle x }
    ensures { spread (result ∷ []) ≡ read R.listed (cell_of x) ∷ [] }
{
    match x {
        Mark::Gap(cell) => reading.empty(cell),
        _ => x,
    }
}

/// A change beside a step: where the change puts nodes, and which it mentions after the step.
#[derive(Drop)]
struct Over<'a, R: Reading> {
    reading: &'a R,
    puts: &'a BTreeMap<NodeId, To>,
    named: &'a BTreeSet<NodeId>,
}

impl<'a, R: Reading> Table for Over<'a, R> {
    ghost use Rattle.std.specs.BTreeMap.{get};
    ghost use Rattle.std.specs.BTreeSet.{contains};
    ghost use Rattle.st_ids.specs.Order.{node_cmp};
    ghost use Rattle.st_reading.specs.Over.{over_piece};

    ghost cell = { λ t. over_piece R.listed (get node_cmp t.puts.now) (contains node_cmp t.named.now) };

    #[inline(always)]
    fn mark(&self, piece: Piece) -> Mark {
        match piece {
            Piece::Counted(k) => Mark::Skip(k),
            Piece::Both(x, y) => both(self.reading, self.puts, self.named, x, y),
            Piece::First(x) => own(self.reading, x),
            Piece::Then(y) => alone(self.reading, self.puts, self.named, y),
        }
    }
}

/// A row of a change after a step, from what shows it and what shows the step's row before, in one walk: by where the change puts
/// nodes, and which it mentions after the step.
pub fn over_row<R: Reading>(
    alloc: Global,
    reading: &R,
    puts: &BTreeMap<NodeId, To>,
    named: &BTreeSet<NodeId>,
    change: &[Mark],
    step: &[Mark],
) -> Result<List<Mark>, AllocError>
    requires { may_list (spread change.now) (spread step.now) < 2 ^ 32 }
    ensures cells { IfOk result (λ marks. IsMerged marks × (spread marks ≡ rebased_row R.listed (get node_cmp puts.now) (contains node_cmp named.now) (spread change.now) (spread step.now))) }
    ensures documents { (D E : Document) (N : Intent) (C : Change) (S : Step) (n : Node)
        → IsExtendedBy D E → Fits D N → Fits E N → (c : IsEmbedding D N C) → (s : IsStep D E S)
        → get node_cmp puts.now ≡ put_of N
        → ((k : Node) → (contains node_cmp named.now k ≡ true) ↔ IsMentionedByIntent E N k)
        → AreAlike R.listed (spread change.now) (embed_row (row_part c.mentioned N n) (content D n)) → AreAlike R.listed (spread step.now) (step_row s.mentioned (s.grows n))
        → IfOk result (λ marks. marks ≡ merge (map (read R.listed) (embed_row (row_part (contains node_cmp named.now) N n) (content E n)))) }
{
    lay_alike(
        alloc,
        &Over {
            reading,
            puts,
            named,
        },
        change,
        step,
    )
}
