//! Whether the cells that a change makes are new.
ghost use Rattle.std.specs.Prelude.{◌≡◌, ◌↔◌, ◌||◌, ◌∷◌, List as Seq, IsTrue};
ghost use Rattle.std.specs.BTreeMap.{IsOrdered, values};
ghost use Rattle.std.specs.List.{AllByRecursion, list_any};
ghost use Rattle.st_ids.specs.Order.{node_cmp};
ghost use Rattle.st_ids.specs.declared.names.NodeId.{NodeId as Node};
ghost use Rattle.st_marks.specs.declared.marks.Mark.{Mark as AnyMark};
ghost use Rattle.st_marks.specs.declared.marks.RowMarks.{RowMarks as Row};
ghost use Rattle.st_marks.specs.Row.{spread};
ghost use Rattle.st_author_over.specs.inside.Seen.{IsFree, makes_anew, slots_in};
ghost use Rattle.st_author_over.specs.inside.Side.{is_make};

use crate::look::makes_cell;
use crate::side::slot_at;
use st_chunks::ChunkRow;
use st_forest::Forest;
use st_ids::{CellId, is_same_rev};
use st_marks::{Change, Mark, RowMarks, Step};

// Whether a cell is one of the change's revision that the change makes, and the step doesn't.
fn is_made_anew(step: &Step, change: &Change, cell: CellId) -> bool
    ensures { result ≡ makes_anew step.now change.now cell }
{
    is_same_rev(cell.0.rev, change.rev)
        && (makes_cell(change.rows.as_slice(), cell) && !makes_cell(step.rows.as_slice(), cell))
}

// Whether no cell of a row is one that the change makes and the step doesn't.
fn is_free(row: &ChunkRow, step: &Step, change: &Change) -> bool
    ensures { IsTrue result ↔ IsFree step.now change.now row.now }
{
    let mut place = 0;
    'slots: while let Some((slot, next)) = slot_at(row, place) {
        if is_made_anew(step, change, slot.cell) {
            return false;
        }
        place = next;
    }
    true
}

// Whether no cell of any row is.
fn all_are_free(forest: &Forest, step: &Step, change: &Change) -> bool
    ensures free { IsTrue result ↔ AllByRecursion (IsFree step.now change.now) (values forest.now.rows) }
    ensures ordered { IsOrdered node_cmp forest.now.rows }
{
    for row in forest.rows.values() {
        if !is_free(row, step, change) {
            return false;
        }
    }
    true
}

// Whether a mark makes a cell.
#[tactic(auto, using(crate::proofs::Found::none_counted))]
fn is_making(mark: Mark) -> bool
    ensures { (rest : Seq AnyMark) → list_any is_make (spread (mark ∷ rest)) ≡ (result || list_any is_make (spread rest)) }
{
    matches!(mark, Mark::Make { .. })
}

// Whether marks make a cell.
fn row_makes(marks: &[Mark]) -> bool
    ensures { result ≡ list_any is_make (spread marks.now) }
{
    for mark in marks {
        if is_making(*mark) {
            return true;
        }
    }
    false
}

// Whether rows make a cell.
fn rows_make(rows: &[RowMarks]) -> bool
    ensures { result ≡ list_any (λ (r : Row). list_any is_make (spread r.marks)) rows.now }
{
    for row in rows {
        if row_makes(row.marks.as_slice()) {
            return true;
        }
    }
    false
}

/// Whether no cell of the forest is one that the change makes and the step doesn't. It goes through all rows of the forest, but for
/// a change that makes no cells.
pub fn cells_are_free(forest: &Forest, step: &Step, change: &Change) -> bool
    ensures { IsTrue result ↔ ((n : Node) → IsFree step.now change.now (slots_in forest.now n)) }
{
    if rows_make(change.rows.as_slice()) {
        all_are_free(forest, step, change)
    } else {
        true
    }
}
