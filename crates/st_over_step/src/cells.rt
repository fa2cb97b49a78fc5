//! The cells that a step makes.
ghost use Rattle.std.specs.Prelude.{◌≡◌, ◌↔◌, ◌∷◌, [], IsTrue};
ghost use Rattle.std.specs.List.{AllByRecursion};
ghost use Rattle.st_marks.specs.Listings.{cells_made};
ghost use Rattle.st_marks.specs.Row.{spread};
ghost use Rattle.st_marks.specs.declared.marks.RowMarks.{RowMarks as Row};
ghost use Rattle.st_over_step.specs.inside.Tables.{CellsAreNew, IsNotMade, MakesOthers};

use crate::each::{Rule, each_of};
use st_chunks::ChunkRow;
use st_forest::Forest;
use st_ids::{CellId, is_same_cell};
use st_marks::{Mark, RowMarks, Slot};

/// A mark makes no cell.
#[derive(Drop)]
struct MakesNone;

#[tactic(auto, using(crate::proofs::Counted::made_counted))]
impl Rule for MakesNone {
    type Item = Mark;

    ghost Holds = { λ s m. cells_made (spread (m ∷ [])) ≡ [] };

    fn holds(&self, mark: &Mark) -> bool {
        match *mark {
            Mark::Make { .. } => false,
            Mark::Skip(_) | Mark::Gap(_) | Mark::Touch { .. } | Mark::Fill { .. } => true,
        }
    }
}

/// The marks of a row make no cell.
#[derive(Drop)]
struct RowMakesNone;

impl Rule for RowMakesNone {
    type Item = RowMarks;

    ghost Holds = { λ s r. cells_made (spread r.marks) ≡ [] };

    fn holds(&self, row: &RowMarks) -> bool {
        each_of(row.marks.as_slice(), &MakesNone)
    }
}

/// A mark makes another cell, if any.
#[derive(Drop)]
struct MakesOther(CellId);

#[tactic(auto, using(crate::proofs::Counted::made_counted))]
impl Rule for MakesOther {
    type Item = Mark;

    ghost Holds = { λ s m. MakesOthers s.0 (m ∷ []) };

    fn holds(&self, mark: &Mark) -> bool {
        match *mark {
            Mark::Make { cell, .. } => !is_same_cell(cell, self.0),
            Mark::Skip(_) | Mark::Gap(_) | Mark::Touch { .. } | Mark::Fill { .. } => true,
        }
    }
}

/// The marks of a row make other cells, if any.
#[derive(Drop)]
struct RowMakesOthers(CellId);

impl Rule for RowMakesOthers {
    type Item = RowMarks;

    ghost Holds = { λ s r. MakesOthers s.0 r.marks };

    fn holds(&self, row: &RowMarks) -> bool {
        each_of(row.marks.as_slice(), &MakesOther(self.0))
    }
}

// Whether a slot's cell is none that rows make.
fn is_not_made(rows: &[RowMarks], slot: Slot) -> bool
    ensures { IsTrue result ↔ IsNotMade rows.now slot }
{
    each_of(rows, &RowMakesOthers(slot.cell))
}

// Whether a row has no cell that rows make.
fn has_none_made(slots: &ChunkRow, rows: &[RowMarks]) -> bool
    ensures { IsTrue result ↔ AllByRecursion (IsNotMade rows.now) slots.now }
{
    for place in 0..slots.len() {
        let Ok(slot) = slots.get(place) else {
            return true;
        };
        if !is_not_made(rows, slot) {
            return false;
        }
    }
    true
}

// Whether no row has a cell that rows make.
fn none_are_made(forest: &Forest, rows: &[RowMarks]) -> bool
    ensures { IsTrue result ↔ CellsAreNew forest.now rows.now }
{
    for slots in forest.rows.values() {
        if !has_none_made(slots, rows) {
            return false;
        }
    }
    true
}

/// Whether no row has a cell that rows make. Where they make any, each cell of each row is compared with each of these.
pub fn cells_are_new(forest: &Forest, rows: &[RowMarks]) -> bool
    ensures { IsTrue result ↔ CellsAreNew forest.now rows.now }
{
    each_of(rows, &RowMakesNone) || none_are_made(forest, rows)
}
