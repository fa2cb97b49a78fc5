//! Cells of one revision, which marks name or don't.
ghost use Rattle.std.specs.Prelude.{◌≡◌};
ghost use Rattle.std.specs.List.{list_all, list_any};
ghost use Rattle.st_ids.specs.Order.{same_rev};
ghost use Rattle.st_ids.specs.declared.names.CellId.{CellId as Cell};
ghost use Rattle.st_marks.specs.Listings.{cells_in};
ghost use Rattle.st_marks.specs.Row.{spread};
ghost use Rattle.st_clash.specs.inside.Made.{cell_of_mark, is_of, named_in_rows};

use crate::made::cell_of;
use st_ids::{CellId, Rev, is_same_rev};
use st_marks::{Mark, RowMarks};

// Whether a cell is of a revision.
fn is_of(rev: Rev, cell: CellId) -> bool
    ensures { result ≡ is_of rev cell }
{
    is_same_rev(cell.0.rev, rev)
}

/// Whether cells are all of a revision.
pub fn are_of(rev: Rev, cells: &[CellId]) -> bool
    ensures { result ≡ list_all (is_of rev) cells.now }
{
    cells.iter().all(|cell| is_of(rev, *cell))
}

// Whether the cell in a mark is of a revision.
fn names_one(rev: Rev, mark: Mark) -> bool
    ensures { result ≡ list_any (is_of rev) (cell_of_mark mark) }
{
    match cell_of(mark) {
        None => false,
        Some(cell) => is_of(rev, cell),
    }
}

// Whether marks name a cell of a revision.
fn marks_name(rev: Rev, marks: &[Mark]) -> bool
    ensures { result ≡ list_any (is_of rev) (cells_in (spread marks.now)) }
{
    for mark in marks {
        if names_one(rev, *mark) {
            return true;
        }
    }
    false
}

/// Whether rows name a cell of a revision.
pub fn rows_name(rev: Rev, rows: &[RowMarks]) -> bool
    ensures { result ≡ list_any (is_of rev) (named_in_rows rows.now) }
{
    for row in rows {
        if marks_name(rev, row.marks.as_slice()) {
            return true;
        }
    }
    false
}
