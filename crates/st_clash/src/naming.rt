//! The rows that name some of a set of cells.
ghost use Rattle.std.specs.Prelude.{◌≡◌, ◌++◌, OnOk};
ghost use Rattle.std.specs.BTreeSet.{contains};
ghost use Rattle.std.specs.List.{flat_map, list_any};
ghost use Rattle.st_ids.specs.Order.{cell_cmp};
ghost use Rattle.st_marks.specs.Listings.{cells_in};
ghost use Rattle.st_marks.specs.Row.{spread};
ghost use Rattle.st_clash.specs.inside.Bad.{row_naming};
ghost use Rattle.st_clash.specs.inside.Made.{cell_of_mark};

use crate::fields::row_field;
use crate::made::cell_of;
use st_ids::{CellId, FieldId, List};
use st_marks::{Mark, RowMarks};
use std::alloc::{AllocError, Global};
use std::collections::BTreeSet;

// Whether the cell in a mark is in a set.
fn is_in(set: &BTreeSet<CellId>, mark: Mark) -> bool
    ensures { result ≡ list_any (contains cell_cmp set.now) (cell_of_mark mark) }
{
    match cell_of(mark) {
        None => false,
        Some(cell) => set.contains(&cell),
    }
}

// Whether marks name a cell of a set.
fn name_any(set: &BTreeSet<CellId>, marks: &[Mark]) -> bool
    ensures { result ≡ list_any (contains cell_cmp set.now) (cells_in (spread marks.now)) }
{
    for mark in marks {
        if is_in(set, *mark) {
            return true;
        }
    }
    false
}

// Adds the field of a row that names a cell of a set.
fn push_if_naming(
    alloc: Global,
    found: &mut List<FieldId>,
    set: &BTreeSet<CellId>,
    row: &RowMarks,
) -> Result<(), AllocError>
    ensures { OnOk result (found.new ≡ found.old ++ row_naming (contains cell_cmp set.now) row.now) }
{
    if name_any(set, row.marks.as_slice()) {
        found.push(row_field(alloc, row.node))?;
    }
    Ok(())
}

/// Adds the fields of the rows that name a cell of a set.
pub fn push_naming(
    alloc: Global,
    found: &mut List<FieldId>,
    set: &BTreeSet<CellId>,
    rows: &[RowMarks],
) -> Result<(), AllocError>
    ensures { OnOk result (found.new ≡ found.old ++ flat_map (row_naming (contains cell_cmp set.now)) rows.now) }
{
    if set.is_empty() {
        return Ok(());
    }
    for row in rows {
        push_if_naming(alloc, found, set, row)?;
    }
    Ok(())
}
