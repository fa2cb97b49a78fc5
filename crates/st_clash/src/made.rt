//! Cells that marks name and make, and those that one makes and the other names.
ghost use Rattle.std.specs.Prelude.{◌≡◌, ◌++◌, [], cond, true, IfOk, OnOk};
ghost use Rattle.std.specs.BTreeSet.{contains};
ghost use Rattle.std.specs.List.{flat_map};
ghost use Rattle.std.specs.Ordering.{is_eq};
ghost use Rattle.st_ids.specs.Order.{cell_cmp};
ghost use Rattle.st_ids.specs.declared.names.CellId.{CellId as Cell};
ghost use Rattle.st_marks.specs.Listings.{cells_in, cells_made, is_among_cells, one_or_none};
ghost use Rattle.st_marks.specs.Row.{spread};
ghost use Rattle.st_clash.specs.inside.Made.{
  cell_made_by,
  cell_of_mark,
  made_in_rows,
  named_in_rows,
  only_if,
};

use crate::push::push_if_some;
use crate::revisions::{are_of, rows_name};
use st_ids::{CellId, List};
use st_marks::{Mark, RowMarks};
use std::alloc::{AllocError, Global};
use std::collections::BTreeSet;

/// The cell in a mark, if any.
pub fn cell_of(mark: Mark) -> Option<CellId>
    ensures { one_or_none result ≡ cell_of_mark mark }
{
    match mark {
        Mark::Skip(_) => None,
        Mark::Gap(cell) => Some(cell),
        Mark::Touch { cell, .. } => Some(cell),
        Mark::Make { cell, .. } => Some(cell),
        Mark::Fill { cell, .. } => Some(cell),
    }
}

// The cell that a mark makes, if any.
fn made_cell_of(mark: Mark) -> Option<CellId>
    ensures { one_or_none result ≡ cell_made_by mark }
{
    match mark {
        Mark::Make { cell, .. } => Some(cell),
        _ => None,
    }
}

// Adds the cells that marks name.
fn add_cells(list: &mut List<CellId>, marks: &[Mark]) -> Result<(), AllocError>
    ensures { OnOk result (list.new ≡ list.old ++ cells_in (spread marks.now)) }
{
    for mark in marks {
        push_if_some(list, cell_of(*mark))?;
    }
    Ok(())
}

// Adds the cells that marks make.
fn add_made(list: &mut List<CellId>, marks: &[Mark]) -> Result<(), AllocError>
    ensures { OnOk result (list.new ≡ list.old ++ cells_made (spread marks.now)) }
{
    for mark in marks {
        push_if_some(list, made_cell_of(*mark))?;
    }
    Ok(())
}

// The cells that rows name.
fn named_in_rows(alloc: Global, rows: &[RowMarks]) -> Result<List<CellId>, AllocError>
    ensures { IfOk result (λ l. l ≡ named_in_rows rows.now) }
{
    let mut list = List::new(alloc);
    for row in rows {
        add_cells(&mut list, row.marks.as_slice())?;
    }
    Ok(list)
}

// The cells that rows make.
fn made_in_rows(alloc: Global, rows: &[RowMarks]) -> Result<List<CellId>, AllocError>
    ensures { IfOk result (λ l. l ≡ made_in_rows rows.now) }
{
    let mut list = List::new(alloc);
    for row in rows {
        add_made(&mut list, row.marks.as_slice())?;
    }
    Ok(list)
}

// Puts a cell into a set.
fn add(set: &mut BTreeSet<CellId>, cell: CellId) -> Result<(), AllocError>
    ensures { OnOk result ((c : Cell) → contains cell_cmp set.new c
        ≡ cond (is_eq (cell_cmp cell c)) true (contains cell_cmp set.old c)) }
{
    set.insert(cell)?;
    Ok(())
}

/// The set of some cells.
pub fn set_of(alloc: Global, cells: &[CellId]) -> Result<BTreeSet<CellId>, AllocError>
    ensures { IfOk result (λ s. (c : Cell) → contains cell_cmp s c ≡ is_among_cells cells.now c) }
{
    let mut set = BTreeSet::new(alloc);
    for cell in cells {
        add(&mut set, *cell)?;
    }
    Ok(set)
}

// Adds a cell, if it is in a set.
fn push_if_in(
    bad: &mut List<CellId>,
    set: &BTreeSet<CellId>,
    cell: CellId,
) -> Result<(), AllocError>
    ensures { OnOk result (bad.new ≡ bad.old ++ only_if (contains cell_cmp set.now) cell) }
{
    if set.contains(&cell) {
        bad.push(cell)?;
    }
    Ok(())
}

// Adds those of some cells that are in a set.
fn push_those_in(
    bad: &mut List<CellId>,
    set: &BTreeSet<CellId>,
    cells: &[CellId],
) -> Result<(), AllocError>
    ensures { OnOk result (bad.new ≡ bad.old ++ flat_map (only_if (contains cell_cmp set.now)) cells.now) }
{
    for cell in cells {
        push_if_in(bad, set, *cell)?;
    }
    Ok(())
}

// Adds those of the cells that rows name that are among some others, by a set of these.
fn push_by_set(
    alloc: Global,
    bad: &mut List<CellId>,
    rows: &[RowMarks],
    made: &[CellId],
) -> Result<(), AllocError>
    ensures { OnOk result (bad.new ≡ bad.old ++ flat_map (only_if (is_among_cells made.now)) (named_in_rows rows.now)) }
{
    let set = set_of(alloc, made)?;
    let names = named_in_rows(alloc, rows)?;
    push_those_in(bad, &set, names.as_slice())
}

// Whether cells are all of one revision, of which no row names any: the common case, as what is made is new.
fn are_new(made: &[CellId], rows: &[RowMarks]) -> bool
    ensures { result ≡ true → flat_map (only_if (is_among_cells made.now)) (named_in_rows rows.now) ≡ [] }
{
    match made.first() {
        None => true,
        Some(cell) => are_of(cell.0.rev, made) && !rows_name(cell.0.rev, rows),
    }
}

/// Adds the cells that rows name and others make.
pub fn push_made_again(
    alloc: Global,
    bad: &mut List<CellId>,
    rows: &[RowMarks],
    makers: &[RowMarks],
) -> Result<(), AllocError>
    ensures { OnOk result (bad.new ≡ bad.old
        ++ flat_map (only_if (is_among_cells (made_in_rows makers.now))) (named_in_rows rows.now)) }
{
    let made = made_in_rows(alloc, makers)?;
    if are_new(made.as_slice(), rows) {
        return Ok(());
    }
    push_by_set(alloc, bad, rows, made.as_slice())
}
