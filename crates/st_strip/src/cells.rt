//! The marks of a whole step in a row, where the cells that a first part of it makes are there already.
ghost use Rattle.std.specs.Prelude.{◌≡◌, ◌||◌, cond, map, true, IfOk, OnOk};
ghost use Rattle.std.specs.BTreeSet.{contains};
ghost use Rattle.std.specs.List.{list_any};
ghost use Rattle.std.specs.Ordering.{is_eq};
ghost use Rattle.st_ids.specs.Order.{cell_cmp};
ghost use Rattle.st_ids.specs.declared.names.CellId.{CellId as Cell};
ghost use Rattle.st_marks.specs.Row.{spread};
ghost use Rattle.st_strip.specs.Rest.{settled_row};
ghost use Rattle.st_strip.specs.inside.Told.{made_in, makes as makes_cell, settle as settled_as};

use st_ids::{CellId, List};
use st_marks::Mark;
use std::alloc::{AllocError, Global};
use std::collections::BTreeSet;

// Puts a cell into a set.
fn add(set: &mut BTreeSet<CellId>, cell: CellId) -> Result<(), AllocError>
    ensures { OnOk result ((c : Cell) → contains cell_cmp set.new c
        ≡ cond (is_eq (cell_cmp cell c)) true (contains cell_cmp set.old c)) }
{
    set.insert(cell)?;
    Ok(())
}

// Puts the cell that a mark makes into a set, if it makes one.
fn add_made(set: &mut BTreeSet<CellId>, mark: Mark) -> Result<(), AllocError>
    ensures { OnOk result ((c : Cell) → contains cell_cmp set.new c ≡ (contains cell_cmp set.old c || makes_cell c mark)) }
{
    match mark {
        Mark::Make { cell, .. } => {
            add(set, cell)?;
            Ok(())
        }
        _ => Ok(()),
    }
}

// The cells that marks make.
fn cells_made(alloc: Global, marks: &[Mark]) -> Result<BTreeSet<CellId>, AllocError>
    ensures { IfOk result (λ s. (c : Cell) → contains cell_cmp s c ≡ list_any (makes_cell c) marks.now) }
{
    let mut set = BTreeSet::new(alloc);
    for mark in marks {
        add_made(&mut set, *mark)?;
    }
    Ok(set)
}

// A mark of the whole step, where some cells are there already, and empty.
fn settle(made: &BTreeSet<CellId>, mark: Mark) -> Mark
    ensures { result ≡ settled_as (contains cell_cmp made.now) mark }
{
    match mark {
        Mark::Make { cell, node, full } => {
            if !made.contains(&cell) {
                mark
            } else if full {
                Mark::Fill { cell, node }
            } else {
                Mark::Gap(cell)
            }
        }
        _ => mark,
    }
}

// The marks of the whole step, where some cells are there already.
fn settle_all(
    alloc: Global,
    made: &BTreeSet<CellId>,
    marks: &[Mark],
) -> Result<List<Mark>, AllocError>
    ensures { IfOk result (λ l. l ≡ map (settled_as (contains cell_cmp made.now)) marks.now) }
{
    let mut list = List::new(alloc);
    for mark in marks {
        list.push(settle(made, *mark))?;
    }
    Ok(list)
}

/// The marks of the whole step, where the cells that the first part makes are there already, and empty.
pub fn settled(
    alloc: Global,
    first: &List<Mark>,
    whole: &List<Mark>,
) -> Result<List<Mark>, AllocError>
    ensures { IfOk result (λ l. spread l ≡ settled_row (made_in first.now) (spread whole.now)) }
{
    let made = cells_made(alloc, first.as_slice())?;
    settle_all(alloc, &made, whole.as_slice())
}
