//! Cells that one step leaves and another finds.
ghost use Rattle.std.specs.Prelude.{◌≡◌, [], OnOk, IfOk, map};
ghost use Rattle.st_ids.specs.Listing.{IsRising};
ghost use Rattle.st_ids.specs.Order.{node_cmp};
ghost use Rattle.st_marks.specs.declared.marks.RowMarks.{RowMarks as Row};
ghost use Rattle.st_marks.specs.Listings.{listing_after_step, listing_before_step};
ghost use Rattle.st_clash.specs.Adds.{Adds};
ghost use Rattle.st_clash.specs.Cells.{AreCellsOnce};
ghost use Rattle.st_agree_turn.specs.Rules.{CellsApart};
ghost use Rattle.st_agree_turn.specs.inside.Left.{row_left};

use crate::left::rows_left;
use st_clash::push_cells as push_cells_beside;
use st_ids::{FieldId, List, OPENING};
use st_marks::{Change, RowMarks, Step};
use std::alloc::{AllocError, Global};

// A change that finds these rows, and does nothing.
fn found_rows(alloc: Global, rows: List<RowMarks>) -> Change
    ensures { result.rows ≡ rows }
{
    Change {
        rev: OPENING,
        under: OPENING,
        base: true,
        need: List::new(alloc),
        new: List::new(alloc),
        rows,
        regs: List::new(alloc),
        loose: List::new(alloc),
        schema: None,
    }
}

// A change that finds the rows which a step leaves.
fn found_after(alloc: Global, step: &Step) -> Result<Change, AllocError>
    ensures { IfOk result (λ k. k.rows ≡ map row_left step.now.rows) }
{
    let rows = rows_left(alloc, step.rows.as_slice())?;
    Ok(found_rows(alloc, rows))
}

/// Adds the fields that the rules on cells name, of two steps in turn: the rows that name a cell which the first leaves and the
/// second finds, but at two places or with two owners, or which the second makes and the first names. Each that is added is named
/// by a rule; where the second shows each cell once, none is missed. One may be added twice. Takes O(n log n) for n marks.
pub fn push_cells(
    alloc: Global,
    found: &mut List<FieldId>,
    first: &Step,
    then: &Step,
) -> Result<(), AllocError>
    requires rows { IsRising node_cmp (λ (r : Row). r.node) first.now.rows }
    requires rows_then { IsRising node_cmp (λ (r : Row). r.node) then.now.rows }
    ensures { OnOk result (Adds found.old found.new (CellsApart (listing_after_step first.now) (listing_before_step then.now))
        (AreCellsOnce (listing_before_step then.now))) }
{
    let left = found_after(alloc, first)?;
    push_cells_beside(alloc, found, &left, then)
}
