//! The fields that the rules on cells name.
ghost use Rattle.std.specs.Prelude.{◌≡◌, ◌++◌, OnOk};
ghost use Rattle.std.specs.BTreeSet.{contains};
ghost use Rattle.std.specs.List.{flat_map};
ghost use Rattle.st_ids.specs.Listing.{IsRising};
ghost use Rattle.st_ids.specs.Order.{cell_cmp, node_cmp};
ghost use Rattle.st_marks.specs.declared.marks.RowMarks.{RowMarks as Row};
ghost use Rattle.st_marks.specs.Listings.{listing_before_change, listing_before_step};
ghost use Rattle.st_clash.specs.Adds.{Adds};
ghost use Rattle.st_clash.specs.Cells.{AreCellsOnce, CellsClash};
ghost use Rattle.st_clash.specs.inside.Bad.{row_naming};

use crate::bad::bad_set;
use crate::naming::push_naming;
use st_ids::{CellId, FieldId, List};
use st_marks::{Change, RowMarks, Step};
use std::alloc::{AllocError, Global};
use std::collections::BTreeSet;

// Adds the fields of both listings' rows that name a cell of a set.
fn push_both(
    alloc: Global,
    found: &mut List<FieldId>,
    set: &BTreeSet<CellId>,
    rows: &[RowMarks],
    others: &[RowMarks],
) -> Result<(), AllocError>
    ensures { OnOk result (found.new ≡ found.old ++ flat_map (row_naming (contains cell_cmp set.now)) rows.now
        ++ flat_map (row_naming (contains cell_cmp set.now)) others.now) }
{
    push_naming(alloc, found, set, rows)?;
    push_naming(alloc, found, set, others)?;
    Ok(())
}

/// Adds the fields that the rules on cells name, where a change and a step find the same document: the rows that name a cell
/// which both show, but at two places or with two owners, or which one makes and the other names. Each that is added is named
/// by a rule; where the step shows each cell once, none is missed. One may be added twice.
pub fn push_cells(
    alloc: Global,
    found: &mut List<FieldId>,
    change: &Change,
    step: &Step,
) -> Result<(), AllocError>
    requires rows { IsRising node_cmp (λ (r : Row). r.node) change.now.rows }
    requires rows_over { IsRising node_cmp (λ (r : Row). r.node) step.now.rows }
    ensures { OnOk result (Adds found.old found.new (CellsClash (listing_before_change change.now) (listing_before_step step.now))
        (AreCellsOnce (listing_before_step step.now))) }
{
    let (rows, others) = (change.rows.as_slice(), step.rows.as_slice());
    let bad = bad_set(alloc, rows, others)?;
    push_both(alloc, found, &bad, rows, others)
}
