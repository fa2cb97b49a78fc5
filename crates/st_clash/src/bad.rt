//! The cells by which a rule on cells is broken.
ghost use Rattle.std.specs.Prelude.{◌≡◌, ◌++◌, Option, IfOk, OnOk};
ghost use Rattle.std.specs.BTreeSet.{contains};
ghost use Rattle.std.specs.List.{flat_map};
ghost use Rattle.st_ids.specs.Order.{cell_cmp};
ghost use Rattle.st_ids.specs.declared.names.CellId.{CellId as Cell};
ghost use Rattle.st_marks.specs.Listings.{is_among_cells};
ghost use Rattle.st_clash.specs.declared.seen.Seen.{Seen as View};
ghost use Rattle.st_clash.specs.inside.Bad.{bad_cells};
ghost use Rattle.st_clash.specs.inside.Made.{made_in_rows, named_in_rows, only_if};
ghost use Rattle.st_clash.specs.inside.Seen.{IsTable, row_seen};

use crate::made::{push_made_again, set_of};
use crate::twice::push_twice;
use st_ids::{CellId, List};
use st_marks::RowMarks;
use std::alloc::{AllocError, Global};
use std::collections::BTreeSet;

// Adds the cells that one makes and the other names.
fn push_made(
    alloc: Global,
    bad: &mut List<CellId>,
    rows: &[RowMarks],
    others: &[RowMarks],
) -> Result<(), AllocError>
    ensures { OnOk result (bad.new ≡ bad.old
        ++ flat_map (only_if (is_among_cells (made_in_rows others.now))) (named_in_rows rows.now)
        ++ flat_map (only_if (is_among_cells (made_in_rows rows.now))) (named_in_rows others.now)) }
{
    push_made_again(alloc, bad, rows, others)?;
    push_made_again(alloc, bad, others, rows)?;
    Ok(())
}

// The cells that both show, but not alike, and those that one makes and the other names.
fn bad_cells(
    alloc: Global,
    rows: &[RowMarks],
    others: &[RowMarks],
) -> Result<List<CellId>, AllocError>
    ensures { IfOk result (λ l. (at : Cell → Option View) × IsTable (flat_map row_seen others.now) at
        × (l ≡ bad_cells rows.now others.now at)) }
{
    let mut bad = List::new(alloc);
    push_twice(alloc, &mut bad, rows, others)?;
    push_made(alloc, &mut bad, rows, others)?;
    Ok(bad)
}

/// The set of the cells by which a rule is broken.
pub fn bad_set(
    alloc: Global,
    rows: &[RowMarks],
    others: &[RowMarks],
) -> Result<BTreeSet<CellId>, AllocError>
    ensures { IfOk result (λ s. (at : Cell → Option View) × IsTable (flat_map row_seen others.now) at
        × ((c : Cell) → contains cell_cmp s c ≡ is_among_cells (bad_cells rows.now others.now at) c)) }
{
    let bad = bad_cells(alloc, rows, others)?;
    set_of(alloc, bad.as_slice())
}
