//! Rows that a change and a step both list.
ghost use Rattle.std.specs.Prelude.{◌≡◌, ◌++◌, OnOk};
ghost use Rattle.std.specs.List.{flat_map};
ghost use Rattle.st_ids.specs.Listing.{IsRising, item_of};
ghost use Rattle.st_ids.specs.Order.{node_cmp};
ghost use Rattle.st_marks.specs.declared.marks.RowMarks.{RowMarks as Row};
ghost use Rattle.st_marks.specs.Listings.{cells_before};
ghost use Rattle.st_marks.specs.Row.{spread};
ghost use Rattle.st_agree.specs.inside.Rows.{differs_from, row_apart};

use crate::look::row_at;
use st_clash::{row_field, shows_same};
use st_ids::{FieldId, List};
use st_marks::RowMarks;
use std::alloc::{AllocError, Global};

// Whether a row is listed among others and shown otherwise there.
fn is_shown_otherwise(others: &[RowMarks], row: &RowMarks) -> bool
    requires { IsRising node_cmp (λ (r : Row). r.node) others.now }
    ensures { result ≡ differs_from (cells_before (spread row.now.marks))
        (item_of node_cmp (λ (r : Row). r.node) others.now row.now.node) }
{
    match row_at(others, row.node) {
        Some(other) => !shows_same(row.marks.as_slice(), other.marks.as_slice()),
        None => false,
    }
}

// Adds the field of a row that both list and show otherwise.
fn push_row(
    alloc: Global,
    found: &mut List<FieldId>,
    others: &[RowMarks],
    row: &RowMarks,
) -> Result<(), AllocError>
    requires { IsRising node_cmp (λ (r : Row). r.node) others.now }
    ensures { OnOk result (found.new ≡ found.old ++ row_apart others.now row.now) }
{
    if is_shown_otherwise(others, row) {
        found.push(row_field(alloc, row.node))?;
    }
    Ok(())
}

/// Adds the fields of the rows that both list and show otherwise.
pub fn push_rows(
    alloc: Global,
    found: &mut List<FieldId>,
    rows: &[RowMarks],
    others: &[RowMarks],
) -> Result<(), AllocError>
    requires { IsRising node_cmp (λ (r : Row). r.node) others.now }
    ensures { OnOk result (found.new ≡ found.old ++ flat_map (row_apart others.now) rows.now) }
{
    for row in rows {
        push_row(alloc, found, others, row)?;
    }
    Ok(())
}
