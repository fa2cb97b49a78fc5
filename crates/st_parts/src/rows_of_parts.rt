//! The rows of two parts of one commit.
ghost use Rattle.std.specs.Prelude.{◌≡◌, ◌^◌, ◌<◌, length, map, IfOk, option_copied};
ghost use Rattle.std.specs.List.{AllByRecursion};
ghost use Rattle.st_ids.specs.Listing.{item_of};
ghost use Rattle.st_ids.specs.Order.{node_cmp};
ghost use Rattle.st_marks.specs.declared.marks.RowMarks.{RowMarks as Row};
ghost use Rattle.st_marks.specs.Row.{spread};
ghost use Rattle.st_parts.specs.inside.OfParts.{AreRowsOf, row_behind as behind, row_of_both as both};

use st_ids::{Copied, List, NodeId};
use st_listings::union;
use st_marks::{Mark, RowMarks};
use st_part_listings::table_of;
use st_rows::join_alike;
use std::alloc::{AllocError, Global};

// A row that both list.
fn row_of_both(
    alloc: Global,
    node: NodeId,
    first: &List<Mark>,
    second: &List<Mark>,
) -> Result<RowMarks, AllocError>
    requires { length (spread second.now) < 2 ^ 32 }
    ensures { IfOk result (λ r. r ≡ both node first.now second.now) }
{
    let marks = join_alike(alloc, first, second)?;
    Ok(RowMarks { node, marks })
}

// A row of the second part, behind that of the first.
fn row_behind(
    alloc: Global,
    first: Option<&RowMarks>,
    second: &RowMarks,
) -> Result<RowMarks, AllocError>
    requires { length (spread second.now.marks) < 2 ^ 32 }
    ensures { IfOk result (λ r. r ≡ behind (option_copied first.entry) second.now) }
{
    match first {
        None => second.copy(alloc),
        Some(first) => row_of_both(alloc, second.node, &first.marks, &second.marks),
    }
}

// The rows of the second part, each behind that of the first.
fn rows_behind(
    alloc: Global,
    first: &[RowMarks],
    second: &[RowMarks],
) -> Result<List<RowMarks>, AllocError>
    requires { AllByRecursion (λ (r : Row). length (spread r.marks) < 2 ^ 32) second.now }
    ensures { IfOk result (λ l. l ≡ map (λ (r : Row). behind (item_of node_cmp (λ (q : Row). q.node) first.now r.node) r) second.now) }
{
    let table = table_of(alloc, first)?;
    let mut rows = List::new(alloc);
    for row in second {
        let before = table.get(&row.node);
        rows.push(row_behind(alloc, before, row)?)?;
    }
    Ok(rows)
}

/// The rows of two parts.
pub fn rows_of_parts(
    alloc: Global,
    first: &[RowMarks],
    second: &[RowMarks],
) -> Result<List<RowMarks>, AllocError>
    requires { AllByRecursion (λ (r : Row). length (spread r.marks) < 2 ^ 32) second.now }
    ensures { IfOk result (AreRowsOf first.now second.now) }
{
    let behind = rows_behind(alloc, first, second)?;
    union(alloc, behind.as_slice(), first)
}
