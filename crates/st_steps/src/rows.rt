//! The rows of two steps in turn.
ghost use Rattle.std.specs.Prelude.{◌≡◌, ◌^◌, ◌<◌, length, map, IfOk, option_copied};
ghost use Rattle.std.specs.List.{AllByRecursion};
ghost use Rattle.std.specs.Option.{option_or};
ghost use Rattle.st_ids.specs.Listing.{IsListing, item_of};
ghost use Rattle.st_ids.specs.Order.{node_cmp};
ghost use Rattle.st_marks.specs.declared.marks.RowMarks.{RowMarks as Row};
ghost use Rattle.st_marks.specs.Row.{spread};
ghost use Rattle.st_steps.specs.inside.Told.{row_behind as behind, row_of_both as both};

use st_ids::{Copied, List, NodeId};
use st_listings::union;
use st_marks::{Mark, RowMarks};
use st_moves::{index_rows, row_in};
use st_rows::compose_alike;
use std::alloc::{AllocError, Global};

// A row that both list.
fn row_of_both(
    alloc: Global,
    node: NodeId,
    first: &List<Mark>,
    second: &List<Mark>,
) -> Result<RowMarks, AllocError>
    requires { length (spread second.now) < 2 ^ 32 }
    ensures { IfOk result (λ r. r ≡ both node first.now second.now) }
{
    let marks = compose_alike(alloc, first, second)?;
    Ok(RowMarks { node, marks })
}

// A row of the second step, behind that of the first.
fn row_behind(
    alloc: Global,
    first: Option<&RowMarks>,
    second: &RowMarks,
) -> Result<RowMarks, AllocError>
    requires { length (spread second.now.marks) < 2 ^ 32 }
    ensures { IfOk result (λ r. r ≡ behind (option_copied first.entry) second.now) }
{
    match first {
        None => second.copy(alloc),
        Some(first) => row_of_both(alloc, second.node, &first.marks, &second.marks),
    }
}

// The rows of the second step, each behind that of the first.
fn rows_behind(
    alloc: Global,
    first: &List<RowMarks>,
    second: &[RowMarks],
) -> Result<List<RowMarks>, AllocError>
    requires { AllByRecursion (λ (r : Row). length (spread r.marks) < 2 ^ 32) second.now }
    ensures { IfOk result (λ l. l ≡ map (λ (r : Row). behind (item_of node_cmp (λ (q : Row). q.node) first.now r.node) r) second.now) }
{
    let index = index_rows(alloc, first.as_slice())?;
    let mut rows = List::new(alloc);
    for row in second {
        let before = row_in(first, &index, row.node);
        rows.push(row_behind(alloc, before, row)?)?;
    }
    Ok(rows)
}

/// The rows of two steps in turn.
pub fn rows_in_turn(
    alloc: Global,
    first: &List<RowMarks>,
    second: &List<RowMarks>,
) -> Result<List<RowMarks>, AllocError>
    requires { AllByRecursion (λ (r : Row). length (spread r.marks) < 2 ^ 32) second.now }
    ensures { IfOk result (λ l. IsListing node_cmp (λ (r : Row). r.node) l (λ n. option_or
        (item_of node_cmp (λ (r : Row). r.node) (map (λ (r : Row). behind (item_of node_cmp (λ (q : Row). q.node) first.now r.node) r) second.now) n)
        (item_of node_cmp (λ (r : Row). r.node) first.now n))) }
{
    let behind = rows_behind(alloc, first, second.as_slice())?;
    union(alloc, behind.as_slice(), first.as_slice())
}
