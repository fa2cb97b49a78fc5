//! The rows of what is left of a step.
ghost use Rattle.std.specs.Prelude.{◌≡◌, ◌^◌, ◌<◌, length, map, IfOk, IfSome, option_copied};
ghost use Rattle.std.specs.List.{AllByRecursion};
ghost use Rattle.std.specs.Option.{option_or};
ghost use Rattle.st_ids.specs.Listing.{IsListing, item_of};
ghost use Rattle.st_ids.specs.Order.{node_cmp};
ghost use Rattle.st_marks.specs.declared.marks.RowMarks.{RowMarks as Row};
ghost use Rattle.st_marks.specs.Row.{spread};
ghost use Rattle.st_strip.specs.inside.Told.{marks_of_both as both, row_back as back, row_behind as behind};

use crate::cells::settled;
use st_ids::{Copied, List};
use st_listings::union;
use st_marks::{Mark, RowMarks};
use st_moves::{index_rows, row_in};
use st_rows::{compose_alike, invert};
use std::alloc::{AllocError, Global};

// The marks of a row that both list: back over the first part, and then as the whole step has it.
fn marks_of_both(
    alloc: Global,
    first: &List<Mark>,
    whole: &List<Mark>,
) -> Result<List<Mark>, AllocError>
    requires first { length (spread first.now) < 2 ^ 32 }
    requires whole { length (spread whole.now) < 2 ^ 32 }
    ensures { IfOk result (λ l. l ≡ both first.now whole.now) }
{
    let then = settled(alloc, first, whole)?;
    let back = invert(alloc, first)?;
    compose_alike(alloc, &back, &then)
}

// A row of the whole step, behind that of the first part.
fn row_behind(
    alloc: Global,
    first: Option<&RowMarks>,
    whole: &RowMarks,
) -> Result<RowMarks, AllocError>
    requires first { IfSome (option_copied first) (λ (r : Row). length (spread r.marks) < 2 ^ 32) }
    requires whole { length (spread whole.now.marks) < 2 ^ 32 }
    ensures { IfOk result (λ r. r ≡ behind (option_copied first.entry) whole.now) }
{
    match first {
        None => whole.copy(alloc),
        Some(first) => {
            let marks = marks_of_both(alloc, &first.marks, &whole.marks)?;
            Ok(RowMarks {
                node: whole.node,
                marks,
            })
        }
    }
}

// The rows of the whole step, each behind that of the first part.
fn rows_behind(
    alloc: Global,
    first: &List<RowMarks>,
    whole: &[RowMarks],
) -> Result<List<RowMarks>, AllocError>
    requires first { AllByRecursion (λ (r : Row). length (spread r.marks) < 2 ^ 32) first.now }
    requires whole { AllByRecursion (λ (r : Row). length (spread r.marks) < 2 ^ 32) whole.now }
    ensures { IfOk result (λ l. l ≡ map (λ (r : Row). behind (item_of node_cmp (λ (q : Row). q.node) first.now r.node) r) whole.now) }
{
    let index = index_rows(alloc, first.as_slice())?;
    let mut rows = List::new(alloc);
    for row in whole {
        let before = row_in(first, &index, row.node);
        rows.push(row_behind(alloc, before, row)?)?;
    }
    Ok(rows)
}

// A row of the first part, back.
fn row_back(alloc: Global, row: &RowMarks) -> Result<RowMarks, AllocError>
    requires { length (spread row.now.marks) < 2 ^ 32 }
    ensures { IfOk result (λ r. r ≡ back row.now) }
{
    let marks = invert(alloc, &row.marks)?;
    Ok(RowMarks {
        node: row.node,
        marks,
    })
}

// The rows of the first part, back.
fn rows_back(alloc: Global, rows: &[RowMarks]) -> Result<List<RowMarks>, AllocError>
    requires { AllByRecursion (λ (r : Row). length (spread r.marks) < 2 ^ 32) rows.now }
    ensures { IfOk result (λ l. l ≡ map back rows.now) }
{
    let mut list = List::new(alloc);
    for row in rows {
        list.push(row_back(alloc, row)?)?;
    }
    Ok(list)
}

/// The rows of what is left.
pub fn rest_rows(
    alloc: Global,
    first: &List<RowMarks>,
    whole: &List<RowMarks>,
) -> Result<List<RowMarks>, AllocError>
    requires first { AllByRecursion (λ (r : Row). length (spread r.marks) < 2 ^ 32) first.now }
    requires whole { AllByRecursion (λ (r : Row). length (spread r.marks) < 2 ^ 32) whole.now }
    ensures { IfOk result (λ l. IsListing node_cmp (λ (r : Row). r.node) l (λ n. option_or
        (item_of node_cmp (λ (r : Row). r.node) (map (λ (r : Row). behind (item_of node_cmp (λ (q : Row). q.node) first.now r.node) r) whole.now) n)
        (item_of node_cmp (λ (r : Row). r.node) (map back first.now) n))) }
{
    let behind = rows_behind(alloc, first, whole.as_slice())?;
    let back = rows_back(alloc, first.as_slice())?;
    union(alloc, behind.as_slice(), back.as_slice())
}
