//! Whole changes and steps.
ghost use Rattle.std.specs.Prelude.{◌≡◌, ◌<◌, ◌^◌, length, map, IfOk, OnOk};
ghost use Rattle.std.specs.List.{AllByRecursion};
ghost use Rattle.st_marks.specs.declared.marks.RowMarks.{RowMarks as Row};
ghost use Rattle.st_marks.specs.Row.{spread};
ghost use Rattle.st_mention_laws.specs.Shown.{thin, thin_step as counted};
ghost use Rattle.st_thin.specs.inside.Thinning.{row_thinned};

use crate::rows::thin_row;
use st_ids::List;
use st_marks::{Change, RowMarks, Step};
use std::alloc::{AllocError, Global};

// Rows with their empty cells counted.
fn rows_thinned(alloc: Global, rows: &[RowMarks]) -> Result<List<RowMarks>, AllocError>
    ensures { IfOk result (λ l. l ≡ map row_thinned rows.now) }
{
    let mut thinned = List::new(alloc);
    for row in rows {
        thinned.push(thin_row(alloc, row)?)?;
    }
    Ok(thinned)
}

/// A change with its empty cells counted, in place, where each row lists fewer than 2^32 cells. After an `Err` it is as it was.
pub fn thin_change(alloc: Global, change: &mut Change) -> Result<(), AllocError>
    ensures { OnOk result (AllByRecursion (λ (r : Row). length (spread r.marks) < 2 ^ 32) change.entry.now.rows
        → change.exit.now ≡ thin change.entry.now) }
{
    change.rows = rows_thinned(alloc, change.rows.as_slice())?;
    Ok(())
}

/// A step with the empty cells counted that stay empty, in place, where each row lists fewer than 2^32 cells. After an `Err` it is as
/// it was.
pub fn thin_step(alloc: Global, step: &mut Step) -> Result<(), AllocError>
    ensures { OnOk result (AllByRecursion (λ (r : Row). length (spread r.marks) < 2 ^ 32) step.entry.now.rows
        → step.exit.now ≡ counted step.entry.now) }
{
    step.rows = rows_thinned(alloc, step.rows.as_slice())?;
    Ok(())
}
