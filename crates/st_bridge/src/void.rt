//! The step over a void commit.
ghost use Rattle.std.specs.Prelude.{◌≡◌, IfOk, OnOk, Option, None, [], Some};
ghost use Rattle.st_marks.specs.declared.intents.Intent.{Intent};
ghost use Rattle.st_marks.specs.CarryOut.{full, void};
ghost use Rattle.st_marks.specs.Document.{Document, HasShortRows};
ghost use Rattle.st_marks.specs.Embedding.{IsEmbedding};
ghost use Rattle.st_marks.specs.Extends.{IsExtendedBy};
ghost use Rattle.st_marks.specs.Intent.{Fits};
ghost use Rattle.st_marks.specs.Step.{IsStep};
ghost use Rattle.st_moves.specs.Room.{HasRoomInRows};
ghost use Rattle.st_trim.specs.Trimmed.{ListsStep};

use crate::rows::rows_across;
use st_ids::{Copied, List};
use st_marks::{Change, RowMarks, Step};
use st_trim::trim_step;
use std::alloc::{AllocError, Global};

// A step with other rows.
fn with_rows(alloc: Global, step: &Step, rows: List<RowMarks>) -> Result<Step, AllocError>
    ensures { IfOk result (λ g. g ≡ record step.now { rows = rows }) }
{
    let mut step = step.copy(alloc)?;
    step.rows = rows;
    Ok(step)
}

// What a step says where a commit is void before it and after it.
fn listing_across(alloc: Global, step: &Step, change: &Change) -> Result<Step, AllocError>
    requires { HasRoomInRows change.now step.now }
    ensures { (D E : Document) (N : Intent) → IsExtendedBy D E → Fits D N → Fits E N → N.schema ≡ None → HasShortRows (full D N) → HasShortRows (full E N)
        → IsEmbedding D N change.now → (s : IsStep D E step.now) → IfOk result (λ g. ListsStep (void D N) (void E N) s.mentioned g) }
{
    let rows = rows_across(alloc, &change.rows, &step.rows)?;
    with_rows(alloc, step, rows)
}

/// A step over a commit of data that is void in both documents between which the step leads: from the one with the commit's
/// names, and nothing moved, to the other with them. `change` is the commit where the step begins. That the two agree is known,
/// and of two that don't, anything may be answered. Takes O(n log n) for n marks and names of both, whatever a Skip counts.
pub fn bridge_void_agreed(alloc: Global, step: &Step, change: &Change) -> Result<Step, AllocError>
    requires { HasRoomInRows change.now step.now }
    ensures { (D E : Document) (N : Intent) → IsExtendedBy D E → Fits D N → Fits E N → N.schema ≡ None → HasShortRows (full D N) → HasShortRows (full E N)
        → IsEmbedding D N change.now → IsStep D E step.now → IfOk result (IsStep (void D N) (void E N)) }
{
    let listing = listing_across(alloc, step, change)?;
    trim_step(alloc, listing)
}
