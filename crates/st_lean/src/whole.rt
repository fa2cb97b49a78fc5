//! A whole change over a step.
ghost use Rattle.std.specs.Prelude.{◌≡◌, OnOk, OnErr};
ghost use Rattle.st_marks.specs.declared.intents.Intent.{Intent};
ghost use Rattle.st_marks.specs.CarryOut.{full};
ghost use Rattle.st_marks.specs.Document.{Document, HasShortRows};
ghost use Rattle.st_marks.specs.Extends.{IsExtendedBy};
ghost use Rattle.st_marks.specs.Intent.{Fits};
ghost use Rattle.st_read_laws.specs.Reading.{IsRead, IsStepRead};

use crate::base::base_after;
use crate::room::can_be_laid;
use st_marks::{Change, Step};
use st_moves::documents_have_room;
use st_over::rebase_with_base;
use st_reading::Reading;
use std::alloc::{AllocError, Global};

/// A change over a step, in place: it becomes the change of its intent after the step. Whether the two agree isn't tested; what
/// becomes of one that doesn't stand over a document with the step isn't said. Where it fails, it stays as it was. Takes
/// O(n log n) for n marks and names, whatever a Skip counts.
pub fn rebase<R: Reading>(
    alloc: Global,
    reading: &R,
    change: &mut Change,
    step: &Step,
) -> Result<(), AllocError>
    ensures ok { OnOk result ((D E : Document) (N : Intent)
        → IsExtendedBy D E → Fits D N → Fits E N → HasShortRows (full E N)
        → IsRead R.listed D N change.entry.now → IsStepRead R.listed D E step.now
        → IsRead R.listed E N change.exit.now) }
    ensures err { OnErr result (change.exit.now ≡ change.entry.now) }
{
    documents_have_room();
    if !can_be_laid(alloc, change, step) {
        return Ok(());
    }
    let base = base_after(change, step);
    rebase_with_base(alloc, reading, change, step, base)
}
