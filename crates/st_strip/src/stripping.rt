//! What is left of a step behind a first part of it.
ghost use Rattle.std.specs.Prelude.{IfOk};
ghost use Rattle.st_marks.specs.Document.{Document};
ghost use Rattle.st_marks.specs.Extends.{IsExtendedBy};
ghost use Rattle.st_marks.specs.Step.{IsStep};
ghost use Rattle.st_mention_laws.specs.Shown.{ShowsStep};
ghost use Rattle.st_steps.specs.Short.{HasShortRowsListed};

use crate::listing::rest_listing;
use st_marks::Step;
use st_trim::trim_step;
use std::alloc::{AllocError, Global};

/// What is left of a step behind a first part of it: the step from where that part leads to where the whole step leads. Both have
/// to lead from one document, and may count empty cells that stay empty: then what is left shows the step, and may count some too.
/// Takes O(n log n) for n marks and names, whatever a Skip counts.
pub fn strip(alloc: Global, first: &Step, whole: &Step) -> Result<Step, AllocError>
    requires first { HasShortRowsListed first.now }
    requires whole { HasShortRowsListed whole.now }
    ensures exact { (D E F : Document) → IsExtendedBy D E → IsExtendedBy E F → IsStep D E first.now → IsStep D F whole.now
        → IfOk result (IsStep E F) }
    ensures shown { (D E F : Document) → IsExtendedBy D E → IsExtendedBy E F → ShowsStep D E first.now → ShowsStep D F whole.now
        → IfOk result (ShowsStep E F) }
{
    let listing = rest_listing(alloc, first, whole)?;
    trim_step(alloc, listing)
}
