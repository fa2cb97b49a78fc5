//! Two steps in turn as one.
ghost use Rattle.std.specs.Prelude.{IfOk};
ghost use Rattle.st_marks.specs.Document.{Document};
ghost use Rattle.st_marks.specs.Extends.{IsExtendedBy};
ghost use Rattle.st_marks.specs.Step.{IsStep};
ghost use Rattle.st_mention_laws.specs.Shown.{ShowsStep};
ghost use Rattle.st_steps.specs.Short.{HasShortRowsListed};

use crate::listing::listing_in_turn;
use st_marks::Step;
use st_trim::trim_step;
use std::alloc::{AllocError, Global};

/// Two steps in turn as one, where it is known that the second goes on from where the first leads. Which empty cells that stay
/// empty either of them names isn't read: of steps that count some of them the step over both may count these too. Takes
/// O(n log n) for n marks and names, whatever a Skip counts.
pub fn compose_agreed(alloc: Global, first: &Step, second: &Step) -> Result<Step, AllocError>
    requires { HasShortRowsListed second.now }
    ensures exact { (D E F : Document) → IsExtendedBy D E → IsExtendedBy E F → IsStep D E first.now → IsStep E F second.now
        → IfOk result (IsStep D F) }
    ensures shown { (D E F : Document) → IsExtendedBy D E → IsExtendedBy E F → ShowsStep D E first.now → ShowsStep E F second.now
        → IfOk result (ShowsStep D F) }
{
    let listing = listing_in_turn(alloc, first, second)?;
    trim_step(alloc, listing)
}
