//! What else is done with changes and steps that name each empty cell.
ghost use Rattle.std.specs.Prelude.{true, IfOk};
ghost use Rattle.st_marks.specs.Document.{Document};
ghost use Rattle.st_marks.specs.Extends.{IsExtendedBy};
ghost use Rattle.st_read_laws.specs.Reading.{IsStepRead};

use crate::calls::{compose_of, effect_of, invert_of, join_of, revert_of, strip_of};
use crate::carriers::ListedCarrier;
use st_ids::Rev;
use st_marks::{Change, Step};
use st_rebaser::{Effected, Rebaser};
use std::alloc::{AllocError, Global};

// Two steps in turn as one.
fn compose_listed(alloc: Global, first: &Step, then: &Step) -> Result<Step, AllocError>
    ensures { IfOk result (λ s. (D E F : Document) → IsExtendedBy D E → IsExtendedBy E F
        → IsStepRead true D E first.now → IsStepRead true E F then.now → IsStepRead true D F s) }
{
    compose_of(alloc, first, then)
}

impl Rebaser for ListedCarrier {
    fn effect(alloc: Global, change: &Change) -> Result<Effected, AllocError> {
        effect_of(alloc, change)
    }

    fn compose(alloc: Global, first: &Step, then: &Step) -> Result<Step, AllocError> {
        compose_listed(alloc, first, then)
    }

    fn splice(alloc: Global, step: &mut Step, then: &Step) -> Result<(), AllocError> {
        *step = compose_listed(alloc, step, then)?;
        Ok(())
    }

    fn strip(alloc: Global, first: &Step, whole: &Step) -> Result<Step, AllocError> {
        strip_of(alloc, first, whole)
    }

    fn invert(alloc: Global, step: &Step) -> Result<Step, AllocError> {
        invert_of(alloc, step)
    }

    fn revert(alloc: Global, step: &Step, rev: Rev, under: Rev) -> Result<Change, AllocError> {
        revert_of(alloc, step, rev, under)
    }

    fn join(alloc: Global, first: &Change, then: &Change) -> Result<Change, AllocError> {
        join_of(alloc, first, then)
    }
}
