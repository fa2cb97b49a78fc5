//! What else is done with changes and steps that count empty cells.
ghost use Rattle.std.specs.Prelude.{false, IfOk};
ghost use Rattle.st_marks.specs.declared.intents.Intent.{Intent};
ghost use Rattle.st_marks.specs.CarryOut.{full};
ghost use Rattle.st_marks.specs.Document.{Document, HasShortRows};
ghost use Rattle.st_marks.specs.Extends.{IsExtendedBy};
ghost use Rattle.st_mention_laws.specs.Shown.{Shows, ShowsStep};
ghost use Rattle.st_read_laws.specs.Reading.{IsRead, IsStepRead};

use crate::calls::{compose_of, effect_of, invert_of, join_of, revert_of, strip_of};
use crate::carriers::ThinCarrier;
use st_effect::changes_have_short_rows;
use st_ids::Rev;
use st_marks::{Change, Step};
use st_rebaser::{Effected, Rebaser};
use st_steps::steps_have_short_rows;
use st_thin::{thin_change, thin_step};
use std::alloc::{AllocError, Global};

// A step between documents with its empty cells counted.
fn step_thinned(alloc: Global, mut step: Step) -> Result<Step, AllocError>
    ensures { (D E : Document) → IsExtendedBy D E → ShowsStep D E step → IfOk result (IsStepRead false D E) }
{
    steps_have_short_rows();
    thin_step(alloc, &mut step)?;
    Ok(step)
}

// A change of an intent with its empty cells counted.
fn change_thinned(alloc: Global, mut change: Change) -> Result<Change, AllocError>
    ensures { (D : Document) (N : Intent) → HasShortRows (full D N) → Shows D N change → IfOk result (IsRead false D N) }
{
    changes_have_short_rows();
    thin_change(alloc, &mut change)?;
    Ok(change)
}

// Two steps in turn as one.
fn compose_thin(alloc: Global, first: &Step, then: &Step) -> Result<Step, AllocError>
    ensures { IfOk result (λ s. (D E F : Document) → IsExtendedBy D E → IsExtendedBy E F
        → IsStepRead false D E first.now → IsStepRead false E F then.now → IsStepRead false D F s) }
{
    let both = compose_of(alloc, first, then)?;
    step_thinned(alloc, both)
}

impl Rebaser for ThinCarrier {
    fn effect(alloc: Global, change: &Change) -> Result<Effected, AllocError> {
        let done = effect_of(alloc, change)?;
        let step = step_thinned(alloc, done.step)?;
        Ok(Effected {
            step,
            verdict: done.verdict,
        })
    }

    fn compose(alloc: Global, first: &Step, then: &Step) -> Result<Step, AllocError> {
        compose_thin(alloc, first, then)
    }

    fn splice(alloc: Global, step: &mut Step, then: &Step) -> Result<(), AllocError> {
        *step = compose_thin(alloc, step, then)?;
        Ok(())
    }

    fn strip(alloc: Global, first: &Step, whole: &Step) -> Result<Step, AllocError> {
        let rest = strip_of(alloc, first, whole)?;
        step_thinned(alloc, rest)
    }

    fn invert(alloc: Global, step: &Step) -> Result<Step, AllocError> {
        let back = invert_of(alloc, step)?;
        step_thinned(alloc, back)
    }

    fn revert(alloc: Global, step: &Step, rev: Rev, under: Rev) -> Result<Change, AllocError> {
        let back = revert_of(alloc, step, rev, under)?;
        change_thinned(alloc, back)
    }

    fn join(alloc: Global, first: &Change, then: &Change) -> Result<Change, AllocError> {
        let both = join_of(alloc, first, then)?;
        change_thinned(alloc, both)
    }
}
