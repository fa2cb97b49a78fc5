//! Changes that stand in turn, carried over a step.
ghost use Rattle.std.specs.Prelude.{Bool, ◌≡◌, OnOk, List as Seq};
ghost use Rattle.st_marks.specs.declared.intents.Intent.{Intent};
ghost use Rattle.st_marks.specs.Document.{Document};
ghost use Rattle.st_marks.specs.Extends.{IsExtendedBy};
ghost use Rattle.st_log_laws.specs.Turns.{FitInTurn};
ghost use Rattle.st_read_laws.specs.Reading.{IsStepRead};
ghost use Rattle.st_rebaser.specs.InTurn.{HaveVerdicts, ShowInTurn};
ghost use Rattle.st_rebaser.specs.inside.Turns.{IsTurn};

use crate::rebaser::Carrier;
use st_ids::List;
use st_marks::{Change, Step, Verdict};
use std::alloc::{AllocError, Global};

// Carries the change at a place over the step.
fn carry_at<R: Carrier>(
    alloc: Global,
    changes: &mut List<Change>,
    verdicts: &mut List<Verdict>,
    place: usize,
    step: &mut Step,
) -> Result<(), AllocError>
    ensures { OnOk result (IsTurn R.listed place changes.old verdicts.old step.entry.now
        changes.new verdicts.new step.exit.now) }
{
    let Some(change) = changes.get_mut(place) else {
        return Ok(());
    };
    let Some(verdict) = verdicts.get_mut(place) else {
        return Ok(());
    };
    R::carry(alloc, change, verdict, step)
}

/// Carries changes that stand in turn, each in the document that those before it leave, over a step, and the step over them: the
/// changes become those of the same intents behind the step, with their verdicts there, and the step leads from the document that they
/// left to the one that they leave now. After an `Err` they are spent.
pub fn push_through<R: Carrier>(
    alloc: Global,
    changes: &mut List<Change>,
    verdicts: &mut List<Verdict>,
    step: &mut Step,
) -> Result<(), AllocError>
    ensures { OnOk result ((D E F : Document) (Ns : Seq Intent)
        → IsExtendedBy D E → FitInTurn D Ns → FitInTurn E Ns
        → ShowInTurn R.listed D Ns changes.old F → HaveVerdicts D Ns verdicts.old
        → IsStepRead R.listed D E step.entry.now
        → (G : Document) × ShowInTurn R.listed E Ns changes.new G × HaveVerdicts E Ns verdicts.new
        × IsExtendedBy F G × IsStepRead R.listed F G step.exit.now) }
{
    for place in 0..changes.len() {
        carry_at::<R>(alloc, changes, verdicts, place, step)?;
    }
    Ok(())
}
