//! The way back over the step of one commit, carried over the commits behind it.
ghost use Rattle.std.specs.Prelude.{◌≡◌, IfOk, OnOk, List as Seq};
ghost use Rattle.st_ids.specs.Listing.{Has};
ghost use Rattle.st_log_laws.specs.Turns.{FitInTurn};
ghost use Rattle.st_marks.specs.declared.intents.Intent.{Intent};
ghost use Rattle.st_marks.specs.declared.verdicts.Verdict.{Verdict as Outcome};
ghost use Rattle.st_marks.specs.Back.{IsBack};
ghost use Rattle.st_marks.specs.CarryOut.{full};
ghost use Rattle.st_marks.specs.Document.{Document, HasShortRows, IsSoundInForm, revs};
ghost use Rattle.st_marks.specs.Extends.{IsExtendedBy};
ghost use Rattle.st_marks.specs.Intent.{Fits};
ghost use Rattle.st_marks.specs.Verdict.{IsVerdict, carried_document};
ghost use Rattle.st_read_laws.specs.Reading.{IsRead, IsStepRead};
ghost use Rattle.st_rebaser.specs.InTurn.{ShowInTurn};
ghost use Rattle.st_undo.specs.inside.Carrying.{GoesOver, LeadInTurn, MakesNothing, Stands};

use st_ids::{Copied, OPENING, Rev};
use st_marks::{Change, Step, Verdict};
use st_rebaser::Rebaser;
use st_window::Kept;
use std::alloc::{AllocError, Global};

// A change goes over a step, which stays.
fn go_over<R: Rebaser>(
    alloc: Global,
    step: &Step,
    change: &mut Change,
    verdict: &mut Verdict,
) -> Result<(), AllocError>
    ensures { OnOk result (GoesOver R.listed step.now change.entry.now verdict.old change.exit.now verdict.new) }
{
    let mut over = step.copy(alloc)?;
    R::carry(alloc, change, verdict, &mut over)
}

// A change goes over commits that were received.
fn go_over_kept<R: Rebaser>(
    alloc: Global,
    kept: &[Kept],
    change: &mut Change,
    verdict: &mut Verdict,
) -> Result<(), AllocError>
    ensures { OnOk result ((D T : Document) (B : Intent) → MakesNothing B → LeadInTurn R.listed D kept.now T
        → Stands R.listed D B change.entry.now verdict.old → Stands R.listed T B change.exit.now verdict.new) }
{
    for one in kept {
        go_over::<R>(alloc, &one.step, change, verdict)?;
    }
    Ok(())
}

// A change goes over another that stands where it does.
fn go_over_change<R: Rebaser>(
    alloc: Global,
    other: &Change,
    change: &mut Change,
    verdict: &mut Verdict,
) -> Result<(), AllocError>
    ensures { OnOk result ((D : Document) (N B : Intent) (v : Outcome) → IsSoundInForm D → Fits D N → HasShortRows (full D N)
        → IsVerdict D N v → IsRead R.listed D N other.now → MakesNothing B → Stands R.listed D B change.entry.now verdict.old
        → Stands R.listed (carried_document v D N) B change.exit.now verdict.new) }
{
    let effected = R::effect(alloc, other)?;
    go_over::<R>(alloc, &effected.step, change, verdict)
}

// A change goes over commits that are pending.
fn go_over_pending<R: Rebaser>(
    alloc: Global,
    pending: &[Change],
    change: &mut Change,
    verdict: &mut Verdict,
) -> Result<(), AllocError>
    ensures { OnOk result ((T F : Document) (Ns : Seq Intent) (B : Intent) → MakesNothing B → IsSoundInForm T → FitInTurn T Ns
        → ShowInTurn R.listed T Ns pending.now F
        → Stands R.listed T B change.entry.now verdict.old → Stands R.listed F B change.exit.now verdict.new) }
{
    for other in pending {
        go_over_change::<R>(alloc, other, change, verdict)?;
    }
    Ok(())
}

// The verdict of a change where it stands.
fn verdict_of<R: Rebaser>(alloc: Global, change: &Change) -> Result<Verdict, AllocError>
    ensures { IfOk result (λ v. (D : Document) (N : Intent) → IsSoundInForm D → Fits D N → HasShortRows (full D N)
        → IsRead R.listed D N change.now → IsVerdict D N v) }
{
    let effected = R::effect(alloc, change)?;
    Ok(effected.verdict)
}

// A change goes over commits that were received, and then over those that are pending.
fn go_over_all<R: Rebaser>(
    alloc: Global,
    kept: &[Kept],
    pending: &[Change],
    change: &mut Change,
) -> Result<(), AllocError>
    ensures { OnOk result ((D T F : Document) (Ns : Seq Intent) (B : Intent) → MakesNothing B → IsSoundInForm D → IsSoundInForm T
        → Fits D B → LeadInTurn R.listed D kept.now T → FitInTurn T Ns → ShowInTurn R.listed T Ns pending.now F
        → IsRead R.listed D B change.entry.now → IsRead R.listed F B change.exit.now) }
{
    let mut verdict = verdict_of::<R>(alloc, change)?;
    go_over_kept::<R>(alloc, kept, change, &mut verdict)?;
    go_over_pending::<R>(alloc, pending, change, &mut verdict)
}

/// The change, behind all commits, of the way back over the step of one: the step leads from D to E, those of the commits kept on to
/// T, and the pending ones to F. It is made under the opening's revision, which is in effect in each document, and says at the end
/// that it was made under another, which has to be in effect in F.
pub(crate) fn way_back<R: Rebaser>(
    alloc: Global,
    step: &Step,
    kept: &[Kept],
    pending: &[Change],
    fresh: Rev,
    under: Rev,
) -> Result<Change, AllocError>
    ensures { IfOk result (λ C. (D E T F : Document) (Ns : Seq Intent) (B : Intent) → IsExtendedBy D E → IsSoundInForm T
        → IsBack D E fresh under B → IsStepRead R.listed D E step.now → LeadInTurn R.listed E kept.now T → FitInTurn T Ns
        → ShowInTurn R.listed T Ns pending.now F → Has (revs F.schemas) under → IsRead R.listed F B C) }
{
    let mut change = R::revert(alloc, step, fresh, OPENING)?;
    go_over_all::<R>(alloc, kept, pending, &mut change)?;
    change.under = under;
    change.base = true;
    Ok(change)
}
