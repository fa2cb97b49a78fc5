//! A change over a step, and the step over the change, at once.
ghost use Rattle.std.specs.Prelude.{◌≡◌, OnOk, IfOk, false};
ghost use Rattle.st_marks.specs.declared.intents.Intent.{Intent};
ghost use Rattle.st_marks.specs.declared.verdicts.Verdict.{Verdict as Outcome};
ghost use Rattle.st_marks.specs.CarryOut.{full};
ghost use Rattle.st_marks.specs.Document.{Document, HasShortRows};
ghost use Rattle.st_marks.specs.Extends.{IsExtendedBy};
ghost use Rattle.st_marks.specs.Intent.{Fits};
ghost use Rattle.st_marks.specs.Verdict.{IsVerdict, carried_document};
ghost use Rattle.st_over.specs.Laid.{CanBeLaid};
ghost use Rattle.st_passing.specs.Whole.{Passes};
ghost use Rattle.st_read_laws.specs.Reading.{IsRead, IsStepRead};
ghost use Rattle.st_reading.specs.Bridge.{is_void as is_void_by};

use crate::over::over_change;
use st_fast_path::{pass, raise_both};
use st_ids::Copied;
use st_lean::{can_be_laid, rebase};
use st_marks::{Change, Step, Verdict};
use st_moves::documents_have_room;
use st_reading::{Reading, Thin};
use st_void::verdict;
use std::alloc::{AllocError, Global};

// Whether a commit that has a verdict is void.
fn is_void(verdict: Verdict) -> bool
    ensures { result ≡ is_void_by verdict }
{
    match verdict {
        Verdict::Sound => false,
        Verdict::Schema(_) | Verdict::Need(_) | Verdict::Cycle(_) => true,
    }
}

// A change after a step.
fn rebased<R: Reading>(
    alloc: Global,
    reading: &R,
    change: &Change,
    step: &Step,
) -> Result<Change, AllocError>
    ensures { IfOk result (λ x. (D E : Document) (N : Intent)
        → IsExtendedBy D E → Fits D N → Fits E N → HasShortRows (full E N)
        → IsRead R.listed D N change.now → IsStepRead R.listed D E step.now → IsRead R.listed E N x) }
{
    let mut next = change.copy(alloc)?;
    rebase(alloc, reading, &mut next, step)?;
    Ok(next)
}

// The step over a change, of which it is known what it is after the step; and that change with its verdict.
fn carry_with<R: Reading>(
    alloc: Global,
    reading: &R,
    change: &mut Change,
    was: &mut Verdict,
    step: &mut Step,
    next: Change,
) -> Result<(), AllocError>
    requires { CanBeLaid change.now step.now }
    ensures { OnOk result ((D E : Document) (N : Intent)
        → IsExtendedBy D E → Fits D N → Fits E N → HasShortRows (full D N) → HasShortRows (full E N)
        → IsVerdict D N was.old → IsRead R.listed D N change.entry.now → IsRead R.listed E N next → IsStepRead R.listed D E step.entry.now
        → IsVerdict E N was.new × IsRead R.listed E N change.exit.now
        × IsExtendedBy (carried_document was.old D N) (carried_document was.new E N)
        × IsStepRead R.listed (carried_document was.old D N) (carried_document was.new E N) step.exit.now) }
{
    let is = verdict(&next);
    over_change(
        alloc,
        reading,
        change,
        &next,
        is_void(*was),
        is_void(is),
        step,
    )?;
    *change = next;
    *was = is;
    Ok(())
}

// Both over each other, where their listings can be laid beside each other.
fn carry_laid<R: Reading>(
    alloc: Global,
    reading: &R,
    change: &mut Change,
    was: &mut Verdict,
    step: &mut Step,
) -> Result<(), AllocError>
    requires { CanBeLaid change.now step.now }
    ensures { OnOk result ((D E : Document) (N : Intent)
        → IsExtendedBy D E → Fits D N → Fits E N → HasShortRows (full D N) → HasShortRows (full E N)
        → IsVerdict D N was.old → IsRead R.listed D N change.entry.now → IsStepRead R.listed D E step.entry.now
        → IsVerdict E N was.new × IsRead R.listed E N change.exit.now
        × IsExtendedBy (carried_document was.old D N) (carried_document was.new E N)
        × IsStepRead R.listed (carried_document was.old D N) (carried_document was.new E N) step.exit.now) }
{
    let next = rebased(alloc, reading, change, step)?;
    carry_with(alloc, reading, change, was, step, next)
}

/// A change over a step, and the step over the change, at once: the change becomes that of its intent in the later document, with the
/// verdict there, and the step leads from the earlier document after the intent to the later one after it. `was` is the verdict of the
/// change before. Of two that don't stand over one document, anything may become. After an `Err` the step may be spent.
pub fn carry<R: Reading>(
    alloc: Global,
    reading: &R,
    change: &mut Change,
    was: &mut Verdict,
    step: &mut Step,
) -> Result<(), AllocError>
    ensures { OnOk result ((D E : Document) (N : Intent)
        → IsExtendedBy D E → Fits D N → Fits E N → HasShortRows (full D N) → HasShortRows (full E N)
        → IsVerdict D N was.old → IsRead R.listed D N change.entry.now → IsStepRead R.listed D E step.entry.now
        → IsVerdict E N was.new × IsRead R.listed E N change.exit.now
        × IsExtendedBy (carried_document was.old D N) (carried_document was.new E N)
        × IsStepRead R.listed (carried_document was.old D N) (carried_document was.new E N) step.exit.now) }
{
    documents_have_room();
    if !can_be_laid(alloc, change, step) {
        return Ok(());
    }
    carry_laid(alloc, reading, change, was, step)
}

// A change and a step that pass each other, over each other.
fn carry_passing(change: &mut Change, step: &mut Step) -> Result<(), AllocError>
    requires laid { CanBeLaid change.now step.now }
    requires passes { Passes change.now step.now }
    ensures { OnOk result ((D E : Document) (N : Intent) (v : Outcome)
        → IsExtendedBy D E → Fits D N → Fits E N → HasShortRows (full D N) → HasShortRows (full E N)
        → IsVerdict D N v → IsRead false D N change.entry.now → IsStepRead false D E step.entry.now
        → IsVerdict E N v × IsRead false E N change.exit.now
        × IsExtendedBy (carried_document v D N) (carried_document v E N)
        × IsStepRead false (carried_document v D N) (carried_document v E N) step.exit.now) }
{
    raise_both(change, step)
}

/// The same where empty cells are counted: where the two pass each other, each only counts the cells that the other makes, and the
/// verdict stays. After an `Err` both may be spent.
pub fn carry_thin(
    alloc: Global,
    change: &mut Change,
    was: &mut Verdict,
    step: &mut Step,
) -> Result<(), AllocError>
    ensures { OnOk result ((D E : Document) (N : Intent)
        → IsExtendedBy D E → Fits D N → Fits E N → HasShortRows (full D N) → HasShortRows (full E N)
        → IsVerdict D N was.old → IsRead false D N change.entry.now → IsStepRead false D E step.entry.now
        → IsVerdict E N was.new × IsRead false E N change.exit.now
        × IsExtendedBy (carried_document was.old D N) (carried_document was.new E N)
        × IsStepRead false (carried_document was.old D N) (carried_document was.new E N) step.exit.now) }
{
    documents_have_room();
    if !can_be_laid(alloc, change, step) {
        return Ok(());
    }
    if pass(change, step) {
        return carry_passing(change, step);
    }
    carry_laid(alloc, &Thin, change, was, step)
}
