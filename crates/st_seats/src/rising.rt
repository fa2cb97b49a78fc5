//! What a session sent goes past the commits that it has received now.
ghost use Rattle.std.specs.Prelude.{◌≡◌, ◌≤◌, ◌++◌, ℕ, None, drop, length, IfOk, OnOk, List as Seq};
ghost use Rattle.st_lists.specs.declared.lists.Entry.{Entry};
ghost use Rattle.st_marks.specs.Document.{Document};
ghost use Rattle.st_marks.specs.Extends.{IsExtendedBy};
ghost use Rattle.st_read_laws.specs.Reading.{IsStepRead};
ghost use Rattle.st_seats.specs.Seats.{IsWrittenFrom};
ghost use Rattle.st_seats.specs.inside.Rising.{AreNext, HasGone, IsPassed, IsRisen};

use crate::seat::Turns;
use st_ids::Copied;
use st_marks::Step;
use st_rebaser::{Rebaser, push_through};
use st_window::Kept;
use std::alloc::{AllocError, Global};

// A step that goes on by another, if there is one already.
fn go_on<R: Rebaser>(alloc: Global, gone: &mut Option<Step>, then: Step) -> Result<(), AllocError>
    ensures { OnOk result ((A B C : Document) → IsExtendedBy A B → IsExtendedBy B C
        → HasGone R.listed A B gone.old → IsStepRead R.listed B C then → HasGone R.listed A C gone.new) }
{
    match gone {
        Some(step) => R::splice(alloc, step, &then),
        None => {
            *gone = Some(then);
            Ok(())
        }
    }
}

// Another's commit: what was sent goes over its step, and the step from the author's document of old goes on.
fn pass_other<R: Rebaser>(
    alloc: Global,
    step: &Step,
    sent: &mut Turns,
    gone: &mut Option<Step>,
) -> Result<(), AllocError>
    ensures { OnOk result (IsPassed R.listed step.now sent.old gone.old sent.new gone.new) }
{
    let mut over = step.copy(alloc)?;
    push_through::<R>(alloc, &mut sent.changes, &mut sent.verdicts, &mut over)?;
    go_on::<R>(alloc, gone, over)
}

// A commit that the session has received now: an own one was the first that it sent.
fn pass_commit<R: Rebaser>(
    alloc: Global,
    session: u32,
    one: &Kept,
    sent: &mut Turns,
    gone: &mut Option<Step>,
) -> Result<(), AllocError>
    ensures own { one.now.change.rev.session ≡ session → OnOk result ((gone.new ≡ gone.old)
        × (sent.new ≡ record { changes = drop 1 sent.old.changes; verdicts = drop 1 sent.old.verdicts })) }
    ensures other { (one.now.change.rev.session ≡ session → ⊥) → OnOk result
        (IsPassed R.listed one.now.step sent.old gone.old sent.new gone.new) }
{
    if one.change.rev.session == session {
        sent.drop_first();
        return Ok(());
    }
    pass_other::<R>(alloc, &one.step, sent, gone)
}

/// What a session sent goes past the commits up to a reference, which come next. Gives the step from its document of old to that of
/// now, or nothing where that is the same.
pub(crate) fn pass_commits<R: Rebaser>(
    alloc: Global,
    session: u32,
    reference: u32,
    kept: &[Kept],
    sent: &mut Turns,
) -> Result<Option<Step>, AllocError>
    ensures { IfOk result (λ gone. (O A : Document) (log front back : Seq Entry) (known : ℕ) → IsWrittenFrom O log session known
        → log ≡ front ++ back → known ≤ length front → length front ≤ reference → reference ≤ length log
        → AreNext R.listed O log (length front) reference kept.now → IsRisen R.listed O A front back session sent.old None
        → (ahead rest : Seq Entry) × (log ≡ ahead ++ rest) × (length ahead ≡ reference) × IsRisen R.listed O A ahead rest session sent.new gone) }
{
    let mut gone = None;
    for one in kept {
        if one.n <= reference {
            pass_commit::<R>(alloc, session, one, sent, &mut gone)?;
        }
    }
    Ok(gone)
}

/// What is left of a bridge behind the step from the author's document of old to that of now, if there is one. After an `Err` the
/// bridge is as it was.
pub(crate) fn leave_behind<R: Rebaser>(
    alloc: Global,
    gone: Option<Step>,
    bridge: &mut Step,
) -> Result<(), AllocError>
    ensures { OnOk result ((A B T : Document) → IsExtendedBy A B → IsExtendedBy B T → HasGone R.listed A B gone
        → IsStepRead R.listed A T bridge.entry.now → IsStepRead R.listed B T bridge.exit.now) }
{
    match gone {
        None => Ok(()),
        Some(front) => {
            *bridge = R::strip(alloc, &front, bridge)?;
            Ok(())
        }
    }
}
