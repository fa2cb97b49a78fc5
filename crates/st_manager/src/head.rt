//! The document of all commits received and the pending commits, and how they go on.
ghost use Rattle.std.specs.Prelude.{Bool, true, false, ◌≡◌, ◌∷◌, IfOk, OnOk, List as Seq};
ghost use Rattle.st_forest.specs.Stands.{StandsFor};
ghost use Rattle.st_log_laws.specs.Turns.{FitInTurn};
ghost use Rattle.st_marks.specs.declared.intents.Intent.{Intent};
ghost use Rattle.st_marks.specs.declared.verdicts.Verdict.{Verdict as Outcome};
ghost use Rattle.st_marks.specs.Document.{Document};
ghost use Rattle.st_marks.specs.Extends.{IsExtendedBy};
ghost use Rattle.st_marks.specs.Verdict.{IsVerdict, carried_document};
ghost use Rattle.st_read_laws.specs.Reading.{IsStepRead};
ghost use Rattle.st_seats.specs.Seats.{StandInTurn};

use st_forest::Forest;
use st_ids::Copied;
use st_marks::Step;
use st_rebaser::{Rebaser, push_through};
use st_seats::{Turns, no_step};
use std::alloc::{AllocError, Global};

// The pending commits go on by the step of another's commit. Gives the step behind them. After an `Err` they are spent.
fn go_past<R: Rebaser>(alloc: Global, pending: &mut Turns, step: &Step) -> Result<Step, AllocError>
    ensures { IfOk result (λ s. (D E F : Document) (Ns : Seq Intent)
        → IsExtendedBy D E → FitInTurn D Ns → FitInTurn E Ns
        → StandInTurn R.listed D Ns pending.old F → IsStepRead R.listed D E step.now
        → (G : Document) × StandInTurn R.listed E Ns pending.new G × IsExtendedBy F G × IsStepRead R.listed F G s) }
{
    let mut over = step.copy(alloc)?;
    push_through::<R>(
        alloc,
        &mut pending.changes,
        &mut pending.verdicts,
        &mut over,
    )?;
    Ok(over)
}

// The pending commits go on by the step of a commit that comes next. Gives the step of the local view. After an `Err` they are spent.
fn pending_go_on<R: Rebaser>(
    alloc: Global,
    pending: &mut Turns,
    step: &Step,
    own: bool,
) -> Result<Step, AllocError>
    ensures own { IfOk result (λ s. own ≡ true → (D F : Document) (N : Intent) (Ns : Seq Intent) (v : Outcome)
        → StandInTurn R.listed D (N ∷ Ns) pending.old F → IsVerdict D N v
        → StandInTurn R.listed (carried_document v D N) Ns pending.new F × IsStepRead R.listed F F s) }
    ensures other { IfOk result (λ s. own ≡ false → (D E F : Document) (Ns : Seq Intent)
        → IsExtendedBy D E → FitInTurn D Ns → FitInTurn E Ns
        → StandInTurn R.listed D Ns pending.old F → IsStepRead R.listed D E step.now
        → (G : Document) × StandInTurn R.listed E Ns pending.new G × IsExtendedBy F G × IsStepRead R.listed F G s) }
{
    if own {
        pending.drop_first();
        Ok(no_step(alloc))
    } else {
        go_past::<R>(alloc, pending, step)
    }
}

/// The tables and the pending commits go on by the step of a commit that comes next. An own commit was the first pending one, and what
/// is shown stays; another's goes on through the pending ones. Gives the step of the local view. After an `Err` both are spent.
pub(crate) fn head_goes_on<R: Rebaser>(
    alloc: Global,
    trunk: &mut Forest,
    pending: &mut Turns,
    step: &Step,
    own: bool,
) -> Result<Step, AllocError>
    ensures tables { OnOk result ((D E : Document) → StandsFor trunk.old D → IsExtendedBy D E
        → IsStepRead R.listed D E step.now → StandsFor trunk.new E) }
    ensures own { IfOk result (λ s. own ≡ true → (D F : Document) (N : Intent) (Ns : Seq Intent) (v : Outcome)
        → StandInTurn R.listed D (N ∷ Ns) pending.old F → IsVerdict D N v
        → StandInTurn R.listed (carried_document v D N) Ns pending.new F × IsStepRead R.listed F F s) }
    ensures other { IfOk result (λ s. own ≡ false → (D E F : Document) (Ns : Seq Intent)
        → IsExtendedBy D E → FitInTurn D Ns → FitInTurn E Ns
        → StandInTurn R.listed D Ns pending.old F → IsStepRead R.listed D E step.now
        → (G : Document) × StandInTurn R.listed E Ns pending.new G × IsExtendedBy F G × IsStepRead R.listed F G s) }
{
    trunk.apply(alloc, step)?;
    pending_go_on::<R>(alloc, pending, step, own)
}
