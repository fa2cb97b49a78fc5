//! A use of `st_seq`.
ghost use Rattle.std.specs.Prelude.{false};
ghost use Rattle.st_kind.specs.Named.{Nodes};
ghost use Rattle.st_kind.specs.Refused.{IfMemory};
ghost use Rattle.st_rows.specs.Sequence.{RowLeadsOver, SeqPart, row_carried};
ghost use Rattle.uses.specs.Beside.{StandBeside};

use st_ids::Or;
use st_kind::{Apart, FieldKind};
use st_rows::{RowChange, RowHeld, RowStep};
use st_seq::Sequence;
use std::alloc::Global;

/// What a change does with a row where a step came in between: it leads from the row that the step left to the one that the
/// change's author would have made of it.
pub fn step_after(alloc: Global, change: &RowChange, step: &RowStep) -> Result<RowStep, Or<Apart>>
    requires { (p : SeqPart) × (m : Nodes) × (c : RowHeld) × (d : RowHeld)
        × StandBeside p m c d change.now step.now }
    ensures { (p : SeqPart) (m : Nodes) (c d : RowHeld) → StandBeside p m c d change.now step.now
        → IfMemory result (λ s. RowLeadsOver p.part.mentioned d.cells (row_carried p false d.cells)
        s.marks) }
{
    let rebased = Sequence::rebase(alloc, change, step)?;
    Ok(Sequence::effect(alloc, &rebased, false)?)
}
