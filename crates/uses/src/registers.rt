//! A use of `st_register`.
ghost use Rattle.std.specs.Prelude.{◌≡◌, false};
ghost use Rattle.st_kind.specs.Refused.{IfMemory};
ghost use Rattle.st_register.specs.Register.{RegPart, RegCanHold, RegFits, RegKeeps, RegLeadsOver, reg_carried, reg_change_of};

use st_ids::Or;
use st_kind::{Apart, FieldKind};
use st_register::{RegChange, RegHeld, RegSwap, Register};
use std::alloc::Global;

/// What a change does with a register where a step came in between: it leads from what the step left to what the
/// change's author would have made of that.
pub fn swap_after(alloc: Global, change: &RegChange, step: &RegSwap) -> Result<RegSwap, Or<Apart>>
    ensures { (p : RegPart) (c d : RegHeld) → change.now ≡ reg_change_of p c
        → RegLeadsOver c d step.now → RegFits p c → RegFits p d → RegKeeps p c d
        → RegCanHold (reg_carried p false d)
        → IfMemory result (RegLeadsOver d (reg_carried p false d)) }
{
    let rebased = Register::rebase(alloc, change, step)?;
    Ok(Register::effect(alloc, &rebased, false)?)
}
