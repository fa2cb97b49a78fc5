//! A caller, proved from the clauses alone.
ghost use Rattle.std.specs.Prelude.{◌≡◌, ◌+◌, IfSome, IfOk, length};
ghost use Rattle.st_normal.specs.Rules.{ObeysChangeRules};
ghost use Rattle.st_manager.specs.Stands.{Stands};
ghost use Rattle.st_manager.specs.Taking.{LeavesRoom, change_said};
ghost use Rattle.st_manager.specs.Told.{Told};

use crate::calls::{Manages, ReceiveFault};
use crate::manager::Manager;
use st_ids::Or;
use st_rebaser::Rebaser;
use st_valid::Message;
use std::alloc::Global;

/// Takes a message, and tells how many entries there are then.
pub fn number_after<R: Rebaser, M: Manages<R>>(
    manager: &mut Manager<R>,
    alloc: Global,
    message: &Message,
) -> Result<u32, Or<ReceiveFault>>
    requires normal { IfSome (change_said message.now.said) ObeysChangeRules }
    ensures { (t : Told) → Stands R.listed t manager.old → LeavesRoom t message.now
        → IfOk result (λ n. n ≡ length t.log + 1) }
{
    let _received = M::receive(manager, alloc, message)?;
    Ok(manager.number())
}
