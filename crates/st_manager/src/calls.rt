//! What the calls that take an entry answer, and the call that takes a message, as a trait: what is written over a manager rests on its
//! clauses alone.
ghost use Rattle.std.specs.Prelude.{Bool, true, false, ◌≡◌, ◌↔◌, IfOk, IfSome, IsErrOf};
ghost use Rattle.st_ids.specs.Or.{IfRefused};
ghost use Rattle.st_ids.specs.declared.fault.Or.TheVariants.{Fault, NoMemory};
ghost use Rattle.st_normal.specs.Rules.{ObeysChangeRules};
ghost use Rattle.st_manager.specs.Stands.{Stands};
ghost use Rattle.st_manager.specs.Taking.{IsFirstCause, IsTaken, LeavesRoom, change_said};
ghost use Rattle.st_manager.specs.Told.{Told};

use crate::manager::Manager;
use st_ids::Or;
use st_marks::{Step, Verdict};
use st_rebaser::Rebaser;
use st_valid::{Message, ReplayCause};
use std::alloc::Global;

/// What a message did: the verdict of its commit in the document of those received before, or `Sound` where it has none, and the step
/// from the local view before it to the one after it.
#[derive(Drop)]
pub struct Received {
    pub verdict: Verdict,
    pub step: Step,
}

/// Why a message isn't taken: the first test that it fails. `Revision` and `Context` are also the causes for a commit of the own session
/// that isn't the first pending one.
#[derive(Clone, Copy, Debug, PartialEq, Eq)]
pub enum ReceiveFault {
    Refused(ReplayCause),
    Spent,
}

/// The manager is spent: a call that was to change it found no memory.
#[derive(Clone, Copy, Debug, PartialEq, Eq)]
pub struct Spent;

/// A manager that takes entries. After `NoMemory` it is spent, and a refusal leaves it as it was.
pub trait Manages<R: Rebaser>: Sized {
    /// Takes a message as the next entry, where it is valid.
    fn receive(
        manager: &mut Manager<R>,
        alloc: Global,
        message: &Message,
    ) -> Result<Received, Or<ReceiveFault>>
        requires normal { IfSome (change_said message.now.said) ObeysChangeRules }
        ensures spent { IsErrOf result (Fault ReceiveFault.Spent) ↔ (manager.old.spent ≡ true) }
        ensures kept { IfRefused result (λ _. manager.new ≡ manager.old) }
        ensures want { IsErrOf result NoMemory → manager.new.spent ≡ true }
        ensures taken { (t : Told) → Stands R.listed t manager.old → LeavesRoom t message.now
            → IfOk result (λ r. (u : Told) × IsTaken R.listed t message.now u r
            × Stands R.listed u manager.new) }
        ensures cause { (t : Told) → Stands R.listed t manager.old
            → IfRefused result (IsFirstCause t message.now) };
}
