//! Changes in turn, and what is kept of a session.
ghost use Rattle.std.specs.Prelude.{◌≡◌, ◌≤◌, ◌++◌, ◌∷◌, [], ℕ, drop, length, IfOk, OnOk, List as Seq};
ghost use Rattle.st_log_laws.specs.Turns.{FitInTurn, HasRoom};
ghost use Rattle.st_lists.specs.declared.lists.Entry.{Entry};
ghost use Rattle.st_marks.specs.declared.intents.Intent.{Intent};
ghost use Rattle.st_marks.specs.CarryOut.{full};
ghost use Rattle.st_marks.specs.Document.{Document, HasShortRows, IsSoundInForm};
ghost use Rattle.st_marks.specs.Extends.{IsExtendedBy};
ghost use Rattle.st_marks.specs.Intent.{Fits};
ghost use Rattle.st_marks.specs.Verdict.{IsVerdict};
ghost use Rattle.st_read_laws.specs.Reading.{IsRead, IsStepRead};
ghost use Rattle.st_window_laws.specs.Windows.{IsWindowOf};
ghost use Rattle.st_seats.specs.Seats.{IsSeatAt, IsTaken, IsWrittenFrom, StandInTurn};

use crate::rising::{leave_behind, pass_commits};
use st_ids::{Copied, List};
use st_marks::{Change, Step, Verdict};
use st_rebaser::Rebaser;
use st_window::Window;
use std::alloc::{AllocError, Global};

/// Changes that stand in turn, each in the document that those before it leave, with their verdicts there.
#[derive(Drop)]
pub struct Turns {
    pub changes: List<Change>,
    pub verdicts: List<Verdict>,
}

/// What is kept of a session that is connected: its known reference, what it sent above that, and the step from the document over which
/// it writes to that of all commits received.
#[derive(Drop)]
pub struct Seat {
    pub reference: u32,
    pub sent: Turns,
    pub bridge: Step,
}

impl Turns {
    /// No changes.
    pub fn new(alloc: Global) -> Turns
        ensures { result ≡ record { changes = []; verdicts = [] } }
    {
        Turns {
            changes: List::new(alloc),
            verdicts: List::new(alloc),
        }
    }

    /// One change more, with its verdict. After an `Err` they are spent.
    pub fn push(&mut self, change: Change, verdict: Verdict) -> Result<(), AllocError>
        ensures { OnOk result (self.new ≡ record {
          changes = self.old.changes ++ change ∷ [];
          verdicts = self.old.verdicts ++ verdict ∷ [];
        }) }
    {
        self.changes.push(change)?;
        self.verdicts.push(verdict)?;
        Ok(())
    }

    // A change is sent: a copy of it comes behind the others, with the verdict that it has there. Gives that. After an `Err` they are
    // spent.
    fn send<R: Rebaser>(&mut self, alloc: Global, change: &Change) -> Result<Verdict, AllocError>
        ensures sent { IfOk result (λ v. self.new ≡ record {
          changes = self.old.changes ++ change.now ∷ [];
          verdicts = self.old.verdicts ++ v ∷ [];
        }) }
        ensures verdict { IfOk result (λ v. (A : Document) (N : Intent) → IsSoundInForm A → Fits A N → HasShortRows (full A N)
            → IsRead R.listed A N change.now → IsVerdict A N v) }
    {
        let verdict = verdict_of::<R>(alloc, change)?;
        let copy = change.copy(alloc)?;
        self.push(copy, verdict)?;
        Ok(verdict)
    }

    /// The first one goes, if there is one.
    pub fn drop_first(&mut self)
        ensures { self.new ≡ record { changes = drop 1 self.old.changes; verdicts = drop 1 self.old.verdicts } }
    {
        drop_one(&mut self.changes);
        drop_one(&mut self.verdicts);
    }
}

// The first element goes, if there is one.
fn drop_one<T: Drop>(all: &mut List<T>)
    ensures { all.new ≡ drop 1 all.old }
{
    if !all.is_empty() {
        let _first = all.remove(0);
    }
}

impl Seat {
    /// The session has received the log up to a reference that isn't lower, of which the window has all commits above the reference of
    /// old: what it sent after the new one stands there, and its bridge begins where that leads. It costs what those commits and what
    /// was sent cost over each other. After an `Err` the seat is spent.
    pub fn raise<R: Rebaser>(
        &mut self,
        alloc: Global,
        window: &Window,
        session: u32,
        reference: u32,
    ) -> Result<(), AllocError>
        ensures { OnOk result ((O : Document) (log : Seq Entry) (known : ℕ) → IsWrittenFrom O log session known
            → IsWindowOf R.listed O log window.now → window.now.floor ≤ known → known ≤ reference → reference ≤ length log
            → IsSeatAt R.listed O log session known self.old → IsSeatAt R.listed O log session reference self.new) }
    {
        match window.since(self.reference) {
            Err(_) => Ok(()),
            Ok(kept) => {
                let gone = pass_commits::<R>(alloc, session, reference, kept, &mut self.sent)?;
                leave_behind::<R>(alloc, gone, &mut self.bridge)?;
                self.reference = reference;
                Ok(())
            }
        }
    }

    /// The session commits: its change stands behind those that it sent, and the bridge goes over it. In place the change becomes that
    /// of the commit where it comes, behind all commits received; gives its verdict there. After an `Err` the seat is spent.
    pub fn take_commit<R: Rebaser>(
        &mut self,
        alloc: Global,
        change: &mut Change,
    ) -> Result<Verdict, AllocError>
        ensures reference { OnOk result (self.new.reference ≡ self.old.reference) }
        ensures taken { IfOk result (λ u. (B A T : Document) (Ns : Seq Intent) (N : Intent) → IsSoundInForm A → IsExtendedBy A T
            → Fits A N → Fits T N → HasShortRows (full A N) → HasShortRows (full T N) → IsRead R.listed A N change.entry.now
            → StandInTurn R.listed B Ns self.old.sent A → IsStepRead R.listed A T self.old.bridge
            → IsTaken R.listed B A T Ns N change.exit.now u self.new) }
    {
        let mut verdict = self.sent.send::<R>(alloc, change)?;
        R::carry(alloc, change, &mut verdict, &mut self.bridge)?;
        Ok(verdict)
    }
}

// The verdict of a change where it stands.
fn verdict_of<R: Rebaser>(alloc: Global, change: &Change) -> Result<Verdict, AllocError>
    ensures { IfOk result (λ v. (A : Document) (N : Intent) → IsSoundInForm A → Fits A N → HasShortRows (full A N)
        → IsRead R.listed A N change.now → IsVerdict A N v) }
{
    let effected = R::effect(alloc, change)?;
    Ok(effected.verdict)
}
