//! A commit that is known to be valid comes as the next entry.
ghost use Rattle.std.specs.Prelude.{Bool, ℕ, true, false, Some, ◌≡◌, ◌↔◌, IfOk, IsErr, IsErrOf, OnOk};
ghost use Rattle.st_clusters.specs.declared.ids.IdRange.{IdRange as Range};
ghost use Rattle.st_ids.specs.Or.{IfRefused};
ghost use Rattle.st_ids.specs.declared.fault.Or.TheVariants.{Fault, NoMemory};
ghost use Rattle.st_lists.specs.declared.lists.Body.TheVariants.{Commit};
ghost use Rattle.st_log_laws.specs.Turns.{HasRoom};
ghost use Rattle.st_marks.specs.declared.intents.Intent.{Intent};
ghost use Rattle.st_manager.specs.Stands.{Stands};
ghost use Rattle.st_manager.specs.Taking.{IsKnownAs, IsKnownTaken};
ghost use Rattle.st_manager.specs.Told.{IsNextTold, Told, local_list};
ghost use Rattle.st_manager.specs.inside.Receiving.{IsUnderWay};

use crate::calls::{Received, Spent};
use crate::head::head_goes_on;
use crate::keeping::keep;
use crate::manager::Manager;
use crate::noting::{names_in_change, note_commit};
use st_clusters::IdRange;
use st_ids::Or;
use st_marks::{Change, Step};
use st_rebaser::{Effected, Rebaser};
use st_seats::seats_take;
use st_window::Kept;
use std::alloc::{AllocError, Global};

// What a commit does where it comes, and the step of the local view.
#[derive(Drop)]
pub(crate) struct Passed {
    pub effected: Effected,
    pub local: Step,
}

// Whether a session is the own one.
fn is_own(own: Option<u32>, session: u32) -> bool
    ensures { (result ≡ true) ↔ (own ≡ Some session) }
{
    match own {
        Some(one) => one == session,
        None => false,
    }
}

impl<R: Rebaser> Manager<R> {
    // The ledger, the seats and the head go on by a commit, whose change becomes that where it comes. After an `Err` they are spent.
    fn pass(
        &mut self,
        alloc: Global,
        change: &mut Change,
        session: u32,
        reference: u32,
        ids: IdRange,
    ) -> Result<Passed, AllocError>
        ensures spent { self.new.spent ≡ self.old.spent }
        ensures passed { IfOk result (λ p. (t u : Told) (N : Intent) → Stands R.listed t (record self.old { spent = false })
            → IsKnownAs R.listed t session reference ids change.entry.now N
            → IsNextTold t session (Commit reference ids N) u → HasRoom u.opening (local_list u)
            → IsUnderWay R.listed t u session reference ids N self.new change.exit.now p) }
    {
        let names = names_in_change(change);
        note_commit(&mut self.ledger, session, reference, ids, change.rev, names)?;
        let effected = seats_take::<R>(
            alloc,
            &mut self.seats,
            &self.window,
            session,
            reference,
            change,
        )?;
        let own = is_own(self.own, session);
        let local = head_goes_on::<R>(
            alloc,
            &mut self.trunk,
            &mut self.pending,
            &effected.step,
            own,
        )?;
        Ok(Passed { effected, local })
    }

    // A commit on its way is kept, and the floor rises. After an `Err` the window is spent.
    fn keep_commit(
        &mut self,
        change: Change,
        passed: Passed,
        ids: IdRange,
    ) -> Result<Received, AllocError>
        ensures spent { self.new.spent ≡ self.old.spent }
        ensures kept { IfOk result (λ r. (t u : Told) (session reference : ℕ) (N : Intent)
            → IsUnderWay R.listed t u session reference ids N self.old change passed
            → IsKnownTaken R.listed t u N r × Stands R.listed u (record self.new { spent = false })) }
    {
        self.number = self.number.saturating_add(1);
        self.minimum = self.ledger.minimum();
        let verdict = passed.effected.verdict;
        let kept = Kept {
            n: self.number,
            ids,
            change,
            step: passed.effected.step,
            verdict,
        };
        keep(
            &mut self.window,
            kept,
            self.minimum.saturating_sub(self.history),
        )?;
        Ok(Received {
            verdict,
            step: passed.local,
        })
    }

    // Takes a commit, and is spent if memory fails.
    fn take_known(
        &mut self,
        alloc: Global,
        change: Change,
        session: u32,
        reference: u32,
        ids: IdRange,
    ) -> Result<Received, AllocError>
        ensures want { IsErr result → self.new.spent ≡ true }
        ensures taken { IfOk result (λ r. (t u : Told) (N : Intent) → Stands R.listed t self.old
            → IsKnownAs R.listed t session reference ids change N
            → IsNextTold t session (Commit reference ids N) u → HasRoom u.opening (local_list u)
            → IsKnownTaken R.listed t u N r × Stands R.listed u self.new) }
    {
        self.spent = true;
        let mut change = change;
        let passed = self.pass(alloc, &mut change, session, reference, ids)?;
        let received = self.keep_commit(change, passed, ids)?;
        self.spent = false;
        Ok(received)
    }

    /// Takes a commit that is known to be valid as the next entry, with its change in the document over which its session wrote, as the
    /// manager reads changes. It costs what the change and the bridge of its session cost over each other, what the commits that the
    /// session has received now and what it sent do, a composition for each other session, and what the step and the pending commits
    /// cost over each other.
    pub fn receive_known(
        &mut self,
        alloc: Global,
        change: Change,
        session: u32,
        reference: u32,
        ids: IdRange,
    ) -> Result<Received, Or<Spent>>
        ensures spent { IsErrOf result (Fault (record {})) ↔ (self.old.spent ≡ true) }
        ensures kept { IfRefused result (λ _. self.new ≡ self.old) }
        ensures want { IsErrOf result NoMemory → self.new.spent ≡ true }
        ensures taken { (t u : Told) (N : Intent) → Stands R.listed t self.old
            → IsKnownAs R.listed t session reference ids change N
            → IsNextTold t session (Commit reference ids N) u → HasRoom u.opening (local_list u)
            → IfOk result (λ r. IsKnownTaken R.listed t u N r × Stands R.listed u self.new) }
    {
        if self.spent {
            return Err(Or::Fault(Spent));
        }
        match self.take_known(alloc, change, session, reference, ids) {
            Ok(received) => Ok(received),
            Err(_) => Err(Or::NoMemory),
        }
    }
}
