//! Entries that are no commits: a session joins, leaves, or tells how much it has received.
ghost use Rattle.std.specs.Prelude.{ℕ, true, false, ◌≡◌, ◌↔◌, IsErr, IsErrOf, OnOk};
ghost use Rattle.st_ids.specs.Or.{IfRefused};
ghost use Rattle.st_ids.specs.declared.fault.Or.TheVariants.{Fault, NoMemory};
ghost use Rattle.st_lists.specs.declared.lists.Body.{Body};
ghost use Rattle.st_lists.specs.declared.lists.Body.TheVariants.{Ack, Join, Leave};
ghost use Rattle.st_valid.specs.declared.message.Said.TheVariants as said;
ghost use Rattle.st_manager.specs.Stands.{Stands};
ghost use Rattle.st_manager.specs.Taking.{IsKnownToSay};
ghost use Rattle.st_manager.specs.Told.{IsNextTold, Told};
ghost use Rattle.st_manager.specs.inside.Receiving.{IsNoted};

use crate::calls::Spent;
use crate::keeping::raise_floor;
use crate::manager::Manager;
use crate::noting::{note_ack, note_join, note_leave};
use st_ids::Or;
use st_rebaser::Rebaser;
use st_seats::{seats_ack, seats_join, seats_leave};
use std::alloc::{AllocError, Global};

impl<R: Rebaser> Manager<R> {
    // The entry counts, and the floor rises.
    fn count_entry(&mut self)
        ensures spent { self.new.spent ≡ self.old.spent }
        ensures counted { (t u : Told) (session : ℕ) (body : Body)
            → IsNoted R.listed t u session body self.old → Stands R.listed u (record self.new { spent = false }) }
    {
        self.number = self.number.saturating_add(1);
        self.minimum = self.ledger.minimum();
        raise_floor(&mut self.window, self.minimum.saturating_sub(self.history));
    }

    // Takes a join, and is spent if memory fails.
    fn take_join(&mut self, alloc: Global, session: u32, uuid: u128) -> Result<(), AllocError>
        ensures want { IsErr result → self.new.spent ≡ true }
        ensures taken { OnOk result ((t u : Told) → Stands R.listed t self.old
            → IsKnownToSay t session (said.Join uuid) → IsNextTold t session (Join uuid) u → Stands R.listed u self.new) }
    {
        self.spent = true;
        note_join(alloc, &mut self.ledger, session, uuid)?;
        seats_join(
            alloc,
            &mut self.seats,
            session,
            self.number.saturating_add(1),
        )?;
        self.count_entry();
        self.spent = false;
        Ok(())
    }

    // The same with a leave.
    fn take_leave(&mut self, alloc: Global, session: u32) -> Result<(), AllocError>
        ensures want { IsErr result → self.new.spent ≡ true }
        ensures taken { OnOk result ((t u : Told) → Stands R.listed t self.old
            → IsKnownToSay t session said.Leave → IsNextTold t session Leave u → Stands R.listed u self.new) }
    {
        self.spent = true;
        note_leave(alloc, &mut self.ledger, session)?;
        seats_leave(&mut self.seats, session);
        self.count_entry();
        self.spent = false;
        Ok(())
    }

    // The same with an ack.
    fn take_ack(&mut self, alloc: Global, session: u32, reference: u32) -> Result<(), AllocError>
        ensures want { IsErr result → self.new.spent ≡ true }
        ensures taken { OnOk result ((t u : Told) → Stands R.listed t self.old
            → IsKnownToSay t session (said.Ack reference) → IsNextTold t session (Ack reference) u → Stands R.listed u self.new) }
    {
        self.spent = true;
        note_ack(&mut self.ledger, session, reference)?;
        seats_ack::<R>(alloc, &mut self.seats, &self.window, session, reference)?;
        self.count_entry();
        self.spent = false;
        Ok(())
    }

    /// A session is known to join with the next entry, for the first time or again: it has received all commits.
    pub fn receive_join(&mut self, alloc: Global, session: u32, uuid: u128) -> Result<(), Or<Spent>>
        ensures spent { IsErrOf result (Fault (record {})) ↔ (self.old.spent ≡ true) }
        ensures kept { IfRefused result (λ _. self.new ≡ self.old) }
        ensures want { IsErrOf result NoMemory → self.new.spent ≡ true }
        ensures taken { (t u : Told) → Stands R.listed t self.old
            → IsKnownToSay t session (said.Join uuid) → IsNextTold t session (Join uuid) u → OnOk result (Stands R.listed u self.new) }
    {
        if self.spent {
            return Err(Or::Fault(Spent));
        }
        match self.take_join(alloc, session, uuid) {
            Ok(()) => Ok(()),
            Err(_) => Err(Or::NoMemory),
        }
    }

    /// A session is known to leave with the next entry: it has no seat then.
    pub fn receive_leave(&mut self, alloc: Global, session: u32) -> Result<(), Or<Spent>>
        ensures spent { IsErrOf result (Fault (record {})) ↔ (self.old.spent ≡ true) }
        ensures kept { IfRefused result (λ _. self.new ≡ self.old) }
        ensures want { IsErrOf result NoMemory → self.new.spent ≡ true }
        ensures taken { (t u : Told) → Stands R.listed t self.old
            → IsKnownToSay t session said.Leave → IsNextTold t session Leave u → OnOk result (Stands R.listed u self.new) }
    {
        if self.spent {
            return Err(Or::Fault(Spent));
        }
        match self.take_leave(alloc, session) {
            Ok(()) => Ok(()),
            Err(_) => Err(Or::NoMemory),
        }
    }

    /// A session is known to tell with the next entry up to which entry it has received the log. It costs what the commits that it has
    /// received now, and what it sent, cost over each other.
    pub fn receive_ack(
        &mut self,
        alloc: Global,
        session: u32,
        reference: u32,
    ) -> Result<(), Or<Spent>>
        ensures spent { IsErrOf result (Fault (record {})) ↔ (self.old.spent ≡ true) }
        ensures kept { IfRefused result (λ _. self.new ≡ self.old) }
        ensures want { IsErrOf result NoMemory → self.new.spent ≡ true }
        ensures taken { (t u : Told) → Stands R.listed t self.old
            → IsKnownToSay t session (said.Ack reference) → IsNextTold t session (Ack reference) u → OnOk result (Stands R.listed u self.new) }
    {
        if self.spent {
            return Err(Or::Fault(Spent));
        }
        match self.take_ack(alloc, session, reference) {
            Ok(()) => Ok(()),
            Err(_) => Err(Or::NoMemory),
        }
    }
}
