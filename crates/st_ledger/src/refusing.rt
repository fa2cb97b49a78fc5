//! The first test that a message fails, of those that read the log alone.
ghost use Rattle.std.specs.Prelude.{◌≡◌, ◌+◌, ◌==◌, List as Seq};
ghost use Rattle.st_ledger.specs.Stands.{StandsFor};
ghost use Rattle.st_lists.specs.declared.lists.Entry.{Entry};
ghost use Rattle.st_valid.specs.Order.{is_in_order};
ghost use Rattle.st_valid.specs.Refusals.{refused_by_log, refused_for_reference, refused_for_revision};

use crate::ledger::Ledger;
use st_valid::{Message, ReplayCause};

// Whether a number comes after so many.
fn comes_after(number: u32, entries: u32) -> bool
    ensures { result ≡ (number == entries + 1) }
{
    number as u64 == entries as u64 + 1
}

impl Ledger {
    /// Whether a message has the number after the last one.
    #[tactic(auto, using(crate::proofs::RoomLeft::order_of_ledger))]
    pub fn is_in_order(&self, message: &Message) -> bool
        ensures { (log : Seq Entry) → StandsFor self.now log
            → result ≡ is_in_order log message.now }
    {
        comes_after(message.n, self.entries)
    }

    // Why a message is refused for its revision or for want of room.
    fn refused_for_revision(&self, message: &Message) -> Option<ReplayCause>
        ensures { (log : Seq Entry) → StandsFor self.now log
            → result ≡ refused_for_revision log message.now }
    {
        if !self.has_new_revision(message) {
            return Some(ReplayCause::Revision);
        }
        if self.has_room(message) {
            None
        } else {
            Some(ReplayCause::Limit)
        }
    }

    // Why a message is refused for its reference, its ids, or what comes after them.
    fn refused_for_reference(&self, message: &Message) -> Option<ReplayCause>
        ensures { (log : Seq Entry) → StandsFor self.now log
            → result ≡ refused_for_reference log message.now }
    {
        if !self.is_no_step_back(message) {
            return Some(ReplayCause::RefBack);
        }
        if self.has_next_ids(message) {
            self.refused_for_revision(message)
        } else {
            Some(ReplayCause::Ids)
        }
    }

    /// The first test that a message fails, of those that read the log alone: its order, its session, the window, its
    /// reference, its ids, its revision, and the room that is left.
    pub fn refused_by_log(&self, message: &Message) -> Option<ReplayCause>
        ensures { (log : Seq Entry) → StandsFor self.now log
            → result ≡ refused_by_log log message.now }
    {
        if !self.is_in_order(message) {
            return Some(ReplayCause::Sequence);
        }
        if !self.is_of_session(message) {
            return Some(ReplayCause::Session);
        }
        if self.is_in_window(message) {
            self.refused_for_reference(message)
        } else {
            Some(ReplayCause::Window)
        }
    }
}
