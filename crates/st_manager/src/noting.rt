//! What a ledger takes note of.
ghost use Rattle.std.specs.Prelude.{◌≡◌, ◌<◌, ◌^◌, true, OnOk, List as Seq};
ghost use Rattle.st_ledger.specs.Stands.{StandsFor};
ghost use Rattle.st_lists.specs.Log.{is_connected, log_with};
ghost use Rattle.st_lists.specs.Names.{names_made};
ghost use Rattle.st_lists.specs.declared.lists.Body.TheVariants.{Ack, Commit, Join, Leave};
ghost use Rattle.st_lists.specs.declared.lists.Entry.{Entry};
ghost use Rattle.st_marks.specs.declared.intents.Intent.{Intent};
ghost use Rattle.st_valid.specs.Ids.{is_next_range};
ghost use Rattle.st_valid.specs.Room.{has_room_for_entry, has_room_for_names, names_of_change};
ghost use Rattle.st_valid.specs.Sessions.{session_may};
ghost use Rattle.st_valid.specs.declared.message.Said.TheVariants as said;

use st_clusters::IdRange;
use st_ids::{Or, Rev};
use st_ledger::{Ledger, names_of_change};
use st_marks::Change;
use std::alloc::{AllocError, Global};

/// How many names a change makes, if a `u32` can tell.
pub(crate) fn names_in_change(change: &Change) -> u32
    ensures { names_of_change change.now < 2 ^ 32 → result ≡ names_of_change change.now }
{
    names_of_change(change).min(u32::MAX as u64) as u32
}

/// Takes note of a commit: of its range of ids, its reference, its revision and how many names it makes. Nothing is promised where
/// there is no room for them in the log, or the range isn't the next one of the session.
#[tactic(auto, using(crate::proofs::NumbersLeft::numbers_left))]
pub(crate) fn note_commit(
    ledger: &mut Ledger,
    session: u32,
    reference: u32,
    ids: IdRange,
    rev: Rev,
    names: u32,
) -> Result<(), AllocError>
    ensures { OnOk result ((log : Seq Entry) (N : Intent) → StandsFor ledger.old log
        → is_connected session log ≡ true → is_next_range log session ids ≡ true
        → has_room_for_names log names ≡ true → rev ≡ N.rev → names ≡ names_made N
        → StandsFor ledger.new (log_with log session (Commit reference ids N))) }
{
    if !ledger.has_numbers_for(names) {
        return Ok(());
    }
    match ledger.enter_commit(session, reference, ids, rev, names) {
        Ok(()) => Ok(()),
        Err(Or::Fault(_)) => Ok(()),
        Err(Or::NoMemory) => Err(AllocError),
    }
}

/// Takes note of a session that joins. Nothing is promised where it may not, or there is no room for it in the log.
#[tactic(auto, using(crate::proofs::NumbersLeft::entries_left))]
pub(crate) fn note_join(
    alloc: Global,
    ledger: &mut Ledger,
    session: u32,
    uuid: u128,
) -> Result<(), AllocError>
    ensures { OnOk result ((log : Seq Entry) → StandsFor ledger.old log
        → session_may log session (said.Join uuid) ≡ true → has_room_for_entry log ≡ true
        → StandsFor ledger.new (log_with log session (Join uuid))) }
{
    if !ledger.has_numbers_for_session() {
        return Ok(());
    }
    match ledger.enter_join(alloc, session, uuid) {
        Ok(()) => Ok(()),
        Err(Or::Fault(_)) => Ok(()),
        Err(Or::NoMemory) => Err(AllocError),
    }
}

/// Takes note of a session that leaves. Nothing is promised where it isn't connected, or there is no room in the log.
#[tactic(auto, using(crate::proofs::NumbersLeft::entries_left))]
pub(crate) fn note_leave(alloc: Global, ledger: &mut Ledger, session: u32) -> Result<(), AllocError>
    ensures { OnOk result ((log : Seq Entry) → StandsFor ledger.old log
        → is_connected session log ≡ true → has_room_for_entry log ≡ true
        → StandsFor ledger.new (log_with log session Leave)) }
{
    if !ledger.has_numbers_for_session() {
        return Ok(());
    }
    ledger.enter_leave(alloc, session)
}

/// Takes note of how much of the log a session has received. Nothing is promised where it isn't connected, or there is no room in the
/// log.
#[tactic(auto, using(crate::proofs::NumbersLeft::entries_left))]
pub(crate) fn note_ack(ledger: &mut Ledger, session: u32, reference: u32) -> Result<(), AllocError>
    ensures { OnOk result ((log : Seq Entry) → StandsFor ledger.old log
        → is_connected session log ≡ true → has_room_for_entry log ≡ true
        → StandsFor ledger.new (log_with log session (Ack reference))) }
{
    if !ledger.has_numbers_for_session() {
        return Ok(());
    }
    ledger.enter_ack(session, reference)
}
