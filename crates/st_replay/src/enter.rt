//! How accepted messages enter the ledger and the log.
ghost use Rattle.std.specs.Prelude.{◌≡◌, ◌≤◌, ◌<◌, ◌+◌, ◌^◌, true, length, OnOk};
ghost use Rattle.st_ledger.specs.Stands.{StandsFor};
ghost use Rattle.st_lists.specs.Log.{is_connected, log_with};
ghost use Rattle.st_lists.specs.Names.{names_made};
ghost use Rattle.st_lists.specs.declared.lists.Body.TheVariants.{Commit, Join};
ghost use Rattle.st_valid.specs.Ids.{is_next_range};
ghost use Rattle.st_valid.specs.Room.{has_room_for_names};
ghost use Rattle.st_valid.specs.Sessions.{session_may};
ghost use Rattle.st_valid.specs.declared.message.Said.TheVariants as said;

use st_clusters::IdRange;
use st_ids::{List, Or};
use st_ledger::Ledger;
use st_lists::{Body, Entry, names_made};
use st_marks::Intent;
use std::alloc::{AllocError, Global};

// How many names an intent makes that makes few.
fn few_names(intent: &Intent) -> u32
    requires { names_made intent.now ≤ 2048 }
    ensures { result ≡ names_made intent.now }
{
    names_made(intent) as u32
}

/// Takes note in the ledger of a log of a commit of a session that is connected: its range, the session's next one, is
/// finalised, its reference is known, and its revision and the names that its intent makes count. After an `Err` nothing is
/// promised of what is kept.
pub fn number_commit(
    ledger: &mut Ledger,
    log: &[Entry],
    session: u32,
    reference: u32,
    ids: IdRange,
    intent: &Intent,
) -> Result<(), AllocError>
    requires stands { StandsFor ledger.old log.now }
    requires connected { is_connected session log.now ≡ true }
    requires next { is_next_range log.now session ids ≡ true }
    requires room { has_room_for_names log.now (names_made intent.now) ≡ true }
    ensures { OnOk result (StandsFor ledger.new
        (log_with log.now session (Commit reference ids intent.now))) }
{
    let names = few_names(intent);
    match ledger.enter_commit(session, reference, ids, intent.rev, names) {
        Ok(()) => Ok(()),
        Err(Or::NoMemory) => Err(AllocError),
        Err(Or::Fault(_)) => unreachable!(),
    }
}

/// Takes note in the ledger of a log of a session that joins and may do so. After an `Err` nothing is promised of what is kept.
pub(crate) fn number_join(
    alloc: Global,
    ledger: &mut Ledger,
    log: &[Entry],
    session: u32,
    uuid: u128,
) -> Result<(), AllocError>
    requires stands { StandsFor ledger.old log.now }
    requires few { length log.now < 65535 }
    requires may { session_may log.now session (said.Join uuid) ≡ true }
    ensures { OnOk result (StandsFor ledger.new (log_with log.now session (Join uuid))) }
{
    match ledger.enter_join(alloc, session, uuid) {
        Ok(()) => Ok(()),
        Err(Or::NoMemory) => Err(AllocError),
        Err(Or::Fault(_)) => unreachable!(),
    }
}

/// Puts an entry at the end of a log.
pub(crate) fn push_entry(log: &mut List<Entry>, session: u32, body: Body) -> Result<(), AllocError>
    requires { length log.old + 1 < 2 ^ 32 }
    ensures { OnOk result (log.new ≡ log_with log.old session body) }
{
    let n = log.len() as u32 + 1;
    log.push(Entry { n, session, body })?;
    Ok(())
}
