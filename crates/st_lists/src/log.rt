//! The log, and how much of it each session is known to have received.
ghost use Rattle.std.specs.Prelude.{◌≡◌, ℕ, List as Seq, ◌+◌, ◌-◌, ◌^◌, ◌<◌, ◌≤◌, length, fold, min, slice_get, unwrap_or, OnOk, if◌then◌else◌};
ghost use Rattle.st_lists.specs.Log.{clashes, floor, log_with, meets, minimum, reference_of, with_reference};
ghost use Rattle.st_lists.specs.Known.{known_so_far, AreConnected, AreKnown, AreMinima};
ghost use Rattle.st_lists.specs.declared.lists.Entry.{Entry as Logged};

use crate::lists::{Body, Client, Entry};
use st_clusters::spans_clash;
use st_ids::List;
use std::alloc::AllocError;
use std::collections::BTreeMap;

// Up to which entry the session of an entry had received the log.
fn reference_of(entry: &Entry) -> u32
    ensures { result ≡ reference_of entry.now }
{
    match &entry.body {
        Body::Join { .. } => entry.n,
        Body::Leave => 0,
        Body::Ack { reference } => *reference,
        Body::Commit { reference, .. } => *reference,
    }
}

// The greatest reference of a session that is known so far.
fn known_so_far(known: &BTreeMap<u32, u32>, session: u32) -> u32
    ensures { result ≡ known_so_far known.now session }
{
    known.get(&session).copied().unwrap_or(0)
}

// Takes note of what an entry says of its session.
fn note_reference(known: &mut BTreeMap<u32, u32>, entry: &Entry) -> Result<(), AllocError>
    ensures { OnOk result ((session : ℕ) → known_so_far known.new session ≡ with_reference session (known_so_far known.old session) entry.now) }
{
    let known_before = known_so_far(known, entry.session);
    known.insert(entry.session, known_before.max(reference_of(entry)))?;
    Ok(())
}

/// Puts an entry at the end of the log. After an `Err` nothing is promised of either.
pub fn append_entry(
    log: &mut List<Entry>,
    known: &mut BTreeMap<u32, u32>,
    session: u32,
    body: Body,
) -> Result<(), AllocError>
    requires few { length log.old + 1 < 2 ^ 32 }
    requires known { AreKnown log.old known.old }
    ensures log { OnOk result (log.new ≡ log_with log.old session body) }
    ensures known { OnOk result (AreKnown log.new known.new) }
{
    let n = log.len() as u32 + 1;
    let entry = Entry { n, session, body };
    note_reference(known, &entry)?;
    log.push(entry)?;
    Ok(())
}

// Whether an entry tells a UUID whose span of stable ids meets that of another.
fn meets(uuid: u128, entry: &Entry) -> bool
    ensures { result ≡ meets uuid entry.now }
{
    match &entry.body {
        Body::Join { uuid: other } => spans_clash(*other, uuid),
        Body::Leave | Body::Ack { .. } | Body::Commit { .. } => false,
    }
}

/// Whether the span of a session's stable ids meets that of one that joined before.
pub fn clashes(uuid: u128, log: &[Entry]) -> bool
    ensures { result ≡ clashes uuid log.now }
{
    log.iter().any(|entry| meets(uuid, entry))
}

// The least known reference of the clients that are connected; with none, `number`.
fn least_known(clients: &[Client], known: &BTreeMap<u32, u32>, number: u32) -> u32
    ensures { result ≡ fold (λ least c. if c.connected then min least (known_so_far known.now c.session) else least) number clients.now }
{
    let mut least = number;
    for client in clients {
        if client.connected {
            least = least.min(known_so_far(known, client.session));
        }
    }
    least
}

/// The minimum after the whole log: the least known reference of the clients that are connected. It takes the time of a
/// look-up for each of them.
pub fn minimum(log: &[Entry], clients: &[Client], known: &BTreeMap<u32, u32>) -> u32
    requires few { length log.now < 2 ^ 32 }
    requires known { AreKnown log.now known.now }
    requires connected { AreConnected log.now clients.now }
    ensures { result ≡ minimum log.now }
{
    least_known(clients, known, log.len() as u32)
}

// The minimum after so many entries, of the minima after each; 0 before the first.
fn minimum_after(minima: &[u32], received: u32) -> u32
    ensures first { received ≡ 0 → result ≡ 0 }
    ensures later { 0 < received → result ≡ unwrap_or (slice_get minima.now (received - 1)) 0 }
{
    if received == 0 {
        return 0;
    }
    minima.get(received as usize - 1).copied().unwrap_or(0)
}

/// The floor of one who received so many entries, of the minima after each.
pub fn floor(history: u32, minima: &[u32], received: u32) -> u32
    ensures { (log : Seq Logged) → AreMinima log minima.now → received ≤ length log → result ≡ floor history log received }
{
    minimum_after(minima, received).saturating_sub(history)
}
