//! What a client that comes back catches up with.
ghost use Rattle.std.specs.Prelude.{◌≡◌, ◌+◌, ◌^◌, ◌<◌, ◌≤◌, ◌++◌, drop, length, IfOk, IfSome, None, OnOk};
ghost use Rattle.st_marks.specs.Document.{Document, IsSoundInForm};
ghost use Rattle.st_marks.specs.Intent.{Fits};
ghost use Rattle.st_marks.specs.Run.{Run};
ghost use Rattle.st_doc.specs.Doc.{document_of};
ghost use Rattle.st_log_laws.specs.Turns.{FitInTurn};
ghost use Rattle.st_heads.specs.Remembered.{AreCarried};
ghost use Rattle.st_lists.specs.Names.{names_in};
ghost use Rattle.st_lists.specs.Clients.{carried_of, taken_after, texts_from, with_connection};
ghost use Rattle.st_lists.specs.Log.{commit_of, commits_by, commits_in, waiting};
ghost use Rattle.st_world.specs.World.{refusal_to_reconnect};
ghost use Rattle.st_plain_log.specs.Receiving.{HasCaughtUp, HasEntered};

use st_doc::Doc;
use st_heads::{Head, Replica};
use st_ids::{Limit, LimitOf, List};
use st_lists::{Body, Client, Entry, count_own, ids_carried, names_in, taken_after, texts_from};
use st_marks::Intent;
use st_script::Refusal;
use std::alloc::{AllocError, Global};

/// How many entries a log has.
const MOST_ENTRIES: usize = 65_535;

/// Why a client can't come back, if it can't.
pub fn refusal_to_reconnect(log: &[Entry], client: &Client) -> Option<Refusal>
    requires { length log.now < 2 ^ 32 }
    ensures { result ≡ refusal_to_reconnect log.now client.now }
{
    if client.connected {
        return Some(Refusal::Connected);
    }
    if client.transaction.is_some() {
        return Some(Refusal::Unfinished);
    }
    if log.len() >= MOST_ENTRIES {
        let of = LimitOf::Log;
        let kept = log.len() as u32;
        return Some(Refusal::Limit(Limit { of, kept }));
    }
    None
}

// Carries out the commit of an entry, if it has one.
fn carry_entry(alloc: Global, doc: &mut Doc, entry: &Entry) -> Result<(), AllocError>
    requires sound { IsSoundInForm (document_of doc.old) }
    requires fits { IfSome (commit_of entry.now) (Fits (document_of doc.old)) }
    ensures { OnOk result (HasEntered (document_of doc.old) (commit_of entry.now) (document_of doc.new)) }
{
    match &entry.body {
        Body::Join { .. } | Body::Leave | Body::Ack { .. } => Ok(()),
        Body::Commit { intent, .. } => {
            doc.carry(alloc, intent)?;
            Ok(())
        }
    }
}

// Carries out the commits of entries, one after the other.
fn carry_entries(alloc: Global, doc: &mut Doc, entries: &[Entry]) -> Result<(), AllocError>
    requires sound { IsSoundInForm (document_of doc.old) }
    requires fit { FitInTurn (document_of doc.old) (commits_in entries.now) }
    ensures run { OnOk result (Run (document_of doc.old) (commits_in entries.now) (document_of doc.new)) }
    ensures sound { OnOk result (IsSoundInForm (document_of doc.new)) }
{
    for entry in entries {
        carry_entry(alloc, doc, entry)?;
    }
    Ok(())
}

// How many names the first commits make, so many of them.
fn names_of_first(pending: &[Intent], count: usize) -> u64
    requires within { count ≤ length pending.now }
    requires few { names_in pending.now ≤ 16384 }
    ensures { result + names_in (drop count pending.now) ≡ names_in pending.now }
{
    names_in(pending.split_at(count).0)
}

// Lets go of so many pending commits, the first ones.
fn drop_first(pending: &mut List<Intent>, count: usize)
    requires { count ≤ length pending.old }
    ensures { pending.new ≡ drop count pending.old }
{
    let mut left = count;
    'gone: while left > 0 {
        let _ = pending.remove(0);
        left -= 1;
    }
}

// Lets go of so many pending commits, the first ones, and of their names among those that wait.
fn drop_known(names: &mut u64, pending: &mut List<Intent>, count: usize)
    requires within { count ≤ length pending.old }
    requires few { names.old ≤ 16384 }
    requires names { names_in pending.old ≤ names.old }
    ensures pending { pending.new ≡ drop count pending.old }
    ensures names { names.new + names_in pending.old ≡ names.old + names_in (drop count pending.old) }
{
    *names -= names_of_first(pending.as_slice(), count);
    drop_first(pending, count);
}

// Writes the texts of a client's pending commits anew, with a reference, where the log carries so many of its ids.
fn write_anew(
    alloc: Global,
    client: &mut Client,
    reference: u32,
    carried: u32,
) -> Result<(), AllocError>
    requires within { carried ≤ client.old.ids }
    requires few { client.old.ids + 1 < 2 ^ 32 }
    ensures { OnOk result (client.new ≡ record client.old {
      taken = taken_after carried client.old.ids client.old.pending;
      queue = texts_from reference client.old.session carried client.old.ids client.old.pending;
    }) }
{
    let pending = client.pending.as_slice();
    let taken = taken_after(carried, client.ids, pending);
    client.queue = texts_from(
        alloc,
        reference,
        client.session,
        carried,
        client.ids,
        pending,
    )?;
    client.taken = taken;
    Ok(())
}

// The entries after so many.
fn entries_after(log: &[Entry], count: u32) -> &[Entry]
    requires { count ≤ length log.now }
    ensures { result.now ≡ drop count log.now }
{
    log.split_at(count as usize).1
}

// What is kept of a client after it has received entries, with these commits pending.
fn receive_all(
    alloc: Global,
    kept: &mut Replica,
    missed: &[Entry],
    pending: &[Intent],
) -> Result<(), AllocError>
    requires sound { IsSoundInForm (document_of kept.old.received) }
    requires fit { FitInTurn (document_of kept.old.received) (commits_in missed.now) }
    requires later { (D : Document) → Run (document_of kept.old.received) (commits_in missed.now) D → FitInTurn D pending.now }
    ensures received { OnOk result (Run (document_of kept.old.received) (commits_in missed.now) (document_of kept.new.received)) }
    ensures own { OnOk result (AreCarried (document_of kept.new.received) pending.now kept.new.main.own (document_of kept.new.main.doc)) }
    ensures edited { OnOk result (kept.new.main.edited ≡ None) }
    ensures branches { OnOk result (kept.new.branches ≡ kept.old.branches) }
    ensures names { OnOk result (kept.new.names ≡ kept.old.names) }
{
    carry_entries(alloc, &mut kept.received, missed)?;
    kept.main = Head::over(alloc, &kept.received, pending)?;
    Ok(())
}

/// Has a client receive the rest of the log, and its new join as the next entry; what was in no log waits again. It tells
/// how many commits those are. Pending commits are carried out once.
pub fn catch_up(
    alloc: Global,
    log: &[Entry],
    client: &mut Client,
    kept: &mut Replica,
) -> Result<u32, AllocError>
    requires entries { length log.now < 65535 }
    requires within { client.old.received ≤ length log.now }
    requires flight { length (commits_by client.old.session (drop client.old.received log.now)) ≤ length client.old.pending }
    requires few { length client.old.pending ≤ 256 }
    requires sound { IsSoundInForm (document_of kept.old.received) }
    requires fit { FitInTurn (document_of kept.old.received) (commits_in (drop client.old.received log.now)) }
    requires later { (D : Document) → Run (document_of kept.old.received) (commits_in (drop client.old.received log.now)) D → FitInTurn D (waiting log.now client.old) }
    requires few_names { kept.old.names ≤ 16384 }
    requires names { names_in client.old.pending ≤ kept.old.names }
    requires carried { carried_of log.now client.old ≤ client.old.ids }
    requires ids { client.old.ids + 1 < 2 ^ 32 }
    ensures client { OnOk result (client.new ≡ with_connection log.now client.old) }
    ensures sent { IfOk result (λ sent. sent ≡ length (waiting log.now client.old)) }
    ensures kept { OnOk result (HasCaughtUp log.now client.old kept.old kept.new) }
{
    let missed = entries_after(log, client.received);
    let known = count_own(missed, client.session);
    drop_known(&mut kept.names, &mut client.pending, known);
    receive_all(alloc, kept, missed, client.pending.as_slice())?;
    let n = log.len() as u32 + 1;
    let carried = ids_carried(log, client.session);
    write_anew(alloc, client, n, carried)?;
    client.received = n;
    client.connected = true;
    Ok(client.pending.len() as u32)
}
