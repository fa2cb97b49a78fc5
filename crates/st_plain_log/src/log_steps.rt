//! What a client does with the log: the entries that it receives, and the texts that it sends.
ghost use Rattle.std.specs.Prelude.{◌≡◌, ◌==◌, ◌+◌, ◌-◌, ◌^◌, ◌<◌, ◌≤◌, true, false, [], ◌∷◌, length, drop, slice_get, option_copied, option_map, min, MatchOption, IfOk, IfSome, OnOk, None};
ghost use Rattle.st_marks.specs.Document.{IsSoundInForm};
ghost use Rattle.st_marks.specs.Intent.{Fits};
ghost use Rattle.st_doc.specs.Doc.{document_of};
ghost use Rattle.st_log_laws.specs.Turns.{FitInTurn};
ghost use Rattle.st_heads.specs.Remembered.{AreCarried};
ghost use Rattle.st_lists.specs.Clients.{is_own, with_received};
ghost use Rattle.st_lists.specs.Names.{names_in_text, names_made};
ghost use Rattle.st_world.specs.World.{IsDeliveredIn, IsDeliveredTo};
ghost use Rattle.st_plain_log.specs.Receiving.{HasCarried, HasReceivedOne, CanReceive, CanReceiveIn, HasReceivedNext, HasMoved, HasMovedIn};

use st_heads::{Head, Replica};
use st_ids::List;
use st_lists::{Body, Client, Entry, names_in_text, names_made};
use st_marks::{Intent, Verdict};
use st_script::{Answer, Refusal};
use std::alloc::{AllocError, Global};

// Makes the head of the main line anew, from what was received and what is pending.
fn renew_main(alloc: Global, kept: &mut Replica, pending: &[Intent]) -> Result<(), AllocError>
    requires sound { IsSoundInForm (document_of kept.old.received) }
    requires fit { FitInTurn (document_of kept.old.received) pending.now }
    ensures own { OnOk result (AreCarried (document_of kept.old.received) pending.now kept.new.main.own (document_of kept.new.main.doc)) }
    ensures edited { OnOk result (kept.new.main.edited ≡ None) }
    ensures received { OnOk result (kept.new.received ≡ kept.old.received) }
    ensures branches { OnOk result (kept.new.branches ≡ kept.old.branches) }
    ensures names { OnOk result (kept.new.names ≡ kept.old.names) }
{
    kept.main = Head::over(alloc, &kept.received, pending)?;
    Ok(())
}

// A commit of the client's own comes back: it is no longer pending, and what the client shows stays.
fn receive_own(alloc: Global, kept: &mut Replica, intent: &Intent) -> Result<Verdict, AllocError>
    requires sound { IsSoundInForm (document_of kept.old.received) }
    requires fits { Fits (document_of kept.old.received) intent.now }
    requires own { 0 < length kept.old.main.own }
    requires names { names_made intent.now ≤ kept.old.names }
    requires few { kept.old.names ≤ 16384 }
    ensures received { IfOk result (λ v. HasCarried kept.old intent.now v kept.new) }
    ensures main { OnOk result (kept.new.main ≡ record kept.old.main { own = drop 1 kept.old.main.own }) }
    ensures names { OnOk result (kept.new.names ≡ kept.old.names - names_made intent.now) }
{
    kept.names -= names_made(intent);
    let _ = kept.main.own.remove(0);
    let verdict = kept.received.carry(alloc, intent)?;
    Ok(verdict)
}

// A commit comes where nothing is pending.
fn receive_last(alloc: Global, kept: &mut Replica, intent: &Intent) -> Result<Verdict, AllocError>
    requires sound { IsSoundInForm (document_of kept.old.received) }
    requires same { document_of kept.old.main.doc ≡ document_of kept.old.received }
    requires fits { Fits (document_of kept.old.received) intent.now }
    ensures received { IfOk result (λ v. HasCarried kept.old intent.now v kept.new) }
    ensures same { OnOk result (document_of kept.new.main.doc ≡ document_of kept.new.received) }
    ensures main { OnOk result (kept.new.main ≡ record kept.old.main { doc = kept.new.main.doc }) }
    ensures names { OnOk result (kept.new.names ≡ kept.old.names) }
{
    kept.main.doc.carry(alloc, intent)?;
    let verdict = kept.received.carry(alloc, intent)?;
    Ok(verdict)
}

// A commit comes before those that are pending, which are carried out anew.
fn receive_before(
    alloc: Global,
    kept: &mut Replica,
    intent: &Intent,
    pending: &[Intent],
) -> Result<Verdict, AllocError>
    requires sound { IsSoundInForm (document_of kept.old.received) }
    requires fits { FitInTurn (document_of kept.old.received) (intent.now ∷ pending.now) }
    ensures received { IfOk result (λ v. HasCarried kept.old intent.now v kept.new) }
    ensures own { OnOk result (AreCarried (document_of kept.new.received) pending.now kept.new.main.own (document_of kept.new.main.doc)) }
    ensures edited { OnOk result (kept.new.main.edited ≡ None) }
    ensures names { OnOk result (kept.new.names ≡ kept.old.names) }
{
    let verdict = kept.received.carry(alloc, intent)?;
    renew_main(alloc, kept, pending)?;
    Ok(verdict)
}

// Receives a commit.
fn receive(
    alloc: Global,
    client: &Client,
    kept: &mut Replica,
    is_own: bool,
    intent: &Intent,
) -> Result<Verdict, AllocError>
    requires sound { IsSoundInForm (document_of kept.old.received) }
    requires own { AreCarried (document_of kept.old.received) client.now.pending kept.old.main.own (document_of kept.old.main.doc) }
    requires edited { kept.old.main.edited ≡ None }
    requires fits { Fits (document_of kept.old.received) intent.now }
    requires later { is_own ≡ false → FitInTurn (document_of kept.old.received) (intent.now ∷ client.now.pending) }
    requires first { is_own ≡ true → 0 < length kept.old.main.own }
    requires names { is_own ≡ true → names_made intent.now ≤ kept.old.names }
    requires few { kept.old.names ≤ 16384 }
    ensures { IfOk result (λ v. HasReceivedOne client.now kept.old is_own intent.now v kept.new) }
{
    if is_own {
        return receive_own(alloc, kept, intent);
    }
    let pending = client.pending.as_slice();
    if pending.is_empty() {
        let verdict = receive_last(alloc, kept, intent)?;
        return Ok(verdict);
    }
    let verdict = receive_before(alloc, kept, intent, pending)?;
    Ok(verdict)
}

// Whether an entry is of a client's session.
fn is_from(entry: &Entry, client: &Client) -> bool
    ensures { result ≡ (entry.now.session == client.now.session) }
{
    entry.session == client.session
}

// Receives an entry, and tells the verdict of its commit. An entry without a commit is sound, and changes nothing.
fn receive_entry(
    alloc: Global,
    client: &Client,
    kept: &mut Replica,
    entry: &Entry,
) -> Result<Verdict, AllocError>
    requires sound { IsSoundInForm (document_of kept.old.received) }
    requires own { AreCarried (document_of kept.old.received) client.now.pending kept.old.main.own (document_of kept.old.main.doc) }
    requires edited { kept.old.main.edited ≡ None }
    requires next { CanReceive client.now kept.old entry.now }
    requires few { kept.old.names ≤ 16384 }
    ensures { IfOk result (λ v. HasReceivedNext client.now kept.old entry.now v kept.new) }
{
    match &entry.body {
        Body::Join { .. } | Body::Leave | Body::Ack { .. } => Ok(Verdict::Sound),
        Body::Commit { intent, .. } => {
            let is_own = is_from(entry, client);
            let verdict = receive(alloc, client, kept, is_own, intent)?;
            Ok(verdict)
        }
    }
}

// Notes that a client received an entry: a commit of its own is no longer pending.
fn advance(client: &mut Client, entry: &Entry)
    requires { client.old.received + 1 < 2 ^ 32 }
    ensures { client.new ≡ with_received entry.now client.old }
{
    if is_own(entry, client) && !client.pending.is_empty() {
        let _ = client.pending.remove(0);
    }
    client.received += 1;
}

// Whether an entry is a commit of a client.
fn is_own(entry: &Entry, client: &Client) -> bool
    ensures { result ≡ is_own entry.now client.now }
{
    match &entry.body {
        Body::Join { .. } | Body::Leave | Body::Ack { .. } => false,
        Body::Commit { .. } => entry.session == client.session,
    }
}

// The entry after the first ones.
fn entry_after(log: &[Entry], count: u32) -> Option<&Entry>
    ensures { option_copied result ≡ slice_get log.now count }
{
    log.get(count as usize)
}

// Receives the next entry of the log. Pending commits are carried out anew only where another's commit comes before them.
fn deliver_next(
    alloc: Global,
    log: &[Entry],
    client: &mut Client,
    kept: &mut Replica,
) -> Result<Answer, AllocError>
    requires entries { length log.now < 2 ^ 32 - 1 }
    requires sound { IsSoundInForm (document_of kept.old.received) }
    requires own { AreCarried (document_of kept.old.received) client.old.pending kept.old.main.own (document_of kept.old.main.doc) }
    requires edited { kept.old.main.edited ≡ None }
    requires next { IfSome (slice_get log.now client.old.received) (CanReceive client.old kept.old) }
    requires few { kept.old.names ≤ 16384 }
    ensures answer { IfOk result (IsDeliveredTo (document_of kept.old.received) client.old (slice_get log.now client.old.received) client.new) }
    ensures kept { OnOk result (HasMoved client.old kept.old (slice_get log.now client.old.received) kept.new) }
{
    let Some(entry) = entry_after(log, client.received) else {
        return Ok(Answer::No(Refusal::NothingNew));
    };
    let void = receive_entry(alloc, client, kept, entry)?;
    advance(client, entry);
    let n = client.received;
    Ok(Answer::Deliver { n, void })
}

/// Receives the next entry of the log, unless a transaction is open.
pub fn deliver(
    alloc: Global,
    log: &[Entry],
    client: &mut Client,
    kept: &mut Replica,
) -> Result<Answer, AllocError>
    requires entries { length log.now < 2 ^ 32 - 1 }
    requires sound { IsSoundInForm (document_of kept.old.received) }
    requires next { CanReceiveIn client.old kept.old client.old.transaction (slice_get log.now client.old.received) }
    requires few { kept.old.names ≤ 16384 }
    ensures answer { IfOk result (IsDeliveredIn (document_of kept.old.received) client.old client.old.transaction (slice_get log.now client.old.received) client.new) }
    ensures kept { OnOk result (HasMovedIn client.old kept.old client.old.transaction (slice_get log.now client.old.received) kept.new) }
{
    if client.transaction.is_some() {
        return Ok(Answer::No(Refusal::Unfinished));
    }
    let answer = deliver_next(alloc, log, client, kept)?;
    Ok(answer)
}

/// How many names the oldest text of a client's queue makes, or the greatest number if there are more; nothing where no
/// text waits.
pub fn names_waiting(client: &Client) -> Option<u64>
    ensures { result ≡ option_map (λ q. min (names_in_text q) (2 ^ 64 - 1)) (slice_get client.now.queue 0) }
{
    let text = client.queue.get(0)?;
    Some(names_in_text(text))
}

/// Takes the oldest text out of a client's queue.
pub fn take_text(client: &mut Client) -> Option<Body>
    ensures { MatchOption result ((client.old.queue ≡ []) × (client.new ≡ client.old))
        (λ q. (client.old.queue ≡ q ∷ client.new.queue) × (client.new ≡ record client.old { queue = client.new.queue })) }
{
    if client.queue.is_empty() {
        None
    } else {
        Some(client.queue.remove(0))
    }
}
