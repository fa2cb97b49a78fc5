//! Undoing a commit of the client's own: by a look-up of how it came out where it came.
ghost use Rattle.std.specs.Prelude.{◌≡◌, ◌+◌, ◌^◌, ◌<◌, ◌≤◌, is_some, length, position, slice_get, option_copied, IfOk, OnOk, Ok, Err};
ghost use Rattle.st_ids.specs.Or.{IfRefused};
ghost use Rattle.st_marks.specs.declared.intents.Intent.{Intent as Meant};
ghost use Rattle.st_marks.specs.Document.{IsSoundInForm};
ghost use Rattle.st_marks.specs.Intent.{Fits};
ghost use Rattle.st_doc.specs.Doc.{document_of};
ghost use Rattle.st_lists.specs.Clients.{KeepsIds, next_rev};
ghost use Rattle.st_lists.specs.Names.{names_made};
ghost use Rattle.st_edits.specs.InEffect.{last_in_effect};
ghost use Rattle.st_world.specs.Undo.{has_rev};
ghost use Rattle.st_plain_undo.specs.Undo.{HasGone, HasUndone, logged_of, undo_in, undone, way_at, way_logged, way_of, way_over, way_pending};

use crate::logged::Logged;
use st_heads::{Carried, Replica, commit_new, last_in_effect};
use st_ids::{Or, Rev, is_same_rev};
use st_lists::{Client, next_rev, pending_limit_passed};
use st_marks::Intent;
use st_script::{Answer, Refusal};
use std::alloc::{AllocError, Global};
use std::collections::BTreeMap;

// The way back over a commit that came out so, or why it isn't undone.
fn way_of(
    alloc: Global,
    client: &Client,
    under: Rev,
    is_schema: bool,
    carried: &Carried,
) -> Result<Intent, Or<Refusal>>
    requires few { client.now.ids + 1 < 2 ^ 32 }
    requires pending { length client.now.pending ≤ 256 }
    ensures ok { IfOk result (λ i. way_of client.now under is_schema carried.now ≡ Ok i) }
    ensures bad { IfRefused result (λ e. way_of client.now under is_schema carried.now ≡ Err e) }
{
    if carried.void {
        return Err(Or::Fault(Refusal::VoidCommit));
    }
    if is_schema {
        return Err(Or::Fault(Refusal::Kind));
    }
    if let Some(limit) = pending_limit_passed(client) {
        return Err(Or::Fault(Refusal::Limit(limit)));
    }
    match carried.back.intent(alloc, next_rev(client), under) {
        Ok(intent) => Ok(intent),
        Err(_) => Err(Or::NoMemory),
    }
}

// The way back over a commit of the log, or why it isn't undone.
fn way_logged(
    alloc: Global,
    floor: u32,
    client: &Client,
    under: Rev,
    rev: Rev,
    logged: &Logged,
) -> Result<Intent, Or<Refusal>>
    requires few { client.now.ids + 1 < 2 ^ 32 }
    requires pending { length client.now.pending ≤ 256 }
    ensures ok { IfOk result (λ i. way_logged floor client.now under rev logged.now ≡ Ok i) }
    ensures bad { IfRefused result (λ e. way_logged floor client.now under rev logged.now ≡ Err e) }
{
    if rev.session != client.session {
        return Err(Or::Fault(Refusal::NotOwn));
    }
    if logged.n <= floor {
        return Err(Or::Fault(Refusal::Gone { floor }));
    }
    way_of(alloc, client, under, logged.is_schema, &logged.carried)
}

// Whether a commit changes the schema.
fn changes_schema(intent: &Intent) -> bool
    ensures { result ≡ is_some intent.now.schema }
{
    intent.schema.is_some()
}

// The way back over the pending commit at a place, of which it is kept how each came out, or why it isn't undone.
fn way_pending(
    alloc: Global,
    client: &Client,
    under: Rev,
    own: &[Carried],
    rev: Rev,
    place: usize,
) -> Result<Intent, Or<Refusal>>
    requires few { client.now.ids + 1 < 2 ^ 32 }
    requires pending { length client.now.pending ≤ 256 }
    ensures ok { IfOk result (λ i. way_pending client.now under rev (slice_get client.now.pending place) (slice_get own.now place) ≡ Ok i) }
    ensures bad { IfRefused result (λ e. way_pending client.now under rev (slice_get client.now.pending place) (slice_get own.now place) ≡ Err e) }
{
    let Some(intent) = client.pending.get(place) else {
        return Err(Or::Fault(Refusal::NoCommit));
    };
    let Some(carried) = own.get(place) else {
        return Err(Or::Fault(Refusal::NoCommit));
    };
    if rev.session != client.session {
        return Err(Or::Fault(Refusal::NotOwn));
    }
    way_of(alloc, client, under, changes_schema(intent), carried)
}

// The place of the commit of a revision.
fn place_of(commits: &[Intent], rev: Rev) -> Option<usize>
    ensures { result ≡ position (has_rev rev) commits.now }
{
    commits
        .iter()
        .position(|commit| is_same_rev(commit.rev, rev))
}

// The way back over a pending commit of a revision, or why it isn't undone.
fn way_at(
    alloc: Global,
    client: &Client,
    under: Rev,
    own: &[Carried],
    rev: Rev,
) -> Result<Intent, Or<Refusal>>
    requires few { client.now.ids + 1 < 2 ^ 32 }
    requires pending { length client.now.pending ≤ 256 }
    ensures ok { IfOk result (λ i. way_at client.now under own.now rev (position (has_rev rev) client.now.pending) ≡ Ok i) }
    ensures bad { IfRefused result (λ e. way_at client.now under own.now rev (position (has_rev rev) client.now.pending) ≡ Err e) }
{
    match place_of(client.pending.as_slice(), rev) {
        None => Err(Or::Fault(Refusal::NoCommit)),
        Some(place) => way_pending(alloc, client, under, own, rev, place),
    }
}

// What is kept of the commit of a revision, if it is among the entries that were received.
fn logged_of(logged: &BTreeMap<Rev, Logged>, received: u32, rev: Rev) -> Option<&Logged>
    ensures { option_copied result ≡ logged_of logged.now received rev }
{
    let found = logged.get(&rev)?;
    if found.n <= received {
        Some(found)
    } else {
        None
    }
}

// The way back over the commit of a revision that a client received or has pending, or why it isn't undone.
fn way_over(
    alloc: Global,
    floor: u32,
    logged: &BTreeMap<Rev, Logged>,
    client: &Client,
    kept: &Replica,
    rev: Rev,
) -> Result<Intent, Or<Refusal>>
    requires few { client.now.ids + 1 < 2 ^ 32 }
    requires pending { length client.now.pending ≤ 256 }
    ensures ok { IfOk result (λ i. way_over floor client.now (last_in_effect (document_of kept.now.main.doc)) kept.now.main.own rev (logged_of logged.now client.now.received rev) ≡ Ok i) }
    ensures bad { IfRefused result (λ e. way_over floor client.now (last_in_effect (document_of kept.now.main.doc)) kept.now.main.own rev (logged_of logged.now client.now.received rev) ≡ Err e) }
{
    let under = last_in_effect(&kept.main.doc);
    match logged_of(logged, client.received, rev) {
        None => way_at(alloc, client, under, kept.main.own.as_slice(), rev),
        Some(found) => way_logged(alloc, floor, client, under, rev, found),
    }
}

// Keeps a commit that undoes another as pending.
fn add_undo(
    alloc: Global,
    client: &mut Client,
    kept: &mut Replica,
    intent: Intent,
) -> Result<Answer, AllocError>
    requires few { client.old.ids + 1 < 2 ^ 32 }
    requires taken { KeepsIds client.old }
    requires names { kept.old.names + names_made intent ≤ 16384 }
    requires sound { IsSoundInForm (document_of kept.old.main.doc) }
    requires fits { Fits (document_of kept.old.main.doc) intent }
    ensures answer { IfOk result (λ a. undone client.old (Ok intent) ≡ (client.new, a)) }
    ensures kept { OnOk result (HasGone kept.old (Ok intent) kept.new) }
{
    let rev = next_rev(client);
    commit_new(alloc, client, kept, intent)?;
    Ok(Answer::Undo { rev })
}

/// Undoes the commit of a revision that a client received or has pending, or refuses to. `floor` is the client's, and
/// `logged` has what is kept of each commit of the log. It takes the time of a look-up and that of the way's names.
pub fn undo(
    alloc: Global,
    floor: u32,
    logged: &BTreeMap<Rev, Logged>,
    client: &mut Client,
    kept: &mut Replica,
    rev: Rev,
) -> Result<Answer, AllocError>
    requires few { client.old.ids + 1 < 2 ^ 32 }
    requires taken { KeepsIds client.old }
    requires pending { length client.old.pending ≤ 256 }
    requires sound { IsSoundInForm (document_of kept.old.main.doc) }
    requires can { (B : Meant) → way_over floor client.old (last_in_effect (document_of kept.old.main.doc)) kept.old.main.own rev (logged_of logged.now client.old.received rev) ≡ Ok B
        → Fits (document_of kept.old.main.doc) B × (kept.old.names + names_made B ≤ 16384) }
    ensures answer { IfOk result (λ a. undo_in client.old client.old.transaction
        (way_over floor client.old (last_in_effect (document_of kept.old.main.doc)) kept.old.main.own rev (logged_of logged.now client.old.received rev)) ≡ (client.new, a)) }
    ensures kept { OnOk result (HasUndone client.old.transaction kept.old
        (way_over floor client.old (last_in_effect (document_of kept.old.main.doc)) kept.old.main.own rev (logged_of logged.now client.old.received rev)) kept.new) }
{
    if client.transaction.is_some() {
        return Ok(Answer::No(Refusal::Unfinished));
    }
    match way_over(alloc, floor, logged, client, kept, rev) {
        Ok(intent) => {
            let answer = add_undo(alloc, client, kept, intent)?;
            Ok(answer)
        }
        Err(Or::Fault(refusal)) => Ok(Answer::No(refusal)),
        Err(Or::NoMemory) => Err(AllocError),
    }
}
