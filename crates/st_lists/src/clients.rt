//! What a client's own steps make of its lists.
ghost use Rattle.std.specs.Prelude.{◌≡◌, ◌+◌, ◌^◌, ◌<◌, ◌≤◌, true, [], ◌∷◌, ◌++◌, option_copied, IfOk, OnOk};
ghost use Rattle.st_lists.specs.Clients.{KeepsIds, ids_from, next_rev, taken_after, texts_from, with_commit};
ghost use Rattle.st_lists.specs.Lines.{branch_of, branch_place};
ghost use Rattle.st_lists.specs.declared.lists.Body.TheVariants.{Commit};

use crate::lists::{Body, Branch, Client};
use st_clusters::IdRange;
use st_ids::{Copied, List, Rev};
use st_marks::Intent;
use std::alloc::{AllocError, Global};

/// The revision of a client's next commit.
pub fn next_rev(client: &Client) -> Rev
    requires { client.now.ids + 1 < 2 ^ 32 }
    ensures { result ≡ next_rev client.now }
{
    let session = client.session;
    let num = client.ids + 1;
    Rev { session, num }
}

// Puts a copy of a commit behind those that are pending.
fn push_pending(
    alloc: Global,
    pending: &mut List<Intent>,
    intent: &Intent,
) -> Result<(), AllocError>
    ensures { OnOk result (pending.new ≡ pending.old ++ intent.now ∷ []) }
{
    let intent = intent.copy(alloc)?;
    pending.push(intent)?;
    Ok(())
}

// The ids of a session from the one after so many up to another.
fn ids_from(session: u32, taken: u32, ids: u32) -> IdRange
    requires within { taken ≤ ids }
    requires few { taken + 1 < 2 ^ 32 }
    ensures { result ≡ ids_from session taken ids }
{
    let first = taken + 1;
    let count = ids - taken;
    IdRange {
        session,
        first,
        count,
    }
}

// Puts a commit behind the texts that wait, with the ids that it carries.
fn push_waiting(
    queue: &mut List<Body>,
    reference: u32,
    ids: IdRange,
    intent: Intent,
) -> Result<(), AllocError>
    ensures { OnOk result (queue.new ≡ queue.old ++ Commit reference ids intent ∷ []) }
{
    queue.push(Body::Commit {
        reference,
        ids,
        intent,
    })?;
    Ok(())
}

/// Commits as texts that wait, under one reference: the first takes the ids of a session from the one after so many up to
/// another, and the others take none.
pub fn texts_from(
    alloc: Global,
    reference: u32,
    session: u32,
    taken: u32,
    ids: u32,
    intents: &[Intent],
) -> Result<List<Body>, AllocError>
    requires within { taken ≤ ids }
    requires few { ids + 1 < 2 ^ 32 }
    ensures { IfOk result (λ texts. texts ≡ texts_from reference session taken ids intents.now) }
{
    let mut texts = List::new(alloc);
    let mut before = taken;
    for intent in intents {
        let intent = intent.copy(alloc)?;
        let range = ids_from(session, before, ids);
        push_waiting(&mut texts, reference, range, intent)?;
        before = ids;
    }
    Ok(texts)
}

/// How many ids are taken after them.
pub fn taken_after(taken: u32, ids: u32, intents: &[Intent]) -> u32
    ensures { result ≡ taken_after taken ids intents.now }
{
    match intents {
        [] => taken,
        [_, ..] => ids,
    }
}

/// Keeps a commit as pending, and in the queue if the client is connected, where it takes all ids that are left.
pub fn enqueue(alloc: Global, client: &mut Client, intent: Intent) -> Result<(), AllocError>
    requires taken { KeepsIds client.old }
    requires few { client.old.connected ≡ true → client.old.taken + 1 < 2 ^ 32 }
    ensures { OnOk result (client.new ≡ with_commit client.old intent) }
{
    push_pending(alloc, &mut client.pending, &intent)?;
    if client.connected {
        let ids = ids_from(client.session, client.taken, client.ids);
        push_waiting(&mut client.queue, client.received, ids, intent)?;
        client.taken = client.ids;
    }
    Ok(())
}

/// The place of the branch of a number.
pub fn branch_place(branches: &[Branch], number: u32) -> Option<usize>
    ensures { result ≡ branch_place number branches.now }
{
    branches.iter().position(|branch| branch.number == number)
}

/// The branch of a number.
pub fn find_branch(client: &Client, number: u32) -> Option<&Branch>
    ensures { option_copied result ≡ branch_of client.now number }
{
    client
        .branches
        .as_slice()
        .iter()
        .find(|branch| branch.number == number)
}
