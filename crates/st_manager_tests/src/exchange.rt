//! What comes to a manager and to the plain log beside it, and whether both are the same then.
ghost use Rattle.st_marks.specs.Document.{IsSoundInForm};
ghost use Rattle.st_doc.specs.Doc.{document_of};

use crate::changes::uuid_of;
use crate::checks::{Desk, is_answered, is_effect, keeps_last, stands};
use crate::pages::change_in;
use crate::plain::OWN;
use crate::tally::{Tally, add};
use crate::views::{Views, trunk_of, views_of};
use st_doc::Doc;
use st_draws::after;
use st_ids::Copied;
use st_manager::{Manager, Received};
use st_marks::{Change, Intent, Verdict};
use st_rebaser::Rebaser;
use std::alloc::{AllocError, Global};

/// A commit that comes: its session, the reference, and what it wants.
#[derive(Drop)]
pub struct Coming {
    pub session: u32,
    pub reference: u32,
    pub intent: Intent,
}

// Compares a manager with the log after an entry that is no commit.
fn compare<R: Rebaser>(
    alloc: Global,
    manager: &Manager<R>,
    desk: &Desk,
    taken: bool,
    tally: &mut Tally,
) -> Result<(), AllocError> {
    let trunk = trunk_of(alloc, &desk.plain)?;
    let right = stands(alloc, manager, desk, &trunk)?;
    tally.compare(taken && right);
    Ok(())
}

/// A session joins.
pub fn join<R: Rebaser>(
    alloc: Global,
    manager: &mut Manager<R>,
    desk: &mut Desk,
    session: u32,
    tally: &mut Tally,
) -> Result<(), AllocError> {
    let uuid = uuid_of(session);
    let taken = manager.receive_join(alloc, session, uuid).is_ok();
    add(&mut tally.again, desk.plain.member(session).known > 0);
    desk.plain.join(session);
    compare(alloc, manager, desk, taken, tally)
}

/// A session leaves.
pub fn leave<R: Rebaser>(
    alloc: Global,
    manager: &mut Manager<R>,
    desk: &mut Desk,
    session: u32,
    tally: &mut Tally,
) -> Result<(), AllocError> {
    let taken = manager.receive_leave(alloc, session).is_ok();
    desk.plain.leave(session);
    add(&mut tally.leaves, true);
    compare(alloc, manager, desk, taken, tally)
}

/// A session tells what it has received.
pub fn ack<R: Rebaser>(
    alloc: Global,
    manager: &mut Manager<R>,
    desk: &mut Desk,
    session: u32,
    reference: u32,
    tally: &mut Tally,
) -> Result<(), AllocError> {
    let taken = manager.receive_ack(alloc, session, reference).is_ok();
    desk.plain.ack(session, reference);
    add(&mut tally.acks, true);
    compare(alloc, manager, desk, taken, tally)
}

// Counts what a commit is where it comes, beside what it was where it was written.
fn count_verdict(answer: Verdict, written: Verdict, tally: &mut Tally) {
    let (is, was) = (answer == Verdict::Sound, written == Verdict::Sound);
    add(&mut tally.void, !is);
    add(&mut tally.turned, is != was);
}

// Counts what comes.
fn count_commit(desk: &Desk, coming: &Coming, tally: &mut Tally) {
    let own = coming.session == OWN;
    add(&mut tally.back, own);
    add(&mut tally.commits, !own);
    add(&mut tally.through, !own && !desk.plain.waiting.is_empty());
    add(&mut tally.behind, coming.reference < desk.plain.entries);
}

// Whether the answer to a commit, and what is kept of it, is what the documents before it and after it tell.
fn is_told<R: Rebaser>(
    alloc: Global,
    manager: &Manager<R>,
    received: &Received,
    desk: &Desk,
    before: &Views,
    after: &Views,
    intent: &Intent,
) -> Result<bool, AllocError>
    requires trunk_before { IsSoundInForm (document_of before.now.trunk) }
    requires trunk_after { IsSoundInForm (document_of after.now.trunk) }
    requires local_before { IsSoundInForm (document_of before.now.local) }
    requires local_after { IsSoundInForm (document_of after.now.local) }
{
    let (n, thin) = (desk.plain.entries, desk.thin);
    let (from, to) = (&before.trunk, &after.trunk);
    Ok(
        is_answered(alloc, received, before, after, intent, thin)?
            && keeps_last(alloc, manager.window(), n, from, to, intent, thin)?,
    )
}

// The same, and whether the manager has all that the log says.
fn is_right<R: Rebaser>(
    alloc: Global,
    manager: &Manager<R>,
    received: &Received,
    desk: &Desk,
    before: &Views,
    intent: &Intent,
) -> Result<bool, AllocError>
    requires trunk { IsSoundInForm (document_of before.now.trunk) }
    requires local { IsSoundInForm (document_of before.now.local) }
{
    let after = views_of(alloc, &desk.plain)?;
    Ok(
        is_told(alloc, manager, received, desk, before, &after, intent)?
            && stands(alloc, manager, desk, &after.trunk)?,
    )
}

// The log goes on by a commit that a manager took, and both are compared.
fn enter<R: Rebaser>(
    alloc: Global,
    manager: &Manager<R>,
    received: &Received,
    desk: &mut Desk,
    before: &Views,
    coming: &Coming,
) -> Result<bool, AllocError>
    requires trunk { IsSoundInForm (document_of before.now.trunk) }
    requires local { IsSoundInForm (document_of before.now.local) }
{
    let intent = coming.intent.copy(alloc)?;
    let (session, reference) = (coming.session, coming.reference);
    desk.plain.commit(session, reference, intent)?;
    is_right(alloc, manager, received, desk, before, &coming.intent)
}

// A manager takes a commit, and is compared with the log.
fn take<R: Rebaser>(
    alloc: Global,
    manager: &mut Manager<R>,
    desk: &mut Desk,
    change: Change,
    written: Verdict,
    coming: &Coming,
    tally: &mut Tally,
) -> Result<bool, AllocError> {
    let before = views_of(alloc, &desk.plain)?;
    let ids = desk.plain.next_ids(coming.session);
    match manager.receive_known(alloc, change, coming.session, coming.reference, ids) {
        Err(_) => Ok(false),
        Ok(received) => {
            count_verdict(received.verdict, written, tally);
            enter(alloc, manager, &received, desk, &before, coming)
        }
    }
}

// A commit comes with its change, if it has one.
fn bring<R: Rebaser>(
    alloc: Global,
    manager: &mut Manager<R>,
    desk: &mut Desk,
    change: Option<Change>,
    written: Verdict,
    coming: &Coming,
    tally: &mut Tally,
) -> Result<bool, AllocError> {
    match change {
        Some(change) => take(alloc, manager, desk, change, written, coming, tally),
        None => Ok(false),
    }
}

/// A commit comes, that fits the document over which it was written.
pub fn commit<R: Rebaser>(
    alloc: Global,
    manager: &mut Manager<R>,
    desk: &mut Desk,
    author: &Doc,
    coming: &Coming,
    tally: &mut Tally,
) -> Result<(), AllocError>
    requires { IsSoundInForm (document_of author.now) }
{
    count_commit(desk, coming, tally);
    let written = author.fails(alloc, &coming.intent)?;
    let change = change_in(alloc, author, &coming.intent, desk.thin)?;
    let right = bring(alloc, manager, desk, change, written, coming, tally)?;
    tally.compare(right);
    Ok(())
}

// The log has a new own commit, and is compared with a manager that has it.
fn has_made<R: Rebaser>(
    alloc: Global,
    manager: &Manager<R>,
    desk: &mut Desk,
    intent: &Intent,
) -> Result<bool, AllocError> {
    desk.plain.make(intent.copy(alloc)?)?;
    let trunk = trunk_of(alloc, &desk.plain)?;
    stands(alloc, manager, desk, &trunk)
}

// A manager adds a new own commit. Whether it answers as the document of the local view tells.
fn add_change<R: Rebaser>(
    alloc: Global,
    manager: &mut Manager<R>,
    change: Change,
    local: &Doc,
    intent: &Intent,
    thin: bool,
) -> Result<bool, AllocError>
    requires { IsSoundInForm (document_of local.now) }
{
    let then = after(alloc, local, intent)?;
    match manager.add_local(alloc, change) {
        Ok(effected) => is_effect(alloc, &effected, local, &then, intent, thin),
        Err(_) => Ok(false),
    }
}

fn add_own<R: Rebaser>(
    alloc: Global,
    manager: &mut Manager<R>,
    local: &Doc,
    intent: &Intent,
    thin: bool,
) -> Result<bool, AllocError>
    requires { IsSoundInForm (document_of local.now) }
{
    match change_in(alloc, local, intent, thin)? {
        Some(change) => add_change(alloc, manager, change, local, intent, thin),
        None => Ok(false),
    }
}

/// An own commit is made, that fits the document of the local view.
pub fn make<R: Rebaser>(
    alloc: Global,
    manager: &mut Manager<R>,
    desk: &mut Desk,
    local: &Doc,
    intent: &Intent,
    tally: &mut Tally,
) -> Result<(), AllocError>
    requires { IsSoundInForm (document_of local.now) }
{
    let added = add_own(alloc, manager, local, intent, desk.thin)?;
    let stands = has_made(alloc, manager, desk, intent)?;
    add(&mut tally.made, true);
    tally.compare(added && stands);
    Ok(())
}
