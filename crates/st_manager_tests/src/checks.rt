//! A manager beside a plain log and its documents.
ghost use Rattle.std.specs.Prelude.{OnOk};
ghost use Rattle.st_marks.specs.Document.{IsSoundInForm};
ghost use Rattle.st_doc.specs.Doc.{document_of};

use crate::pages::{judges, leads, shows, step_from};
use crate::plain::{Member, Plain, Waiting};
use crate::views::{Views, author_of};
use st_doc::Doc;
use st_draws::carry;
use st_ids::Or;
use st_manager::{Manager, NoSession, Received};
use st_marks::{Change, Intent, Step, Verdict};
use st_rebaser::{Effected, Rebaser};
use st_window::{Kept, Window};
use std::alloc::{AllocError, Global};

/// What a manager is compared with: the log, how long a history is kept, and whether empty cells are counted.
#[derive(Drop)]
pub struct Desk {
    pub plain: Plain,
    pub history: u32,
    pub thin: bool,
}

// Whether the numbers are those of the log.
fn has_numbers<R: Rebaser>(manager: &Manager<R>, desk: &Desk) -> bool {
    let least = desk.plain.least();
    let floor = least.saturating_sub(desk.history);
    manager.number() == desk.plain.entries
        && manager.minimum() == least
        && manager.floor() == floor
        && manager.window().count() == desk.plain.above(floor)
}

// Whether the bridge that is lent with each empty cell named is this step.
fn lends(lent: Result<Step, Or<NoSession>>, step: &Option<Step>) -> bool {
    match (&lent, step) {
        (Ok(lent), Some(step)) => *lent == *step,
        _ => false,
    }
}

fn lends_named<R: Rebaser>(
    alloc: Global,
    manager: &Manager<R>,
    session: u32,
    from: &Doc,
    to: &Doc,
) -> Result<bool, AllocError>
    requires before { IsSoundInForm (document_of from.now) }
    requires after { IsSoundInForm (document_of to.now) }
{
    let step = step_from(alloc, from, to, false)?;
    Ok(lends(manager.bridge_of(alloc, session), &step))
}

// Whether the bridge that is kept leads from one document to the other.
fn keeps<R: Rebaser>(
    alloc: Global,
    manager: &Manager<R>,
    session: u32,
    from: &Doc,
    to: &Doc,
    thin: bool,
) -> Result<bool, AllocError>
    requires before { IsSoundInForm (document_of from.now) }
    requires after { IsSoundInForm (document_of to.now) }
{
    match manager.kept_bridge(session) {
        Ok(bridge) => leads(alloc, from, to, bridge, thin),
        Err(_) => Ok(false),
    }
}

// Whether the bridge of a session leads from the document over which it writes to that of all commits received.
fn has_bridge<R: Rebaser>(
    alloc: Global,
    manager: &Manager<R>,
    desk: &Desk,
    member: Member,
    trunk: &Doc,
) -> Result<bool, AllocError>
    requires { IsSoundInForm (document_of trunk.now) }
{
    let session = member.session;
    let from = author_of(alloc, &desk.plain, session, member.known)?;
    Ok(
        lends_named(alloc, manager, session, &from, trunk)?
            && keeps(alloc, manager, session, &from, trunk, desk.thin)?,
    )
}

// Whether what is kept of a session is what the log says of it.
fn has_session<R: Rebaser>(
    alloc: Global,
    manager: &Manager<R>,
    desk: &Desk,
    member: Member,
    trunk: &Doc,
) -> Result<bool, AllocError>
    requires { IsSoundInForm (document_of trunk.now) }
{
    let session = member.session;
    if member.on {
        Ok(manager.has(session) && has_bridge(alloc, manager, desk, member, trunk)?)
    } else {
        Ok(!manager.has(session) && manager.kept_bridge(session).is_err())
    }
}

fn has_sessions<R: Rebaser>(
    alloc: Global,
    manager: &Manager<R>,
    desk: &Desk,
    trunk: &Doc,
) -> Result<bool, AllocError>
    requires { IsSoundInForm (document_of trunk.now) }
{
    Ok(
        has_session(alloc, manager, desk, desk.plain.one, trunk)?
            && has_session(alloc, manager, desk, desk.plain.two, trunk)?
            && has_session(alloc, manager, desk, desk.plain.three, trunk)?,
    )
}

// Whether a change that is pending is that of an intent in a document, with its verdict there.
fn is_pending(
    alloc: Global,
    doc: &Doc,
    change: Option<&Change>,
    verdict: Option<&Verdict>,
    intent: &Intent,
    thin: bool,
) -> Result<bool, AllocError>
    requires { IsSoundInForm (document_of doc.now) }
{
    match (change, verdict) {
        (Some(change), Some(verdict)) => Ok(
            shows(alloc, doc, intent, change, thin)? && judges(alloc, doc, intent, *verdict)?,
        ),
        _ => Ok(false),
    }
}

// The same, and the document goes on by the intent.
fn is_next_pending(
    alloc: Global,
    doc: &mut Doc,
    change: Option<&Change>,
    verdict: Option<&Verdict>,
    intent: &Intent,
    thin: bool,
) -> Result<bool, AllocError>
    requires { IsSoundInForm (document_of doc.old) }
    ensures { OnOk result (IsSoundInForm (document_of doc.new)) }
{
    let right = is_pending(alloc, doc, change, verdict, intent, thin)?;
    carry(alloc, doc, intent)?;
    Ok(right)
}

// Whether the changes that are pending are those of the commits that wait, each in the document before it.
fn are_pending(
    alloc: Global,
    doc: &mut Doc,
    changes: &[Change],
    verdicts: &[Verdict],
    waiting: &[Waiting],
    thin: bool,
) -> Result<bool, AllocError>
    requires { IsSoundInForm (document_of doc.old) }
{
    let mut right = changes.len() == waiting.len() && verdicts.len() == waiting.len();
    let mut at: usize = 0;
    for it in waiting {
        let (change, verdict) = (changes.get(at), verdicts.get(at));
        right = is_next_pending(alloc, doc, change, verdict, &it.intent, thin)? && right;
        at = at.saturating_add(1);
    }
    Ok(right)
}

fn has_pending<R: Rebaser>(
    alloc: Global,
    manager: &Manager<R>,
    desk: &Desk,
    trunk: &Doc,
) -> Result<bool, AllocError>
    requires { IsSoundInForm (document_of trunk.now) }
{
    let mut doc = trunk.copy(alloc)?;
    let (changes, verdicts) = (manager.pending(), &manager.pending.verdicts);
    are_pending(
        alloc,
        &mut doc,
        changes.as_slice(),
        verdicts.as_slice(),
        desk.plain.waiting.as_slice(),
        desk.thin,
    )
}

/// Whether a manager has all that the log says, of whose commits the document is handed in.
pub fn stands<R: Rebaser>(
    alloc: Global,
    manager: &Manager<R>,
    desk: &Desk,
    trunk: &Doc,
) -> Result<bool, AllocError>
    requires { IsSoundInForm (document_of trunk.now) }
{
    Ok(
        has_numbers(manager, desk)
            && has_sessions(alloc, manager, desk, trunk)?
            && has_pending(alloc, manager, desk, trunk)?,
    )
}

// Whether a commit is kept as it came.
fn is_kept(
    alloc: Global,
    kept: &Kept,
    n: u32,
    before: &Doc,
    after: &Doc,
    intent: &Intent,
    thin: bool,
) -> Result<bool, AllocError>
    requires before { IsSoundInForm (document_of before.now) }
    requires after { IsSoundInForm (document_of after.now) }
{
    Ok(
        kept.n == n
            && shows(alloc, before, intent, &kept.change, thin)?
            && leads(alloc, before, after, &kept.step, thin)?,
    )
}

/// Whether the last commit of a window is this one, as it came: between the documents of all commits received before and after it.
pub fn keeps_last(
    alloc: Global,
    window: &Window,
    n: u32,
    before: &Doc,
    after: &Doc,
    intent: &Intent,
    thin: bool,
) -> Result<bool, AllocError>
    requires before { IsSoundInForm (document_of before.now) }
    requires after { IsSoundInForm (document_of after.now) }
{
    match window.since(n.saturating_sub(1)) {
        Ok([kept]) => is_kept(alloc, kept, n, before, after, intent, thin),
        _ => Ok(false),
    }
}

/// Whether the answer to a commit is its verdict where it comes, and the step of the local view.
pub fn is_answered(
    alloc: Global,
    received: &Received,
    before: &Views,
    after: &Views,
    intent: &Intent,
    thin: bool,
) -> Result<bool, AllocError>
    requires before { IsSoundInForm (document_of before.now.local) }
    requires after { IsSoundInForm (document_of after.now.local) }
{
    let (from, to) = (&before.local, &after.local);
    Ok(
        judges(alloc, &before.trunk, intent, received.verdict)?
            && leads(alloc, from, to, &received.step, thin)?,
    )
}

/// Whether the answer to a new own commit is its verdict in the local view, and the step to the view with it.
pub fn is_effect(
    alloc: Global,
    effected: &Effected,
    before: &Doc,
    after: &Doc,
    intent: &Intent,
    thin: bool,
) -> Result<bool, AllocError>
    requires before { IsSoundInForm (document_of before.now) }
    requires after { IsSoundInForm (document_of after.now) }
{
    Ok(
        judges(alloc, before, intent, effected.verdict)?
            && leads(alloc, before, after, &effected.step, thin)?,
    )
}
