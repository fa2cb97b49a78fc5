//! Which revisions the author of a message knew.
ghost use Rattle.std.specs.Prelude.{◌≡◌, ◌↔◌, ◌||◌, true, take};
ghost use Rattle.std.specs.List.{list_any};
ghost use Rattle.st_ids.specs.Listing.{Has};
ghost use Rattle.st_ids.specs.Order.{same_rev};
ghost use Rattle.st_ids.specs.Root.{opening};
ghost use Rattle.st_replay.specs.inside.Known.{has_commit, has_own_commit};
ghost use Rattle.st_valid.specs.Author.{author_list};
ghost use Rattle.st_valid.specs.Context.{known_revisions};

use crate::seen::entries_behind;
use st_ids::{OPENING, Rev, is_same_rev};
use st_lists::{Body, Entry};

// Whether an entry has the commit of a revision.
fn has_commit(entry: &Entry, rev: Rev) -> bool
    ensures { result ≡ has_commit rev entry.now }
{
    match &entry.body {
        Body::Commit { intent, .. } => is_same_rev(intent.rev, rev),
        Body::Join { .. } => false,
        Body::Leave => false,
        Body::Ack { .. } => false,
    }
}

// Whether an entry of a session has it.
fn has_own_commit(entry: &Entry, session: u32, rev: Rev) -> bool
    ensures { result ≡ has_own_commit session rev entry.now }
{
    entry.session == session && has_commit(entry, rev)
}

// Whether one of some entries has it.
fn any_has(entries: &[Entry], rev: Rev) -> bool
    ensures { result ≡ list_any (has_commit rev) entries.now }
{
    entries.iter().any(|entry| has_commit(entry, rev))
}

// Whether one of a session's among them has it.
fn any_own_has(entries: &[Entry], session: u32, rev: Rev) -> bool
    ensures { result ≡ list_any (has_own_commit session rev) entries.now }
{
    entries
        .iter()
        .any(|entry| has_own_commit(entry, session, rev))
}

// The entries of a log up to a reference, which may be past the log.
fn entries_up_to(log: &[Entry], reference: u32) -> &[Entry]
    ensures { result.now ≡ take reference log.now }
{
    let to = (reference as usize).min(log.len());
    &log[..to]
}

// Whether a revision is the opening's, or that of a commit of some entries, or of one of a session's of others.
fn is_among(front: &[Entry], rest: &[Entry], session: u32, rev: Rev) -> bool
    ensures { result ≡ ((same_rev rev opening || list_any (has_commit rev) front.now)
        || list_any (has_own_commit session rev) rest.now) }
{
    is_same_rev(rev, OPENING) || any_has(front, rev) || any_own_has(rest, session, rev)
}

/// Whether the author of a message knew a revision: the opening's, or that of a commit over which it wrote.
pub fn is_known(log: &[Entry], session: u32, reference: u32, rev: Rev) -> bool
    ensures { (result ≡ true)
        ↔ Has (known_revisions (author_list log.now session reference)) rev }
{
    let front = entries_up_to(log, reference);
    let rest = entries_behind(log, reference);
    is_among(front, rest, session, rev)
}
