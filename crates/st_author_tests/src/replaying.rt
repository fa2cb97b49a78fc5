//! A plain replay: the commits of an author's list, from the opening on, each where it fits.
ghost use Rattle.std.specs.Prelude.{◌≡◌, true, [], ◌∷◌, ◌≤◌, length, IfOk, OnOk};
ghost use Rattle.st_doc.specs.Doc.{document_of};
ghost use Rattle.st_lists.specs.Log.{commits_by, commits_in};
ghost use Rattle.st_marks.specs.CarryOut.{full};
ghost use Rattle.st_marks.specs.Document.{HasShortRows, IsSoundInForm};
ghost use Rattle.st_marks.specs.Intent.{Fits};
ghost use Rattle.st_author_tests.specs.Replays.{HasReplayed, IsReplayOf};

use st_doc::Doc;
use st_lists::{Body, Entry};
use st_marks::Intent;
use std::alloc::Global;
use std::test::Fail;

// Whether an intent fits, and leaves rows short enough.
fn can_carry(doc: &Doc, intent: &Intent) -> bool
    requires { IsSoundInForm (document_of doc.now) }
    ensures { result ≡ true → Fits (document_of doc.now) intent.now
        × HasShortRows (full (document_of doc.now) intent.now) }
{
    doc.fits(intent) && doc.has_room(intent)
}

// Carries out an intent that fits.
fn carry(alloc: Global, doc: &mut Doc, intent: &Intent) -> Result<(), Fail>
    requires { IsSoundInForm (document_of doc.old) }
    ensures { OnOk result (HasReplayed doc.old (intent.now ∷ []) doc.new) }
{
    if !can_carry(doc, intent) {
        return Err(Fail::from("does not fit"));
    }
    doc.carry(alloc, intent)?;
    Ok(())
}

fn carry_entry(alloc: Global, doc: &mut Doc, entry: &Entry) -> Result<(), Fail>
    requires { IsSoundInForm (document_of doc.old) }
    ensures { OnOk result (HasReplayed doc.old (commits_in (entry.now ∷ [])) doc.new) }
{
    match &entry.body {
        Body::Join { .. } | Body::Leave | Body::Ack { .. } => Ok(()),
        Body::Commit { intent, .. } => {
            carry(alloc, doc, intent)?;
            Ok(())
        }
    }
}

fn carry_own_entry(alloc: Global, doc: &mut Doc, entry: &Entry, session: u32) -> Result<(), Fail>
    requires { IsSoundInForm (document_of doc.old) }
    ensures { OnOk result (HasReplayed doc.old (commits_by session (entry.now ∷ [])) doc.new) }
{
    if entry.session == session {
        carry_entry(alloc, doc, entry)?;
    }
    Ok(())
}

fn carry_entries(alloc: Global, doc: &mut Doc, entries: &[Entry]) -> Result<(), Fail>
    requires { IsSoundInForm (document_of doc.old) }
    ensures { OnOk result (HasReplayed doc.old (commits_in entries.now) doc.new) }
{
    for entry in entries {
        carry_entry(alloc, doc, entry)?;
    }
    Ok(())
}

fn carry_own(alloc: Global, doc: &mut Doc, entries: &[Entry], session: u32) -> Result<(), Fail>
    requires { IsSoundInForm (document_of doc.old) }
    ensures { OnOk result (HasReplayed doc.old (commits_by session entries.now) doc.new) }
{
    for entry in entries {
        carry_own_entry(alloc, doc, entry, session)?;
    }
    Ok(())
}

/// The document of a session's author at a reference, from the opening on.
pub fn replay(
    alloc: Global,
    opening: &Doc,
    log: &[Entry],
    session: u32,
    reference: usize,
) -> Result<Doc, Fail>
    requires sound { IsSoundInForm (document_of opening.now) }
    requires within { reference ≤ length log.now }
    ensures { IfOk result (IsReplayOf (document_of opening.now) log.now session reference) }
{
    let (known, later) = log.split_at(reference);
    let mut doc = opening.copy(alloc)?;
    carry_entries(alloc, &mut doc, known)?;
    carry_own(alloc, &mut doc, later, session)?;
    Ok(doc)
}
