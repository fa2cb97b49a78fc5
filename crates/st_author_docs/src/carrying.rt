//! Entries whose commits are carried out in a document, one after the other: all of them, or those of one session.
ghost use Rattle.std.specs.Prelude.{[], ◌∷◌, OnOk};
ghost use Rattle.st_marks.specs.Document.{IsSoundInForm};
ghost use Rattle.st_marks.specs.Run.{Run};
ghost use Rattle.st_doc.specs.Doc.{document_of};
ghost use Rattle.st_log_laws.specs.Turns.{FitInTurn};
ghost use Rattle.st_lists.specs.Log.{commits_by, commits_in};

use st_doc::Doc;
use st_lists::{Body, Entry};
use std::alloc::{AllocError, Global};

// Carries out the commit of an entry, if it has one.
fn carry_entry(alloc: Global, doc: &mut Doc, entry: &Entry) -> Result<(), AllocError>
    requires sound { IsSoundInForm (document_of doc.old) }
    requires fit { FitInTurn (document_of doc.old) (commits_in (entry.now ∷ [])) }
    ensures run { OnOk result (Run (document_of doc.old) (commits_in (entry.now ∷ []))
        (document_of doc.new)) }
    ensures sound { OnOk result (IsSoundInForm (document_of doc.new)) }
{
    match &entry.body {
        Body::Join { .. } | Body::Leave | Body::Ack { .. } => Ok(()),
        Body::Commit { intent, .. } => {
            doc.carry(alloc, intent)?;
            Ok(())
        }
    }
}

// Carries out the commit of an entry, if it has one and is of a session.
fn carry_own_entry(
    alloc: Global,
    doc: &mut Doc,
    entry: &Entry,
    session: u32,
) -> Result<(), AllocError>
    requires sound { IsSoundInForm (document_of doc.old) }
    requires fit { FitInTurn (document_of doc.old) (commits_by session (entry.now ∷ [])) }
    ensures run { OnOk result (Run (document_of doc.old) (commits_by session (entry.now ∷ []))
        (document_of doc.new)) }
    ensures sound { OnOk result (IsSoundInForm (document_of doc.new)) }
{
    if entry.session == session {
        carry_entry(alloc, doc, entry)?;
    }
    Ok(())
}

/// Carries out the commits of entries.
pub fn carry_entries(alloc: Global, doc: &mut Doc, entries: &[Entry]) -> Result<(), AllocError>
    requires sound { IsSoundInForm (document_of doc.old) }
    requires fit { FitInTurn (document_of doc.old) (commits_in entries.now) }
    ensures run { OnOk result (Run (document_of doc.old) (commits_in entries.now)
        (document_of doc.new)) }
    ensures sound { OnOk result (IsSoundInForm (document_of doc.new)) }
{
    for entry in entries {
        carry_entry(alloc, doc, entry)?;
    }
    Ok(())
}

/// Carries out the commits of a session among entries.
pub fn carry_own(
    alloc: Global,
    doc: &mut Doc,
    entries: &[Entry],
    session: u32,
) -> Result<(), AllocError>
    requires sound { IsSoundInForm (document_of doc.old) }
    requires fit { FitInTurn (document_of doc.old) (commits_by session entries.now) }
    ensures run { OnOk result (Run (document_of doc.old) (commits_by session entries.now)
        (document_of doc.new)) }
    ensures sound { OnOk result (IsSoundInForm (document_of doc.new)) }
{
    for entry in entries {
        carry_own_entry(alloc, doc, entry, session)?;
    }
    Ok(())
}
