//! What is kept of a client beside its lists, and the commit that comes last on its main line.
ghost use Rattle.std.specs.Prelude.{◌≡◌, ◌+◌, ◌^◌, ◌<◌, ◌≤◌, OnOk};
ghost use Rattle.st_marks.specs.Document.{IsSoundInForm};
ghost use Rattle.st_marks.specs.Intent.{Fits};
ghost use Rattle.st_doc.specs.Doc.{document_of};
ghost use Rattle.st_edits.specs.InEffect.{last_in_effect};
ghost use Rattle.st_lists.specs.Clients.{KeepsIds, with_new_commit};
ghost use Rattle.st_lists.specs.Names.{names_made};
ghost use Rattle.st_heads.specs.Replicas.{IsCommitted};

use crate::heads::Head;
use st_doc::Doc;
use st_ids::{List, Rev};
use st_lists::{Client, enqueue, names_made};
use st_marks::Intent;
use std::alloc::{AllocError, Global};

/// The document after the commits that the client received, the head of its main line, which stands on that document and
/// whose own commits are the pending ones, those of its other branches, in their order, and how many names wait at it.
#[derive(Drop)]
pub struct Replica {
    pub received: Doc,
    pub main: Head,
    pub branches: List<Head>,
    pub names: u64,
}

/// The schema entry that is last in effect in a document.
pub fn last_in_effect(doc: &Doc) -> Rev
    ensures { result ≡ last_in_effect (document_of doc.now) }
{
    match doc.under() {
        Some(rev) => rev,
        None => Rev { session: 0, num: 0 },
    }
}

/// Carries a commit out under a new id, and keeps it as pending and in the queue, where it takes the ids that are left.
pub fn commit_new(
    alloc: Global,
    client: &mut Client,
    kept: &mut Replica,
    intent: Intent,
) -> Result<(), AllocError>
    requires few { client.old.ids + 1 < 2 ^ 32 }
    requires taken { KeepsIds client.old }
    requires names { kept.old.names + names_made intent ≤ 16384 }
    requires sound { IsSoundInForm (document_of kept.old.main.doc) }
    requires fits { Fits (document_of kept.old.main.doc) intent }
    ensures client { OnOk result (client.new ≡ with_new_commit client.old intent) }
    ensures kept { OnOk result (IsCommitted kept.old intent kept.new) }
{
    kept.names += names_made(&intent);
    kept.main.carry(alloc, &intent)?;
    client.ids += 1;
    enqueue(alloc, client, intent)?;
    Ok(())
}
