//! What the change of a message means in its author's document.
ghost use Rattle.std.specs.Prelude.{◌≡◌, None, IfOk, IfSome};
ghost use Rattle.st_doc.specs.Doc.{document_of};
ghost use Rattle.st_marks.specs.Document.{Document, IsSoundInForm};
ghost use Rattle.st_marks.specs.Run.{Run};
ghost use Rattle.st_replay.specs.Meant.{IsMeant};
ghost use Rattle.st_valid.specs.Author.{author_list};
ghost use Rattle.st_valid.specs.Context.{HasContext};

use crate::known::is_known;
use st_doc::Doc;
use st_lists::Entry;
use st_marks::{Change, Intent};
use st_meaning::intent;
use std::alloc::{AllocError, Global};

/// The intent that a change means in the document over which the author of a message wrote it, its lists in the order of
/// their names; none, where the change says nothing there, or was made under a schema of which its author knew nothing.
pub fn authors_intent(
    alloc: Global,
    doc: &Doc,
    log: &[Entry],
    session: u32,
    reference: u32,
    change: &Change,
) -> Result<Option<Intent>, AllocError>
    requires sound { IsSoundInForm (document_of doc.now) }
    ensures some { IfOk result (λ o. IfSome o (λ N. (O : Document)
        → Run O (author_list log.now session reference) (document_of doc.now)
        → IsMeant O log.now session reference change.now N)) }
    ensures none { IfOk result (λ o. o ≡ None → (O : Document)
        → Run O (author_list log.now session reference) (document_of doc.now)
        → HasContext O log.now session reference change.now → ⊥) }
{
    if is_known(log, session, reference, change.under) {
        intent(alloc, doc, change)
    } else {
        Ok(None)
    }
}
