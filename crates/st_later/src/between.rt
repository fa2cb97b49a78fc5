//! The way back between two documents, as an intent.
ghost use Rattle.std.specs.Prelude.{IfOk};
ghost use Rattle.st_ids.specs.Or.{IfRefused};
ghost use Rattle.st_marks.specs.Back.{IsBack};
ghost use Rattle.st_marks.specs.Document.{IsSoundInForm};
ghost use Rattle.st_marks.specs.Extends.{IsExtendedBy};
ghost use Rattle.st_doc.specs.Doc.{document_of};

use crate::extends::is_extended_by;
use st_doc::Doc;
use st_heads::way_between;
use st_ids::{Or, Rev};
use st_marks::Intent;
use std::alloc::Global;

/// A document that was to be a later one does not extend the other.
#[derive(Clone, Copy, Debug, PartialEq, Eq)]
pub struct NotLater;

/// The intent that leads back from a document to an earlier one, told by the two alone, under a revision and a schema's
/// revision. It is refused exactly where the later document does not extend the earlier one. Both have to be sound in
/// form. It goes through all that both have, in O(d log d) for d names: the yardstick of ways back that are made of a
/// commit and the document before it.
pub fn back(
    alloc: Global,
    before: &Doc,
    after: &Doc,
    rev: Rev,
    under: Rev,
) -> Result<Intent, Or<NotLater>>
    requires before { IsSoundInForm (document_of before.now) }
    requires after { IsSoundInForm (document_of after.now) }
    ensures back { IfOk result (IsBack (document_of before.now) (document_of after.now) rev under) }
    ensures later { IfOk result (λ _. IsExtendedBy (document_of before.now) (document_of after.now)) }
    ensures refused { IfRefused result (λ _. IsExtendedBy (document_of before.now) (document_of after.now) → ⊥) }
{
    if !is_extended_by(alloc, before, after)? {
        return Err(Or::Fault(NotLater));
    }
    let way = way_between(alloc, before, after)?;
    let intent = way.intent(alloc, rev, under)?;
    Ok(intent)
}
