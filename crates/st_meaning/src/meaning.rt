//! The intent that a change tells.
ghost use Rattle.std.specs.Prelude.{◌≡◌, ◌↔◌, true, None, IfOk, IfSome};
ghost use Rattle.std.specs.List.{flat_map};
ghost use Rattle.st_doc.specs.Doc.{document_of};
ghost use Rattle.st_marks.specs.Document.{IsSoundInForm};
ghost use Rattle.st_marks.specs.Embedding.{IsEmbedding};
ghost use Rattle.st_marks.specs.Intent.{Fits};
ghost use Rattle.st_marks.specs.declared.intents.Intent.{Intent as IntentOf};
ghost use Rattle.st_meaning.specs.InOrder.{IsInOrder};
ghost use Rattle.st_meaning.specs.inside.Made.{cleared_at};
ghost use Rattle.st_same_laws.specs.Same.{LooksAlike};

use crate::clears::clears_of;
use crate::groups::listed_groups;
use crate::puts::listed_puts;
use st_doc::Doc;
use st_embed::embed;
use st_ids::{Copied, List};
use st_marks::{Change, Group, Intent, Put};
use std::alloc::{AllocError, Global};

// Whether two changes are the same.
fn is_same(a: &Change, b: &Change) -> bool
    ensures { (result ≡ true) ↔ (a.now ≡ b.now) }
{
    a == b
}

// The intent with these puts and groups, and all else as a change tells it.
fn intent_with(
    alloc: Global,
    change: &Change,
    groups: List<Group>,
    put: List<Put>,
) -> Result<Intent, AllocError>
    ensures { IfOk result (λ M. M ≡ record {
      rev = change.now.rev;
      under = change.now.under;
      new = change.now.new;
      groups = groups;
      clear = flat_map cleared_at change.now.regs;
      put = put;
      need = change.now.need;
      schema = change.now.schema;
    }) }
{
    let new = change.new.copy(alloc)?;
    let clear = clears_of(alloc, change.regs.as_slice())?;
    let need = change.need.copy(alloc)?;
    let schema = change.schema.copy(alloc)?;
    Ok(Intent {
        rev: change.rev,
        under: change.under,
        new,
        groups,
        clear,
        put,
        need,
        schema,
    })
}

// What the lists of a change tell of its intent, if it is the change of one.
fn told_by(alloc: Global, doc: &Doc, change: &Change) -> Result<Intent, AllocError>
    requires { IsSoundInForm (document_of doc.now) }
    ensures exact { IfOk result (λ M. (N : IntentOf) → Fits (document_of doc.now) N
        → IsEmbedding (document_of doc.now) N change.now → LooksAlike N M) }
    ensures order { IfOk result (λ M. (N : IntentOf) → IsEmbedding (document_of doc.now) N change.now → IsInOrder M) }
{
    let groups = listed_groups(alloc, doc, change.rows.as_slice())?;
    let put = listed_puts(alloc, change)?;
    intent_with(alloc, change, groups, put)
}

// Whether a change is that of an intent.
fn is_change_of(
    alloc: Global,
    doc: &Doc,
    intent: &Intent,
    change: &Change,
) -> Result<bool, AllocError>
    requires { IsSoundInForm (document_of doc.now) }
    ensures { IfOk result (λ b. (b ≡ true)
        ↔ (Fits (document_of doc.now) intent.now × IsEmbedding (document_of doc.now) intent.now change.now)) }
{
    if doc.fits(intent) {
        let shown = embed(alloc, doc, intent)?;
        Ok(is_same(&shown, change))
    } else {
        Ok(false)
    }
}

/// The intent whose change in a document a change is, its lists in the order of their names; none, where the change is that
/// of no intent that fits.
pub fn intent(alloc: Global, doc: &Doc, change: &Change) -> Result<Option<Intent>, AllocError>
    requires sound { IsSoundInForm (document_of doc.now) }
    ensures some { IfOk result (λ o. IfSome o (λ N. Fits (document_of doc.now) N
        × IsEmbedding (document_of doc.now) N change.now × IsInOrder N)) }
    ensures none { IfOk result (λ o. o ≡ None → (N : IntentOf) → Fits (document_of doc.now) N
        → IsEmbedding (document_of doc.now) N change.now → ⊥) }
{
    let told = told_by(alloc, doc, change)?;
    let same = is_change_of(alloc, doc, &told, change)?;
    if same { Ok(Some(told)) } else { Ok(None) }
}
