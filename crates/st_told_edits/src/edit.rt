//! The change that an edit means.
ghost use Rattle.std.specs.Prelude.{◌≡◌, ◌<◌, ◌^◌, IfOk, Ok, Err};
ghost use Rattle.st_doc.specs.Doc.{document_of};
ghost use Rattle.st_edits.specs.Resolve.{IsWithin, resolve};
ghost use Rattle.st_ids.specs.Or.{IfRefused};
ghost use Rattle.st_marks.specs.Document.{IsSoundInForm};
ghost use Rattle.st_marks.specs.Intent.{Fits};
ghost use Rattle.st_marks.specs.declared.intents.Intent.{Intent as Meant};
ghost use Rattle.st_script.specs.Steps.{edit_view};
ghost use Rattle.st_told_edits.specs.Told.{IsToldOf};
ghost use Rattle.st_world.specs.Edits.{edit_of};
ghost use Rattle.st_world.specs.World.{intent_of};

use st_doc::Doc;
use st_edits::NameCounters;
use st_embed::embed;
use st_ids::Or;
use st_marks::{Change, Intent};
use st_resolve::{clear, insert, move_items, remove, set};
use st_schema::Schema;
use st_script::EditAct;
use st_tree::EditFault;
use std::alloc::{AllocError, Global};

// The intent that an edit means in a document under a schema, or its first refusal.
fn resolve_edit(
    alloc: Global,
    doc: &Doc,
    schema: &Schema,
    given: NameCounters,
    edit: &EditAct,
) -> Result<Intent, Or<EditFault>>
    requires within { IsWithin (edit_of edit.now) }
    requires nodes { given.nodes < 2 ^ 31 }
    requires cells { given.cells < 2 ^ 31 }
    ensures ok { IfOk result (λ i. resolve (document_of doc.now) schema.now given
        (edit_of edit.now) ≡ Ok i) }
    ensures bad { IfRefused result (λ e. resolve (document_of doc.now) schema.now given
        (edit_of edit.now) ≡ Err e) }
{
    match edit {
        EditAct::Insert {
            at,
            key,
            index,
            items,
        } => insert(alloc, doc, schema, given, at, key, *index, items),
        EditAct::Remove {
            at,
            key,
            index,
            count,
        } => remove(alloc, doc, schema, given, at, key, *index, *count),
        EditAct::Move {
            at,
            key,
            index,
            count,
            to,
            to_key,
            to_index,
        } => move_items(
            alloc, doc, schema, given, at, key, *index, *count, to, to_key, *to_index,
        ),
        EditAct::Set { at, key, item } => set(alloc, doc, schema, given, at, key, item),
        EditAct::Clear { at, key } => clear(alloc, doc, schema, given, at, key),
    }
}

/// The change that the commit of an edit is in the document in which the edit is made, with the
/// names that it may give: made before the commit is. Nothing where the edit is refused.
pub fn told_of_edit(
    alloc: Global,
    doc: &Doc,
    schema: &Schema,
    given: NameCounters,
    edit: &EditAct,
) -> Result<Option<Change>, AllocError>
    requires within { IsWithin (edit_of edit.now) }
    requires nodes { given.nodes < 2 ^ 31 }
    requires cells { given.cells < 2 ^ 31 }
    requires sound { IsSoundInForm (document_of doc.now) }
    requires fits { (N : Meant) → intent_of (document_of doc.now) schema.now given
        (edit_view edit.now) ≡ Ok N → Fits (document_of doc.now) N }
    ensures { IfOk result (IsToldOf (document_of doc.now) (intent_of (document_of doc.now)
        schema.now given (edit_view edit.now))) }
{
    match resolve_edit(alloc, doc, schema, given, edit) {
        Ok(intent) => {
            let change = embed(alloc, doc, &intent)?;
            Ok(Some(change))
        }
        Err(Or::Fault(_)) => Ok(None),
        Err(Or::NoMemory) => Err(AllocError),
    }
}
