//! Whether required fields that a commit clears are filled again.
ghost use Rattle.std.specs.Prelude.{◌≡◌, ◌↔◌, true, IfOk, List as Seq};
ghost use Rattle.std.specs.Option.{option_copied};
ghost use Rattle.st_marks.specs.Document.{Document};
ghost use Rattle.st_marks.specs.declared.intents.Intent.{Intent as Wanted};
ghost use Rattle.st_doc.specs.Doc.{document_of};
ghost use Rattle.st_makers.specs.Makers.{KnowsMakers};
ghost use Rattle.st_keeps.specs.Moves.{ClearedAreFilled};
ghost use Rattle.st_keeps.specs.inside.Tests.{are_filled, comes_well, is_filled, is_told};

use st_doc::Doc;
use st_ids::{FieldId, NodeId, is_same_field};
use st_intent::is_new;
use st_kept_fields::{is_required_field, put_in};
use st_makers::Makers;
use st_marks::Intent;
use st_schema::Schema;
use std::alloc::{AllocError, Global};

// Whether a register is the one that is told, if one is.
fn is_told(field: &FieldId, told: Option<&FieldId>) -> bool
    ensures { result ≡ is_told field.now (option_copied told.entry) }
{
    match told {
        None => false,
        Some(told) => is_same_field(told, field),
    }
}

// Whether a node that is put into a field is new, or has its home there.
fn comes_well(makers: &Makers, intent: &Intent, field: &FieldId, node: Option<NodeId>) -> bool
    ensures { result ≡ comes_well makers.now intent.now field.now node }
{
    match node {
        None => false,
        Some(node) => is_told(field, makers.home(node)) || is_new(intent, node),
    }
}

// Whether a field is filled, or not required.
fn is_filled(
    alloc: Global,
    makers: &Makers,
    doc: &Doc,
    schema: &Schema,
    intent: &Intent,
    field: &FieldId,
) -> Result<bool, AllocError>
    ensures { IfOk result (λ b. b
        ≡ is_filled makers.now schema.now (document_of doc.now) intent.now field.now) }
{
    if comes_well(makers, intent, field, put_in(intent, field)) {
        return Ok(true);
    }
    let required = is_required_field(alloc, doc, intent, schema, field)?;
    Ok(!required)
}

// Whether each field that is cleared is.
fn are_filled(
    alloc: Global,
    makers: &Makers,
    doc: &Doc,
    schema: &Schema,
    intent: &Intent,
) -> Result<bool, AllocError>
    ensures { IfOk result (λ b. b
        ≡ are_filled makers.now schema.now (document_of doc.now) intent.now) }
{
    for field in intent.clear.as_slice() {
        if !is_filled(alloc, makers, doc, schema, intent, field)? {
            return Ok(false);
        }
    }
    Ok(true)
}

/// Whether each required field that a commit clears is filled with a new node, or with one whose home it is.
pub fn cleared_are_filled(
    alloc: Global,
    makers: &Makers,
    doc: &Doc,
    schema: &Schema,
    intent: &Intent,
) -> Result<bool, AllocError>
    ensures { IfOk result (λ b. (O : Document) (log : Seq Wanted) → KnowsMakers O log makers.now
        → (b ≡ true) ↔ ClearedAreFilled O log schema.now (document_of doc.now) intent.now) }
{
    are_filled(alloc, makers, doc, schema, intent)
}
