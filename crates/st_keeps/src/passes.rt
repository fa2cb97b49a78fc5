//! Whether a commit keeps to the schema under which it was made.
ghost use Rattle.std.specs.Prelude.{◌≡◌, ◌↔◌, true, IfOk, List as Seq, MatchOption};
ghost use Rattle.st_doc.specs.Doc.{document_of};
ghost use Rattle.st_edits.specs.Keeping.{KeepsToSchema, MayFollow, PassesSchema};
ghost use Rattle.st_makers.specs.Makers.{KnowsMakers};
ghost use Rattle.st_marks.specs.Document.{Document, revs};
ghost use Rattle.st_marks.specs.declared.intents.Intent.{Intent as Wanted};

use crate::cleared::cleared_are_filled;
use crate::known::{clear_makers_known, put_makers_known};
use crate::leaving::leaves_homes_well;
use st_doc::Doc;
use st_kept_fields::{are_filled, go_well, have_types};
use st_makers::Makers;
use st_marks::{Intent, SchemaEntry};
use st_schema::Schema;
use st_schema_texts::{KnownSchemas, front_to, may_follow, text_at};
use std::alloc::{AllocError, Global};

// Whether a commit of data keeps to a schema, some entries being in effect up to it.
fn keeps_to_schema(
    alloc: Global,
    makers: &Makers,
    doc: &Doc,
    schema: &Schema,
    front: &[SchemaEntry],
    intent: &Intent,
) -> Result<bool, AllocError>
    ensures { IfOk result (λ b. (O : Document) (log : Seq Wanted) → KnowsMakers O log makers.now
        → (b ≡ true) ↔ KeepsToSchema O (document_of doc.now) log schema.now (revs front.now) intent.now) }
{
    if !have_types(schema, intent) || !are_filled(doc, schema, intent) {
        return Ok(false);
    }
    if !put_makers_known(makers, front, intent) || !clear_makers_known(makers, front, intent) {
        return Ok(false);
    }
    if !go_well(alloc, doc, schema, intent)? {
        return Ok(false);
    }
    if !cleared_are_filled(alloc, makers, doc, schema, intent)? {
        return Ok(false);
    }
    leaves_homes_well(alloc, makers, doc, schema, intent)
}

// Whether a commit of data does, or the schema that a commit brings may follow it.
fn keeps(
    alloc: Global,
    makers: &Makers,
    doc: &Doc,
    schema: &Schema,
    front: &[SchemaEntry],
    intent: &Intent,
) -> Result<bool, AllocError>
    ensures { IfOk result (λ b. (O : Document) (log : Seq Wanted) → KnowsMakers O log makers.now
        → (b ≡ true) ↔ MatchOption intent.now.schema
        (KeepsToSchema O (document_of doc.now) log schema.now (revs front.now) intent.now)
        (MayFollow schema.now)) }
{
    match &intent.schema {
        None => keeps_to_schema(alloc, makers, doc, schema, front, intent),
        Some(text) => may_follow(alloc, schema, text),
    }
}

/// Whether a commit keeps to the schema that it names, and that is in effect for its author: its document, the makers of all nodes
/// in the log, and the schemas that were read.
pub fn passes_schema(
    alloc: Global,
    schemas: &mut KnownSchemas,
    makers: &Makers,
    doc: &Doc,
    intent: &Intent,
) -> Result<bool, AllocError>
    ensures { IfOk result (λ b. (O : Document) (log : Seq Wanted) → KnowsMakers O log makers.now
        → (b ≡ true) ↔ PassesSchema O (document_of doc.now) log intent.now) }
{
    let Some(text) = text_at(doc, intent.under) else {
        return Ok(false);
    };
    let Some(front) = front_to(doc, intent.under) else {
        return Ok(false);
    };
    match schemas.schema_of(alloc, text)? {
        None => Ok(false),
        Some(schema) => keeps(alloc, makers, doc, schema, front, intent),
    }
}
