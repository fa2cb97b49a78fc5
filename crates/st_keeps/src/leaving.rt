//! Whether nodes leave the required fields that are their homes as they may.
ghost use Rattle.std.specs.Prelude.{◌≡◌, ◌↔◌, true, IfOk, List as Seq};
ghost use Rattle.std.specs.Option.{option_copied};
ghost use Rattle.st_marks.specs.Document.{Document};
ghost use Rattle.st_marks.specs.declared.intents.Intent.{Intent as Wanted};
ghost use Rattle.st_doc.specs.Doc.{document_of};
ghost use Rattle.st_makers.specs.Makers.{KnowsMakers};
ghost use Rattle.st_keeps.specs.Moves.{HomesLeftWell};
ghost use Rattle.st_keeps.specs.inside.Tests.{homes_left_well, leaves_home, may_leave};

use st_doc::Doc;
use st_ids::{FieldId, NodeId, is_same_field};
use st_intent::{is_new, put_of};
use st_kept_fields::{is_required_field, put_in};
use st_makers::Makers;
use st_marks::{Intent, To};
use st_schema::Schema;
use std::alloc::{AllocError, Global};

// Whether a node may leave a required field for where it is put, if it is put.
fn may_leave(intent: &Intent, home: &FieldId, to: Option<&To>) -> bool
    ensures { result ≡ may_leave intent.now home.now (option_copied to.entry) }
{
    match to {
        None => true,
        Some(To::Nowhere) => put_in(intent, home).is_some(),
        Some(To::Cell(_)) => false,
        Some(To::Register(field)) => is_same_field(field, home),
    }
}

// Whether a node leaves its home as it may, if it has one.
fn leaves_home(
    alloc: Global,
    doc: &Doc,
    schema: &Schema,
    intent: &Intent,
    node: NodeId,
    home: Option<&FieldId>,
) -> Result<bool, AllocError>
    ensures { IfOk result (λ b. b
        ≡ leaves_home schema.now (document_of doc.now) intent.now node (option_copied home.entry)) }
{
    let Some(home) = home else {
        return Ok(true);
    };
    if may_leave(intent, home, put_of(intent, node)) || is_new(intent, node) {
        return Ok(true);
    }
    let required = is_required_field(alloc, doc, intent, schema, home)?;
    Ok(!required)
}

// Whether all nodes that are put do.
fn homes_left_well(
    alloc: Global,
    makers: &Makers,
    doc: &Doc,
    schema: &Schema,
    intent: &Intent,
) -> Result<bool, AllocError>
    ensures { IfOk result (λ b. b
        ≡ homes_left_well makers.now schema.now (document_of doc.now) intent.now) }
{
    for put in intent.put.as_slice() {
        if !leaves_home(alloc, doc, schema, intent, put.node, makers.home(put.node))? {
            return Ok(false);
        }
    }
    Ok(true)
}

/// Whether each old node that a commit puts somewhere leaves its home, if that is a required field, for nowhere alone, and
/// another comes there.
pub fn leaves_homes_well(
    alloc: Global,
    makers: &Makers,
    doc: &Doc,
    schema: &Schema,
    intent: &Intent,
) -> Result<bool, AllocError>
    ensures { IfOk result (λ b. (O : Document) (log : Seq Wanted) → KnowsMakers O log makers.now
        → (b ≡ true) ↔ HomesLeftWell O log schema.now (document_of doc.now) intent.now) }
{
    homes_left_well(alloc, makers, doc, schema, intent)
}
