//! Whether a schema has the fields into which a commit puts nodes, and takes the nodes there.
ghost use Rattle.std.specs.Prelude.{◌≡◌, ◌↔◌, true, IfOk};
ghost use Rattle.st_schema.specs.Kind.{is_row, is_single_kind};
ghost use Rattle.st_edits.specs.Resolve.{rule_at, has_type};
ghost use Rattle.st_marks.specs.CarryOut.{with_names};
ghost use Rattle.st_marks.specs.Intent.{put_of};
ghost use Rattle.st_doc.specs.Doc.{document_of};
ghost use Rattle.st_edits.specs.Fields.{is_required_field, row_key};
ghost use Rattle.st_kept_fields.specs.Fields.{GoWell};
ghost use Rattle.st_kept_fields.specs.inside.Tests.{has_field, goes_well, put_goes_well, all_go_well};

use crate::finds::{row_of, type_of};
use st_doc::Doc;
use st_ids::{FieldId, Key, NodeId, Text};
use st_intent::put_of;
use st_marks::{Intent, To};
use st_schema::{FieldRule, KindName, Schema};
use std::alloc::{AllocError, Global};

// What the schema says of a field of a node, of the document or new.
fn rule_at(
    alloc: Global,
    doc: &Doc,
    intent: &Intent,
    schema: &Schema,
    node: NodeId,
    key: &Key,
) -> Result<Option<FieldRule>, AllocError>
    ensures { IfOk result (λ r. r
        ≡ rule_at (with_names (document_of doc.now) intent.now) schema.now node key.now) }
{
    match type_of(doc, intent, node) {
        None => Ok(None),
        Some(ty) => schema.field(alloc, ty, key),
    }
}

/// Whether a field is required. A node has the type that it has in the document, or in the commit that makes it.
pub fn is_required_field(
    alloc: Global,
    doc: &Doc,
    intent: &Intent,
    schema: &Schema,
    field: &FieldId,
) -> Result<bool, AllocError>
    ensures { IfOk result (λ b. b
        ≡ is_required_field schema.now (with_names (document_of doc.now) intent.now) field.now) }
{
    match rule_at(alloc, doc, intent, schema, field.node, &field.key)? {
        None => Ok(false),
        Some(rule) => Ok(rule.kind == KindName::Required),
    }
}

// Whether a node, of the document or new, has one of the types.
fn has_type(doc: &Doc, intent: &Intent, types: &[Text], node: NodeId) -> bool
    ensures { result ≡ has_type (with_names (document_of doc.now) intent.now) types.now node }
{
    match type_of(doc, intent, node) {
        None => false,
        Some(ty) => types.contains(ty),
    }
}

// Whether a node has a row that takes another.
fn has_row(
    alloc: Global,
    doc: &Doc,
    intent: &Intent,
    schema: &Schema,
    row: NodeId,
    node: NodeId,
) -> Result<bool, AllocError>
    ensures { IfOk result (λ b. b
        ≡ has_field schema.now (with_names (document_of doc.now) intent.now) is_row row
        row_key node) }
{
    let key = Key(Text::new(alloc));
    match rule_at(alloc, doc, intent, schema, row, &key)? {
        Some(rule) if rule.kind == KindName::Sequence => {
            Ok(has_type(doc, intent, rule.types.as_slice(), node))
        }
        _ => Ok(false),
    }
}

// Whether a node has a field for one item that takes another.
fn has_register(
    alloc: Global,
    doc: &Doc,
    intent: &Intent,
    schema: &Schema,
    field: &FieldId,
    node: NodeId,
) -> Result<bool, AllocError>
    ensures { IfOk result (λ b. b
        ≡ has_field schema.now (with_names (document_of doc.now) intent.now) is_single_kind
        field.now.node field.now.key node) }
{
    match rule_at(alloc, doc, intent, schema, field.node, &field.key)? {
        Some(rule) if rule.kind != KindName::Sequence => {
            Ok(has_type(doc, intent, rule.types.as_slice(), node))
        }
        _ => Ok(false),
    }
}

// Whether a node goes into a field that takes it.
fn goes_well(
    alloc: Global,
    doc: &Doc,
    intent: &Intent,
    schema: &Schema,
    node: NodeId,
    to: &To,
) -> Result<bool, AllocError>
    ensures { IfOk result (λ b. b
        ≡ goes_well schema.now (with_names (document_of doc.now) intent.now) node to.now) }
{
    match to {
        To::Nowhere => Ok(true),
        To::Cell(cell) => match row_of(doc, intent, *cell) {
            None => Ok(false),
            Some(row) => has_row(alloc, doc, intent, schema, row, node),
        },
        To::Register(field) => has_register(alloc, doc, intent, schema, field, node),
    }
}

// Whether a node goes well where it is put first.
fn put_goes_well(
    alloc: Global,
    doc: &Doc,
    intent: &Intent,
    schema: &Schema,
    node: NodeId,
) -> Result<bool, AllocError>
    ensures { IfOk result (λ b. b
        ≡ put_goes_well schema.now (with_names (document_of doc.now) intent.now) node
        (put_of intent.now node)) }
{
    match put_of(intent, node) {
        None => Ok(true),
        Some(to) => goes_well(alloc, doc, intent, schema, node, to),
    }
}

// Whether all nodes do.
fn all_go_well(
    alloc: Global,
    doc: &Doc,
    intent: &Intent,
    schema: &Schema,
) -> Result<bool, AllocError>
    ensures { IfOk result (λ b. b ≡ all_go_well schema.now (document_of doc.now) intent.now) }
{
    for put in intent.put.as_slice() {
        if !put_goes_well(alloc, doc, intent, schema, put.node)? {
            return Ok(false);
        }
    }
    Ok(true)
}

/// Whether each node that a commit puts somewhere goes into a field of the schema that takes it.
pub fn go_well(
    alloc: Global,
    doc: &Doc,
    schema: &Schema,
    intent: &Intent,
) -> Result<bool, AllocError>
    ensures { IfOk result (λ b. (b ≡ true) ↔ GoWell schema.now (document_of doc.now) intent.now) }
{
    all_go_well(alloc, doc, intent, schema)
}
