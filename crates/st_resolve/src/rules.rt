//! What is asked of an edit, each with its refusal.
ghost use Rattle.std.specs.Prelude.{◌≡◌, ◌<◌, ◌^◌, ◌+◌, length, nat_le, Ok, Err, IfOk};
ghost use Rattle.st_ids.specs.Or.{IfRefused};
ghost use Rattle.st_tree.specs.Node.{trees_view};
ghost use Rattle.st_tree.specs.Size.{item_count};
ghost use Rattle.st_doc.specs.Doc.{document_of};
ghost use Rattle.st_edits.specs.Resolve.{takes_kind, rule_at, rule_for, trees_allowed, has_type, nodes_allowed, names_left, require};

use st_doc::Doc;
use st_edits::{NameCounters, Takes};
use st_ids::{Key, Limit, LimitOf, List, NodeId, Or, Rev, Text};
use st_schema::{FieldRule, KindName, Schema};
use st_tree::{EditFault, Tree};
use std::alloc::{AllocError, Global};

// Whether it takes a field of that kind.
fn takes_kind(takes: Takes, kind: KindName) -> bool
    ensures { result ≡ takes_kind takes kind }
{
    match (takes, kind) {
        (Takes::Row, KindName::Sequence) => true,
        (Takes::Open, KindName::Sequence | KindName::Optional) => true,
        (Takes::Single, KindName::Optional | KindName::Required) => true,
        (Takes::Optional, KindName::Optional) => true,
        _ => false,
    }
}

// What the schema says of a node's field.
fn rule_at(
    alloc: Global,
    doc: &Doc,
    schema: &Schema,
    node: NodeId,
    key: &Key,
) -> Result<Option<FieldRule>, AllocError>
    ensures { IfOk result (λ r. r ≡ rule_at (document_of doc.now) schema.now node key.now) }
{
    match doc.type_of(node) {
        None => Ok(None),
        Some(ty) => schema.field(alloc, ty, key),
    }
}

/// What the schema says of a node's field, where the edit takes its kind.
pub fn rule_for(
    alloc: Global,
    takes: Takes,
    doc: &Doc,
    schema: &Schema,
    node: NodeId,
    key: &Key,
) -> Result<FieldRule, Or<EditFault>>
    ensures ok { IfOk result (λ r. rule_for takes (document_of doc.now) schema.now node key.now ≡ Ok r) }
    ensures bad { IfRefused result (λ e. rule_for takes (document_of doc.now) schema.now node key.now ≡ Err e) }
{
    match rule_at(alloc, doc, schema, node, key)? {
        Some(rule) if takes_kind(takes, rule.kind) => Ok(rule),
        _ => Err(Or::Fault(EditFault::Kind)),
    }
}

/// Nothing, where it holds.
pub fn require(holds: bool, fault: EditFault) -> Result<(), EditFault>
    ensures { result ≡ require holds fault }
{
    if holds { Ok(()) } else { Err(fault) }
}

/// Nothing, where each node of the new trees is allowed where it comes.
pub fn trees_allowed(schema: &Schema, rule: &FieldRule, trees: &List<Tree>) -> Result<(), EditFault>
    requires { item_count (trees_view trees.now) < 2 ^ 32 }
    ensures { result ≡ trees_allowed schema.now rule.now (trees_view trees.now) }
{
    match schema.allows_all(&rule.types, trees) {
        Ok(()) => Ok(()),
        Err(fault) => Err(EditFault::NotAllowed { at: fault.at }),
    }
}

// Whether a node has one of the types.
fn has_type(doc: &Doc, types: &[Text], node: NodeId) -> bool
    ensures { result ≡ has_type (document_of doc.now) types.now node }
{
    match doc.type_of(node) {
        None => false,
        Some(ty) => types.contains(ty),
    }
}

/// Nothing, where each moved node is allowed where it comes.
pub fn nodes_allowed(doc: &Doc, rule: &FieldRule, nodes: &[NodeId]) -> Result<(), EditFault>
    requires { length nodes.now < 2 ^ 32 }
    ensures { result ≡ nodes_allowed (document_of doc.now) rule.now nodes.now }
{
    for (i, node) in nodes.iter().enumerate() {
        if !has_type(doc, rule.types.as_slice(), *node) {
            return Err(EditFault::NotAllowed { at: i as u32 });
        }
    }
    Ok(())
}

/// Nothing, where a commit may give so many names more.
pub fn names_left(given: NameCounters, more: usize) -> Result<(), EditFault>
    requires nodes { given.nodes < 2 ^ 31 }
    requires cells { given.cells < 2 ^ 31 }
    ensures { result ≡ names_left given more }
{
    let kept = given.nodes + given.cells;
    if kept <= 2048 && more <= 2048 - kept as usize {
        return Ok(());
    }
    let of = LimitOf::Commit;
    Err(EditFault::Limit(Limit { of, kept }))
}
