//! Moves: which nodes they take, and where these go.
ghost use Rattle.std.specs.Prelude.{◌≡◌, ◌<◌, ◌≤◌, ◌^◌, ◌+◌, ◌∷◌, [], length, take, drop, map, Ok, Err, IfOk};
ghost use Rattle.std.specs.List.{list_any};
ghost use Rattle.st_ids.specs.Or.{IfRefused};
ghost use Rattle.st_ids.specs.Order.{same_node};
ghost use Rattle.st_marks.specs.declared.places.Slot.{Slot as Cell};
ghost use Rattle.st_schema.specs.declared.names.KindName.{KindName as Kinds};
ghost use Rattle.st_doc.specs.Doc.{document_of};
ghost use Rattle.st_marks.specs.LiveTree.{live_slots};
ghost use Rattle.st_edits.specs.Resolve.{within_row, nodes_taken, is_there, is_inside, cells_taken, intent_to_move, move_to};

use crate::intents::{empty_intent, moved_to_field, moved_to_row};
use crate::paths::nodes_on_path;
use crate::rules::{names_left, nodes_allowed, require};
use st_doc::Doc;
use st_edits::NameCounters;
use st_ids::{FieldId, List, NodeId, Or, Path, is_same_node};
use st_marks::{Intent, Slot};
use st_schema::{FieldRule, KindName};
use st_tree::EditFault;
use std::alloc::{AllocError, Global};

// The nodes of cells.
fn nodes_of(alloc: Global, slots: &[Slot]) -> Result<List<NodeId>, AllocError>
    ensures { IfOk result (λ ns. ns ≡ map (λ s. s.node) slots.now) }
{
    let mut nodes = List::new(alloc);
    for slot in slots {
        nodes.push(slot.node)?;
    }
    Ok(nodes)
}

// A list of one node.
fn one_node(alloc: Global, node: NodeId) -> Result<List<NodeId>, AllocError>
    ensures { IfOk result (λ ns. ns ≡ node ∷ []) }
{
    let mut nodes = List::new(alloc);
    nodes.push(node)?;
    Ok(nodes)
}

// One item of a row: the row is gone through up to it.
fn item_from(
    alloc: Global,
    doc: &Doc,
    node: NodeId,
    index: u32,
) -> Result<List<NodeId>, Or<EditFault>>
    ensures ok { IfOk result (λ ns. within_row (document_of doc.now) node index 1 ≡ Ok ns) }
    ensures bad { IfRefused result (λ e. within_row (document_of doc.now) node index 1 ≡ Err e) }
    ensures few { IfOk result (λ ns. length ns ≡ 1) }
{
    match doc.live_slot(node, index) {
        Some(slot) => Ok(one_node(alloc, slot.node)?),
        None => Err(Or::Fault(EditFault::Range)),
    }
}

// Some items of a row.
fn items_among(
    alloc: Global,
    doc: &Doc,
    node: NodeId,
    index: u32,
    count: u32,
) -> Result<List<NodeId>, Or<EditFault>>
    ensures ok { IfOk result (λ ns. within_row (document_of doc.now) node index count ≡ Ok ns) }
    ensures bad { IfRefused result (λ e. within_row (document_of doc.now) node index count ≡ Err e) }
    ensures few { IfOk result (λ ns. length ns ≡ count) }
{
    let slots = doc.live_slots(alloc, node)?;
    let first = index as usize;
    let end = first + count as usize;
    if end > slots.len() {
        return Err(Or::Fault(EditFault::Range));
    }
    Ok(nodes_of(alloc, &slots.as_slice()[first..end])?)
}

/// So many items of a row, from an index on. `Range` where the row shows fewer.
pub fn items_from(
    alloc: Global,
    doc: &Doc,
    node: NodeId,
    index: u32,
    count: u32,
) -> Result<List<NodeId>, Or<EditFault>>
    ensures ok { IfOk result (λ ns. within_row (document_of doc.now) node index count ≡ Ok ns) }
    ensures bad { IfRefused result (λ e. within_row (document_of doc.now) node index count ≡ Err e) }
    ensures few { IfOk result (λ ns. length ns ≡ count) }
{
    if count == 1 {
        return item_from(alloc, doc, node, index);
    }
    items_among(alloc, doc, node, index, count)
}

// The one node of an optional field, which a move names by the index 0 and the count 1.
fn occupant(
    alloc: Global,
    doc: &Doc,
    field: &FieldId,
    index: u32,
    count: u32,
) -> Result<List<NodeId>, Or<EditFault>>
    ensures ok { IfOk result (λ ns. nodes_taken (document_of doc.now) field.now Kinds.Optional index count ≡ Ok ns) }
    ensures bad { IfRefused result (λ e. nodes_taken (document_of doc.now) field.now Kinds.Optional index count ≡ Err e) }
    ensures few { IfOk result (λ ns. length ns ≡ count) }
{
    if index != 0 || count != 1 {
        return Err(Or::Fault(EditFault::Range));
    }
    let Some(node) = doc.held(field) else {
        return Err(Or::Fault(EditFault::Range));
    };
    Ok(one_node(alloc, node)?)
}

/// The nodes that a move takes from a row, or from an optional field, which has one.
pub fn nodes_taken(
    alloc: Global,
    doc: &Doc,
    field: &FieldId,
    kind: KindName,
    index: u32,
    count: u32,
) -> Result<List<NodeId>, Or<EditFault>>
    ensures ok { IfOk result (λ ns. nodes_taken (document_of doc.now) field.now kind index count ≡ Ok ns) }
    ensures bad { IfRefused result (λ e. nodes_taken (document_of doc.now) field.now kind index count ≡ Err e) }
    ensures few { IfOk result (λ ns. length ns ≡ count) }
{
    match kind {
        KindName::Required => Err(Or::Fault(EditFault::Kind)),
        KindName::Optional => occupant(alloc, doc, field, index, count),
        KindName::Sequence => items_from(alloc, doc, field.node, index, count),
    }
}

// Whether the index of a move's target is there.
pub fn is_there(
    alloc: Global,
    doc: &Doc,
    node: NodeId,
    kind: KindName,
    index: u32,
    count: u32,
) -> Result<bool, AllocError>
    ensures { IfOk result (λ b. b ≡ is_there (document_of doc.now) node kind index count) }
{
    match kind {
        KindName::Required => Ok(false),
        KindName::Optional => Ok(index == 0 && count == 1),
        KindName::Sequence => Ok(index as usize <= doc.live_slots(alloc, node)?.len()),
    }
}

// Whether one of the nodes is that one.
fn is_among(nodes: &[NodeId], node: NodeId) -> bool
    ensures { result ≡ list_any (λ n. same_node n node) nodes.now }
{
    nodes.iter().any(|n| is_same_node(*n, node))
}

// Whether the target is in a moved node or beneath one.
pub fn is_inside(alloc: Global, doc: &Doc, to: &Path, nodes: &[NodeId]) -> Result<bool, AllocError>
    ensures { IfOk result (λ b. b ≡ is_inside (document_of doc.now) to.now nodes.now) }
{
    let passed = nodes_on_path(alloc, doc, to)?;
    Ok(passed.as_slice().iter().any(|n| is_among(nodes, *n)))
}

// How many cells the move takes.
pub fn cells_taken(kind: KindName, nodes: &[NodeId]) -> usize
    ensures { result ≡ cells_taken kind nodes.now }
{
    match kind {
        KindName::Sequence => nodes.len(),
        KindName::Required | KindName::Optional => 0,
    }
}

// The intent of a move.
pub fn intent_to_move(
    alloc: Global,
    doc: &Doc,
    given: NameCounters,
    field: FieldId,
    kind: KindName,
    index: u32,
    nodes: &[NodeId],
) -> Result<Intent, AllocError>
    requires { given.cells + cells_taken kind nodes.now < 2 ^ 32 }
    ensures { IfOk result (λ i. i ≡ intent_to_move (document_of doc.now) given field kind index nodes.now) }
{
    match kind {
        KindName::Required => Ok(empty_intent(alloc, doc, given)),
        KindName::Optional => moved_to_field(alloc, doc, given, field, nodes),
        KindName::Sequence => moved_to_row(alloc, doc, given, field.node, index, nodes),
    }
}
