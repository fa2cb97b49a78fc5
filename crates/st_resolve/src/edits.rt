//! Edits, resolved to what they mean.
ghost use Rattle.std.specs.Prelude.{◌≡◌, ℕ, ◌<◌, ◌^◌, ◌+◌, ◌∷◌, [], length, nat_le, Ok, Err, IfOk};
ghost use Rattle.st_ids.specs.Or.{IfRefused, and_then};
ghost use Rattle.st_tree.specs.Node.{trees_view, view, first, no_nodes};
ghost use Rattle.st_tree.specs.Size.{check_of, check_items};
ghost use Rattle.st_tree.specs.declared.edit.EditFault.{EditFault as Faults};
ghost use Rattle.st_schema.specs.declared.names.FieldRule.{FieldRule as Rule};
ghost use Rattle.st_doc.specs.Doc.{document_of};
ghost use Rattle.st_edits.specs.Paths.{field_at, left_of, row_length};
ghost use Rattle.st_edits.specs.declared.names.Takes.{Takes as Taking};
ghost use Rattle.st_edits.specs.Resolve.{named_nodes, require, allowed_nodes, intent_to_insert, intent_to_place, rule_for, nodes_taken, insert, remove, move_to, move as move_of, put, clear, need, may_move, resolve, IsWithin};

use crate::intents::{
    empty_intent, intent_to_clear, intent_to_insert, intent_to_place, intent_to_remove,
};
use crate::moves::{cells_taken, intent_to_move, is_inside, is_there, items_from, nodes_taken};
use crate::new_trees::names_taken;
use crate::paths::{field_at, walk};
use crate::rules::{names_left, nodes_allowed, require, rule_for, trees_allowed};
use st_doc::Doc;
use st_edits::{NameCounters, Takes};
use st_ids::{CellId, Copied, FieldId, Key, List, NodeId, Or, Path};
use st_marks::Intent;
use st_schema::{FieldRule, KindName, Schema};
use st_tree::{Edit, EditFault, FlatNode, Tree, flatten};
use std::alloc::{AllocError, Global};

// A refusal, as one of a call that takes memory.
fn refuse(checked: Result<(), EditFault>) -> Result<(), Or<EditFault>>
    ensures ok { IfOk result (λ u. checked ≡ Ok u) }
    ensures bad { IfRefused result (λ e. checked ≡ Err e) }
{
    match checked {
        Ok(()) => Ok(()),
        Err(fault) => Err(Or::Fault(fault)),
    }
}

// New trees as the list of their nodes, each under its name. Within the limits of trees nothing but memory is wanting.
fn named_nodes(
    alloc: Global,
    given: NameCounters,
    trees: &List<Tree>,
) -> Result<List<FlatNode>, Or<EditFault>>
    requires within { check_items (trees_view trees.now) ≡ Ok tt }
    requires nodes { given.nodes < 2 ^ 31 }
    requires cells { given.cells < 2 ^ 31 }
    ensures ok { IfOk result (λ xs. xs ≡ named_nodes given (trees_view trees.now)) }
    ensures bad { IfRefused result (λ _. ⊥) }
{
    match flatten(alloc, trees, given.rev, given.nodes, given.cells) {
        Ok(flat) => Ok(flat.nodes),
        Err(Or::NoMemory) => Err(Or::NoMemory),
        Err(Or::Fault(_)) => unreachable!(),
    }
}

// New trees, where the schema allows each of their nodes and the commit may give their names.
fn allowed_nodes(
    alloc: Global,
    schema: &Schema,
    given: NameCounters,
    rule: &FieldRule,
    trees: &List<Tree>,
) -> Result<List<FlatNode>, Or<EditFault>>
    requires within { check_items (trees_view trees.now) ≡ Ok tt }
    requires nodes { given.nodes < 2 ^ 31 }
    requires cells { given.cells < 2 ^ 31 }
    ensures ok { IfOk result (λ xs. allowed_nodes schema.now given rule.now (trees_view trees.now) ≡ Ok xs) }
    ensures bad { IfRefused result (λ e. allowed_nodes schema.now given rule.now (trees_view trees.now) ≡ Err e) }
{
    refuse(trees_allowed(schema, rule, trees))?;
    let nodes = named_nodes(alloc, given, trees)?;
    refuse(names_left(given, names_taken(nodes.as_slice())))?;
    Ok(nodes)
}

// The cell of the item left of an index, or the row's start, where the row of a node has an item at the index or ends there.
fn left_within(doc: &Doc, node: NodeId, index: u32) -> Result<Option<CellId>, Or<EditFault>>
    ensures left { IfOk result (λ c. c ≡ left_of (document_of doc.now) node index) }
    ensures ok { IfOk result (λ c. require (nat_le index (row_length (document_of doc.now) node)) Faults.Range ≡ Ok tt) }
    ensures bad { IfRefused result (λ e. require (nat_le index (row_length (document_of doc.now) node)) Faults.Range ≡ Err e) }
{
    if index == 0 {
        return Ok(None);
    }
    match doc.live_slot(node, index - 1) {
        Some(slot) => Ok(Some(slot.cell)),
        None => Err(Or::Fault(EditFault::Range)),
    }
}

// New items of a row behind a cell or at the row's start, where the row's rule allows them: at each index left of which the cell is.
fn insert_at(
    alloc: Global,
    doc: &Doc,
    schema: &Schema,
    given: NameCounters,
    rule: &FieldRule,
    node: NodeId,
    after: Option<CellId>,
    items: &List<Tree>,
) -> Result<Intent, Or<EditFault>>
    requires within { check_items (trees_view items.now) ≡ Ok tt }
    requires nodes { given.nodes < 2 ^ 31 }
    requires cells { given.cells < 2 ^ 31 }
    ensures ok { IfOk result (λ i. (index : ℕ) → after ≡ left_of (document_of doc.now) node index → and_then (allowed_nodes schema.now given rule.now (trees_view items.now)) (λ xs. Ok (intent_to_insert (document_of doc.now) given node index xs)) ≡ Ok i) }
    ensures bad { IfRefused result (λ e. allowed_nodes schema.now given rule.now (trees_view items.now) ≡ Err e) }
{
    let nodes = allowed_nodes(alloc, schema, given, rule, items)?;
    Ok(intent_to_insert(alloc, doc, given, node, after, nodes.as_slice())?)
}

/// New items at an index of a row, as `resolve` says it of that edit.
pub fn insert(
    alloc: Global,
    doc: &Doc,
    schema: &Schema,
    given: NameCounters,
    at: &Path,
    key: &Key,
    index: u32,
    items: &List<Tree>,
) -> Result<Intent, Or<EditFault>>
    requires within { check_items (trees_view items.now) ≡ Ok tt }
    requires short { length at.now < 2 ^ 32 }
    requires nodes { given.nodes < 2 ^ 31 }
    requires cells { given.cells < 2 ^ 31 }
    ensures ok { IfOk result (λ i. insert (document_of doc.now) schema.now given at.now key.now index (trees_view items.now) ≡ Ok i) }
    ensures bad { IfRefused result (λ e. insert (document_of doc.now) schema.now given at.now key.now index (trees_view items.now) ≡ Err e) }
{
    let node = walk(alloc, doc, at)?;
    let rule = rule_for(alloc, Takes::Row, doc, schema, node, key)?;
    let after = left_within(doc, node, index)?;
    insert_at(alloc, doc, schema, given, &rule, node, after, items)
}

/// Items of a row go nowhere, as `resolve` says it of that edit.
pub fn remove(
    alloc: Global,
    doc: &Doc,
    schema: &Schema,
    given: NameCounters,
    at: &Path,
    key: &Key,
    index: u32,
    count: u32,
) -> Result<Intent, Or<EditFault>>
    requires short { length at.now < 2 ^ 32 }
    ensures ok { IfOk result (λ i. remove (document_of doc.now) schema.now given at.now key.now index count ≡ Ok i) }
    ensures bad { IfRefused result (λ e. remove (document_of doc.now) schema.now given at.now key.now index count ≡ Err e) }
{
    let node = walk(alloc, doc, at)?;
    rule_for(alloc, Takes::Row, doc, schema, node, key)?;
    let nodes = items_from(alloc, doc, node, index, count)?;
    Ok(intent_to_remove(alloc, doc, given, nodes.as_slice())?)
}

// A new tree in a node's field, where the field's rule allows it.
fn put_at(
    alloc: Global,
    doc: &Doc,
    schema: &Schema,
    given: NameCounters,
    rule: &FieldRule,
    node: NodeId,
    key: &Key,
    item: &List<Tree>,
) -> Result<Intent, Or<EditFault>>
    requires within { check_items (trees_view item.now) ≡ Ok tt }
    requires nodes { given.nodes < 2 ^ 31 }
    requires cells { given.cells < 2 ^ 31 }
    ensures ok { IfOk result (λ i. and_then (allowed_nodes schema.now given rule.now (trees_view item.now)) (λ xs. Ok (intent_to_place (document_of doc.now) given (field_at node key.now) xs)) ≡ Ok i) }
    ensures bad { IfRefused result (λ e. and_then (allowed_nodes schema.now given rule.now (trees_view item.now)) (λ xs. Ok (intent_to_place (document_of doc.now) given (field_at node key.now) xs)) ≡ Err e) }
{
    let nodes = allowed_nodes(alloc, schema, given, rule, item)?;
    let field = field_at(alloc, node, key)?;
    Ok(intent_to_place(alloc, doc, given, field, nodes.as_slice())?)
}

// A new tree in an optional or required field.
fn put(
    alloc: Global,
    doc: &Doc,
    schema: &Schema,
    given: NameCounters,
    at: &Path,
    key: &Key,
    item: &List<Tree>,
) -> Result<Intent, Or<EditFault>>
    requires within { check_items (trees_view item.now) ≡ Ok tt }
    requires short { length at.now < 2 ^ 32 }
    requires nodes { given.nodes < 2 ^ 31 }
    requires cells { given.cells < 2 ^ 31 }
    ensures ok { IfOk result (λ i. put (document_of doc.now) schema.now given at.now key.now (trees_view item.now) ≡ Ok i) }
    ensures bad { IfRefused result (λ e. put (document_of doc.now) schema.now given at.now key.now (trees_view item.now) ≡ Err e) }
{
    let node = walk(alloc, doc, at)?;
    let rule = rule_for(alloc, Takes::Single, doc, schema, node, key)?;
    put_at(alloc, doc, schema, given, &rule, node, key, item)
}

/// An optional field is emptied, as `resolve` says it of that edit.
pub fn clear(
    alloc: Global,
    doc: &Doc,
    schema: &Schema,
    given: NameCounters,
    at: &Path,
    key: &Key,
) -> Result<Intent, Or<EditFault>>
    requires short { length at.now < 2 ^ 32 }
    ensures ok { IfOk result (λ i. clear (document_of doc.now) schema.now given at.now key.now ≡ Ok i) }
    ensures bad { IfRefused result (λ e. clear (document_of doc.now) schema.now given at.now key.now ≡ Err e) }
{
    let node = walk(alloc, doc, at)?;
    rule_for(alloc, Takes::Optional, doc, schema, node, key)?;
    let field = field_at(alloc, node, key)?;
    Ok(intent_to_clear(alloc, doc, given, field)?)
}

/// The node that a path leads to has to be live where the commit comes, as `resolve` says it of that edit.
pub fn need(
    alloc: Global,
    doc: &Doc,
    given: NameCounters,
    at: &Path,
) -> Result<Intent, Or<EditFault>>
    requires short { length at.now < 2 ^ 32 }
    ensures ok { IfOk result (λ i. need (document_of doc.now) given at.now ≡ Ok i) }
    ensures bad { IfRefused result (λ e. need (document_of doc.now) given at.now ≡ Err e) }
{
    let node = walk(alloc, doc, at)?;
    let mut intent = empty_intent(alloc, doc, given);
    intent.need.push(node)?;
    Ok(intent)
}

// Whether a move may put these nodes where it leads.
fn may_move(
    alloc: Global,
    doc: &Doc,
    given: NameCounters,
    node: NodeId,
    rule: &FieldRule,
    to: &Path,
    index: u32,
    count: u32,
    nodes: &[NodeId],
) -> Result<(), Or<EditFault>>
    requires few { length nodes.now < 2 ^ 32 }
    requires nodes { given.nodes < 2 ^ 31 }
    requires cells { given.cells < 2 ^ 31 }
    ensures ok { IfOk result (λ u. may_move (document_of doc.now) given node rule.now to.now index count nodes.now ≡ Ok u) }
    ensures bad { IfRefused result (λ e. may_move (document_of doc.now) given node rule.now to.now index count nodes.now ≡ Err e) }
{
    let there = is_there(alloc, doc, node, rule.kind, index, count)?;
    refuse(require(there, EditFault::Range))?;
    let inside = is_inside(alloc, doc, to, nodes)?;
    refuse(require(!inside, EditFault::Inside))?;
    refuse(nodes_allowed(doc, rule, nodes))?;
    refuse(names_left(given, cells_taken(rule.kind, nodes)))
}

// The nodes of a move go where it leads.
fn move_to(
    alloc: Global,
    doc: &Doc,
    given: NameCounters,
    field: FieldId,
    rule: &FieldRule,
    to: &Path,
    index: u32,
    count: u32,
    nodes: &[NodeId],
) -> Result<Intent, Or<EditFault>>
    requires few { length nodes.now < 2 ^ 32 }
    requires nodes { given.nodes < 2 ^ 31 }
    requires cells { given.cells < 2 ^ 31 }
    ensures ok { IfOk result (λ i. move_to (document_of doc.now) given field rule.now to.now index count nodes.now ≡ Ok i) }
    ensures bad { IfRefused result (λ e. move_to (document_of doc.now) given field rule.now to.now index count nodes.now ≡ Err e) }
{
    may_move(alloc, doc, given, field.node, rule, to, index, count, nodes)?;
    Ok(intent_to_move(alloc, doc, given, field, rule.kind, index, nodes)?)
}

// The nodes of a move, which leave a field of that kind.
fn taken_from(
    alloc: Global,
    doc: &Doc,
    node: NodeId,
    key: &Key,
    kind: KindName,
    index: u32,
    count: u32,
) -> Result<List<NodeId>, Or<EditFault>>
    ensures ok { IfOk result (λ ns. nodes_taken (document_of doc.now) (field_at node key.now) kind index count ≡ Ok ns) }
    ensures bad { IfRefused result (λ e. nodes_taken (document_of doc.now) (field_at node key.now) kind index count ≡ Err e) }
    ensures few { IfOk result (λ ns. length ns ≡ count) }
{
    let field = field_at(alloc, node, key)?;
    nodes_taken(alloc, doc, &field, kind, index, count)
}

// The nodes of a move go to a node's field.
fn move_into(
    alloc: Global,
    doc: &Doc,
    given: NameCounters,
    node: NodeId,
    key: &Key,
    rule: &FieldRule,
    to: &Path,
    index: u32,
    count: u32,
    nodes: &[NodeId],
) -> Result<Intent, Or<EditFault>>
    requires few { length nodes.now < 2 ^ 32 }
    requires nodes { given.nodes < 2 ^ 31 }
    requires cells { given.cells < 2 ^ 31 }
    ensures ok { IfOk result (λ i. move_to (document_of doc.now) given (field_at node key.now) rule.now to.now index count nodes.now ≡ Ok i) }
    ensures bad { IfRefused result (λ e. move_to (document_of doc.now) given (field_at node key.now) rule.now to.now index count nodes.now ≡ Err e) }
{
    let field = field_at(alloc, node, key)?;
    move_to(alloc, doc, given, field, rule, to, index, count, nodes)
}

// The kind of a node's field, if items may leave it and come into it.
fn open_kind(
    alloc: Global,
    doc: &Doc,
    schema: &Schema,
    node: NodeId,
    key: &Key,
) -> Result<KindName, Or<EditFault>>
    ensures ok { IfOk result (λ k. (r : Rule) × (rule_for Taking.Open (document_of doc.now) schema.now node key.now ≡ Ok r) × (r.kind ≡ k)) }
    ensures bad { IfRefused result (λ e. rule_for Taking.Open (document_of doc.now) schema.now node key.now ≡ Err e) }
{
    let rule = rule_for(alloc, Takes::Open, doc, schema, node, key)?;
    Ok(rule.kind)
}

/// Items of a row, or the one of an optional field, go to a row or an optional field, as `resolve` says it of that edit.
pub fn move_items(
    alloc: Global,
    doc: &Doc,
    schema: &Schema,
    given: NameCounters,
    at: &Path,
    key: &Key,
    index: u32,
    count: u32,
    to: &Path,
    to_key: &Key,
    to_index: u32,
) -> Result<Intent, Or<EditFault>>
    requires short { length at.now < 2 ^ 32 }
    requires short_too { length to.now < 2 ^ 32 }
    requires nodes { given.nodes < 2 ^ 31 }
    requires cells { given.cells < 2 ^ 31 }
    ensures ok { IfOk result (λ i. move_of (document_of doc.now) schema.now given at.now key.now index count to.now to_key.now to_index ≡ Ok i) }
    ensures bad { IfRefused result (λ e. move_of (document_of doc.now) schema.now given at.now key.now index count to.now to_key.now to_index ≡ Err e) }
{
    let node = walk(alloc, doc, at)?;
    let target = walk(alloc, doc, to)?;
    let kind = open_kind(alloc, doc, schema, node, key)?;
    let rule = rule_for(alloc, Takes::Open, doc, schema, target, to_key)?;
    let nodes = taken_from(alloc, doc, node, key, kind, index, count)?;
    move_into(
        alloc,
        doc,
        given,
        target,
        to_key,
        &rule,
        to,
        to_index,
        count,
        nodes.as_slice(),
    )
}

// The list of one tree.
fn one_tree(alloc: Global, tree: &Tree) -> Result<List<Tree>, AllocError>
    ensures { IfOk result (λ ts. trees_view ts ≡ first (view tree.now) no_nodes) }
{
    let mut trees = List::new(alloc);
    trees.push(tree.copy(alloc)?)?;
    Ok(trees)
}

/// A new tree in an optional or required field, as `resolve` says it of that edit.
#[tactic(auto, using(crate::proofs::One::one_within))]
pub fn set(
    alloc: Global,
    doc: &Doc,
    schema: &Schema,
    given: NameCounters,
    at: &Path,
    key: &Key,
    item: &Tree,
) -> Result<Intent, Or<EditFault>>
    requires within { check_of (view item.now) ≡ Ok tt }
    requires short { length at.now < 2 ^ 32 }
    requires nodes { given.nodes < 2 ^ 31 }
    requires cells { given.cells < 2 ^ 31 }
    ensures ok { IfOk result (λ i. put (document_of doc.now) schema.now given at.now key.now (first (view item.now) no_nodes) ≡ Ok i) }
    ensures bad { IfRefused result (λ e. put (document_of doc.now) schema.now given at.now key.now (first (view item.now) no_nodes) ≡ Err e) }
{
    let trees = one_tree(alloc, item)?;
    put(alloc, doc, schema, given, at, key, &trees)
}

/// The intent that an edit means in a document under the schema that is last in effect there, or the first refusal: of
/// the path, then of a move's target path (`NoNode`), of the field's kind (`Kind`), of an index (`Range`), of a move
/// beneath itself (`Inside`), of a node that the schema doesn't allow (`NotAllowed`), and of the names that a commit may
/// give (`Limit`). Names are given from the counts on.
pub fn resolve(
    alloc: Global,
    doc: &Doc,
    schema: &Schema,
    given: NameCounters,
    edit: &Edit,
) -> Result<Intent, Or<EditFault>>
    requires within { IsWithin edit.now }
    requires nodes { given.nodes < 2 ^ 31 }
    requires cells { given.cells < 2 ^ 31 }
    ensures ok { IfOk result (λ i. resolve (document_of doc.now) schema.now given edit.now ≡ Ok i) }
    ensures bad { IfRefused result (λ e. resolve (document_of doc.now) schema.now given edit.now ≡ Err e) }
{
    match edit {
        Edit::Insert {
            at,
            key,
            index,
            items,
        } => { insert(alloc, doc, schema, given, at, key, *index, items) }
        Edit::Remove {
            at,
            key,
            index,
            count,
        } => { remove(alloc, doc, schema, given, at, key, *index, *count) }
        Edit::Move {
            at,
            key,
            index,
            count,
            to,
            to_key,
            to_index,
        } => move_items(
            alloc, doc, schema, given, at, key, *index, *count, to, to_key, *to_index,
        ),
        Edit::Put { at, key, item } => set(alloc, doc, schema, given, at, key, item),
        Edit::Clear { at, key } => clear(alloc, doc, schema, given, at, key),
        Edit::Need { at } => need(alloc, doc, given, at),
    }
}
