//! The order in which the nodes that are shown are gone through.
ghost use Rattle.std.specs.Prelude.{◌≡◌, ◌++◌, ◌∷◌, ◌<◌, [], length, slice_get, if◌then◌else◌, IfOk, IfSome, IsSome, OnOk, Some};
ghost use Rattle.st_ids.specs.Listing.{Has};
ghost use Rattle.st_marks.specs.Document.{Document, IsSoundInForm};
ghost use Rattle.st_marks.specs.LiveTree.{owners_shown};
ghost use Rattle.st_doc.specs.LiveText.{is_among};
ghost use Rattle.st_forest.specs.Stands.{StandsFor};
ghost use Rattle.st_export.specs.declared.walk.Visit.{Visit as AnyVisit};
ghost use Rattle.st_export.specs.inside.Beneath.{AreBeneath, beneath, inner};
ghost use Rattle.st_export.specs.inside.Walk.{IsWalk};

use crate::registers::push_occupants;
use st_chunks::ChunkRow;
use st_forest::Forest;
use st_ids::{NodeId, Text};
use st_marks::Slot;
use std::alloc::{AllocError, Global};

/// A node that is met, and how many others are still to be met then.
#[derive(Clone, Copy)]
pub struct Visit {
    pub node: NodeId,
    pub others: usize,
}

/// Whether a type is among some.
pub fn is_among(types: &[Text], ty: &Text) -> bool
    ensures { result ≡ is_among types.now ty.now }
{
    types.iter().any(|t| t.as_str() == ty.as_str())
}

// The slot at a place.
fn slot_at(row: &ChunkRow, place: u64) -> Slot
    requires { place < length row.now }
    ensures { slice_get row.now place ≡ Some result }
{
    match row.get(place) {
        Ok(slot) => slot,
        Err(_) => unreachable!(),
    }
}

// Puts the node of a slot behind others, if the slot is full.
fn push_full(slot: Slot, nodes: &mut Vec<NodeId>) -> Result<(), AllocError>
    ensures { OnOk result (nodes.new.items ≡ nodes.old.items ++ (if slot.full then slot.node ∷ [] else [])) }
{
    if slot.full {
        nodes.push(slot.node)?;
    }
    Ok(())
}

// Puts the items of a row behind other nodes.
fn push_items(row: &ChunkRow, nodes: &mut Vec<NodeId>) -> Result<(), AllocError>
    ensures { OnOk result (nodes.new.items ≡ nodes.old.items ++ owners_shown row.now) }
{
    for place in 0..row.len() {
        push_full(slot_at(row, place), nodes)?;
    }
    Ok(())
}

// Puts the items of a node's row, or the occupants of its registers, behind other nodes.
fn push_inner(
    alloc: Global,
    forest: &Forest,
    node: NodeId,
    has_row: bool,
    nodes: &mut Vec<NodeId>,
) -> Result<(), AllocError>
    ensures nodes { OnOk result (nodes.new.items ≡ nodes.old.items ++ inner forest.now node has_row) }
    ensures beneath { OnOk result ((D : Document) → StandsFor forest.now D → IsSoundInForm D → AreBeneath D node (inner forest.now node has_row)) }
{
    if !has_row {
        return push_occupants(alloc, &forest.held, node, nodes);
    }
    match forest.rows.get(&node) {
        None => Ok(()),
        Some(row) => push_items(row, nodes),
    }
}

// Puts the nodes directly beneath a node that it shows behind other nodes.
fn push_beneath(
    alloc: Global,
    forest: &Forest,
    arrays: &[Text],
    node: NodeId,
    nodes: &mut Vec<NodeId>,
) -> Result<(), AllocError>
    ensures nodes { OnOk result (nodes.new.items ≡ nodes.old.items ++ beneath (is_among arrays.now) forest.now node) }
    ensures beneath { OnOk result ((D : Document) → StandsFor forest.now D → IsSoundInForm D
        → AreBeneath D node (beneath (is_among arrays.now) forest.now node)) }
{
    let Some(seated) = forest.nodes.get(&node) else {
        return Ok(());
    };
    match &seated.node.leaf {
        Some(_) => Ok(()),
        None => push_inner(
            alloc,
            forest,
            node,
            is_among(arrays, &seated.node.ty),
            nodes,
        ),
    }
}

// Meets a node: those beneath it are to be met next.
fn meet(
    alloc: Global,
    forest: &Forest,
    arrays: &[Text],
    node: NodeId,
    todo: &mut Vec<NodeId>,
    order: &mut Vec<Visit>,
) -> Result<(), AllocError>
    ensures order { OnOk result (order.new.items ≡ order.old.items ++ record { node = node; others = length todo.old.items } ∷ []) }
    ensures todo { OnOk result (todo.new.items ≡ todo.old.items ++ beneath (is_among arrays.now) forest.now node) }
    ensures beneath { OnOk result ((D : Document) → StandsFor forest.now D → IsSoundInForm D
        → AreBeneath D node (beneath (is_among arrays.now) forest.now node)) }
{
    let others = todo.len();
    order.push(Visit { node, others })?;
    push_beneath(alloc, forest, arrays, node, todo)
}

/// The nodes that are shown at a node and beneath it, each before those beneath it. There is an end to them in a document that
/// is sound in form; `None` says that there are more than the forest has nodes, of which some comes twice.
pub fn walk(
    alloc: Global,
    forest: &Forest,
    arrays: &[Text],
    node: NodeId,
) -> Result<Option<Vec<Visit>>, AllocError>
    ensures walk { IfOk result (λ o. IfSome o (λ order. IsWalk (beneath (is_among arrays.now) forest.now) (node ∷ []) order.items [])) }
    ensures known { IfOk result (λ o. IfSome o (λ order. (D : Document) (v : AnyVisit) → StandsFor forest.now D → IsSoundInForm D
        → IsSome (D.nodes node) → Has order.items v → IsSome (D.nodes v.node))) }
    ensures ends { (D : Document) → StandsFor forest.now D → IsSoundInForm D → IsSome (D.nodes node) → IfOk result (λ o. IsSome o) }
{
    let mut order = Vec::new(alloc);
    let mut todo = Vec::new(alloc);
    todo.push(node)?;
    while let Some(next) = todo.pop() {
        if order.len() >= forest.nodes.len() {
            return Ok(None);
        }
        meet(alloc, forest, arrays, next, &mut todo, &mut order)?;
    }
    Ok(Some(order))
}
