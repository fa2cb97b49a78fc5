//! A forest that goes along the steps between documents.
ghost use Rattle.st_marks.specs.Document.{IsSoundInForm};
ghost use Rattle.st_doc.specs.Doc.{document_of};

use crate::tally::{Tally, add};
use st_chunks::ChunkRow;
use st_doc::Doc;
use st_draws::{between, empty_list};
use st_forest::Forest;
use st_forest_start::start;
use st_ids::{Copied, FieldId, Key, NodeId, Text};
use st_listed::list_step;
use st_marks::{Owned, Slot, Spot, Step};
use st_over_step::is_over_step;
use st_thin::thin_step;
use st_tree::check;
use std::alloc::{AllocError, Global};
use std::test::Fail;

/// The keys of the registers that are drawn.
const KEYS: [&str; 2] = ["j", "k"];

/// The forest of an empty list.
pub fn forest_alone(alloc: Global) -> Result<Forest, Fail> {
    let tree = empty_list(alloc)?;
    if check(&tree) != Ok(()) {
        return Err(Fail::from("too large"));
    }
    Ok(start(alloc, Text::from_str(alloc, "{}")?, &tree)?)
}

// Whether a node stands there in a document.
fn stands_at(doc: &Doc, node: NodeId, spot: &Spot) -> bool {
    match doc.place(node) {
        None => *spot == Spot::Nowhere,
        Some(place) => place == spot,
    }
}

// A slot is a cell with its node, full where the node stands in it.
fn is_slot(doc: &Doc, row: NodeId, owned: &Owned, slot: Slot) -> bool {
    let spot = Spot::Row {
        node: row,
        cell: owned.cell,
    };
    slot.cell == owned.cell
        && slot.node == owned.node
        && slot.full == stands_at(doc, owned.node, &spot)
}

fn is_slot_at(doc: &Doc, row: NodeId, slots: &ChunkRow, place: usize, owned: &Owned) -> bool {
    match slots.get(place as u64) {
        Err(_) => false,
        Ok(slot) => is_slot(doc, row, owned, slot),
    }
}

fn has_cells(doc: &Doc, row: NodeId, slots: &ChunkRow, cells: &[Owned]) -> bool {
    slots.len() == cells.len() as u64
        && cells
            .iter()
            .enumerate()
            .all(|(i, it)| is_slot_at(doc, row, slots, i, it))
}

fn has_row(forest: &Forest, doc: &Doc, node: NodeId) -> bool {
    match forest.slots(node) {
        None => doc.cells(node).is_empty(),
        Some(slots) => has_cells(doc, node, slots, doc.cells(node)),
    }
}

fn is_of_type(forest: &Forest, doc: &Doc, node: NodeId) -> bool {
    match forest.node(node) {
        None => false,
        Some(new) => doc.type_of(node) == Some(&new.ty),
    }
}

fn stands(forest: &Forest, doc: &Doc, node: NodeId) -> bool {
    match forest.place(node) {
        None => false,
        Some(spot) => stands_at(doc, node, spot),
    }
}

// A node is of its type, stands where it does, and has its row.
fn has_node(forest: &Forest, doc: &Doc, node: NodeId) -> bool {
    is_of_type(forest, doc, node) && stands(forest, doc, node) && has_row(forest, doc, node)
}

fn has_register(
    alloc: Global,
    forest: &Forest,
    doc: &Doc,
    node: NodeId,
    key: &str,
) -> Result<bool, AllocError> {
    let key = Key(Text::from_str(alloc, key)?);
    let field = FieldId { node, key };
    Ok(forest.held(&field) == doc.held(&field))
}

fn has_registers(
    alloc: Global,
    forest: &Forest,
    doc: &Doc,
    node: NodeId,
) -> Result<bool, AllocError> {
    for key in KEYS {
        if !has_register(alloc, forest, doc, node, key)? {
            return Ok(false);
        }
    }
    Ok(true)
}

fn has_nodes(
    alloc: Global,
    forest: &Forest,
    doc: &Doc,
    nodes: &[NodeId],
) -> Result<bool, AllocError> {
    for node in nodes {
        if !has_node(forest, doc, *node) || !has_registers(alloc, forest, doc, *node)? {
            return Ok(false);
        }
    }
    Ok(true)
}

// Whether a forest has of each node of a document what that has, and as many schema entries.
fn is_document(alloc: Global, forest: &Forest, doc: &Doc) -> Result<bool, AllocError> {
    let nodes = doc.nodes(alloc)?;
    Ok(
        forest.schemas() == doc.schemas().len()
            && forest.under() == doc.under()
            && has_nodes(alloc, forest, doc, nodes.as_slice())?,
    )
}

// Whether a step with its empty cells counted, named again by a forest, is that step.
fn is_named_again(
    alloc: Global,
    forest: &Forest,
    thin: &Step,
    step: &Step,
) -> Result<bool, AllocError> {
    let mut named = thin.copy(alloc)?;
    list_step(alloc, forest, &mut named)?;
    Ok(named == *step)
}

// Whether a step, with its empty cells counted, leads a forest to a document, whose rows name these cells again.
fn leads_thin(
    alloc: Global,
    forest: &mut Forest,
    step: &Step,
    doc: &Doc,
) -> Result<bool, AllocError> {
    let mut thin = step.copy(alloc)?;
    thin_step(alloc, &mut thin)?;
    forest.apply(alloc, &thin)?;
    Ok(is_document(alloc, forest, doc)? && is_named_again(alloc, forest, &thin, step)?)
}

// And with its empty cells named.
fn leads_listed(
    alloc: Global,
    forest: &mut Forest,
    step: &Step,
    doc: &Doc,
) -> Result<bool, AllocError> {
    forest.apply(alloc, step)?;
    is_document(alloc, forest, doc)
}

// Two forests, of which one goes along listed steps, which stand over it, and the other along thin ones.
fn lead(
    alloc: Global,
    listed: &mut Forest,
    thin: &mut Forest,
    step: &Step,
    doc: &Doc,
) -> Result<bool, AllocError> {
    let stands = is_over_step(listed, step);
    Ok(stands && leads_listed(alloc, listed, step, doc)? && leads_thin(alloc, thin, step, doc)?)
}

/// Has both forests go along the step between two documents, and counts whether they are the later one then.
pub fn go_along(
    alloc: Global,
    listed: &mut Forest,
    thin: &mut Forest,
    doc: &Doc,
    later: &Doc,
    tally: &mut Tally,
) -> Result<(), AllocError>
    requires before { IsSoundInForm (document_of doc.now) }
    requires after { IsSoundInForm (document_of later.now) }
{
    let right = match between(alloc, doc, later)? {
        None => false,
        Some(step) => lead(alloc, listed, thin, &step, later)?,
    };
    add(&mut tally.applied, true);
    add(&mut tally.apart, !right);
    Ok(())
}
