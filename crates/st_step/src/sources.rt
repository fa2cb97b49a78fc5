//! The nodes that a step mentions.
ghost use Rattle.std.specs.Prelude.{◌≡◌, ◌↔◌, ◌++◌, true, IfOk, OnOk};
ghost use Rattle.std.specs.BTreeMap.{get};
ghost use Rattle.std.specs.BTreeSet.{contains};
ghost use Rattle.std.specs.List.{filter_map};
ghost use Rattle.st_ids.specs.Order.{cell_cmp, node_cmp};
ghost use Rattle.st_ids.specs.declared.names.CellId.{CellId as Cell};
ghost use Rattle.st_ids.specs.declared.names.NodeId.{NodeId as Node};
ghost use Rattle.st_marks.specs.Extends.{IsExtendedBy};
ghost use Rattle.st_marks.specs.Step.{IsMentionedByStep};
ghost use Rattle.st_doc.specs.Doc.{document_of};
ghost use Rattle.st_step.specs.inside.Sources.{AreChanged, changed_node, changed_owner};

use crate::marks::row_differs;
use crate::same::stands_alike;
use st_doc::Doc;
use st_embed::{is_same_occupant, known_upwards, push_if_some};
use st_ids::{CellId, FieldId, List, NodeId};
use std::alloc::{AllocError, Global};
use std::collections::{BTreeMap, BTreeSet};

// The node, if it stands elsewhere or its row differs.
fn changed_node(
    cells: &BTreeMap<CellId, NodeId>,
    doc: &Doc,
    later: &Doc,
    node: NodeId,
) -> Option<NodeId>
    requires { (c : Cell) → get cell_cmp cells.now c ≡ (document_of doc.now).row_of c }
    ensures { result ≡ changed_node (document_of doc.now) (document_of later.now) node }
{
    if !stands_alike(doc, later, node) || row_differs(cells, doc, later, node) {
        Some(node)
    } else {
        None
    }
}

// Adds the nodes that stand elsewhere or whose rows differ.
fn push_changed(
    names: &mut List<NodeId>,
    cells: &BTreeMap<CellId, NodeId>,
    doc: &Doc,
    later: &Doc,
    nodes: &[NodeId],
) -> Result<(), AllocError>
    requires { (c : Cell) → get cell_cmp cells.now c ≡ (document_of doc.now).row_of c }
    ensures { OnOk result (names.new ≡ names.old
        ++ filter_map (changed_node (document_of doc.now) (document_of later.now)) nodes.now) }
{
    for node in nodes {
        push_if_some(names, changed_node(cells, doc, later, *node))?;
    }
    Ok(())
}

// The node of a register, if the occupant differs.
fn changed_owner(doc: &Doc, later: &Doc, field: &FieldId) -> Option<NodeId>
    ensures { result ≡ changed_owner (document_of doc.now) (document_of later.now) field.now }
{
    if is_same_occupant(doc.held(field), later.held(field)) {
        None
    } else {
        Some(field.node)
    }
}

// Adds the nodes of the registers whose occupants differ.
fn push_owners(
    names: &mut List<NodeId>,
    doc: &Doc,
    later: &Doc,
    fields: &[FieldId],
) -> Result<(), AllocError>
    ensures { OnOk result (names.new ≡ names.old
        ++ filter_map (changed_owner (document_of doc.now) (document_of later.now)) fields.now) }
{
    for field in fields {
        push_if_some(names, changed_owner(doc, later, field))?;
    }
    Ok(())
}

// The nodes that are changed, and perhaps some that the earlier document has not; one may be listed twice.
fn changed_nodes(
    alloc: Global,
    cells: &BTreeMap<CellId, NodeId>,
    doc: &Doc,
    later: &Doc,
) -> Result<List<NodeId>, AllocError>
    requires cells { (c : Cell) → get cell_cmp cells.now c ≡ (document_of doc.now).row_of c }
    requires later { IsExtendedBy (document_of doc.now) (document_of later.now) }
    ensures { IfOk result (AreChanged (document_of doc.now) (document_of later.now)) }
{
    let nodes = doc.nodes(alloc)?;
    let before = doc.occupied_registers(alloc)?;
    let after = later.occupied_registers(alloc)?;
    let mut names = List::new(alloc);
    push_changed(&mut names, cells, doc, later, nodes.as_slice())?;
    push_owners(&mut names, doc, later, before.as_slice())?;
    push_owners(&mut names, doc, later, after.as_slice())?;
    Ok(names)
}

/// The nodes that a step mentions: those that stand elsewhere, those whose row or a register of which differs, and all
/// nodes above them. `cells` are those of the earlier document. All nodes of it are gone through.
pub fn mentioned_between(
    alloc: Global,
    cells: &BTreeMap<CellId, NodeId>,
    doc: &Doc,
    later: &Doc,
) -> Result<BTreeSet<NodeId>, AllocError>
    requires cells { (c : Cell) → get cell_cmp cells.now c ≡ (document_of doc.now).row_of c }
    requires later { IsExtendedBy (document_of doc.now) (document_of later.now) }
    ensures { IfOk result (λ s. (n : Node) → (contains node_cmp s n
        ≡ true) ↔ IsMentionedByStep (document_of doc.now) (document_of later.now) n) }
{
    let names = changed_nodes(alloc, cells, doc, later)?;
    let mentioned = known_upwards(alloc, doc, names.as_slice())?;
    Ok(mentioned)
}
