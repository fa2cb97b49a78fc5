//! The new nodes of a step.
ghost use Rattle.std.specs.Prelude.{◌≡◌, IfOk, is_some};
ghost use Rattle.std.specs.BTreeSet.{contains, IsOrdered};
ghost use Rattle.std.specs.List.{filter_map};
ghost use Rattle.std.specs.Option.{option_copied};
ghost use Rattle.st_ids.specs.Listing.{IsListing};
ghost use Rattle.st_ids.specs.Order.{node_cmp};
ghost use Rattle.st_ids.specs.declared.names.NodeId.{NodeId as Node};
ghost use Rattle.st_marks.specs.declared.changes.NewNode.{NewNode as NewOne};
ghost use Rattle.st_marks.specs.Embedding.{is_among};
ghost use Rattle.st_marks.specs.Step.{gained_node};
ghost use Rattle.st_doc.specs.Doc.{document_of};

use st_doc::Doc;
use st_embed::{add_nodes, is_in, push_if_some};
use st_ids::{Copied, Leaf, List, NodeId};
use st_marks::NewNode;
use std::alloc::{AllocError, Global};
use std::collections::BTreeSet;

// The set of some nodes.
fn set_of(alloc: Global, nodes: &[NodeId]) -> Result<BTreeSet<NodeId>, AllocError>
    ensures { IfOk result (λ s. (n : Node) → contains node_cmp s n ≡ is_among nodes.now n) }
{
    let mut set = BTreeSet::new(alloc);
    add_nodes(&mut set, nodes)?;
    Ok(set)
}

/// The nodes of a document.
pub fn nodes_of(alloc: Global, doc: &Doc) -> Result<BTreeSet<NodeId>, AllocError>
    ensures { IfOk result (λ s. (n : Node) → contains node_cmp s n ≡ is_some ((document_of doc.now).nodes n)) }
{
    let nodes = doc.nodes(alloc)?;
    let set = set_of(alloc, nodes.as_slice())?;
    Ok(set)
}

// A copy of a leaf, if there is one.
fn copied_leaf(alloc: Global, leaf: Option<&Leaf>) -> Result<Option<Leaf>, AllocError>
    ensures { IfOk result (λ l. l ≡ option_copied leaf.entry) }
{
    match leaf {
        None => Ok(None),
        Some(leaf) => Ok(Some(leaf.copy(alloc)?)),
    }
}

// A node that the later document has and the earlier one has not.
fn gained_node(
    alloc: Global,
    doc: &Doc,
    later: &Doc,
    node: NodeId,
) -> Result<Option<NewNode>, AllocError>
    ensures { IfOk result (λ m. m ≡ gained_node node
        ((document_of doc.now).nodes node) ((document_of later.now).nodes node)) }
{
    if is_in(doc, node) {
        return Ok(None);
    }
    match later.type_of(node) {
        None => Ok(None),
        Some(ty) => {
            let ty = ty.copy(alloc)?;
            let leaf = copied_leaf(alloc, later.leaf_of(node))?;
            Ok(Some(NewNode { node, ty, leaf }))
        }
    }
}

// The nodes among some that the later document has and the earlier one has not.
fn gained_nodes(
    alloc: Global,
    doc: &Doc,
    later: &Doc,
    nodes: &BTreeSet<NodeId>,
) -> Result<List<NewNode>, AllocError>
    ensures new { IfOk result (λ l. l ≡ filter_map (λ n. gained_node n
        ((document_of doc.now).nodes n) ((document_of later.now).nodes n)) nodes.now.keys) }
    ensures ordered { IfOk result (λ l. IsOrdered node_cmp nodes.now) }
{
    let mut list = List::new(alloc);
    for node in nodes.iter() {
        let new = gained_node(alloc, doc, later, *node)?;
        push_if_some(&mut list, new)?;
    }
    Ok(list)
}

/// The nodes that the later document has and the earlier one has not.
pub fn new_of(alloc: Global, doc: &Doc, later: &Doc) -> Result<List<NewNode>, AllocError>
    ensures { IfOk result (λ l. IsListing node_cmp (λ (m : NewOne). m.node) l
        (λ n. gained_node n ((document_of doc.now).nodes n) ((document_of later.now).nodes n))) }
{
    let nodes = nodes_of(alloc, later)?;
    let list = gained_nodes(alloc, doc, later, &nodes)?;
    Ok(list)
}
