//! Paths, from the root of a document down.
ghost use Rattle.std.specs.Prelude.{◌≡◌, ◌<◌, ◌^◌, length, Ok, Err, IfOk, slice_get, option_map};
ghost use Rattle.st_ids.specs.Or.{IfRefused};
ghost use Rattle.st_doc.specs.Doc.{document_of};
ghost use Rattle.st_marks.specs.LiveTree.{live_slots};
ghost use Rattle.st_edits.specs.Paths.{field_at, left_of, child, nodes_on_path};
ghost use Rattle.st_edits.specs.Resolve.{walk};
ghost use Rattle.st_ids.specs.Root.{root};

use st_doc::Doc;
use st_ids::{CellId, Copied, FieldId, Key, List, NodeId, Or, Path, Place, ROOT};
use st_tree::EditFault;
use std::alloc::{AllocError, Global};

/// A node's field under a key.
pub fn field_at(alloc: Global, node: NodeId, key: &Key) -> Result<FieldId, AllocError>
    ensures { IfOk result (λ f. f ≡ field_at node key.now) }
{
    let key = key.copy(alloc)?;
    Ok(FieldId { node, key })
}

/// The cell of the item left of an index, or the row's start.
pub fn left_of(doc: &Doc, node: NodeId, index: u32) -> Option<CellId>
    ensures { result ≡ left_of (document_of doc.now) node index }
{
    if index == 0 {
        return None;
    }
    let slot = doc.live_slot(node, index - 1)?;
    Some(slot.cell)
}

// The item of an index in a node's row.
fn item(doc: &Doc, node: NodeId, index: u32) -> Option<NodeId>
    ensures { result ≡ option_map (λ s. s.node) (slice_get (live_slots (document_of doc.now) node) index) }
{
    let slot = doc.live_slot(node, index)?;
    Some(slot.node)
}

// The node that one place of a path leads to.
fn child(
    alloc: Global,
    doc: &Doc,
    node: NodeId,
    place: &Place,
) -> Result<Option<NodeId>, AllocError>
    ensures { IfOk result (λ n. n ≡ child (document_of doc.now) node place.now) }
{
    if place.key.0.is_empty() {
        return Ok(item(doc, node, place.index));
    }
    if place.index != 0 {
        return Ok(None);
    }
    let field = field_at(alloc, node, &place.key)?;
    Ok(doc.held(&field))
}

/// The node that a path leads to from the root, or the number of the first place that leads to none.
pub fn walk(alloc: Global, doc: &Doc, path: &Path) -> Result<NodeId, Or<EditFault>>
    requires { length path.now < 2 ^ 32 }
    ensures ok { IfOk result (λ n. walk (document_of doc.now) path.now ≡ Ok n) }
    ensures bad { IfRefused result (λ e. walk (document_of doc.now) path.now ≡ Err e) }
{
    let mut node = ROOT;
    for (i, place) in path.as_slice().iter().enumerate() {
        match child(alloc, doc, node, place)? {
            None => return Err(Or::Fault(EditFault::NoNode { depth: i as u32 })),
            Some(next) => node = next,
        }
    }
    Ok(node)
}

/// The nodes on the way, the root and the last too.
pub fn nodes_on_path(alloc: Global, doc: &Doc, path: &Path) -> Result<List<NodeId>, AllocError>
    ensures { IfOk result (λ ns. ns ≡ nodes_on_path (document_of doc.now) root path.now) }
{
    let mut node = ROOT;
    let mut nodes = List::new(alloc);
    nodes.push(node)?;
    for place in path.as_slice() {
        match child(alloc, doc, node, place)? {
            None => return Ok(nodes),
            Some(next) => node = next,
        }
        nodes.push(node)?;
    }
    Ok(nodes)
}
