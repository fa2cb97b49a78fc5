//! What a document tells of a node.
ghost use Rattle.std.specs.Prelude.{◌≡◌, is_some};
ghost use Rattle.st_marks.specs.Document.{above, node_of};
ghost use Rattle.st_doc.specs.Doc.{document_of};

use st_doc::Doc;
use st_ids::NodeId;
use st_marks::Spot;

/// Whether a node is there.
pub fn is_in(doc: &Doc, node: NodeId) -> bool
    ensures { result ≡ is_some ((document_of doc.now).nodes node) }
{
    doc.type_of(node).is_some()
}

// The node in whose row or register a place is.
fn node_of(spot: &Spot) -> Option<NodeId>
    ensures { result ≡ node_of spot.now }
{
    match spot {
        Spot::Nowhere => None,
        Spot::Row { node, .. } => Some(*node),
        Spot::Register(field) => Some(field.node),
    }
}

/// The node above.
pub fn above(doc: &Doc, node: NodeId) -> Option<NodeId>
    ensures { result ≡ above (document_of doc.now) node }
{
    match doc.place(node) {
        None => None,
        Some(spot) => node_of(spot),
    }
}
