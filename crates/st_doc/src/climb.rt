//! Climbing from a node upwards, in a document as an intent will leave it.
ghost use Rattle.std.specs.Prelude.{◌≡◌, ◌↔◌, true, IfOk};
ghost use Rattle.std.specs.BTreeMap.{get};
ghost use Rattle.std.specs.BTreeSet.{contains};
ghost use Rattle.st_ids.specs.declared.names.NodeId.{NodeId as Node};
ghost use Rattle.st_ids.specs.Order.{node_cmp};
ghost use Rattle.st_marks.specs.Document.{node_of, Reaches};
ghost use Rattle.st_marks.specs.CarryOut.{unless_cleared};
ghost use Rattle.st_doc.specs.inside.Ahead.{above_ahead};

use st_ids::NodeId;
use st_intent::is_cleared;
use st_marks::{Intent, Spot};
use std::alloc::{AllocError, Global};
use std::collections::{BTreeMap, BTreeSet};

/// The node in whose row or register a place is.
pub fn node_of(spot: &Spot) -> Option<NodeId>
    ensures { result ≡ node_of spot.now }
{
    match spot {
        Spot::Nowhere => None,
        Spot::Row { node, .. } => Some(*node),
        Spot::Register(field) => Some(field.node),
    }
}

// The node that will be above a node that is not put.
fn above_unput(intent: &Intent, spot: &Spot) -> Option<NodeId>
    ensures { result ≡ node_of (unless_cleared intent.now spot.now) }
{
    match spot {
        Spot::Register(field) if is_cleared(intent, field) => None,
        _ => node_of(spot),
    }
}

/// The node that will be above a node.
pub fn above_ahead(
    intent: &Intent,
    targets: &BTreeMap<NodeId, Spot>,
    place: &BTreeMap<NodeId, Spot>,
    node: NodeId,
) -> Option<NodeId>
    ensures { result ≡ above_ahead intent.now targets.now place.now node }
{
    if let Some(spot) = targets.get(&node) {
        return node_of(spot);
    }
    above_unput(intent, place.get(&node)?)
}

/// The nodes that will be above a node, one above the other.
pub fn ancestors_ahead(
    alloc: Global,
    intent: &Intent,
    targets: &BTreeMap<NodeId, Spot>,
    place: &BTreeMap<NodeId, Spot>,
    node: NodeId,
) -> Result<BTreeSet<NodeId>, AllocError>
    ensures { IfOk result (λ s. (m : Node) → (contains node_cmp s m ≡ true) ↔ Reaches (above_ahead intent.now targets.now place.now) node m) }
{
    let mut above = BTreeSet::new(alloc);
    let mut next = above_ahead(intent, targets, place, node);
    while let Some(here) = next {
        if above.contains(&here) {
            break;
        }
        above.insert(here)?;
        next = above_ahead(intent, targets, place, here);
    }
    Ok(above)
}
