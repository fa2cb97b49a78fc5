//! A node and all above it.
ghost use Rattle.std.specs.Prelude.{◌≡◌, Option, Some, List as Seq, IfOk, OnOk};
ghost use Rattle.std.specs.BTreeSet.{contains};
ghost use Rattle.st_ids.specs.Listing.{Has};
ghost use Rattle.st_ids.specs.Order.{node_cmp};
ghost use Rattle.st_ids.specs.declared.names.NodeId.{NodeId as Node};
ghost use Rattle.st_climb.specs.Upwards.{AreUpwards, GainsUpwards, IsClosed};

use st_ids::NodeId;
use std::alloc::{AllocError, Global};
use std::collections::BTreeSet;

/// What tells of a node which node is above it.
pub trait Above {
    ghost up: { Self → Node → Option Node };

    ghost lower: { Self → Seq Node };

    fn above(&self, node: NodeId) -> Option<NodeId>
        ensures { result ≡ up self.now node };

    /// The nodes that have another above them are in one list.
    fn has_lower()
        ensures { (s : Self) (n m : Node) → up s n ≡ Some m → Has (lower s) n };
}

// Adds a node and all above it to a set that has all nodes above its own.
fn add_upwards<A: Above>(
    nodes: &mut BTreeSet<NodeId>,
    places: &A,
    node: NodeId,
) -> Result<(), AllocError>
    requires { IsClosed (A.up places.now) (contains node_cmp nodes.old) }
    ensures { OnOk result (GainsUpwards (A.up places.now)
        (contains node_cmp nodes.old) node (contains node_cmp nodes.new)) }
{
    A::has_lower();
    let mut next = Some(node);
    while let Some(here) = next {
        if nodes.contains(&here) {
            break;
        }
        nodes.insert(here)?;
        next = places.above(here);
    }
    Ok(())
}

/// Some nodes and all above them. Each node is visited once.
pub fn upwards<A: Above>(
    alloc: Global,
    places: &A,
    begins: &BTreeSet<NodeId>,
) -> Result<BTreeSet<NodeId>, AllocError>
    ensures { IfOk result (λ s. AreUpwards (A.up places.now) (contains node_cmp begins.now) (contains node_cmp s)) }
{
    let mut nodes = BTreeSet::new(alloc);
    for node in begins.iter() {
        add_upwards(&mut nodes, places, *node)?;
    }
    Ok(nodes)
}
