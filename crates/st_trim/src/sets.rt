//! Nodes that aren't in a set.
ghost use Rattle.std.specs.Prelude.{◌≡◌};
ghost use Rattle.std.specs.BTreeSet.{contains};
ghost use Rattle.st_ids.specs.Order.{node_cmp};
ghost use Rattle.st_trim.specs.inside.Told.{unless_in};

use st_ids::NodeId;
use std::collections::BTreeSet;

/// A node, unless a set has it.
pub fn unless_in(set: &BTreeSet<NodeId>, node: NodeId) -> Option<NodeId>
    ensures { result ≡ unless_in (contains node_cmp set.now) node }
{
    if set.contains(&node) {
        None
    } else {
        Some(node)
    }
}
