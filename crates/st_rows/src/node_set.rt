//! Nodes in a rising list.
ghost use Rattle.std.specs.Prelude.{◌≡◌};
ghost use Rattle.st_ids.specs.Listing.{IsRising};
ghost use Rattle.st_ids.specs.Order.{node_cmp};
ghost use Rattle.st_marks.specs.Embedding.{is_among as among};

use st_ids::{List, NodeId};

/// Whether a node is in a list that rises by name.
pub fn is_among(nodes: &List<NodeId>, node: NodeId) -> bool
    ensures { IsRising node_cmp (λ n. n) nodes.now → result ≡ among nodes.now node }
{
    nodes.as_slice().binary_search(&node).is_ok()
}
