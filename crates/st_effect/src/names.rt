//! The new nodes of a change, in rising order.
ghost use Rattle.std.specs.Prelude.{◌≡◌, ◌||◌, IfOk, OnOk};
ghost use Rattle.st_ids.specs.Listing.{IsRising};
ghost use Rattle.st_ids.specs.Order.{node_cmp, same_node};
ghost use Rattle.st_ids.specs.declared.names.NodeId.{NodeId as Node};
ghost use Rattle.st_marks.specs.Embedding.{is_among as among};
ghost use Rattle.st_marks.specs.Listings.{nodes_new};

use st_ids::{List, NodeId};
use st_marks::NewNode;
use std::alloc::{AllocError, Global};

/// Whether a node is in a list that rises by name.
pub fn is_among(nodes: &List<NodeId>, node: NodeId) -> bool
    ensures { IsRising node_cmp (λ n. n) nodes.now → result ≡ among nodes.now node }
{
    nodes.as_slice().binary_search(&node).is_ok()
}

// Adds a node to a list that rises by name, at its place.
fn add(nodes: &mut List<NodeId>, node: NodeId) -> Result<(), AllocError>
    ensures { IsRising node_cmp (λ n. n) nodes.old → OnOk result (IsRising node_cmp (λ n. n) nodes.new
        × ((n : Node) → among nodes.new n ≡ (same_node node n || among nodes.old n))) }
{
    match nodes.as_slice().binary_search(&node) {
        Ok(_) => Ok(()),
        Err(place) => {
            nodes.insert(place, node)?;
            Ok(())
        }
    }
}

/// The names of new nodes, in rising order.
pub fn new_names(alloc: Global, new: &[NewNode]) -> Result<List<NodeId>, AllocError>
    ensures rising { IfOk result (λ l. IsRising node_cmp (λ n. n) l) }
    ensures each { IfOk result (λ l. (n : Node) → among l n ≡ among (nodes_new new.now) n) }
{
    let mut names = List::new(alloc);
    'nodes: for one in new {
        add(&mut names, one.node)?;
    }
    Ok(names)
}
