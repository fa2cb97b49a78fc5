//! Sets of nodes.
ghost use Rattle.std.specs.Prelude.{◌≡◌, ◌||◌, ◌&&◌, not, true, cond, IfOk, OnOk};
ghost use Rattle.std.specs.BTreeSet.{contains};
ghost use Rattle.std.specs.Ordering.{is_eq};
ghost use Rattle.st_ids.specs.Order.{node_cmp, same_node};
ghost use Rattle.st_ids.specs.declared.names.NodeId.{NodeId as Node};
ghost use Rattle.st_marks.specs.Embedding.{is_among};
ghost use Rattle.st_marks.specs.Listings.{nodes_new, one_or_none};

use st_ids::NodeId;
use st_marks::NewNode;
use std::alloc::{AllocError, Global};
use std::collections::BTreeSet;

// Puts a name into a set.
fn add_name<K: Ord + Drop>(set: &mut BTreeSet<K>, key: K) -> Result<(), AllocError>
    ensures { OnOk result ((q : K) → contains K.cmp set.new q
        ≡ cond (is_eq (K.cmp key q)) true (contains K.cmp set.old q)) }
{
    set.insert(key)?;
    Ok(())
}

/// Puts a node into a set.
pub fn add(set: &mut BTreeSet<NodeId>, node: NodeId) -> Result<(), AllocError>
    ensures { OnOk result ((n : Node) → contains node_cmp set.new n
        ≡ cond (same_node node n) true (contains node_cmp set.old n)) }
{
    add_name(set, node)?;
    Ok(())
}

/// Puts a node into a set, if there is one.
pub fn add_one(set: &mut BTreeSet<NodeId>, node: Option<NodeId>) -> Result<(), AllocError>
    ensures { OnOk result ((n : Node) → contains node_cmp set.new n
        ≡ (contains node_cmp set.old n || is_among (one_or_none node) n)) }
{
    match node {
        None => Ok(()),
        Some(node) => {
            add(set, node)?;
            Ok(())
        }
    }
}

/// Puts nodes into a set.
pub fn add_all(set: &mut BTreeSet<NodeId>, nodes: &[NodeId]) -> Result<(), AllocError>
    ensures { OnOk result ((n : Node) → contains node_cmp set.new n
        ≡ (contains node_cmp set.old n || is_among nodes.now n)) }
{
    for node in nodes {
        add_one(set, Some(*node))?;
    }
    Ok(())
}

/// The names of new nodes.
pub fn new_names(alloc: Global, new: &[NewNode]) -> Result<BTreeSet<NodeId>, AllocError>
    ensures { IfOk result (λ s. (n : Node) → contains node_cmp s n ≡ is_among (nodes_new new.now) n) }
{
    let mut set = BTreeSet::new(alloc);
    for made in new {
        add_one(&mut set, Some(made.node))?;
    }
    Ok(set)
}

/// The nodes of one set that aren't in another.
pub fn without(
    alloc: Global,
    nodes: &BTreeSet<NodeId>,
    others: &BTreeSet<NodeId>,
) -> Result<BTreeSet<NodeId>, AllocError>
    ensures { IfOk result (λ s. (n : Node) → contains node_cmp s n
        ≡ (contains node_cmp nodes.now n && not (contains node_cmp others.now n))) }
{
    let mut set = BTreeSet::new(alloc);
    for node in nodes.iter() {
        add_one(&mut set, unless_in(others, *node))?;
    }
    Ok(set)
}

// The node, if a set doesn't have it.
fn unless_in(set: &BTreeSet<NodeId>, node: NodeId) -> Option<NodeId>
    ensures { (n : Node) → is_among (one_or_none result) n ≡ (same_node node n && not (contains node_cmp set.now node)) }
{
    if set.contains(&node) {
        None
    } else {
        Some(node)
    }
}
