//! The new nodes of changes.
ghost use Rattle.std.specs.Prelude.{◌≡◌, ◌↔◌, ◌||◌, ◌∷◌, [], IfOk, OnOk, IsTrue, MatchOption};
ghost use Rattle.st_ids.specs.Listing.{IsRising};
ghost use Rattle.st_ids.specs.Order.{node_cmp, same_node};
ghost use Rattle.st_ids.specs.declared.names.NodeId.{NodeId as Node};
ghost use Rattle.st_marks.specs.Embedding.{is_among};
ghost use Rattle.st_rows.specs.RisingNodes.{below_first};

use st_ids::{Copied, List, NodeId};
use std::alloc::{AllocError, Global};

/// The first node, and those behind it.
fn first_node<'a>(nodes: &'a [NodeId]) -> Option<(NodeId, &'a [NodeId])>
    ensures { MatchOption result (nodes.now ≡ []) (λ p. nodes.now ≡ p.0 ∷ p.1.now) }
{
    match nodes {
        [node, others @ ..] => Some((*node, others)),
        _ => None,
    }
}

/// Whether a node's name is below that of the first of others, if there is one.
fn is_below(node: NodeId, others: &[NodeId]) -> bool
    ensures { result ≡ below_first node others.now }
{
    match others {
        [other, ..] => node < *other,
        _ => true,
    }
}

/// Whether nodes rise by name.
pub fn is_rising(nodes: &List<NodeId>) -> bool
    ensures { IsTrue result ↔ IsRising node_cmp (λ n. n) nodes.now }
{
    let mut rest = nodes.as_slice();
    'nodes: while let Some((node, others)) = first_node(rest) {
        if !is_below(node, others) {
            return false;
        }
        rest = others;
    }
    true
}

/// The nodes, if they rise by name, and else none.
pub fn rising_nodes(alloc: Global, nodes: &List<NodeId>) -> Result<List<NodeId>, AllocError>
    ensures rising { IfOk result (λ l. IsRising node_cmp (λ n. n) l) }
    ensures same { IsRising node_cmp (λ n. n) nodes.now → IfOk result (λ l. l ≡ nodes.now) }
{
    if is_rising(nodes) {
        nodes.copy(alloc)
    } else {
        Ok(List::new(alloc))
    }
}

/// Adds a node to a list that rises by name, at its place.
fn add(nodes: &mut List<NodeId>, node: NodeId) -> Result<(), AllocError>
    ensures { IsRising node_cmp (λ n. n) nodes.old → OnOk result (IsRising node_cmp (λ n. n) nodes.new
        × ((n : Node) → is_among nodes.new n ≡ (same_node node n || is_among nodes.old n))) }
{
    match nodes.as_slice().binary_search(&node) {
        Ok(_) => Ok(()),
        Err(place) => {
            nodes.insert(place, node)?;
            Ok(())
        }
    }
}

/// The nodes of two lists that rise by name, in one that does.
pub fn merged_names(
    alloc: Global,
    first: &List<NodeId>,
    then: &List<NodeId>,
) -> Result<List<NodeId>, AllocError>
    ensures { IsRising node_cmp (λ n. n) first.now → IfOk result (λ l. IsRising node_cmp (λ n. n) l
        × ((n : Node) → is_among l n ≡ (is_among first.now n || is_among then.now n))) }
{
    let mut all = first.copy(alloc)?;
    'nodes: for node in then.as_slice() {
        add(&mut all, *node)?;
    }
    Ok(all)
}
