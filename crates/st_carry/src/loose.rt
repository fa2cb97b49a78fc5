//! The loose nodes of a step after a change.
ghost use Rattle.std.specs.Prelude.{◌≡◌, if◌then◌else◌, IfOk};
ghost use Rattle.std.specs.BTreeSet.{IsOrdered, contains};
ghost use Rattle.std.specs.List.{filter_map};
ghost use Rattle.st_ids.specs.Order.{node_cmp};
ghost use Rattle.st_marks.specs.declared.marks.How.TheVariants.{Leave, Stay};
ghost use Rattle.st_cross_laws.specs.Crossed.{loose_across};

use st_clash::push_if_some;
use st_ids::{List, NodeId, ROOT, is_same_node};
use st_marks::{How, Loose};
use std::alloc::{AllocError, Global};
use std::collections::BTreeSet;

// Whether a node goes somewhere.
fn how_after(stands: &BTreeSet<NodeId>, node: NodeId) -> How
    ensures { result ≡ (if contains node_cmp stands.now node then Leave else Stay) }
{
    if stands.contains(&node) {
        How::Leave
    } else {
        How::Stay
    }
}

// A node, if it is nowhere before.
fn loose_across(stood: &BTreeSet<NodeId>, stands: &BTreeSet<NodeId>, node: NodeId) -> Option<Loose>
    ensures { result ≡ loose_across (contains node_cmp stood.now) (contains node_cmp stands.now) node }
{
    if stood.contains(&node) || is_same_node(node, ROOT) {
        return None;
    }
    let how = how_after(stands, node);
    Some(Loose { node, how })
}

/// Those of some nodes that are nowhere before a step, where it is known who stands somewhere before it and after it.
pub fn loose_nodes(
    alloc: Global,
    names: &BTreeSet<NodeId>,
    stood: &BTreeSet<NodeId>,
    stands: &BTreeSet<NodeId>,
) -> Result<List<Loose>, AllocError>
    ensures loose { IfOk result (λ l. l ≡ filter_map (loose_across (contains node_cmp stood.now) (contains node_cmp stands.now)) names.now.keys) }
    ensures ordered { IfOk result (λ l. IsOrdered node_cmp names.now) }
{
    let mut list = List::new(alloc);
    for node in names.iter() {
        push_if_some(&mut list, loose_across(stood, stands, *node))?;
    }
    Ok(list)
}
