//! The nodes of a change that are nowhere after a step.
ghost use Rattle.std.specs.Prelude.{◌≡◌, IfOk};
ghost use Rattle.std.specs.BTreeMap.{get};
ghost use Rattle.std.specs.BTreeSet.{IsOrdered};
ghost use Rattle.std.specs.List.{filter_map};
ghost use Rattle.st_ids.specs.Order.{node_cmp};
ghost use Rattle.st_marks.specs.declared.intents.To.{To as Aim};
ghost use Rattle.st_marks.specs.Embedding.{is_nowhere};
ghost use Rattle.st_marks.specs.Row.{how as how_at};
ghost use Rattle.st_puts.specs.Mentions.{place_in};
ghost use Rattle.st_moves.specs.inside.Registers.{loose_in};

use st_clash::push_if_some;
use st_ids::{List, NodeId, ROOT, is_same_node};
use st_marks::{How, Loose, Spot, To};
use std::alloc::{AllocError, Global};
use std::collections::{BTreeMap, BTreeSet};

// What becomes of a node that is nowhere, by where it is put.
fn how_nowhere(puts: &BTreeMap<NodeId, To>, node: NodeId) -> How
    ensures { result ≡ how_at (get node_cmp puts.now node) Aim.Nowhere }
{
    match puts.get(&node) {
        None => How::Stay,
        Some(To::Nowhere) => How::Here,
        Some(_) => How::Leave,
    }
}

// Whether a node is nowhere, as a table of places tells.
fn is_nowhere(places: &BTreeMap<NodeId, Spot>, node: NodeId) -> bool
    ensures { result ≡ is_nowhere (place_in places.now node) }
{
    match places.get(&node) {
        None | Some(Spot::Nowhere) => true,
        _ => false,
    }
}

// A node that is nowhere, if it is listed.
fn loose_node(
    puts: &BTreeMap<NodeId, To>,
    places: &BTreeMap<NodeId, Spot>,
    node: NodeId,
) -> Option<Loose>
    ensures { result ≡ loose_in (get node_cmp puts.now) (place_in places.now) node }
{
    if is_nowhere(places, node) && !is_same_node(node, ROOT) {
        let how = how_nowhere(puts, node);
        Some(Loose { node, how })
    } else {
        None
    }
}

/// The nodes of a set that are nowhere, as a table of places tells, with what becomes of them.
pub fn loose_nodes(
    alloc: Global,
    puts: &BTreeMap<NodeId, To>,
    places: &BTreeMap<NodeId, Spot>,
    named: &BTreeSet<NodeId>,
) -> Result<List<Loose>, AllocError>
    ensures loose { IfOk result (λ l. l ≡ filter_map (loose_in (get node_cmp puts.now) (place_in places.now)) named.now.keys) }
    ensures ordered { IfOk result (λ l. IsOrdered node_cmp named.now) }
{
    let mut list = List::new(alloc);
    for node in named.iter() {
        push_if_some(&mut list, loose_node(puts, places, *node))?;
    }
    Ok(list)
}
