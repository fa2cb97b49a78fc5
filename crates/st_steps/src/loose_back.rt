//! The nodes that a step leaves nowhere, on the way back.
ghost use Rattle.std.specs.Prelude.{◌≡◌, Bool, IfOk, OnOk, option_copied};
ghost use Rattle.std.specs.BTreeMap.{get};
ghost use Rattle.std.specs.BTreeSet.{IsOrdered, contains};
ghost use Rattle.std.specs.List.{filter_map};
ghost use Rattle.st_ids.specs.Listing.{IsListing};
ghost use Rattle.st_ids.specs.Order.{node_cmp};
ghost use Rattle.st_ids.specs.declared.names.NodeId.{NodeId as Node};
ghost use Rattle.st_marks.specs.declared.marks.Loose.{Loose as LooseNode};
ghost use Rattle.st_marks.specs.Embedding.{is_nowhere as nowhere};
ghost use Rattle.st_steps.specs.WayBack.{loose_back as back};
ghost use Rattle.st_steps.specs.inside.Back.{told_of};

use crate::loose::{Tables, push_if_some};
use st_ids::{List, NodeId, ROOT, is_same_node};
use st_marks::{How, Loose, Spot};
use std::alloc::{AllocError, Global};
use std::collections::BTreeSet;

// Whether a place is none.
fn is_nowhere(spot: &Spot) -> bool
    ensures { result ≡ nowhere spot.now }
{
    match spot {
        Spot::Nowhere => true,
        _ => false,
    }
}

// What the way back says of a node that is told to be somewhere or nowhere.
fn loose_back(stood: bool, spot: Option<&Spot>, node: NodeId) -> Option<Loose>
    ensures { result ≡ back stood (option_copied spot.entry) node }
{
    let spot = spot?;
    if is_nowhere(spot) && !is_same_node(node, ROOT) {
        let how = if stood { How::Leave } else { How::Stay };
        Some(Loose { node, how })
    } else {
        None
    }
}

// What the way back says of some nodes.
fn all_back(
    alloc: Global,
    tables: &Tables,
    nodes: &BTreeSet<NodeId>,
) -> Result<List<Loose>, AllocError>
    ensures loose { IfOk result (λ l. l ≡ filter_map (λ (n : Node). back (contains node_cmp tables.now.stood n) (get node_cmp tables.now.spots n) n) nodes.now.keys) }
    ensures ordered { IfOk result (λ l. IsOrdered node_cmp nodes.now) }
{
    let mut list = List::new(alloc);
    for node in nodes.iter() {
        let stood = tables.stood.contains(node);
        push_if_some(&mut list, loose_back(stood, tables.spots.get(node), *node))?;
    }
    Ok(list)
}

/// Those of some nodes that are told to be nowhere.
pub fn all_loose_back(
    alloc: Global,
    tables: &Tables,
    nodes: &BTreeSet<NodeId>,
) -> Result<List<Loose>, AllocError>
    ensures { IfOk result (λ l. IsListing node_cmp (λ (m : LooseNode). m.node) l (λ n. back (contains node_cmp tables.now.stood n)
        (told_of (contains node_cmp nodes.now) (get node_cmp tables.now.spots) n) n)) }
{
    let list = all_back(alloc, tables, nodes)?;
    Ok(list)
}
