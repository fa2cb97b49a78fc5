//! Links from nodes to those in which they stand.
ghost use Rattle.std.specs.Prelude.{◌≡◌, ◌++◌, ◌||◌, IfOk, OnOk, false, map};
ghost use Rattle.std.specs.BTreeSet.{contains};
ghost use Rattle.std.specs.List.{flat_map};
ghost use Rattle.st_ids.specs.Order.{node_cmp};
ghost use Rattle.st_ids.specs.declared.names.NodeId.{NodeId as Node};
ghost use Rattle.st_marks.specs.Document.{node_of};
ghost use Rattle.st_marks.specs.Embedding.{is_among};
ghost use Rattle.st_marks.specs.Listings.{nodes_new, one_or_none};
ghost use Rattle.st_turn_places.specs.declared.places.Placed.{Placed as Place};
ghost use Rattle.st_part_rings.specs.inside.Links.{joint_links, kept_link, link_of, linked_to, made_to};

use st_clash::push_if_some;
use st_climb::{add_one, new_names};
use st_ids::{List, NodeId};
use st_marks::{NewNode, Spot};
use st_turn_places::Placed;
use std::alloc::{AllocError, Global};
use std::collections::BTreeSet;

/// A node that stands in a row or a register of another.
#[derive(Clone, Copy)]
pub struct Link {
    pub node: NodeId,
    pub up: NodeId,
}

// The node of a place.
fn node_of(spot: &Spot) -> Option<NodeId>
    ensures { result ≡ node_of spot.now }
{
    match spot {
        Spot::Nowhere => None,
        Spot::Row { node, .. } => Some(*node),
        Spot::Register(field) => Some(field.node),
    }
}

// The link of a node at its place, if it stands in another.
fn link_of(placed: &Placed) -> Option<Link>
    ensures { one_or_none result ≡ link_of placed.now }
{
    let up = node_of(&placed.spot)?;
    Some(Link {
        node: placed.node,
        up,
    })
}

/// The links of nodes at their places.
pub fn links_of(alloc: Global, places: &[Placed]) -> Result<List<Link>, AllocError>
    ensures { IfOk result (λ l. l ≡ flat_map link_of places.now) }
{
    let mut links = List::new(alloc);
    for placed in places {
        push_if_some(&mut links, link_of(placed))?;
    }
    Ok(links)
}

// The link of a node at its place, if it stands in another and both are made.
fn made_link(made: &BTreeSet<NodeId>, placed: &Placed) -> Option<Link>
    ensures { one_or_none result ≡ made_to (contains node_cmp made.now) placed.now.node (node_of placed.now.spot) }
{
    let up = node_of(&placed.spot)?;
    if made.contains(&placed.node) && made.contains(&up) {
        let node = placed.node;
        Some(Link { node, up })
    } else {
        None
    }
}

// The same, unless the node is among those that were taken elsewhere.
fn kept_link(made: &BTreeSet<NodeId>, taken: &BTreeSet<NodeId>, placed: &Placed) -> Option<Link>
    ensures { one_or_none result ≡ kept_link (contains node_cmp made.now) (contains node_cmp taken.now) placed.now }
{
    if taken.contains(&placed.node) {
        None
    } else {
        made_link(made, placed)
    }
}

// Adds the links of made nodes, without those that were taken elsewhere.
fn push_kept(
    links: &mut List<Link>,
    made: &BTreeSet<NodeId>,
    taken: &BTreeSet<NodeId>,
    places: &[Placed],
) -> Result<(), AllocError>
    ensures { OnOk result (links.new ≡ links.old ++ flat_map (kept_link (contains node_cmp made.now) (contains node_cmp taken.now)) places.now) }
{
    for placed in places {
        push_if_some(links, kept_link(made, taken, placed))?;
    }
    Ok(())
}

// Adds new nodes to a set.
fn add_new(set: &mut BTreeSet<NodeId>, new: &[NewNode]) -> Result<(), AllocError>
    ensures { OnOk result ((n : Node) → contains node_cmp set.new n ≡ (contains node_cmp set.old n || is_among (nodes_new new.now) n)) }
{
    for made in new {
        add_one(set, Some(made.node))?;
    }
    Ok(())
}

// The nodes that are placed.
fn nodes_placed(alloc: Global, places: &[Placed]) -> Result<BTreeSet<NodeId>, AllocError>
    ensures { IfOk result (λ s. (n : Node) → contains node_cmp s n ≡ is_among (map (λ (p : Place). p.node) places.now) n) }
{
    let mut set = BTreeSet::new(alloc);
    for placed in places {
        add_one(&mut set, Some(placed.node))?;
    }
    Ok(set)
}

/// The new nodes of two lists.
pub fn nodes_made(
    alloc: Global,
    first: &[NewNode],
    second: &[NewNode],
) -> Result<BTreeSet<NodeId>, AllocError>
    ensures { IfOk result (λ s. (n : Node) → contains node_cmp s n
        ≡ (is_among (nodes_new first.now) n || is_among (nodes_new second.now) n)) }
{
    let mut made = new_names(alloc, first)?;
    add_new(&mut made, second)?;
    Ok(made)
}

/// The links of made nodes in made nodes: where the second of two lists has them, or else the first.
pub fn links_joint(
    alloc: Global,
    made: &BTreeSet<NodeId>,
    first: &[Placed],
    second: &[Placed],
) -> Result<List<Link>, AllocError>
    ensures { IfOk result (λ l. l ≡ joint_links (contains node_cmp made.now) (is_among (map (λ (p : Place). p.node) second.now))
        first.now second.now) }
{
    let mut links = List::new(alloc);
    let taken = nodes_placed(alloc, second)?;
    push_kept(&mut links, made, &taken, first)?;
    push_kept(&mut links, made, &BTreeSet::new(alloc), second)?;
    Ok(links)
}
