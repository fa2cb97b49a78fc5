//! Whether nodes stand in one another in a ring.
ghost use Rattle.std.specs.Prelude.{◌≡◌, ◌↔◌, true, false, cond, map, Option, Some, IfOk, IsTrue, OnOk};
ghost use Rattle.std.specs.BTreeMap.{get};
ghost use Rattle.std.specs.Ordering.{is_eq};
ghost use Rattle.st_ids.specs.Order.{node_cmp};
ghost use Rattle.st_ids.specs.declared.names.NodeId.{NodeId as Node};
ghost use Rattle.st_marks.specs.Document.{ClimbsToAnEnd};
ghost use Rattle.st_normal.specs.inside.Ring.{AreListed, HasRing, HaveEnded};
ghost use Rattle.st_part_rings.specs.declared.links.Link.{Link as Linked};
ghost use Rattle.st_part_rings.specs.inside.Links.{IsUp};

use crate::links::Link;
use st_ids::{NodeId, is_same_node};
use std::alloc::{AllocError, Global};
use std::collections::BTreeMap;

// Keeps which node is above another.
fn keep(up: &mut BTreeMap<NodeId, NodeId>, node: NodeId, above: NodeId) -> Result<(), AllocError>
    ensures { OnOk result ((n : Node) → get node_cmp up.new n
        ≡ cond (is_eq (node_cmp node n)) (Some above) (get node_cmp up.old n)) }
{
    up.insert(node, above)?;
    Ok(())
}

/// Which node is above each that is linked; of one with two links, by the last.
pub fn uppers(alloc: Global, links: &[Link]) -> Result<BTreeMap<NodeId, NodeId>, AllocError>
    ensures { IfOk result (λ t. IsUp links.now (get node_cmp t)) }
{
    let mut up = BTreeMap::new(alloc);
    let mut at = 0;
    while at < links.len() {
        keep(&mut up, links[at].node, links[at].up)?;
        at += 1;
    }
    Ok(up)
}

// The node above another.
fn above(up: &BTreeMap<NodeId, NodeId>, node: NodeId) -> Option<NodeId>
    ensures { result ≡ get node_cmp up.now node }
{
    match up.get(&node) {
        None => None,
        Some(above) => Some(*above),
    }
}

// Climbs from a node until there is no node above or one that was met before, and tells whether it closes a ring. Each node
// that is met is kept with the node where the climb began that met it first.
fn closes_ring(
    up: &BTreeMap<NodeId, NodeId>,
    links: &[Link],
    met: &mut BTreeMap<NodeId, NodeId>,
    start: NodeId,
) -> Result<bool, AllocError>
    requires listed { AreListed (get node_cmp up.now) (map (λ (l : Linked). l.node) links.now) }
    requires ended { HaveEnded (get node_cmp up.now) (get node_cmp met.old) }
    ensures ring { IfOk result (λ b. IsTrue b → HasRing (get node_cmp up.now)) }
    ensures ended { IfOk result (λ b. b ≡ false → HaveEnded (get node_cmp up.now) (get node_cmp met.new)) }
    ensures ends { IfOk result (λ b. b ≡ false → ClimbsToAnEnd (get node_cmp up.now) start) }
{
    if met.contains_key(&start) {
        return Ok(false);
    }
    let mut here = start;
    'climb: loop {
        met.insert(here, start)?;
        let Some(above) = above(up, here) else {
            return Ok(false);
        };
        if let Some(from) = met.get(&above) {
            return Ok(is_same_node(*from, start));
        }
        here = above;
    }
}

/// Whether linked nodes stand above one another in a ring, in the time that sorting them would take.
pub fn have_ring(
    alloc: Global,
    up: &BTreeMap<NodeId, NodeId>,
    links: &[Link],
) -> Result<bool, AllocError>
    requires { AreListed (get node_cmp up.now) (map (λ (l : Linked). l.node) links.now) }
    ensures { IfOk result (λ b. IsTrue b ↔ HasRing (get node_cmp up.now)) }
{
    let mut met = BTreeMap::new(alloc);
    let mut at = 0;
    'nodes: while at < links.len() {
        if closes_ring(up, links, &mut met, links[at].node)? {
            return Ok(true);
        }
        at += 1;
    }
    Ok(false)
}
