//! Whether nodes that hang from others hang in a ring.
ghost use Rattle.std.specs.Prelude.{◌≡◌, ◌↔◌, ◌∷◌, [], true, false, List, Option, Some, None, IfOk, IsTrue, MatchOption};
ghost use Rattle.std.specs.BTreeMap.{get};
ghost use Rattle.st_ids.specs.declared.names.NodeId.{NodeId as Node};
ghost use Rattle.st_ids.specs.Order.{node_cmp, same_node};
ghost use Rattle.st_marks.specs.Document.{ClimbsToAnEnd};
ghost use Rattle.st_normal.specs.inside.Ring.{AreListed, HasRing, HaveEnded};

use st_ids::{NodeId, is_same_node};
use std::alloc::{AllocError, Global};
use std::collections::BTreeMap;

/// Tells from which node another hangs, and goes through the nodes that hang.
pub trait Hangs {
    /// How far one has gone through the nodes.
    type Place: Copy;

    /// The node above another.
    ghost up: { Self → Node → Option Node };

    /// The nodes that are gone through. A node may be there twice, and one that hangs from none may be there too.
    ghost nodes: { Self → List Node };

    /// The nodes from a place on.
    ghost rest: { Self → Self.Place → List Node };

    /// The node above another.
    fn up(&self, node: NodeId) -> Option<NodeId>
        ensures { result ≡ up self.now node };

    /// The place of the first node.
    fn first(&self) -> Self::Place
        ensures { rest self.now result ≡ nodes self.now };

    /// The node at a place, and the place of the next one.
    fn next(&self, place: Self::Place) -> Option<(NodeId, Self::Place)>
        ensures { MatchOption result (rest self.now place ≡ []) (λ r. rest self.now place ≡ r.0 ∷ rest self.now r.1) };
}

/// Climbs from a node until there is no node above or one that was met before, and tells whether it closes a ring.
/// Each node that is met is kept with the node where the climb began that met it first.
fn closes_ring<H: Hangs>(
    hangs: &H,
    met: &mut BTreeMap<NodeId, NodeId>,
    start: NodeId,
) -> Result<bool, AllocError>
    requires listed { AreListed (H.up hangs.now) (H.nodes hangs.now) }
    requires ended { HaveEnded (H.up hangs.now) (get node_cmp met.old) }
    ensures ring { IfOk result (λ b. IsTrue b → HasRing (H.up hangs.now)) }
    ensures ended { IfOk result (λ b. b ≡ false → HaveEnded (H.up hangs.now) (get node_cmp met.new)) }
    ensures ends { IfOk result (λ b. b ≡ false → ClimbsToAnEnd (H.up hangs.now) start) }
{
    if met.contains_key(&start) {
        return Ok(false);
    }
    let mut here = start;
    'climb: loop {
        met.insert(here, start)?;
        let Some(above) = hangs.up(here) else {
            return Ok(false);
        };
        if let Some(from) = met.get(&above) {
            return Ok(is_same_node(*from, start));
        }
        here = above;
    }
}

/// Whether nodes hang in a ring, in the time that sorting them would take.
fn find_ring<H: Hangs>(alloc: Global, hangs: &H) -> Result<bool, AllocError>
    requires { AreListed (H.up hangs.now) (H.nodes hangs.now) }
    ensures { IfOk result (λ b. IsTrue b ↔ HasRing (H.up hangs.now)) }
{
    let mut met = BTreeMap::new(alloc);
    let mut place = hangs.first();
    'nodes: while let Some((node, next)) = hangs.next(place) {
        if closes_ring(hangs, &mut met, node)? {
            return Ok(true);
        }
        place = next;
    }
    Ok(false)
}

/// Whether a climb from a node goes on for more steps than there are nodes, which it does only in a ring.
fn climbs_on<H: Hangs>(hangs: &H, start: NodeId) -> bool
    requires { AreListed (H.up hangs.now) (H.nodes hangs.now) }
    ensures ring { IsTrue result → HasRing (H.up hangs.now) }
    ensures ends { result ≡ false → ClimbsToAnEnd (H.up hangs.now) start }
{
    let mut here = start;
    let mut place = hangs.first();
    'climb: while let Some(above) = hangs.up(here) {
        let Some((_, next)) = hangs.next(place) else {
            return true;
        };
        here = above;
        place = next;
    }
    false
}

/// Whether nodes hang in a ring. This is the slow way, for want of memory: it takes none, and climbs from each node
/// as far as a climb can go.
pub fn scan_ring<H: Hangs>(hangs: &H) -> bool
    requires { AreListed (H.up hangs.now) (H.nodes hangs.now) }
    ensures { IsTrue result ↔ HasRing (H.up hangs.now) }
{
    let mut place = hangs.first();
    'nodes: while let Some((node, next)) = hangs.next(place) {
        if climbs_on(hangs, node) {
            return true;
        }
        place = next;
    }
    false
}

/// Whether nodes hang in a ring, so that some node is above itself. All that hang are to be among the nodes that are
/// gone through. It takes the time that sorting them would take, or that of the slow way where memory is wanting.
pub fn has_ring<H: Hangs>(alloc: Global, hangs: &H) -> bool
    requires { AreListed (H.up hangs.now) (H.nodes hangs.now) }
    ensures { IsTrue result ↔ HasRing (H.up hangs.now) }
{
    match find_ring(alloc, hangs) {
        Ok(found) => found,
        Err(_) => scan_ring(hangs),
    }
}
