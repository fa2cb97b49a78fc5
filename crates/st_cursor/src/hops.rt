//! The hops of a way down.
ghost use Rattle.std.specs.Prelude.{◌≡◌, ◌-◌, length, map, slice_set, take, IfOk};
ghost use Rattle.st_ids.specs.Root.{root};
ghost use Rattle.st_cursor.specs.At.{end_of};
ghost use Rattle.st_cursor.specs.declared.hops.Hop.{Hop as OneHop};

use st_ids::{Copied, List, NodeId, Path, Place, ROOT};
use std::alloc::{AllocError, Global};

/// A place of a path, and the node to which it leads.
#[derive(Drop)]
pub struct Hop {
    pub place: Place,
    pub node: NodeId,
}

/// The node to which some hops lead from the root.
pub(crate) fn end_of(hops: &[Hop]) -> NodeId
    ensures { result ≡ end_of root hops.now }
{
    match hops.last() {
        None => ROOT,
        Some(hop) => hop.node,
    }
}

/// The node from which the last hop leads.
pub(crate) fn above(hops: &[Hop]) -> NodeId
    ensures { result ≡ end_of root (take (length hops.now - 1) hops.now) }
{
    let front = hops.len().saturating_sub(1);
    end_of(&hops[..front])
}

// Another hop at a place.
fn set_hop(hops: &mut List<Hop>, place: usize, hop: Hop)
    ensures { hops.new ≡ slice_set hops.old place hop }
{
    match hops.get_mut(place) {
        None => (),
        Some(there) => *there = hop,
    }
}

/// Another hop in the place of the last one.
pub(crate) fn set_last(hops: &mut List<Hop>, hop: Hop)
    ensures { hops.new ≡ slice_set hops.old (length hops.old - 1) hop }
{
    let place = hops.len().saturating_sub(1);
    set_hop(hops, place, hop)
}

/// The places of hops.
pub(crate) fn path_of(alloc: Global, hops: &[Hop]) -> Result<Path, AllocError>
    ensures { IfOk result (λ p. p ≡ map (λ (h : OneHop). h.place) hops.now) }
{
    let mut path = Path::new(alloc);
    for hop in hops {
        path.push(hop.place.copy(alloc)?)?;
    }
    Ok(path)
}
