//! Nodes that are placed, looked for in a list where they rise by name.
ghost use Rattle.std.specs.Prelude.{◌≡◌, ◌↔◌, ◌++◌, true, OnOk};
ghost use Rattle.std.specs.List.{flat_map};
ghost use Rattle.st_ids.specs.Listing.{IsRising, item_of};
ghost use Rattle.st_ids.specs.Order.{node_cmp};
ghost use Rattle.st_agree.specs.declared.places.Placed.{Placed as Place};
ghost use Rattle.st_agree.specs.inside.Places.{apart_fields};

use crate::places::{Placed, push_both};
use st_clash::{Named, place_of, rise};
use st_ids::{FieldId, List, NodeId};
use std::alloc::{AllocError, Global};

impl Named<NodeId> for Placed {
    ghost key = { λ p. p.node };

    fn name(&self) -> &NodeId {
        &self.node
    }
}

/// Whether the nodes of a list rise by name.
pub fn nodes_rise(list: &[Placed]) -> bool
    ensures { (result ≡ true) ↔ IsRising node_cmp (λ (p : Place). p.node) list.now }
{
    rise(list)
}

// Adds the fields of a node that others place elsewhere, which is looked for at one place first; answers where the next may be.
fn push_near(
    alloc: Global,
    found: &mut List<FieldId>,
    others: &[Placed],
    near: usize,
    placed: &Placed,
) -> Result<usize, AllocError>
    requires { IsRising node_cmp (λ (p : Place). p.node) others.now }
    ensures { OnOk result (found.new ≡ found.old
        ++ apart_fields placed.now (item_of node_cmp (λ (p : Place). p.node) others.now placed.now.node)) }
{
    match place_of(others, near, &placed.node) {
        Err(at) => Ok(at),
        Ok(at) => {
            push_both(alloc, found, placed, &others[at])?;
            Ok(at.wrapping_add(1))
        }
    }
}

/// Adds the fields of the nodes that others place elsewhere, where these rise by name. A node that stands right behind the last
/// one found costs one look, any other a search by halving.
pub fn push_by_search(
    alloc: Global,
    found: &mut List<FieldId>,
    list: &[Placed],
    others: &[Placed],
) -> Result<(), AllocError>
    requires { IsRising node_cmp (λ (p : Place). p.node) others.now }
    ensures { OnOk result (found.new ≡ found.old
        ++ flat_map (λ (p : Place). apart_fields p (item_of node_cmp (λ (q : Place). q.node) others.now p.node)) list.now) }
{
    let mut near = 0;
    for placed in list {
        near = push_near(alloc, found, others, near, placed)?;
    }
    Ok(())
}
