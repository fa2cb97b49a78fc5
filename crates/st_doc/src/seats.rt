//! The registers that hold something, by node.
ghost use Rattle.std.specs.Prelude.{◌≡◌, ◌++◌, [], IfOk, OnOk, unwrap_or};
ghost use Rattle.std.specs.BTreeMap.{get};
ghost use Rattle.std.specs.Option.{option_to_list};
ghost use Rattle.st_ids.specs.declared.names.NodeId.{NodeId as Node};
ghost use Rattle.st_ids.specs.Order.{node_cmp};
ghost use Rattle.st_doc.specs.inside.LiveText.{seat_at, AreSeats};

use crate::maps::push_at;
use st_ids::{Copied, FieldId, List, NodeId, Text};
use std::alloc::{AllocError, Global};
use std::collections::BTreeMap;

/// A register of some node: its key, and the node that it holds.
#[derive(Drop)]
pub struct Seat {
    pub key: Text,
    pub node: NodeId,
}

// Puts a register behind the others of its node.
fn push_seat(
    alloc: Global,
    seats: &mut BTreeMap<NodeId, List<Seat>>,
    field: &FieldId,
    node: NodeId,
) -> Result<(), AllocError>
    ensures { OnOk result ((n : Node) → unwrap_or (get node_cmp seats.new n) []
        ≡ unwrap_or (get node_cmp seats.old n) [] ++ option_to_list (seat_at n (field.now, node))) }
{
    let key = field.key.0.copy(alloc)?;
    push_at(alloc, seats, field.node, Seat { key, node })?;
    Ok(())
}

/// Of each node the registers that hold something, in the order of their keys.
pub fn seats_of(
    alloc: Global,
    held: &BTreeMap<FieldId, NodeId>,
) -> Result<BTreeMap<NodeId, List<Seat>>, AllocError>
    ensures { IfOk result (AreSeats held.now) }
{
    let mut seats = BTreeMap::new(alloc);
    for (field, node) in held.iter() {
        push_seat(alloc, &mut seats, field, *node)?;
    }
    Ok(seats)
}

/// The registers of a node.
pub fn seats_at(seats: &BTreeMap<NodeId, List<Seat>>, node: NodeId) -> &[Seat]
    ensures { result.now ≡ unwrap_or (get node_cmp seats.now node) [] }
{
    match seats.get(&node) {
        None => &[],
        Some(list) => list.as_slice(),
    }
}
