//! Rows by the node whose they are.
ghost use Rattle.std.specs.Prelude.{◌≡◌, ◌++◌, ◌∷◌, ◌<◌, ◌+◌, ◌^◌, [], cond, length, unwrap_or, OnOk};
ghost use Rattle.std.specs.BTreeMap.{get};
ghost use Rattle.st_ids.specs.declared.names.NodeId.{NodeId as Node};
ghost use Rattle.st_ids.specs.Order.{node_cmp, same_node};

use crate::maps::set;
use st_chunks::ChunkRow;
use st_ids::{NodeId, Or};
use st_marks::Slot;
use std::alloc::{AllocError, Global};
use std::collections::BTreeMap;

// Puts a slot at the end of a row.
fn push(alloc: Global, row: &mut ChunkRow, slot: Slot) -> Result<(), AllocError>
    requires { length row.old + 1 < 2 ^ 32 }
    ensures { OnOk result (row.new ≡ row.old ++ slot ∷ []) }
{
    match row.splice(alloc, row.len(), 0, &[slot]) {
        Ok(()) => Ok(()),
        Err(Or::NoMemory) => Err(AllocError),
        Err(Or::Fault(_)) => unreachable!(),
    }
}

/// Puts a slot at the end of a node's row.
pub fn push_slot(
    alloc: Global,
    rows: &mut BTreeMap<NodeId, ChunkRow>,
    node: NodeId,
    slot: Slot,
) -> Result<(), AllocError>
    requires { length (unwrap_or (get node_cmp rows.old node) []) + 1 < 2 ^ 32 }
    ensures { OnOk result ((n : Node) → unwrap_or (get node_cmp rows.new n) []
        ≡ unwrap_or (get node_cmp rows.old n) [] ++ cond (same_node node n) (slot ∷ []) []) }
{
    let mut row = match rows.remove(&node) {
        None => ChunkRow::new(alloc),
        Some(row) => row,
    };
    push(alloc, &mut row, slot)?;
    set(rows, node, row)?;
    Ok(())
}
