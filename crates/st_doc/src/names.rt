//! New names.
ghost use Rattle.std.specs.Prelude.{◌≡◌, OnOk, cond, Some, None, option_map};
ghost use Rattle.std.specs.BTreeMap.{get};
ghost use Rattle.std.specs.Option.{option_or};
ghost use Rattle.std.specs.List.{find, list_any};
ghost use Rattle.st_ids.specs.declared.names.NodeId.{NodeId as Node};
ghost use Rattle.st_ids.specs.declared.names.CellId.{CellId as Cell};
ghost use Rattle.st_ids.specs.Order.{node_cmp, same_node, cell_cmp, same_cell};
ghost use Rattle.st_marks.specs.Intent.{new_row_of};

use crate::maps::add;
use st_ids::{CellId, Copied, NodeId};
use st_marks::{Intent, NewNode, Owned};
use std::alloc::{AllocError, Global};
use std::collections::BTreeMap;

/// Adds each new node that is not there yet.
pub fn add_nodes(
    alloc: Global,
    nodes: &mut BTreeMap<NodeId, NewNode>,
    intent: &Intent,
) -> Result<(), AllocError>
    ensures { OnOk result ((n : Node) → get node_cmp nodes.new n
        ≡ option_or (get node_cmp nodes.old n) (find (λ m. same_node m.node n) intent.now.new)) }
{
    for node in intent.new.as_slice() {
        add(nodes, node.node, node.copy(alloc)?)?;
    }
    Ok(())
}

// Says of each cell that has no row yet that it is in a node's row.
fn add_cells(
    row_of: &mut BTreeMap<CellId, NodeId>,
    node: NodeId,
    cells: &[Owned],
) -> Result<(), AllocError>
    ensures { OnOk result ((c : Cell) → get cell_cmp row_of.new c
        ≡ option_or (get cell_cmp row_of.old c) (cond (list_any (λ o. same_cell o.cell c) cells.now) (Some node) None)) }
{
    for owned in cells {
        add(row_of, owned.cell, node)?;
    }
    Ok(())
}

/// Says of each new cell that has no row yet in which row it is.
pub fn add_rows(row_of: &mut BTreeMap<CellId, NodeId>, intent: &Intent) -> Result<(), AllocError>
    ensures { OnOk result ((c : Cell) → get cell_cmp row_of.new c
        ≡ option_or (get cell_cmp row_of.old c) (new_row_of intent.now c)) }
{
    for group in intent.groups.as_slice() {
        add_cells(row_of, group.node, group.cells.as_slice())?;
    }
    Ok(())
}
