//! Nodes that a change needs and another makes.
ghost use Rattle.std.specs.Prelude.{◌≡◌, ◌++◌, OnOk};
ghost use Rattle.std.specs.BTreeSet.{contains};
ghost use Rattle.std.specs.List.{flat_map};
ghost use Rattle.st_ids.specs.Order.{node_cmp};
ghost use Rattle.st_clash.specs.Adds.{Adds};
ghost use Rattle.st_join_parts.specs.inside.Clashes.{NeededAgain, rows_made};

use st_clash::row_field;
use st_climb::new_names;
use st_ids::{FieldId, List, NodeId};
use st_marks::Change;
use std::alloc::{AllocError, Global};
use std::collections::BTreeSet;

// Adds the row of a node, if it is made.
fn push_node(
    alloc: Global,
    found: &mut List<FieldId>,
    made: &BTreeSet<NodeId>,
    node: NodeId,
) -> Result<(), AllocError>
    ensures { OnOk result (found.new ≡ found.old ++ rows_made (contains node_cmp made.now) node) }
{
    if made.contains(&node) {
        found.push(row_field(alloc, node))?;
    }
    Ok(())
}

// Adds the rows of the nodes that are made.
fn push_nodes(
    alloc: Global,
    found: &mut List<FieldId>,
    made: &BTreeSet<NodeId>,
    nodes: &[NodeId],
) -> Result<(), AllocError>
    ensures { OnOk result (found.new ≡ found.old ++ flat_map (rows_made (contains node_cmp made.now)) nodes.now) }
{
    for node in nodes {
        push_node(alloc, found, made, *node)?;
    }
    Ok(())
}

/// Adds the rows of the nodes that one change needs and another makes.
pub(crate) fn push_needed(
    alloc: Global,
    found: &mut List<FieldId>,
    first: &Change,
    then: &Change,
) -> Result<(), AllocError>
    ensures { OnOk result (Adds found.old found.new (NeededAgain first.now then.now) (Unit {0})) }
{
    let made = new_names(alloc, then.new.as_slice())?;
    push_nodes(alloc, found, &made, first.need.as_slice())?;
    Ok(())
}
