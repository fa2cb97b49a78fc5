//! How a change touches the nodes of a row.
ghost use Rattle.std.specs.Prelude.{◌≡◌, ◌∷◌, [], cond, IfOk, OnOk, Some};
ghost use Rattle.std.specs.BTreeMap.{get};
ghost use Rattle.std.specs.Option.{option_or};
ghost use Rattle.st_ids.specs.Order.{node_cmp, same_node};
ghost use Rattle.st_ids.specs.declared.names.NodeId.{NodeId as Node};
ghost use Rattle.st_marks.specs.Row.{spread};
ghost use Rattle.st_rows.specs.Cells.{touch_of};

use st_ids::NodeId;
use st_marks::{How, Mark};
use std::alloc::{AllocError, Global};
use std::collections::BTreeMap;

/// Adds how a node is touched.
fn set(touches: &mut BTreeMap<NodeId, How>, node: NodeId, how: How) -> Result<(), AllocError>
    ensures { OnOk result ((n : Node) → get node_cmp touches.new n ≡ cond (same_node node n) (Some how) (get node_cmp touches.old n)) }
{
    touches.insert(node, how)?;
    Ok(())
}

/// Adds what one mark says of a node.
fn add(touches: &mut BTreeMap<NodeId, How>, mark: Mark) -> Result<(), AllocError>
    ensures { OnOk result ((n : Node) → get node_cmp touches.new n ≡ option_or (touch_of (spread (mark ∷ [])) n) (get node_cmp touches.old n)) }
{
    match mark {
        Mark::Touch { node, how, .. } => set(touches, node, how),
        Mark::Make { .. } => Ok(()),
        Mark::Fill { .. } => Ok(()),
        Mark::Gap(_) => Ok(()),
        Mark::Skip(_) => Ok(()),
    }
}

/// How the marks touch each node; of two marks with one node the last counts.
pub fn touches(alloc: Global, marks: &[Mark]) -> Result<BTreeMap<NodeId, How>, AllocError>
    ensures { IfOk result (λ m. (n : Node) → get node_cmp m n ≡ touch_of (spread marks.now) n) }
{
    let mut map = BTreeMap::new(alloc);
    for mark in marks {
        add(&mut map, *mark)?;
    }
    Ok(map)
}
