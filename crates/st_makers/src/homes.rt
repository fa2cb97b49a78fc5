//! The homes of nodes, as commits come.
ghost use Rattle.std.specs.Prelude.{◌≡◌, ◌&&◌, cond, OnOk};
ghost use Rattle.std.specs.BTreeMap.{get};
ghost use Rattle.st_ids.specs.Order.{node_cmp, same_node, same_rev};
ghost use Rattle.st_ids.specs.declared.names.NodeId.{NodeId as Node};
ghost use Rattle.st_marks.specs.Intent.{register_of};
ghost use Rattle.st_makers.specs.inside.Homes.{home_after};

use st_ids::{Copied, FieldId, NodeId, Rev, is_same_rev};
use st_marks::{Intent, Put, To};
use std::alloc::{AllocError, Global};
use std::collections::BTreeMap;

// Says that a node has a register as its home.
#[tactic(auto, unfolding(st_ids::specs::Order::same_node))]
fn set_home(
    homes: &mut BTreeMap<NodeId, FieldId>,
    node: NodeId,
    field: FieldId,
) -> Result<(), AllocError>
    ensures { OnOk result ((n : Node) → get node_cmp homes.new n
        ≡ cond (same_node node n) (Some field) (get node_cmp homes.old n)) }
{
    homes.insert(node, field)?;
    Ok(())
}

// Says that a node has no home.
#[tactic(auto, unfolding(st_ids::specs::Order::same_node))]
fn unset_home(homes: &mut BTreeMap<NodeId, FieldId>, node: NodeId)
    ensures { (n : Node) → get node_cmp homes.new n
        ≡ cond (same_node node n) None (get node_cmp homes.old n) }
{
    homes.remove(&node);
}

// Says that a node has the register as its home into which it is put, or none.
fn note_to(
    alloc: Global,
    homes: &mut BTreeMap<NodeId, FieldId>,
    node: NodeId,
    to: &To,
) -> Result<(), AllocError>
    ensures { OnOk result ((n : Node) → get node_cmp homes.new n
        ≡ cond (same_node node n) (register_of to.now) (get node_cmp homes.old n)) }
{
    match to {
        To::Register(field) => set_home(homes, node, field.copy(alloc)?),
        To::Nowhere | To::Cell(_) => {
            unset_home(homes, node);
            Ok(())
        }
    }
}

// The same where the node is of a revision.
fn note_put(
    alloc: Global,
    homes: &mut BTreeMap<NodeId, FieldId>,
    rev: Rev,
    put: &Put,
) -> Result<(), AllocError>
    ensures { OnOk result ((n : Node) → get node_cmp homes.new n
        ≡ cond (same_rev rev put.now.node.0.rev && same_node put.now.node n)
        (register_of put.now.to) (get node_cmp homes.old n)) }
{
    if is_same_rev(rev, put.node.0.rev) {
        note_to(alloc, homes, put.node, &put.to)?;
    }
    Ok(())
}

/// Says of each node of an intent's revision that is put that it has the register as its home into which it is put, or none.
/// Where a node is put twice, the first put counts: they are gone through from the last.
pub fn note_puts(
    alloc: Global,
    homes: &mut BTreeMap<NodeId, FieldId>,
    intent: &Intent,
) -> Result<(), AllocError>
    ensures { OnOk result ((n : Node) → get node_cmp homes.new n
        ≡ home_after intent.now.rev intent.now.put (get node_cmp homes.old n) n) }
{
    let puts = intent.put.as_slice();
    let mut left = puts.len();
    'puts: while left > 0 {
        left -= 1;
        note_put(alloc, homes, intent.rev, &puts[left])?;
    }
    Ok(())
}
