//! What a join makes, clears and needs.
ghost use Rattle.std.specs.Prelude.{◌≡◌, ◌++◌, ◌∷◌, ◌||◌, [], not, IfOk, OnOk};
ghost use Rattle.std.specs.BTreeSet.{contains};
ghost use Rattle.std.specs.List.{filter};
ghost use Rattle.st_ids.specs.Order.{node_cmp, field_cmp};
ghost use Rattle.st_join.specs.inside.Lists.{joined_clears, joined_needs};

use crate::sets::{cleared_registers, needed_nodes, new_nodes};
use st_ids::{Copied, FieldId, List, NodeId};
use st_marks::{Intent, NewNode};
use std::alloc::{AllocError, Global};
use std::collections::BTreeSet;

/// Copies items to the end of a list.
pub fn push_all<T: Copied + Drop>(
    alloc: Global,
    list: &mut List<T>,
    items: &[T],
) -> Result<(), AllocError>
    ensures { OnOk result (list.new ≡ list.old ++ items.now) }
{
    for item in items {
        list.push(item.copy(alloc)?)?;
    }
    Ok(())
}

/// The new nodes of a join: those of both.
pub fn join_new(alloc: Global, first: &Intent, second: &Intent) -> Result<List<NewNode>, AllocError>
    ensures { IfOk result (λ l. l ≡ first.now.new ++ second.now.new) }
{
    let mut new = first.new.copy(alloc)?;
    push_all(alloc, &mut new, second.new.as_slice())?;
    Ok(new)
}

// Adds a register that isn't in a set.
fn push_if_open(
    alloc: Global,
    list: &mut List<FieldId>,
    cleared: &BTreeSet<FieldId>,
    field: &FieldId,
) -> Result<(), AllocError>
    ensures { OnOk result (list.new ≡ list.old ++ filter (λ f. not (contains field_cmp cleared.now f)) (field.now ∷ [])) }
{
    if cleared.contains(field) {
        return Ok(());
    }
    list.push(field.copy(alloc)?)?;
    Ok(())
}

// Adds the registers that aren't in a set.
fn push_open(
    alloc: Global,
    list: &mut List<FieldId>,
    cleared: &BTreeSet<FieldId>,
    fields: &[FieldId],
) -> Result<(), AllocError>
    ensures { OnOk result (list.new ≡ list.old ++ filter (λ f. not (contains field_cmp cleared.now f)) fields.now) }
{
    for field in fields {
        push_if_open(alloc, list, cleared, field)?;
    }
    Ok(())
}

/// The registers that a join clears: those of the first, and the second's others.
pub fn join_clears(
    alloc: Global,
    first: &Intent,
    second: &Intent,
) -> Result<List<FieldId>, AllocError>
    ensures { IfOk result (λ l. l ≡ joined_clears first.now second.now) }
{
    let cleared = cleared_registers(alloc, first)?;
    let mut clear = first.clear.copy(alloc)?;
    push_open(alloc, &mut clear, &cleared, second.clear.as_slice())?;
    Ok(clear)
}

// Adds a node that is in neither of two sets.
fn push_other(
    list: &mut List<NodeId>,
    new: &BTreeSet<NodeId>,
    needed: &BTreeSet<NodeId>,
    node: NodeId,
) -> Result<(), AllocError>
    ensures { OnOk result (list.new ≡ list.old
        ++ filter (λ n. not (contains node_cmp new.now n || contains node_cmp needed.now n)) (node ∷ [])) }
{
    if new.contains(&node) || needed.contains(&node) {
        return Ok(());
    }
    list.push(node)?;
    Ok(())
}

// Adds the nodes that are in neither of two sets.
fn push_others(
    list: &mut List<NodeId>,
    new: &BTreeSet<NodeId>,
    needed: &BTreeSet<NodeId>,
    nodes: &[NodeId],
) -> Result<(), AllocError>
    ensures { OnOk result (list.new ≡ list.old
        ++ filter (λ n. not (contains node_cmp new.now n || contains node_cmp needed.now n)) nodes.now) }
{
    for node in nodes {
        push_other(list, new, needed, *node)?;
    }
    Ok(())
}

/// The nodes that a join needs: those of the first, and the second's others that the first doesn't make.
pub fn join_needs(
    alloc: Global,
    first: &Intent,
    second: &Intent,
) -> Result<List<NodeId>, AllocError>
    ensures { IfOk result (λ l. l ≡ joined_needs first.now second.now) }
{
    let new = new_nodes(alloc, first)?;
    let needed = needed_nodes(alloc, first)?;
    let mut need = first.need.copy(alloc)?;
    push_others(&mut need, &new, &needed, second.need.as_slice())?;
    Ok(need)
}
