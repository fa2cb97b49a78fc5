//! Where a join puts nodes.
ghost use Rattle.std.specs.Prelude.{◌≡◌, ◌++◌, IfOk, OnOk};
ghost use Rattle.std.specs.BTreeSet.{contains};
ghost use Rattle.std.specs.List.{filter_map};
ghost use Rattle.std.specs.Option.{option_to_list};
ghost use Rattle.st_ids.specs.declared.names.NodeId.{NodeId as Node};
ghost use Rattle.st_ids.specs.Order.{node_cmp, field_cmp};
ghost use Rattle.st_marks.specs.Intent.{is_new};
ghost use Rattle.st_join.specs.inside.Lists.{joined_puts, kept_put, left_put, to_if_open};

use crate::sets::{cleared_registers, new_nodes, put_nodes};
use st_ids::{Copied, FieldId, List, NodeId};
use st_marks::{Intent, Put, To};
use std::alloc::{AllocError, Global};
use std::collections::BTreeSet;

// Adds a put, unless it leads a new node nowhere.
fn push_put(
    puts: &mut List<Put>,
    new: &BTreeSet<NodeId>,
    node: NodeId,
    to: To,
) -> Result<(), AllocError>
    ensures { OnOk result (puts.new ≡ puts.old ++ option_to_list (kept_put (contains node_cmp new.now) (record { node = node; to = to }))) }
{
    if let To::Nowhere = &to {
        if new.contains(&node) {
            return Ok(());
        }
    }
    puts.push(Put { node, to })?;
    Ok(())
}

// Adds the puts of the second part.
fn push_second(
    alloc: Global,
    puts: &mut List<Put>,
    new: &BTreeSet<NodeId>,
    second: &[Put],
) -> Result<(), AllocError>
    ensures { OnOk result (puts.new ≡ puts.old ++ filter_map (kept_put (contains node_cmp new.now)) second.now) }
{
    for put in second {
        push_put(puts, new, put.node, put.to.copy(alloc)?)?;
    }
    Ok(())
}

// Where a put of the first part leads, once registers are cleared.
fn to_if_open(alloc: Global, cleared: &BTreeSet<FieldId>, to: &To) -> Result<To, AllocError>
    ensures { IfOk result (λ t. t ≡ to_if_open (contains field_cmp cleared.now) to.now) }
{
    match to {
        To::Nowhere => Ok(To::Nowhere),
        To::Cell(cell) => Ok(To::Cell(*cell)),
        To::Register(field) => {
            if cleared.contains(field) {
                return Ok(To::Nowhere);
            }
            Ok(To::Register(field.copy(alloc)?))
        }
    }
}

// Adds a put of the first part, unless the second puts the node.
fn push_left(
    alloc: Global,
    puts: &mut List<Put>,
    new: &BTreeSet<NodeId>,
    again: &BTreeSet<NodeId>,
    cleared: &BTreeSet<FieldId>,
    put: &Put,
) -> Result<(), AllocError>
    ensures { OnOk result (puts.new ≡ puts.old
        ++ option_to_list (left_put (contains node_cmp new.now) (contains node_cmp again.now) (contains field_cmp cleared.now) put.now)) }
{
    if again.contains(&put.node) {
        return Ok(());
    }
    push_put(puts, new, put.node, to_if_open(alloc, cleared, &put.to)?)?;
    Ok(())
}

// Adds the puts of the first part that stay.
fn push_first(
    alloc: Global,
    puts: &mut List<Put>,
    new: &BTreeSet<NodeId>,
    again: &BTreeSet<NodeId>,
    cleared: &BTreeSet<FieldId>,
    first: &[Put],
) -> Result<(), AllocError>
    ensures { OnOk result (puts.new ≡ puts.old
        ++ filter_map (left_put (contains node_cmp new.now) (contains node_cmp again.now) (contains field_cmp cleared.now)) first.now) }
{
    for put in first {
        push_left(alloc, puts, new, again, cleared, put)?;
    }
    Ok(())
}

// Adds the puts of both parts.
fn push_puts(
    alloc: Global,
    puts: &mut List<Put>,
    new: &BTreeSet<NodeId>,
    first: &Intent,
    second: &Intent,
) -> Result<(), AllocError>
    requires { (n : Node) → contains node_cmp new.now n ≡ is_new first.now n }
    ensures { OnOk result (puts.new ≡ puts.old ++ joined_puts first.now second.now) }
{
    let again = put_nodes(alloc, second)?;
    let cleared = cleared_registers(alloc, second)?;
    push_second(alloc, puts, new, second.put.as_slice())?;
    push_first(alloc, puts, new, &again, &cleared, first.put.as_slice())?;
    Ok(())
}

/// The puts of a join: where the second puts a node, or else where the first does.
pub fn join_puts(alloc: Global, first: &Intent, second: &Intent) -> Result<List<Put>, AllocError>
    ensures { IfOk result (λ l. l ≡ joined_puts first.now second.now) }
{
    let new = new_nodes(alloc, first)?;
    let mut puts = List::new(alloc);
    push_puts(alloc, &mut puts, &new, first, second)?;
    Ok(puts)
}
