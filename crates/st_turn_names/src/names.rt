//! The nodes that a step names, and those of them that another step makes.
ghost use Rattle.std.specs.Prelude.{◌≡◌, ◌++◌, ◌∷◌, map, IfOk, OnOk};
ghost use Rattle.std.specs.BTreeSet.{contains};
ghost use Rattle.std.specs.List.{flat_map};
ghost use Rattle.st_ids.specs.Order.{node_cmp};
ghost use Rattle.st_marks.specs.Listings.{
  listing_after_step,
  listing_before_step,
  nodes_in,
  nodes_loose,
  nodes_new,
  nodes_of_rows,
  one_or_none,
};
ghost use Rattle.st_marks.specs.Row.{spread};
ghost use Rattle.st_clash.specs.Adds.{Adds};
ghost use Rattle.st_turn_names.specs.Rules.{NodesAgain};
ghost use Rattle.st_turn_names.specs.inside.Names.{
  made_again,
  node_of_mark,
  nodes_of_register,
  nodes_of_step,
};

use st_clash::{push_if_some, row_field};
use st_climb::new_names;
use st_ids::{FieldId, List, NodeId};
use st_marks::{Loose, Mark, NewNode, RegStep, RowMarks, Step};
use std::alloc::{AllocError, Global};
use std::collections::BTreeSet;

// The node in a mark, the owner of an empty cell too.
fn node_of(mark: Mark) -> Option<NodeId>
    ensures { one_or_none result ≡ node_of_mark mark }
{
    match mark {
        Mark::Skip(_) | Mark::Gap(_) => None,
        Mark::Touch { node, .. } => Some(node),
        Mark::Make { node, .. } => Some(node),
        Mark::Fill { node, .. } => Some(node),
    }
}

// Adds the nodes in marks.
fn add_marks(names: &mut List<NodeId>, marks: &[Mark]) -> Result<(), AllocError>
    ensures { OnOk result (names.new ≡ names.old ++ nodes_in (spread marks.now)) }
{
    for mark in marks {
        push_if_some(names, node_of(*mark))?;
    }
    Ok(())
}

// Adds the node of a row, and those in its marks.
fn add_row(names: &mut List<NodeId>, row: &RowMarks) -> Result<(), AllocError>
    ensures { OnOk result (names.new ≡ names.old ++ row.now.node ∷ nodes_in (spread row.now.marks)) }
{
    names.push(row.node)?;
    add_marks(names, row.marks.as_slice())?;
    Ok(())
}

// Adds the nodes of rows, and those in their marks.
fn add_rows(names: &mut List<NodeId>, rows: &[RowMarks]) -> Result<(), AllocError>
    ensures { OnOk result (names.new ≡ names.old ++ nodes_of_rows rows.now) }
{
    for row in rows {
        add_row(names, row)?;
    }
    Ok(())
}

// Adds new nodes.
fn add_new(names: &mut List<NodeId>, new: &[NewNode]) -> Result<(), AllocError>
    ensures { OnOk result (names.new ≡ names.old ++ nodes_new new.now) }
{
    for made in new {
        names.push(made.node)?;
    }
    Ok(())
}

// Adds nodes that are nowhere.
fn add_loose(names: &mut List<NodeId>, loose: &[Loose]) -> Result<(), AllocError>
    ensures { OnOk result (names.new ≡ names.old ++ nodes_loose loose.now) }
{
    for one in loose {
        names.push(one.node)?;
    }
    Ok(())
}

// Adds the node of a register, who is there, and who is there after.
fn add_register(names: &mut List<NodeId>, register: &RegStep) -> Result<(), AllocError>
    ensures { OnOk result (names.new ≡ names.old ++ nodes_of_register register.now) }
{
    names.push(register.field.node)?;
    push_if_some(names, register.before)?;
    push_if_some(names, register.after)?;
    Ok(())
}

// Adds the nodes of registers.
fn add_registers(names: &mut List<NodeId>, registers: &[RegStep]) -> Result<(), AllocError>
    ensures { OnOk result (names.new ≡ names.old ++ flat_map nodes_of_register registers.now) }
{
    for register in registers {
        add_register(names, register)?;
    }
    Ok(())
}

// Adds the nodes that a step lists in registers and nowhere.
fn add_others(names: &mut List<NodeId>, step: &Step) -> Result<(), AllocError>
    ensures { OnOk result (names.new ≡ names.old ++ flat_map nodes_of_register step.now.regs ++ nodes_loose step.now.loose) }
{
    add_registers(names, step.regs.as_slice())?;
    add_loose(names, step.loose.as_slice())?;
    Ok(())
}

// The nodes that a step names; one may be listed twice.
fn nodes_of_step(alloc: Global, step: &Step) -> Result<List<NodeId>, AllocError>
    ensures { IfOk result (λ l. l ≡ nodes_of_step step.now) }
{
    let mut names = List::new(alloc);
    add_new(&mut names, step.new.as_slice())?;
    add_rows(&mut names, step.rows.as_slice())?;
    add_others(&mut names, step)?;
    Ok(names)
}

// Adds the row of a node, if it is made.
fn push_node(
    alloc: Global,
    found: &mut List<FieldId>,
    made: &BTreeSet<NodeId>,
    node: NodeId,
) -> Result<(), AllocError>
    ensures { OnOk result (found.new ≡ found.old ++ made_again (contains node_cmp made.now) node) }
{
    if made.contains(&node) {
        found.push(row_field(alloc, node))?;
    }
    Ok(())
}

// Adds the rows of the nodes that are made.
fn push_nodes(
    alloc: Global,
    found: &mut List<FieldId>,
    made: &BTreeSet<NodeId>,
    nodes: &[NodeId],
) -> Result<(), AllocError>
    ensures { OnOk result (found.new ≡ found.old ++ flat_map (made_again (contains node_cmp made.now)) nodes.now) }
{
    for node in nodes {
        push_node(alloc, found, made, *node)?;
    }
    Ok(())
}

/// Adds the rows of the nodes that one step names and another makes. Takes O(n log n) for n marks and names.
pub fn push_made(
    alloc: Global,
    found: &mut List<FieldId>,
    first: &Step,
    then: &Step,
) -> Result<(), AllocError>
    ensures { OnOk result (Adds found.old found.new (NodesAgain (listing_after_step first.now) (listing_before_step then.now)) (Unit {0})) }
{
    let made = new_names(alloc, then.new.as_slice())?;
    let nodes = nodes_of_step(alloc, first)?;
    push_nodes(alloc, found, &made, nodes.as_slice())?;
    Ok(())
}
