//! The nodes that a change or a step names, and those that one makes and the other names.
ghost use Rattle.std.specs.Prelude.{◌≡◌, ◌++◌, ◌∷◌, map, IfOk, OnOk};
ghost use Rattle.std.specs.List.{flat_map};
ghost use Rattle.st_ids.specs.Listing.{IsRising};
ghost use Rattle.st_ids.specs.Order.{node_cmp};
ghost use Rattle.st_marks.specs.declared.changes.NewNode.{NewNode as NewOne};
ghost use Rattle.st_marks.specs.declared.marks.RegMark.{RegMark as Register};
ghost use Rattle.st_marks.specs.declared.marks.RegStep.{RegStep as RegisterOver};
ghost use Rattle.st_marks.specs.Embedding.{is_among};
ghost use Rattle.st_marks.specs.Listings.{
  nodes_in,
  nodes_loose,
  nodes_new,
  nodes_of_rows,
  one_or_none,
};
ghost use Rattle.st_marks.specs.Row.{spread};
ghost use Rattle.st_agree.specs.inside.Names.{
  made_again,
  node_of_mark,
  nodes_of_change,
  nodes_of_register,
  nodes_of_step,
  nodes_over_register,
};

use st_clash::{push_if_some, row_field};
use st_ids::{FieldId, List, NodeId};
use st_marks::{Change, Loose, Mark, NewNode, RegMark, RegStep, RowMarks, Step};
use std::alloc::{AllocError, Global};

// The node in a mark, the owner of an empty cell too.
fn node_of(mark: Mark) -> Option<NodeId>
    ensures { one_or_none result ≡ node_of_mark mark }
{
    match mark {
        Mark::Skip(_) | Mark::Gap(_) => None,
        Mark::Touch { node, .. } => Some(node),
        Mark::Make { node, .. } => Some(node),
        Mark::Fill { node, .. } => Some(node),
    }
}

// Adds the nodes in marks.
fn add_marks(names: &mut List<NodeId>, marks: &[Mark]) -> Result<(), AllocError>
    ensures { OnOk result (names.new ≡ names.old ++ nodes_in (spread marks.now)) }
{
    for mark in marks {
        push_if_some(names, node_of(*mark))?;
    }
    Ok(())
}

// Adds the node of a row, and those in its marks.
fn add_row(names: &mut List<NodeId>, row: &RowMarks) -> Result<(), AllocError>
    ensures { OnOk result (names.new ≡ names.old ++ row.now.node ∷ nodes_in (spread row.now.marks)) }
{
    names.push(row.node)?;
    add_marks(names, row.marks.as_slice())?;
    Ok(())
}

// Adds the nodes of rows, and those in their marks.
fn add_rows(names: &mut List<NodeId>, rows: &[RowMarks]) -> Result<(), AllocError>
    ensures { OnOk result (names.new ≡ names.old ++ nodes_of_rows rows.now) }
{
    for row in rows {
        add_row(names, row)?;
    }
    Ok(())
}

// Adds nodes.
fn add_nodes(names: &mut List<NodeId>, nodes: &[NodeId]) -> Result<(), AllocError>
    ensures { OnOk result (names.new ≡ names.old ++ nodes.now) }
{
    for node in nodes {
        names.push(*node)?;
    }
    Ok(())
}

// Adds new nodes.
fn add_new(names: &mut List<NodeId>, new: &[NewNode]) -> Result<(), AllocError>
    ensures { OnOk result (names.new ≡ names.old ++ nodes_new new.now) }
{
    for made in new {
        names.push(made.node)?;
    }
    Ok(())
}

// Adds nodes that are nowhere.
fn add_loose(names: &mut List<NodeId>, loose: &[Loose]) -> Result<(), AllocError>
    ensures { OnOk result (names.new ≡ names.old ++ nodes_loose loose.now) }
{
    for one in loose {
        names.push(one.node)?;
    }
    Ok(())
}

// Adds the node of a register of a change, who is there, and who comes in.
fn add_register(names: &mut List<NodeId>, register: &RegMark) -> Result<(), AllocError>
    ensures { OnOk result (names.new ≡ names.old ++ nodes_of_register register.now) }
{
    names.push(register.field.node)?;
    push_if_some(names, register.held)?;
    push_if_some(names, register.fill)?;
    Ok(())
}

// Adds the nodes of registers of a change.
fn add_registers(names: &mut List<NodeId>, registers: &[RegMark]) -> Result<(), AllocError>
    ensures { OnOk result (names.new ≡ names.old ++ flat_map nodes_of_register registers.now) }
{
    for register in registers {
        add_register(names, register)?;
    }
    Ok(())
}

// Adds the node of a register of a step, who is there, and who is there after.
fn add_register_over(names: &mut List<NodeId>, register: &RegStep) -> Result<(), AllocError>
    ensures { OnOk result (names.new ≡ names.old ++ nodes_over_register register.now) }
{
    names.push(register.field.node)?;
    push_if_some(names, register.before)?;
    push_if_some(names, register.after)?;
    Ok(())
}

// Adds the nodes of registers of a step.
fn add_registers_over(names: &mut List<NodeId>, registers: &[RegStep]) -> Result<(), AllocError>
    ensures { OnOk result (names.new ≡ names.old ++ flat_map nodes_over_register registers.now) }
{
    for register in registers {
        add_register_over(names, register)?;
    }
    Ok(())
}

// Adds the nodes that are listed beside needs and new ones: in rows, in registers and nowhere.
fn add_listed(names: &mut List<NodeId>, change: &Change) -> Result<(), AllocError>
    ensures { OnOk result (names.new ≡ names.old ++ nodes_of_rows change.now.rows
        ++ flat_map nodes_of_register change.now.regs ++ nodes_loose change.now.loose) }
{
    add_rows(names, change.rows.as_slice())?;
    add_registers(names, change.regs.as_slice())?;
    add_loose(names, change.loose.as_slice())?;
    Ok(())
}

// The nodes that a change names; one may be listed twice.
fn nodes_of_change(alloc: Global, change: &Change) -> Result<List<NodeId>, AllocError>
    ensures { IfOk result (λ l. l ≡ nodes_of_change change.now) }
{
    let mut names = List::new(alloc);
    add_nodes(&mut names, change.need.as_slice())?;
    add_new(&mut names, change.new.as_slice())?;
    add_listed(&mut names, change)?;
    Ok(names)
}

// Adds the nodes that a step lists in registers and nowhere.
fn add_others(names: &mut List<NodeId>, step: &Step) -> Result<(), AllocError>
    ensures { OnOk result (names.new ≡ names.old
        ++ flat_map nodes_over_register step.now.regs ++ nodes_loose step.now.loose) }
{
    add_registers_over(names, step.regs.as_slice())?;
    add_loose(names, step.loose.as_slice())?;
    Ok(())
}

// The nodes that a step names; one may be listed twice.
fn nodes_of_step(alloc: Global, step: &Step) -> Result<List<NodeId>, AllocError>
    ensures { IfOk result (λ l. l ≡ nodes_of_step step.now) }
{
    let mut names = List::new(alloc);
    add_new(&mut names, step.new.as_slice())?;
    add_rows(&mut names, step.rows.as_slice())?;
    add_others(&mut names, step)?;
    Ok(names)
}

// Whether a node is among new ones.
fn is_made(new: &[NewNode], node: NodeId) -> bool
    requires { IsRising node_cmp (λ (m : NewOne). m.node) new.now }
    ensures { result ≡ is_among (nodes_new new.now) node }
{
    match new.binary_search_by_key(&node, |made| made.node) {
        Ok(_) => true,
        Err(_) => false,
    }
}

// Adds the row of a node that is made again.
fn push_node(
    alloc: Global,
    found: &mut List<FieldId>,
    new: &[NewNode],
    node: NodeId,
) -> Result<(), AllocError>
    requires { IsRising node_cmp (λ (m : NewOne). m.node) new.now }
    ensures { OnOk result (found.new ≡ found.old ++ made_again new.now node) }
{
    if is_made(new, node) {
        found.push(row_field(alloc, node))?;
    }
    Ok(())
}

// Adds the rows of nodes that are made again.
fn push_nodes(
    alloc: Global,
    found: &mut List<FieldId>,
    new: &[NewNode],
    nodes: &[NodeId],
) -> Result<(), AllocError>
    requires { IsRising node_cmp (λ (m : NewOne). m.node) new.now }
    ensures { OnOk result (found.new ≡ found.old ++ flat_map (made_again new.now) nodes.now) }
{
    for node in nodes {
        push_node(alloc, found, new, *node)?;
    }
    Ok(())
}

/// Adds the rows of the nodes that a step makes and a change names.
pub fn push_made_by_step(
    alloc: Global,
    found: &mut List<FieldId>,
    change: &Change,
    step: &Step,
) -> Result<(), AllocError>
    requires { IsRising node_cmp (λ (m : NewOne). m.node) step.now.new }
    ensures { OnOk result (found.new ≡ found.old ++ flat_map (made_again step.now.new) (nodes_of_change change.now)) }
{
    if step.new.is_empty() {
        return Ok(());
    }
    let names = nodes_of_change(alloc, change)?;
    push_nodes(alloc, found, step.new.as_slice(), names.as_slice())?;
    Ok(())
}

/// Adds the rows of the nodes that a change makes and a step names.
pub fn push_made_by_change(
    alloc: Global,
    found: &mut List<FieldId>,
    change: &Change,
    step: &Step,
) -> Result<(), AllocError>
    requires { IsRising node_cmp (λ (m : NewOne). m.node) change.now.new }
    ensures { OnOk result (found.new ≡ found.old ++ flat_map (made_again change.now.new) (nodes_of_step step.now)) }
{
    if change.new.is_empty() {
        return Ok(());
    }
    let names = nodes_of_step(alloc, step)?;
    push_nodes(alloc, found, change.new.as_slice(), names.as_slice())?;
    Ok(())
}
