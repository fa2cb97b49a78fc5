//! Where a step finds nodes, and where it leaves them.
ghost use Rattle.std.specs.Prelude.{◌≡◌, ◌++◌, ℕ, cond, map, Option, Some, IfOk, OnOk};
ghost use Rattle.std.specs.BTreeMap.{get};
ghost use Rattle.std.specs.List.{flat_map};
ghost use Rattle.std.specs.Ordering.{is_eq};
ghost use Rattle.st_ids.specs.Listing.{IsRising};
ghost use Rattle.st_ids.specs.Order.{field_cmp, node_cmp};
ghost use Rattle.st_ids.specs.declared.names.NodeId.{NodeId as Node};
ghost use Rattle.st_marks.specs.declared.changes.NewNode.{NewNode as New};
ghost use Rattle.st_marks.specs.declared.marks.RegStep.{RegStep as Register};
ghost use Rattle.st_marks.specs.declared.marks.RowMarks.{RowMarks as Row};
ghost use Rattle.st_marks.specs.Listings.{listing_after_step, listing_before_step, one_or_none};
ghost use Rattle.st_turn_places.specs.declared.places.Placed.{Placed as Place};
ghost use Rattle.st_turn_places.specs.Rules.{ArePlaces};
ghost use Rattle.st_turn_places.specs.inside.Sides.{
  IsTable,
  found_by,
  if_free,
  placed_by,
  placed_held,
  placed_loose,
  placed_on,
  register_placed,
  row_placed,
  set_free,
  standing,
};

use crate::left::{held_in, mark_on};
use st_clash::push_if_some;
use st_ids::{Copied, FieldId, List, NodeId};
use st_marks::{Loose, Mark, NewNode, RegStep, RowMarks, Spot, Step};
use std::alloc::{AllocError, Global};
use std::collections::BTreeMap;

/// A node and where it stands.
#[derive(Drop)]
pub struct Placed {
    pub node: NodeId,
    pub spot: Spot,
}

// The node that a mark finds in its cell, if any.
fn placed_in(row: NodeId, mark: Mark) -> Option<Placed>
    ensures { one_or_none result ≡ placed_by row mark }
{
    match mark {
        Mark::Touch { cell, node, .. } => {
            let spot = Spot::Row { node: row, cell };
            Some(Placed { node, spot })
        }
        _ => None,
    }
}

// The node that a mark shows in its cell, before or after, if any.
fn placed_at(after: bool, row: NodeId, mark: Mark) -> Option<Placed>
    ensures { one_or_none result ≡ placed_on after row mark }
{
    placed_in(row, mark_on(after, mark))
}

// Adds the nodes that marks of a row show.
fn add_marks(
    list: &mut List<Placed>,
    after: bool,
    row: NodeId,
    marks: &[Mark],
) -> Result<(), AllocError>
    ensures { OnOk result (list.new ≡ list.old ++ flat_map (placed_on after row) marks.now) }
{
    for mark in marks {
        push_if_some(list, placed_at(after, row, *mark))?;
    }
    Ok(())
}

// Adds the nodes that a row shows.
fn add_row(list: &mut List<Placed>, after: bool, row: &RowMarks) -> Result<(), AllocError>
    ensures { OnOk result (list.new ≡ list.old ++ row_placed after row.now) }
{
    add_marks(list, after, row.node, row.marks.as_slice())?;
    Ok(())
}

// Adds the nodes that rows show.
fn add_rows(list: &mut List<Placed>, after: bool, rows: &[RowMarks]) -> Result<(), AllocError>
    ensures { OnOk result (list.new ≡ list.old ++ flat_map (row_placed after) rows.now) }
{
    for row in rows {
        add_row(list, after, row)?;
    }
    Ok(())
}

// Adds the occupant of a register, if there is one.
fn add_held(
    alloc: Global,
    list: &mut List<Placed>,
    field: &FieldId,
    held: Option<NodeId>,
) -> Result<(), AllocError>
    ensures { OnOk result (list.new ≡ list.old ++ placed_held field.now held) }
{
    match held {
        None => Ok(()),
        Some(node) => {
            let spot = Spot::Register(field.copy(alloc)?);
            list.push(Placed { node, spot })?;
            Ok(())
        }
    }
}

// Adds the occupant of a register, before or after.
fn add_register(
    alloc: Global,
    list: &mut List<Placed>,
    after: bool,
    register: &RegStep,
) -> Result<(), AllocError>
    ensures { OnOk result (list.new ≡ list.old ++ register_placed after register.now) }
{
    add_held(alloc, list, &register.field, held_in(after, register))
}

// Adds the occupants of registers.
fn add_registers(
    alloc: Global,
    list: &mut List<Placed>,
    after: bool,
    registers: &[RegStep],
) -> Result<(), AllocError>
    ensures { OnOk result (list.new ≡ list.old ++ flat_map (register_placed after) registers.now) }
{
    for register in registers {
        add_register(alloc, list, after, register)?;
    }
    Ok(())
}

// Adds the nodes that are nowhere.
fn add_loose(list: &mut List<Placed>, loose: &[Loose]) -> Result<(), AllocError>
    ensures { OnOk result (list.new ≡ list.old ++ map placed_loose loose.now) }
{
    for one in loose {
        let spot = Spot::Nowhere;
        let node = one.node;
        list.push(Placed { node, spot })?;
    }
    Ok(())
}

// The nodes that stand in rows and registers, before or after a step.
fn standing_nodes(alloc: Global, after: bool, step: &Step) -> Result<List<Placed>, AllocError>
    ensures { IfOk result (λ l. l ≡ standing after step.now) }
{
    let mut list = List::new(alloc);
    add_rows(&mut list, after, step.rows.as_slice())?;
    add_registers(alloc, &mut list, after, step.regs.as_slice())?;
    Ok(list)
}

// Where a step finds nodes.
fn found_nodes(alloc: Global, step: &Step) -> Result<List<Placed>, AllocError>
    ensures { IfOk result (λ l. l ≡ found_by step.now) }
{
    let mut list = standing_nodes(alloc, false, step)?;
    add_loose(&mut list, step.loose.as_slice())?;
    Ok(list)
}

/// Where a step finds nodes; one place may be listed twice.
pub fn places_before(alloc: Global, step: &Step) -> Result<List<Placed>, AllocError>
    requires rows { IsRising node_cmp (λ (r : Row). r.node) step.now.rows }
    requires regs { IsRising field_cmp (λ (r : Register). r.field) step.now.regs }
    ensures { IfOk result (λ l. ArePlaces l (listing_before_step step.now)) }
{
    let list = found_nodes(alloc, step)?;
    Ok(list)
}

// Keeps at which place of a list a node is.
fn keep(table: &mut BTreeMap<NodeId, usize>, node: NodeId, at: usize) -> Result<(), AllocError>
    ensures { OnOk result ((n : Node) → get node_cmp table.new n
        ≡ cond (is_eq (node_cmp node n)) (Some at) (get node_cmp table.old n)) }
{
    table.insert(node, at)?;
    Ok(())
}

/// At which place of a list each node is; of a node that is there twice, at the last.
pub fn table_of(alloc: Global, list: &[Placed]) -> Result<BTreeMap<NodeId, usize>, AllocError>
    ensures { IfOk result (λ t. IsTable list.now (get node_cmp t)) }
{
    let mut table = BTreeMap::new(alloc);
    let mut at = 0;
    while at < list.len() {
        keep(&mut table, list[at].node, at)?;
        at += 1;
    }
    Ok(table)
}

// Adds a node as nowhere, unless it stands somewhere.
fn add_if_free(
    list: &mut List<Placed>,
    table: &BTreeMap<NodeId, usize>,
    node: NodeId,
) -> Result<(), AllocError>
    ensures { OnOk result (list.new ≡ list.old ++ if_free (get node_cmp table.now) node) }
{
    match table.get(&node) {
        Some(_) => Ok(()),
        None => {
            let spot = Spot::Nowhere;
            list.push(Placed { node, spot })?;
            Ok(())
        }
    }
}

// Adds those nodes as nowhere that were found and stand nowhere.
fn add_found(
    list: &mut List<Placed>,
    table: &BTreeMap<NodeId, usize>,
    found: &[Placed],
) -> Result<(), AllocError>
    ensures { OnOk result (list.new ≡ list.old ++ flat_map (λ (p : Place). if_free (get node_cmp table.now) p.node) found.now) }
{
    for placed in found {
        add_if_free(list, table, placed.node)?;
    }
    Ok(())
}

// Adds those new nodes as nowhere that stand nowhere.
fn add_new(
    list: &mut List<Placed>,
    table: &BTreeMap<NodeId, usize>,
    new: &[NewNode],
) -> Result<(), AllocError>
    ensures { OnOk result (list.new ≡ list.old ++ flat_map (λ (m : New). if_free (get node_cmp table.now) m.node) new.now) }
{
    for made in new {
        add_if_free(list, table, made.node)?;
    }
    Ok(())
}

// Adds the nodes of a step that stand nowhere after it.
fn add_free(
    alloc: Global,
    list: &mut List<Placed>,
    table: &BTreeMap<NodeId, usize>,
    step: &Step,
) -> Result<(), AllocError>
    ensures { OnOk result (list.new ≡ list.old ++ flat_map (λ (m : New). if_free (get node_cmp table.now) m.node) step.now.new
        ++ flat_map (λ (p : Place). if_free (get node_cmp table.now) p.node) (found_by step.now)) }
{
    add_new(list, table, step.new.as_slice())?;
    let found = found_nodes(alloc, step)?;
    add_found(list, table, found.as_slice())?;
    Ok(())
}

// Adds the nodes of a step that stand nowhere after it to those that stand somewhere.
fn add_rest(alloc: Global, list: &mut List<Placed>, step: &Step) -> Result<(), AllocError>
    ensures { OnOk result ((at : Node → Option ℕ) × IsTable list.old at × (list.new ≡ list.old ++ set_free at step.now)) }
{
    let table = table_of(alloc, list.as_slice())?;
    add_free(alloc, list, &table, step)?;
    Ok(())
}

/// Where a step leaves nodes: one that is new or found, and that no cell and no register has after it, as nowhere. One place may
/// be listed twice. Takes O(n log n) for n marks and new nodes.
pub fn places_after(alloc: Global, step: &Step) -> Result<List<Placed>, AllocError>
    requires rows { IsRising node_cmp (λ (r : Row). r.node) step.now.rows }
    requires regs { IsRising field_cmp (λ (r : Register). r.field) step.now.regs }
    ensures { IfOk result (λ l. ArePlaces l (listing_after_step step.now)) }
{
    let mut list = standing_nodes(alloc, true, step)?;
    add_rest(alloc, &mut list, step)?;
    Ok(list)
}
