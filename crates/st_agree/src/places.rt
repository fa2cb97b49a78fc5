//! Where nodes stand, as a change and a step show it, and nodes that stand twice.
ghost use Rattle.std.specs.Prelude.{◌≡◌, ◌++◌, ℕ, cond, map, Option, Some, IfOk, OnOk};
ghost use Rattle.std.specs.BTreeMap.{get};
ghost use Rattle.std.specs.List.{flat_map};
ghost use Rattle.std.specs.Option.{option_copied};
ghost use Rattle.std.specs.Ordering.{is_eq};
ghost use Rattle.st_ids.specs.Order.{node_cmp};
ghost use Rattle.st_ids.specs.declared.names.NodeId.{NodeId as Node};
ghost use Rattle.st_marks.specs.declared.marks.RegMark.{RegMark as Register};
ghost use Rattle.st_marks.specs.declared.marks.RegStep.{RegStep as RegisterOver};
ghost use Rattle.st_marks.specs.Listings.{one_or_none};
ghost use Rattle.st_agree.specs.inside.Places.{found_twice};
ghost use Rattle.st_agree.specs.inside.Places.{
  IsTable,
  apart_fields,
  fields_of,
  placed_at,
  placed_by,
  placed_held,
  placed_loose,
  placements_of_change,
  placements_of_step,
  row_placed,
  same_spot,
};

use crate::search::{nodes_rise, push_by_search};
use st_clash::{push_if_some, row_field};
use st_ids::{Copied, FieldId, List, NodeId, is_same_cell, is_same_field, is_same_node};
use st_marks::{Change, Loose, Mark, RegMark, RegStep, RowMarks, Spot, Step};
use std::alloc::{AllocError, Global};
use std::collections::BTreeMap;

/// A node and where it stands.
#[derive(Drop)]
pub struct Placed {
    pub node: NodeId,
    pub spot: Spot,
}

// The node that a mark shows in its cell, if any.
fn placed_in(row: NodeId, mark: Mark) -> Option<Placed>
    ensures { one_or_none result ≡ placed_by row mark }
{
    match mark {
        Mark::Touch { cell, node, .. } => {
            let spot = Spot::Row { node: row, cell };
            Some(Placed { node, spot })
        }
        _ => None,
    }
}

// Adds the nodes that marks of a row show.
fn add_marks(list: &mut List<Placed>, row: NodeId, marks: &[Mark]) -> Result<(), AllocError>
    ensures { OnOk result (list.new ≡ list.old ++ flat_map (placed_by row) marks.now) }
{
    for mark in marks {
        push_if_some(list, placed_in(row, *mark))?;
    }
    Ok(())
}

// Adds the nodes that a row shows.
fn add_row(list: &mut List<Placed>, row: &RowMarks) -> Result<(), AllocError>
    ensures { OnOk result (list.new ≡ list.old ++ row_placed row.now) }
{
    add_marks(list, row.node, row.marks.as_slice())?;
    Ok(())
}

// Adds the nodes that rows show.
fn add_rows(list: &mut List<Placed>, rows: &[RowMarks]) -> Result<(), AllocError>
    ensures { OnOk result (list.new ≡ list.old ++ flat_map row_placed rows.now) }
{
    for row in rows {
        add_row(list, row)?;
    }
    Ok(())
}

// Adds the occupant of a register, if there is one.
fn add_held(
    alloc: Global,
    list: &mut List<Placed>,
    field: &FieldId,
    held: Option<NodeId>,
) -> Result<(), AllocError>
    ensures { OnOk result (list.new ≡ list.old ++ placed_held field.now held) }
{
    match held {
        None => Ok(()),
        Some(node) => {
            let spot = Spot::Register(field.copy(alloc)?);
            list.push(Placed { node, spot })?;
            Ok(())
        }
    }
}

// Adds the occupants of a change's registers.
fn add_registers(
    alloc: Global,
    list: &mut List<Placed>,
    registers: &[RegMark],
) -> Result<(), AllocError>
    ensures { OnOk result (list.new ≡ list.old ++ flat_map (λ (r : Register). placed_held r.field r.held) registers.now) }
{
    for register in registers {
        add_held(alloc, list, &register.field, register.held)?;
    }
    Ok(())
}

// Adds the occupants of a step's registers, before it.
fn add_registers_over(
    alloc: Global,
    list: &mut List<Placed>,
    registers: &[RegStep],
) -> Result<(), AllocError>
    ensures { OnOk result (list.new ≡ list.old ++ flat_map (λ (r : RegisterOver). placed_held r.field r.before) registers.now) }
{
    for register in registers {
        add_held(alloc, list, &register.field, register.before)?;
    }
    Ok(())
}

// Adds the nodes that are nowhere.
fn add_loose(list: &mut List<Placed>, loose: &[Loose]) -> Result<(), AllocError>
    ensures { OnOk result (list.new ≡ list.old ++ map placed_loose loose.now) }
{
    for one in loose {
        let spot = Spot::Nowhere;
        let node = one.node;
        list.push(Placed { node, spot })?;
    }
    Ok(())
}

// Where a change shows nodes.
fn placements_of_change(alloc: Global, change: &Change) -> Result<List<Placed>, AllocError>
    ensures { IfOk result (λ l. l ≡ placements_of_change change.now) }
{
    let mut list = List::new(alloc);
    add_rows(&mut list, change.rows.as_slice())?;
    add_registers(alloc, &mut list, change.regs.as_slice())?;
    add_loose(&mut list, change.loose.as_slice())?;
    Ok(list)
}

// Where a step shows nodes before it.
fn placements_of_step(alloc: Global, step: &Step) -> Result<List<Placed>, AllocError>
    ensures { IfOk result (λ l. l ≡ placements_of_step step.now) }
{
    let mut list = List::new(alloc);
    add_rows(&mut list, step.rows.as_slice())?;
    add_registers_over(alloc, &mut list, step.regs.as_slice())?;
    add_loose(&mut list, step.loose.as_slice())?;
    Ok(list)
}

// Keeps at which place of a list a node is.
fn keep(table: &mut BTreeMap<NodeId, usize>, node: NodeId, at: usize) -> Result<(), AllocError>
    ensures { OnOk result ((n : Node) → get node_cmp table.new n
        ≡ cond (is_eq (node_cmp node n)) (Some at) (get node_cmp table.old n)) }
{
    table.insert(node, at)?;
    Ok(())
}

// At which place of a list each node is; of a node that is there twice, at the last.
fn table_of(alloc: Global, list: &[Placed]) -> Result<BTreeMap<NodeId, usize>, AllocError>
    ensures { IfOk result (λ t. IsTable list.now (get node_cmp t)) }
{
    let mut table = BTreeMap::new(alloc);
    let mut at = 0;
    while at < list.len() {
        keep(&mut table, list[at].node, at)?;
        at += 1;
    }
    Ok(table)
}

// Whether two places are the same.
fn is_same_spot(a: &Spot, b: &Spot) -> bool
    ensures { result ≡ same_spot a.now b.now }
{
    match (a, b) {
        (Spot::Nowhere, Spot::Nowhere) => true,
        (Spot::Row { node: m, cell: c }, Spot::Row { node: n, cell: d }) => {
            is_same_node(*m, *n) && is_same_cell(*c, *d)
        }
        (Spot::Register(f), Spot::Register(g)) => is_same_field(f, g),
        _ => false,
    }
}

// Adds the field of a place.
fn push_field(alloc: Global, found: &mut List<FieldId>, spot: &Spot) -> Result<(), AllocError>
    ensures { OnOk result (found.new ≡ found.old ++ fields_of spot.now) }
{
    match spot {
        Spot::Nowhere => Ok(()),
        Spot::Row { node, .. } => {
            found.push(row_field(alloc, *node))?;
            Ok(())
        }
        Spot::Register(field) => {
            found.push(field.copy(alloc)?)?;
            Ok(())
        }
    }
}

// The placement of a node in a list, as its table tells.
fn other_of<'a>(
    table: &BTreeMap<NodeId, usize>,
    others: &'a [Placed],
    node: NodeId,
) -> Option<&'a Placed>
    ensures { option_copied result ≡ placed_at others.now (get node_cmp table.now node) }
{
    match table.get(&node) {
        Some(at) => others.get(*at),
        None => None,
    }
}

/// Adds the fields of two places of a node, if they differ.
pub fn push_both(
    alloc: Global,
    found: &mut List<FieldId>,
    placed: &Placed,
    other: &Placed,
) -> Result<(), AllocError>
    ensures { OnOk result (found.new ≡ found.old ++ apart_fields placed.now (Some other.now)) }
{
    if !is_same_spot(&placed.spot, &other.spot) {
        push_field(alloc, found, &placed.spot)?;
        push_field(alloc, found, &other.spot)?;
    }
    Ok(())
}

// Adds the fields of a node that others place elsewhere.
fn push_apart(
    alloc: Global,
    found: &mut List<FieldId>,
    table: &BTreeMap<NodeId, usize>,
    others: &[Placed],
    placed: &Placed,
) -> Result<(), AllocError>
    ensures { OnOk result (found.new ≡ found.old
        ++ apart_fields placed.now (placed_at others.now (get node_cmp table.now placed.now.node))) }
{
    match other_of(table, others, placed.node) {
        Some(other) => push_both(alloc, found, placed, other),
        None => Ok(()),
    }
}

// Adds the fields of the nodes that others place elsewhere.
fn push_all(
    alloc: Global,
    found: &mut List<FieldId>,
    table: &BTreeMap<NodeId, usize>,
    others: &[Placed],
    list: &[Placed],
) -> Result<(), AllocError>
    ensures { OnOk result (found.new ≡ found.old ++ found_twice list.now others.now (get node_cmp table.now)) }
{
    for placed in list {
        push_apart(alloc, found, table, others, placed)?;
    }
    Ok(())
}

// Adds the fields of the nodes that others place elsewhere: by a search where these rise by name, else by a table.
fn push_elsewhere(
    alloc: Global,
    found: &mut List<FieldId>,
    list: &[Placed],
    others: &[Placed],
) -> Result<(), AllocError>
    ensures { OnOk result ((at : Node → Option ℕ) × IsTable others.now at × (found.new ≡ found.old ++ found_twice list.now others.now at)) }
{
    if nodes_rise(others) {
        return push_by_search(alloc, found, list, others);
    }
    let table = table_of(alloc, others)?;
    push_all(alloc, found, &table, others, list)
}

// Adds the fields of the nodes that a step places elsewhere.
fn push_placed(
    alloc: Global,
    found: &mut List<FieldId>,
    list: &[Placed],
    step: &Step,
) -> Result<(), AllocError>
    ensures { OnOk result ((at : Node → Option ℕ) × IsTable (placements_of_step step.now) at
        × (found.new ≡ found.old ++ found_twice list.now (placements_of_step step.now) at)) }
{
    let others = placements_of_step(alloc, step)?;
    push_elsewhere(alloc, found, list, others.as_slice())
}

/// Adds the fields of the nodes that stand elsewhere by the step than by the change.
pub fn push_twice(
    alloc: Global,
    found: &mut List<FieldId>,
    change: &Change,
    step: &Step,
) -> Result<(), AllocError>
    ensures { OnOk result ((at : Node → Option ℕ) × IsTable (placements_of_step step.now) at
        × (found.new ≡ found.old ++ found_twice (placements_of_change change.now) (placements_of_step step.now) at)) }
{
    let list = placements_of_change(alloc, change)?;
    if list.is_empty() {
        return Ok(());
    }
    push_placed(alloc, found, list.as_slice(), step)
}
