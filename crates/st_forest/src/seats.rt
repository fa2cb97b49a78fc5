//! Where nodes stand after a step, in the table of nodes.
ghost use Rattle.std.specs.Prelude.{◌≡◌, ◌++◌, [], ◌∷◌, option_map, if◌then◌else◌, OnOk, IfOk, Some};
ghost use Rattle.std.specs.BTreeMap.{get};
ghost use Rattle.std.specs.Option.{option_to_list};
ghost use Rattle.std.specs.List.{filter_map};
ghost use Rattle.st_ids.specs.declared.names.NodeId.{NodeId as Node};
ghost use Rattle.st_ids.specs.Order.{node_cmp, same_node};
ghost use Rattle.st_marks.specs.declared.changes.NewNode.{NewNode as New};
ghost use Rattle.st_marks.specs.declared.places.Spot.{Spot as Standing};
ghost use Rattle.st_forest.specs.declared.forest.Seated.{Seated as Entry};
ghost use Rattle.st_forest.specs.inside.Writes.{AreSeated, new_seats, seat_by, seat_in, seats_of_registers, seats_of_row, seats_of_rows, written};

use crate::forest::Seated;
use crate::maps::set;
use st_ids::{Copied, NodeId};
use st_marks::{How, Mark, NewNode, RegStep, RowMarks, Spot};
use std::alloc::{AllocError, Global};
use std::collections::BTreeMap;

// Adds a new node, which stands nowhere yet.
fn add_node(
    alloc: Global,
    nodes: &mut BTreeMap<NodeId, Seated>,
    node: &NewNode,
) -> Result<(), AllocError>
    ensures { OnOk result ((n : Node) → get node_cmp nodes.new n
        ≡ if same_node node.now.node n then Some (record { node = node.now; place = Standing.Nowhere }) else get node_cmp nodes.old n) }
{
    let name = node.node;
    let node = node.copy(alloc)?;
    let place = Spot::Nowhere;
    set(nodes, name, Seated { node, place })?;
    Ok(())
}

/// Adds new nodes, which stand nowhere yet.
pub fn add_nodes(
    alloc: Global,
    nodes: &mut BTreeMap<NodeId, Seated>,
    new: &[NewNode],
) -> Result<(), AllocError>
    ensures { OnOk result ((n : Node) → get node_cmp nodes.new n ≡ written same_node (new_seats new.now) n (get node_cmp nodes.old n)) }
{
    for node in new {
        add_node(alloc, nodes, node)?;
    }
    Ok(())
}

// Has a node stand at a place from now on, if it is there.
fn seat(nodes: &mut BTreeMap<NodeId, Seated>, node: NodeId, place: Spot)
    ensures { AreSeated ((node, place) ∷ []) nodes.old nodes.new }
{
    if let Some(seated) = nodes.get_mut(&node) {
        seated.place = place;
    }
}

// A node and where it stands, if it is to.
fn if_so(so: bool, node: NodeId, place: Spot) -> Option<(NodeId, Spot)>
    ensures { result ≡ if so then Some (node, place) else None }
{
    if so { Some((node, place)) } else { None }
}

// Whom a mark takes out of its row, or puts into it.
fn seat_by(comes: bool, row: NodeId, mark: Mark) -> Option<(NodeId, Spot)>
    ensures { result ≡ seat_by comes row mark }
{
    match mark {
        Mark::Skip(_) | Mark::Gap(_) => None,
        Mark::Touch { node, how, .. } => match how {
            How::Leave => if_so(!comes, node, Spot::Nowhere),
            How::Stay | How::Here => None,
        },
        Mark::Make { cell, node, full } => {
            if_so(comes && full, node, Spot::Row { node: row, cell })
        }
        Mark::Fill { cell, node } => if_so(comes, node, Spot::Row { node: row, cell }),
    }
}

// Takes the node of a mark out of its row, or puts it in.
fn seat_mark(nodes: &mut BTreeMap<NodeId, Seated>, comes: bool, row: NodeId, mark: Mark)
    ensures { AreSeated (option_to_list (seat_by comes row mark)) nodes.old nodes.new }
{
    if let Some((node, place)) = seat_by(comes, row, mark) {
        seat(nodes, node, place);
    }
}

// Takes the nodes of marks out of a row, or puts them in.
fn seat_marks(nodes: &mut BTreeMap<NodeId, Seated>, comes: bool, row: NodeId, marks: &[Mark])
    ensures { AreSeated (filter_map (seat_by comes row) marks.now) nodes.old nodes.new }
{
    for mark in marks {
        seat_mark(nodes, comes, row, *mark);
    }
}

/// Takes the nodes that leave rows out of them, or puts those that come into them.
pub fn seat_rows(nodes: &mut BTreeMap<NodeId, Seated>, comes: bool, rows: &[RowMarks])
    ensures { AreSeated (seats_of_rows comes rows.now) nodes.old nodes.new }
{
    for row in rows {
        seat_marks(nodes, comes, row.node, row.marks.as_slice());
    }
}

// Whom a register loses, or who comes into it.
fn seat_in(
    alloc: Global,
    comes: bool,
    register: &RegStep,
) -> Result<Option<(NodeId, Spot)>, AllocError>
    ensures { IfOk result (λ o. o ≡ seat_in comes register.now) }
{
    if !comes {
        return Ok(register.before.map(|node| (node, Spot::Nowhere)));
    }
    match register.after {
        None => Ok(None),
        Some(node) => {
            let field = register.field.copy(alloc)?;
            Ok(Some((node, Spot::Register(field))))
        }
    }
}

// Takes the node that a register loses out of it, or puts the one in that comes.
fn seat_register(
    alloc: Global,
    nodes: &mut BTreeMap<NodeId, Seated>,
    comes: bool,
    register: &RegStep,
) -> Result<(), AllocError>
    ensures { OnOk result (AreSeated (option_to_list (seat_in comes register.now)) nodes.old nodes.new) }
{
    if let Some((node, place)) = seat_in(alloc, comes, register)? {
        seat(nodes, node, place);
    }
    Ok(())
}

/// Takes the nodes that leave registers out of them, or puts those that come into them.
pub fn seat_registers(
    alloc: Global,
    nodes: &mut BTreeMap<NodeId, Seated>,
    comes: bool,
    registers: &[RegStep],
) -> Result<(), AllocError>
    ensures { OnOk result (AreSeated (seats_of_registers comes registers.now) nodes.old nodes.new) }
{
    for register in registers {
        seat_register(alloc, nodes, comes, register)?;
    }
    Ok(())
}
