//! The lists that an intent has for new trees, which are given as the list of their nodes in preorder.
ghost use Rattle.std.specs.Prelude.{◌≡◌, ◌++◌, ◌<◌, ◌*◌, ◌^◌, [], if◌then◌else◌, length, unwrap_or, IfOk, OnOk, None};
ghost use Rattle.std.specs.BTreeMap.{get};
ghost use Rattle.std.specs.Option.{option_copied, option_to_list};
ghost use Rattle.st_ids.specs.Order.{node_cmp};
ghost use Rattle.st_edits.specs.New.{new_nodes, top_to, to_at, puts, top_cell, top_cells, group_of, groups_under, takes_cell, names_taken};
ghost use Rattle.st_opening.specs.Start.{register_at, registers};

use st_doc::rows_of;
use st_ids::{CellId, Copied, FieldId, List, NodeId};
use st_marks::{Group, NewNode, Owned, Put, To};
use st_tree::{FlatAt, FlatNode};
use std::alloc::{AllocError, Global};
use std::collections::BTreeMap;

/// The nodes with their types and values.
pub fn new_nodes(alloc: Global, nodes: &[FlatNode]) -> Result<List<NewNode>, AllocError>
    ensures { IfOk result (λ r. r ≡ new_nodes nodes.now) }
{
    let mut new = List::new(alloc);
    for flat in nodes {
        let node = flat.node;
        let ty = flat.ty.copy(alloc)?;
        let leaf = flat.leaf.copy(alloc)?;
        new.push(NewNode { node, ty, leaf })?;
    }
    Ok(new)
}

// Where a top item goes: into its cell, or into a register.
fn top_to(alloc: Global, into: Option<&FieldId>, cell: CellId) -> Result<To, AllocError>
    ensures { IfOk result (λ to. to ≡ top_to (option_copied into.entry) cell) }
{
    match into {
        None => Ok(To::Cell(cell)),
        Some(field) => Ok(To::Register(field.copy(alloc)?)),
    }
}

// Where a node goes.
fn to_at(alloc: Global, into: Option<&FieldId>, at: &FlatAt) -> Result<To, AllocError>
    ensures { IfOk result (λ to. to ≡ to_at (option_copied into.entry) at.now) }
{
    match at {
        FlatAt::Root => Ok(To::Nowhere),
        FlatAt::Top(cell) => top_to(alloc, into, *cell),
        FlatAt::Row { cell, .. } => Ok(To::Cell(*cell)),
        FlatAt::Register(field) => Ok(To::Register(field.copy(alloc)?)),
    }
}

/// Each node is put where it stands, and the top items into their cells or into a register.
pub fn puts(
    alloc: Global,
    into: Option<&FieldId>,
    nodes: &[FlatNode],
) -> Result<List<Put>, AllocError>
    ensures { IfOk result (λ r. r ≡ puts (option_copied into.entry) nodes.now) }
{
    let mut puts = List::new(alloc);
    for flat in nodes {
        let node = flat.node;
        let to = to_at(alloc, into, &flat.at)?;
        puts.push(Put { node, to })?;
    }
    Ok(puts)
}

// The register of a place.
fn register_at(at: &FlatAt) -> Option<&FieldId>
    ensures { option_copied result ≡ register_at at.now }
{
    match at {
        FlatAt::Register(field) => Some(field),
        _ => None,
    }
}

/// Puts the registers in which nodes stand at the end of a list.
pub fn add_registers(
    alloc: Global,
    fields: &mut List<FieldId>,
    nodes: &[FlatNode],
) -> Result<(), AllocError>
    ensures { OnOk result (fields.new ≡ fields.old ++ registers nodes.now) }
{
    for flat in nodes {
        if let Some(field) = register_at(&flat.at) {
            fields.push(field.copy(alloc)?)?;
        }
    }
    Ok(())
}

// The cell of a top item.
fn top_cell(at: &FlatAt) -> Option<CellId>
    ensures { result ≡ top_cell at.now }
{
    match at {
        FlatAt::Top(cell) => Some(*cell),
        _ => None,
    }
}

/// The cells of the top items.
pub fn top_cells(alloc: Global, nodes: &[FlatNode]) -> Result<List<Owned>, AllocError>
    ensures { IfOk result (λ r. r ≡ top_cells nodes.now) }
{
    let mut cells = List::new(alloc);
    for flat in nodes {
        if let Some(cell) = top_cell(&flat.at) {
            let node = flat.node;
            cells.push(Owned { cell, node })?;
        }
    }
    Ok(cells)
}

/// A group of cells, if there are any.
pub fn group_of(node: NodeId, after: Option<CellId>, cells: List<Owned>) -> Option<Group>
    ensures { result ≡ group_of node after cells }
{
    if cells.is_empty() {
        None
    } else {
        Some(Group { node, after, cells })
    }
}

// The cells of a row.
fn cells_in(
    alloc: Global,
    rows: &BTreeMap<NodeId, List<Owned>>,
    node: NodeId,
) -> Result<List<Owned>, AllocError>
    ensures { IfOk result (λ r. r ≡ unwrap_or (get node_cmp rows.now node) []) }
{
    match rows.get(&node) {
        None => Ok(List::new(alloc)),
        Some(cells) => cells.copy(alloc),
    }
}

// Puts the row of a new array node at the end of a list, if it has items.
fn add_group(
    alloc: Global,
    groups: &mut List<Group>,
    rows: &BTreeMap<NodeId, List<Owned>>,
    flat: &FlatNode,
) -> Result<(), AllocError>
    ensures { OnOk result (groups.new ≡ groups.old ++ option_to_list (
        if flat.now.row then group_of flat.now.node None (unwrap_or (get node_cmp rows.now flat.now.node) []) else None)) }
{
    if !flat.row {
        return Ok(());
    }
    if let Some(group) = group_of(flat.node, None, cells_in(alloc, rows, flat.node)?) {
        groups.push(group)?;
        return Ok(());
    }
    Ok(())
}

/// Puts the rows of the new array nodes at the end of a list.
pub fn add_groups(
    alloc: Global,
    groups: &mut List<Group>,
    nodes: &[FlatNode],
) -> Result<(), AllocError>
    ensures { OnOk result (groups.new ≡ groups.old ++ groups_under nodes.now) }
{
    let rows = rows_of(alloc, nodes)?;
    for flat in nodes {
        add_group(alloc, groups, &rows, flat)?;
    }
    Ok(())
}

// Whether a node takes a cell.
fn takes_cell(at: &FlatAt) -> bool
    ensures { result ≡ takes_cell at.now }
{
    match at {
        FlatAt::Top(_) | FlatAt::Row { .. } => true,
        FlatAt::Root | FlatAt::Register(_) => false,
    }
}

/// How many names the nodes take, for themselves and for their cells.
pub fn names_taken(nodes: &[FlatNode]) -> usize
    ensures { result ≡ names_taken nodes.now }
{
    let mut count: usize = 0;
    for flat in nodes {
        count += if takes_cell(&flat.at) { 2 } else { 1 };
    }
    count
}
