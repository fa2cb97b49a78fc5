//! The rows of a change, carried to where a step puts the nodes that are mentioned after it.
ghost use Rattle.std.specs.Prelude.{◌≡◌, ◌^◌, ◌<◌, ◌++◌, ◌||◌, ◌∷◌, [], IfOk, OnOk};
ghost use Rattle.std.specs.BTreeMap.{get};
ghost use Rattle.std.specs.BTreeSet.{IsOrdered, contains};
ghost use Rattle.std.specs.List.{filter_map, list_any};
ghost use Rattle.std.specs.Option.{option_to_list};
ghost use Rattle.std.specs.Ordering.{is_eq};
ghost use Rattle.st_ids.specs.Listing.{IsListing};
ghost use Rattle.st_ids.specs.Order.{node_cmp};
ghost use Rattle.st_ids.specs.declared.names.NodeId.{NodeId as Node};
ghost use Rattle.st_marks.specs.declared.marks.RowMarks.{RowMarks as Row};
ghost use Rattle.st_marks.specs.Embedding.{tells as tells_cell};
ghost use Rattle.st_marks.specs.Row.{spread};
ghost use Rattle.st_rows.specs.Changes.{may_list};
ghost use Rattle.st_moves.specs.Room.{HasRoomAt};
ghost use Rattle.st_moves.specs.Index.{IsIndex};
ghost use Rattle.st_moves.specs.inside.Rows.{bare as bare_cells, listed_row, row_beside as beside, row_both as both, row_first as first, row_then as then};
ghost use Rattle.st_mention_laws.specs.Tells.{mark_tells};

use crate::carry::carry_row;
use crate::index::{add_rows, index_rows, row_in};
use st_ids::{Copied, List, NodeId, Or};
use st_marks::{Mark, RowMarks, To};
use std::alloc::{AllocError, Global};
use std::collections::{BTreeMap, BTreeSet};

/// Puts an item behind others, if there is one.
pub fn push_if_some<T: Drop>(list: &mut List<T>, item: Option<T>) -> Result<(), AllocError>
    ensures { OnOk result (list.new ≡ list.old ++ option_to_list item) }
{
    match item {
        None => Ok(()),
        Some(item) => {
            list.push(item)?;
            Ok(())
        }
    }
}

// What a mark says of cells that both sides find, with no node told.
fn bare_mark(mark: Mark) -> Mark
    ensures { spread (result ∷ []) ≡ bare_cells (spread (mark ∷ [])) }
{
    match mark {
        Mark::Skip(count) => Mark::Skip(count),
        Mark::Touch { .. } => Mark::Skip(1),
        Mark::Make { .. } => Mark::Skip(0),
        Mark::Gap(cell) | Mark::Fill { cell, .. } => Mark::Gap(cell),
    }
}

// What marks say of the cells that both sides find, with no node told.
fn bare(alloc: Global, marks: &[Mark]) -> Result<List<Mark>, AllocError>
    ensures { IfOk result (λ l. spread l ≡ bare_cells (spread marks.now)) }
{
    let mut list = List::new(alloc);
    for mark in marks {
        list.push(bare_mark(*mark))?;
    }
    Ok(list)
}

// Whether a mark tells something.
fn tells_mark(mark: Mark) -> bool
    ensures { result ≡ mark_tells mark }
{
    match mark {
        Mark::Skip(_) | Mark::Gap(_) => false,
        _ => true,
    }
}

// Whether one of some marks tells something.
fn any_tells(marks: &[Mark]) -> bool
    ensures { result ≡ list_any mark_tells marks.now }
{
    marks.iter().any(|mark| tells_mark(*mark))
}

// Whether marks tell something, cell by cell.
fn tells(marks: &[Mark]) -> bool
    ensures { result ≡ list_any tells_cell (spread marks.now) }
{
    any_tells(marks)
}

// A row, if its marks tell something.
fn listed(node: NodeId, marks: List<Mark>) -> Option<RowMarks>
    ensures { result ≡ listed_row node marks }
{
    if tells(marks.as_slice()) {
        Some(RowMarks { node, marks })
    } else {
        None
    }
}

// A row that both list, carried, if it tells something; it stays as it is where the two don't find the same.
fn row_both(
    alloc: Global,
    puts: &BTreeMap<NodeId, To>,
    named: &BTreeSet<NodeId>,
    node: NodeId,
    change: &List<Mark>,
    step: &List<Mark>,
) -> Result<Option<RowMarks>, AllocError>
    requires { may_list (spread change.now) (spread step.now) < 2 ^ 32 }
    ensures { IfOk result (λ o. o ≡ both (get node_cmp puts.now) (contains node_cmp named.now) node change.now step.now) }
{
    match carry_row(alloc, puts, named, change.as_slice(), step.as_slice()) {
        Ok(marks) => Ok(listed(node, marks)),
        Err(Or::Fault(_)) => Ok(listed(node, change.copy(alloc)?)),
        Err(Or::NoMemory) => Err(AllocError),
    }
}

// A row that only the change lists, carried, if it tells something.
fn row_first(
    alloc: Global,
    puts: &BTreeMap<NodeId, To>,
    named: &BTreeSet<NodeId>,
    node: NodeId,
    change: &List<Mark>,
) -> Result<Option<RowMarks>, AllocError>
    requires { may_list [] (spread change.now) < 2 ^ 32 }
    ensures { IfOk result (λ o. o ≡ first (get node_cmp puts.now) (contains node_cmp named.now) node (spread change.now)) }
{
    let step = bare(alloc, change.as_slice())?;
    row_both(alloc, puts, named, node, change, &step)
}

// A row that only the step lists, carried, if it tells something.
fn row_then(
    alloc: Global,
    puts: &BTreeMap<NodeId, To>,
    named: &BTreeSet<NodeId>,
    node: NodeId,
    step: &List<Mark>,
) -> Result<Option<RowMarks>, AllocError>
    requires { may_list [] (spread step.now) < 2 ^ 32 }
    ensures { IfOk result (λ o. o ≡ then (get node_cmp puts.now) (contains node_cmp named.now) node (spread step.now)) }
{
    let change = bare(alloc, step.as_slice())?;
    row_both(alloc, puts, named, node, &change, step)
}

// Rows that are looked into by node.
#[derive(Drop)]
struct Rows<'a> {
    rows: &'a List<RowMarks>,
    index: BTreeMap<NodeId, usize>,
}

// A row that the change or the step lists, carried, if it tells something.
fn row_beside(
    alloc: Global,
    puts: &BTreeMap<NodeId, To>,
    named: &BTreeSet<NodeId>,
    node: NodeId,
    change: &Rows<'_>,
    step: &Rows<'_>,
) -> Result<Option<RowMarks>, AllocError>
    requires room { HasRoomAt change.now.rows.now step.now.rows.now node }
    requires change { IsIndex node_cmp (λ (r : Row). r.node) change.now.rows.now change.now.index }
    requires step { IsIndex node_cmp (λ (r : Row). r.node) step.now.rows.now step.now.index }
    ensures { IfOk result (λ o. o ≡ beside (get node_cmp puts.now) (contains node_cmp named.now) change.now.rows.now step.now.rows.now node) }
{
    match (
        row_in(change.rows, &change.index, node),
        row_in(step.rows, &step.index, node),
    ) {
        (None, None) => Ok(None),
        (Some(first), None) => row_first(alloc, puts, named, node, &first.marks),
        (None, Some(then)) => row_then(alloc, puts, named, node, &then.marks),
        (Some(first), Some(then)) => row_both(alloc, puts, named, node, &first.marks, &then.marks),
    }
}

// The rows of some nodes.
fn rows_beside(
    alloc: Global,
    puts: &BTreeMap<NodeId, To>,
    named: &BTreeSet<NodeId>,
    change: &Rows<'_>,
    step: &Rows<'_>,
    nodes: &BTreeSet<NodeId>,
) -> Result<List<RowMarks>, AllocError>
    requires room { (n : Node) → HasRoomAt change.now.rows.now step.now.rows.now n }
    requires change { IsIndex node_cmp (λ (r : Row). r.node) change.now.rows.now change.now.index }
    requires step { IsIndex node_cmp (λ (r : Row). r.node) step.now.rows.now step.now.index }
    ensures rows { IfOk result (λ l. l ≡ filter_map (beside (get node_cmp puts.now) (contains node_cmp named.now) change.now.rows.now step.now.rows.now) nodes.now.keys) }
    ensures ordered { IfOk result (λ l. IsOrdered node_cmp nodes.now) }
{
    let mut list = List::new(alloc);
    for node in nodes.iter() {
        let row = row_beside(alloc, puts, named, *node, change, step)?;
        push_if_some(&mut list, row)?;
    }
    Ok(list)
}

// The nodes whose rows are listed by one of two.
fn nodes_of_both(
    alloc: Global,
    change: &List<RowMarks>,
    step: &List<RowMarks>,
) -> Result<BTreeSet<NodeId>, AllocError>
    ensures { IfOk result (λ s. (n : Node) → contains node_cmp s n
        ≡ (list_any (λ (r : Row). is_eq (node_cmp r.node n)) change.now || list_any (λ (r : Row). is_eq (node_cmp r.node n)) step.now)) }
{
    let mut nodes = BTreeSet::new(alloc);
    add_rows(&mut nodes, change.as_slice())?;
    add_rows(&mut nodes, step.as_slice())?;
    Ok(nodes)
}

// The rows that are listed by one of two.
fn rows_listed(
    alloc: Global,
    puts: &BTreeMap<NodeId, To>,
    named: &BTreeSet<NodeId>,
    change: &Rows<'_>,
    step: &Rows<'_>,
) -> Result<List<RowMarks>, AllocError>
    requires room { (n : Node) → HasRoomAt change.now.rows.now step.now.rows.now n }
    requires change { IsIndex node_cmp (λ (r : Row). r.node) change.now.rows.now change.now.index }
    requires step { IsIndex node_cmp (λ (r : Row). r.node) step.now.rows.now step.now.index }
    ensures { IfOk result (λ l. IsListing node_cmp (λ (r : Row). r.node) l
        (beside (get node_cmp puts.now) (contains node_cmp named.now) change.now.rows.now step.now.rows.now)) }
{
    let nodes = nodes_of_both(alloc, change.rows, step.rows)?;
    let list = rows_beside(alloc, puts, named, change, step, &nodes)?;
    Ok(list)
}

// Rows with their index.
fn rows_indexed(alloc: Global, rows: &List<RowMarks>) -> Result<Rows<'_>, AllocError>
    ensures rows { IfOk result (λ r. r.rows.now ≡ rows.now) }
    ensures index { IfOk result (λ r. IsIndex node_cmp (λ (q : Row). q.node) r.rows.now r.index) }
{
    let index = index_rows(alloc, rows.as_slice())?;
    Ok(Rows { rows, index })
}

/// The rows that a change or a step lists, each carried to where the step puts the nodes that are mentioned after it.
pub fn carry_rows(
    alloc: Global,
    puts: &BTreeMap<NodeId, To>,
    named: &BTreeSet<NodeId>,
    change: &List<RowMarks>,
    step: &List<RowMarks>,
) -> Result<List<RowMarks>, AllocError>
    requires { (n : Node) → HasRoomAt change.now step.now n }
    ensures { IfOk result (λ l. IsListing node_cmp (λ (r : Row). r.node) l
        (beside (get node_cmp puts.now) (contains node_cmp named.now) change.now step.now)) }
{
    let first = rows_indexed(alloc, change)?;
    let then = rows_indexed(alloc, step)?;
    rows_listed(alloc, puts, named, &first, &then)
}
