//! The rows of a change over a step.
ghost use Rattle.std.specs.Prelude.{◌≡◌, ◌^◌, ◌<◌, ◌||◌, [], IfOk, OnOk};
ghost use Rattle.std.specs.BTreeMap.{get};
ghost use Rattle.std.specs.BTreeSet.{IsOrdered, contains};
ghost use Rattle.std.specs.List.{filter_map, list_any};
ghost use Rattle.std.specs.Option.{option_copied};
ghost use Rattle.std.specs.Ordering.{is_eq};
ghost use Rattle.st_ids.specs.Listing.{IsListing, IsRising, item_of};
ghost use Rattle.st_ids.specs.Order.{node_cmp};
ghost use Rattle.st_ids.specs.declared.names.NodeId.{NodeId as Node};
ghost use Rattle.st_marks.specs.declared.marks.RowMarks.{RowMarks as Row};
ghost use Rattle.st_marks.specs.Embedding.{tells as tells_cell};
ghost use Rattle.st_marks.specs.Row.{spread};
ghost use Rattle.st_mention_laws.specs.Tells.{mark_tells};
ghost use Rattle.st_rows.specs.Changes.{may_list};
ghost use Rattle.st_moves.specs.Room.{HasRoomAt};
ghost use Rattle.st_moves.specs.inside.Rows.{listed_row};
ghost use Rattle.st_over.specs.inside.Rows.{row_beside as beside, row_both as both, row_first as first, row_then as then};

use crate::bare::bare_marks;
use crate::look::{add, item_at};
use st_clash::push_if_some;
use st_ids::{List, NodeId};
use st_marks::{Mark, RowMarks, To};
use st_reading::{Reading, over_row};
use std::alloc::{AllocError, Global};
use std::collections::{BTreeMap, BTreeSet};

/// Where a change puts nodes, and which it mentions after a step; and how empty cells are read.
#[derive(Drop)]
pub struct Aims<'a, R: Reading> {
    pub reading: &'a R,
    pub puts: &'a BTreeMap<NodeId, To>,
    pub named: &'a BTreeSet<NodeId>,
}

// Whether a mark tells something.
fn tells_mark(mark: Mark) -> bool
    ensures { result ≡ mark_tells mark }
{
    match mark {
        Mark::Skip(_) | Mark::Gap(_) => false,
        _ => true,
    }
}

// Whether one of some marks tells something.
fn any_tells(marks: &[Mark]) -> bool
    ensures { result ≡ list_any mark_tells marks.now }
{
    marks.iter().any(|mark| tells_mark(*mark))
}

// Whether marks tell something, cell by cell.
fn tells(marks: &[Mark]) -> bool
    ensures { result ≡ list_any tells_cell (spread marks.now) }
{
    any_tells(marks)
}

/// A row, if its marks tell something.
pub fn told_row(node: NodeId, marks: List<Mark>) -> Option<RowMarks>
    ensures { result ≡ listed_row node marks }
{
    if tells(marks.as_slice()) {
        Some(RowMarks { node, marks })
    } else {
        None
    }
}

// A row that both list, after the step, if it tells something.
fn row_both<R: Reading>(
    alloc: Global,
    aims: &Aims<'_, R>,
    node: NodeId,
    change: &List<Mark>,
    step: &List<Mark>,
) -> Result<Option<RowMarks>, AllocError>
    requires { may_list (spread change.now) (spread step.now) < 2 ^ 32 }
    ensures { IfOk result (λ o. o ≡ both R.listed (get node_cmp aims.now.puts.now) (contains node_cmp aims.now.named.now) node (spread change.now) (spread step.now)) }
{
    let marks = over_row(
        alloc,
        aims.reading,
        aims.puts,
        aims.named,
        change.as_slice(),
        step.as_slice(),
    )?;
    Ok(told_row(node, marks))
}

// A row that only the change lists, after the step, if it tells something.
fn row_first<R: Reading>(
    alloc: Global,
    aims: &Aims<'_, R>,
    node: NodeId,
    change: &List<Mark>,
) -> Result<Option<RowMarks>, AllocError>
    requires { may_list [] (spread change.now) < 2 ^ 32 }
    ensures { IfOk result (λ o. o ≡ first R.listed (get node_cmp aims.now.puts.now) (contains node_cmp aims.now.named.now) node (spread change.now)) }
{
    let step = bare_marks(alloc, change.as_slice())?;
    row_both(alloc, aims, node, change, &step)
}

// A row that only the step lists, after the step, if it tells something.
fn row_then<R: Reading>(
    alloc: Global,
    aims: &Aims<'_, R>,
    node: NodeId,
    step: &List<Mark>,
) -> Result<Option<RowMarks>, AllocError>
    requires { may_list [] (spread step.now) < 2 ^ 32 }
    ensures { IfOk result (λ o. o ≡ then R.listed (get node_cmp aims.now.puts.now) (contains node_cmp aims.now.named.now) node (spread step.now)) }
{
    let change = bare_marks(alloc, step.as_slice())?;
    row_both(alloc, aims, node, &change, step)
}

// The row that a list has of a node.
fn row_at(rows: &List<RowMarks>, node: NodeId) -> Option<&RowMarks>
    requires { IsRising node_cmp (λ (r : Row). r.node) rows.now }
    ensures { option_copied result ≡ item_of node_cmp (λ (r : Row). r.node) rows.now node }
{
    item_at(rows.as_slice(), &node)
}

// A row that the change or the step lists, after the step, if it tells something.
fn row_beside<R: Reading>(
    alloc: Global,
    aims: &Aims<'_, R>,
    node: NodeId,
    change: &List<RowMarks>,
    step: &List<RowMarks>,
) -> Result<Option<RowMarks>, AllocError>
    requires change { IsRising node_cmp (λ (r : Row). r.node) change.now }
    requires step { IsRising node_cmp (λ (r : Row). r.node) step.now }
    requires room { HasRoomAt change.now step.now node }
    ensures { IfOk result (λ o. o ≡ beside R.listed (get node_cmp aims.now.puts.now) (contains node_cmp aims.now.named.now) change.now step.now node) }
{
    match (row_at(change, node), row_at(step, node)) {
        (None, None) => Ok(None),
        (Some(first), None) => row_first(alloc, aims, node, &first.marks),
        (None, Some(then)) => row_then(alloc, aims, node, &then.marks),
        (Some(first), Some(then)) => row_both(alloc, aims, node, &first.marks, &then.marks),
    }
}

// The rows of some nodes.
fn rows_beside<R: Reading>(
    alloc: Global,
    aims: &Aims<'_, R>,
    change: &List<RowMarks>,
    step: &List<RowMarks>,
    nodes: &BTreeSet<NodeId>,
) -> Result<List<RowMarks>, AllocError>
    requires change { IsRising node_cmp (λ (r : Row). r.node) change.now }
    requires step { IsRising node_cmp (λ (r : Row). r.node) step.now }
    requires room { (n : Node) → HasRoomAt change.now step.now n }
    ensures rows { IfOk result (λ l. l ≡ filter_map (beside R.listed (get node_cmp aims.now.puts.now) (contains node_cmp aims.now.named.now) change.now step.now) nodes.now.keys) }
    ensures ordered { IfOk result (λ l. IsOrdered node_cmp nodes.now) }
{
    let mut list = List::new(alloc);
    for node in nodes.iter() {
        let row = row_beside(alloc, aims, *node, change, step)?;
        push_if_some(&mut list, row)?;
    }
    Ok(list)
}

// Adds the nodes whose rows are listed.
fn add_rows(set: &mut BTreeSet<NodeId>, items: &[RowMarks]) -> Result<(), AllocError>
    ensures { OnOk result ((n : Node) → contains node_cmp set.new n
        ≡ (contains node_cmp set.old n || list_any (λ (r : Row). is_eq (node_cmp r.node n)) items.now)) }
{
    for item in items {
        add(set, item.node)?;
    }
    Ok(())
}

// The nodes whose rows are listed by one of two.
fn nodes_of_both(
    alloc: Global,
    change: &List<RowMarks>,
    step: &List<RowMarks>,
) -> Result<BTreeSet<NodeId>, AllocError>
    ensures { IfOk result (λ s. (n : Node) → contains node_cmp s n
        ≡ (list_any (λ (r : Row). is_eq (node_cmp r.node n)) change.now || list_any (λ (r : Row). is_eq (node_cmp r.node n)) step.now)) }
{
    let mut nodes = BTreeSet::new(alloc);
    add_rows(&mut nodes, change.as_slice())?;
    add_rows(&mut nodes, step.as_slice())?;
    Ok(nodes)
}

/// The rows that a change or a step lists, each as the change has it after the step.
pub fn rows_over<R: Reading>(
    alloc: Global,
    aims: &Aims<'_, R>,
    change: &List<RowMarks>,
    step: &List<RowMarks>,
) -> Result<List<RowMarks>, AllocError>
    requires change { IsRising node_cmp (λ (r : Row). r.node) change.now }
    requires step { IsRising node_cmp (λ (r : Row). r.node) step.now }
    requires room { (n : Node) → HasRoomAt change.now step.now n }
    ensures { IfOk result (λ l. IsListing node_cmp (λ (r : Row). r.node) l
        (beside R.listed (get node_cmp aims.now.puts.now) (contains node_cmp aims.now.named.now) change.now step.now)) }
{
    let nodes = nodes_of_both(alloc, change, step)?;
    let list = rows_beside(alloc, aims, change, step, &nodes)?;
    Ok(list)
}
