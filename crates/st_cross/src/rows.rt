//! The rows of a step after a change.
ghost use Rattle.std.specs.Prelude.{◌≡◌, ◌^◌, ◌<◌, [], IfOk};
ghost use Rattle.std.specs.BTreeMap.{get};
ghost use Rattle.std.specs.BTreeSet.{IsOrdered, contains};
ghost use Rattle.std.specs.List.{filter_map};
ghost use Rattle.std.specs.Option.{option_copied};
ghost use Rattle.st_ids.specs.Listing.{IsListing, IsRising, item_of};
ghost use Rattle.st_ids.specs.Order.{node_cmp};
ghost use Rattle.st_ids.specs.declared.names.NodeId.{NodeId as Node};
ghost use Rattle.st_marks.specs.declared.marks.RowMarks.{RowMarks as Row};
ghost use Rattle.st_marks.specs.Row.{spread};
ghost use Rattle.st_moves.specs.Room.{HasRoomAt};
ghost use Rattle.st_moves.specs.inside.Rows.{bare};
ghost use Rattle.st_reading.specs.Bridge.{crossed_row};
ghost use Rattle.st_rows.specs.Changes.{may_list};
ghost use Rattle.st_rows.specs.Merged.{IsMerged};
ghost use Rattle.st_over.specs.Across.{across_both};
ghost use Rattle.st_cross.specs.Fields.{placed_in, row_at as at};

use crate::names::names_of_both;
use st_clash::push_if_some;
use st_ids::{List, NodeId};
use st_marks::{Mark, RowMarks, To};
use st_over::{bare_marks, item_at, told_row};
use st_reading::{Reading, cross_row};
use std::alloc::{AllocError, Global};
use std::collections::{BTreeMap, BTreeSet};

/// A change over which a step is told: where it puts nodes, which it makes, and whether it is void before the step and after it; and
/// how empty cells are read.
#[derive(Drop)]
pub struct Crossing<'a, R: Reading> {
    pub reading: &'a R,
    pub puts: &'a BTreeMap<NodeId, To>,
    pub made: &'a BTreeSet<NodeId>,
    pub was: bool,
    pub is: bool,
}

// The marks of a row, by the new nodes that a void change places there.
fn marks_placed<R: Reading>(
    alloc: Global,
    across: &Crossing<'_, R>,
    placed: &BTreeSet<NodeId>,
    change: &List<Mark>,
    step: &List<Mark>,
) -> Result<List<Mark>, AllocError>
    requires { may_list (spread change.now) (spread step.now) < 2 ^ 32 }
    ensures { IfOk result (λ ms. IsMerged ms × (spread ms ≡ crossed_row R.listed across.now.was across.now.is (contains node_cmp placed.now) (get node_cmp across.now.puts.now) (spread change.now) (spread step.now))) }
{
    cross_row(
        alloc,
        across.reading,
        across.puts,
        placed,
        across.was,
        across.is,
        change.as_slice(),
        step.as_slice(),
    )
}

// The marks of a node's row.
fn marks_of<R: Reading>(
    alloc: Global,
    across: &Crossing<'_, R>,
    node: NodeId,
    change: &List<Mark>,
    step: &List<Mark>,
) -> Result<List<Mark>, AllocError>
    requires { may_list (spread change.now) (spread step.now) < 2 ^ 32 }
    ensures { IfOk result (λ ms. IsMerged ms × (spread ms ≡ crossed_row R.listed across.now.was across.now.is (placed_in (contains node_cmp across.now.made.now) node) (get node_cmp across.now.puts.now) (spread change.now) (spread step.now))) }
{
    if across.made.contains(&node) {
        marks_placed(alloc, across, across.made, change, step)
    } else {
        marks_placed(alloc, across, &BTreeSet::new(alloc), change, step)
    }
}

// A row that both list, if it tells something.
fn row_both<R: Reading>(
    alloc: Global,
    across: &Crossing<'_, R>,
    node: NodeId,
    change: &List<Mark>,
    step: &List<Mark>,
) -> Result<Option<RowMarks>, AllocError>
    requires { may_list (spread change.now) (spread step.now) < 2 ^ 32 }
    ensures { IfOk result (λ o. o ≡ across_both R.listed across.now.was across.now.is (placed_in (contains node_cmp across.now.made.now) node) (get node_cmp across.now.puts.now) node (spread change.now) (spread step.now)) }
{
    let marks = marks_of(alloc, across, node, change, step)?;
    Ok(told_row(node, marks))
}

// A row that only the change lists, if it tells something.
fn row_first<R: Reading>(
    alloc: Global,
    across: &Crossing<'_, R>,
    node: NodeId,
    change: &List<Mark>,
) -> Result<Option<RowMarks>, AllocError>
    requires { may_list [] (spread change.now) < 2 ^ 32 }
    ensures { IfOk result (λ o. o ≡ across_both R.listed across.now.was across.now.is (placed_in (contains node_cmp across.now.made.now) node) (get node_cmp across.now.puts.now) node (spread change.now) (bare (spread change.now))) }
{
    let step = bare_marks(alloc, change.as_slice())?;
    row_both(alloc, across, node, change, &step)
}

// A row that only the step lists, if it tells something.
fn row_then<R: Reading>(
    alloc: Global,
    across: &Crossing<'_, R>,
    node: NodeId,
    step: &List<Mark>,
) -> Result<Option<RowMarks>, AllocError>
    requires { may_list [] (spread step.now) < 2 ^ 32 }
    ensures { IfOk result (λ o. o ≡ across_both R.listed across.now.was across.now.is (placed_in (contains node_cmp across.now.made.now) node) (get node_cmp across.now.puts.now) node (bare (spread step.now)) (spread step.now)) }
{
    let change = bare_marks(alloc, step.as_slice())?;
    row_both(alloc, across, node, &change, step)
}

// The row that a list has of a node.
fn row_in(rows: &List<RowMarks>, node: NodeId) -> Option<&RowMarks>
    requires { IsRising node_cmp (λ (r : Row). r.node) rows.now }
    ensures { option_copied result ≡ item_of node_cmp (λ (r : Row). r.node) rows.now node }
{
    item_at(rows.as_slice(), &node)
}

// A row that the change or the step lists, if it tells something.
fn row_at<R: Reading>(
    alloc: Global,
    across: &Crossing<'_, R>,
    node: NodeId,
    change: &List<RowMarks>,
    step: &List<RowMarks>,
) -> Result<Option<RowMarks>, AllocError>
    requires change { IsRising node_cmp (λ (r : Row). r.node) change.now }
    requires step { IsRising node_cmp (λ (r : Row). r.node) step.now }
    requires room { HasRoomAt change.now step.now node }
    ensures { IfOk result (λ o. o ≡ at R.listed across.now.was across.now.is (contains node_cmp across.now.made.now) (get node_cmp across.now.puts.now) change.now step.now node) }
{
    match (row_in(change, node), row_in(step, node)) {
        (None, None) => Ok(None),
        (Some(first), None) => row_first(alloc, across, node, &first.marks),
        (None, Some(then)) => row_then(alloc, across, node, &then.marks),
        (Some(first), Some(then)) => row_both(alloc, across, node, &first.marks, &then.marks),
    }
}

// The rows of some nodes.
fn rows_at<R: Reading>(
    alloc: Global,
    across: &Crossing<'_, R>,
    change: &List<RowMarks>,
    step: &List<RowMarks>,
    nodes: &BTreeSet<NodeId>,
) -> Result<List<RowMarks>, AllocError>
    requires change { IsRising node_cmp (λ (r : Row). r.node) change.now }
    requires step { IsRising node_cmp (λ (r : Row). r.node) step.now }
    requires room { (n : Node) → HasRoomAt change.now step.now n }
    ensures rows { IfOk result (λ l. l ≡ filter_map (at R.listed across.now.was across.now.is (contains node_cmp across.now.made.now) (get node_cmp across.now.puts.now) change.now step.now) nodes.now.keys) }
    ensures ordered { IfOk result (λ l. IsOrdered node_cmp nodes.now) }
{
    let mut list = List::new(alloc);
    for node in nodes.iter() {
        let row = row_at(alloc, across, *node, change, step)?;
        push_if_some(&mut list, row)?;
    }
    Ok(list)
}

/// The rows that a change or a step lists, each as the step has it after the change.
pub fn rows_across<R: Reading>(
    alloc: Global,
    across: &Crossing<'_, R>,
    change: &List<RowMarks>,
    step: &List<RowMarks>,
) -> Result<List<RowMarks>, AllocError>
    requires change { IsRising node_cmp (λ (r : Row). r.node) change.now }
    requires step { IsRising node_cmp (λ (r : Row). r.node) step.now }
    requires room { (n : Node) → HasRoomAt change.now step.now n }
    ensures { IfOk result (λ l. IsListing node_cmp (λ (r : Row). r.node) l
        (at R.listed across.now.was across.now.is (contains node_cmp across.now.made.now) (get node_cmp across.now.puts.now) change.now step.now)) }
{
    let nodes = names_of_both(alloc, change.as_slice(), step.as_slice())?;
    let list = rows_at(alloc, across, change, step, &nodes)?;
    Ok(list)
}
