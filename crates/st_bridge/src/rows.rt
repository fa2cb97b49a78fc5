//! The rows of a step over a void commit.
ghost use Rattle.std.specs.Prelude.{◌≡◌, ◌^◌, ◌<◌, ◌++◌, IfOk, OnOk};
ghost use Rattle.std.specs.List.{filter_map};
ghost use Rattle.std.specs.Option.{option_to_list};
ghost use Rattle.st_ids.specs.Listing.{item_of};
ghost use Rattle.st_ids.specs.Order.{node_cmp};
ghost use Rattle.st_ids.specs.declared.names.NodeId.{NodeId as Node};
ghost use Rattle.st_marks.specs.declared.marks.RowMarks.{RowMarks as Row};
ghost use Rattle.st_marks.specs.Row.{merge, spread};
ghost use Rattle.st_moves.specs.Index.{IsIndex};
ghost use Rattle.st_moves.specs.Room.{HasRoomAt};
ghost use Rattle.st_rows.specs.Changes.{may_list};
ghost use Rattle.st_steps.specs.Across.{row_across as across, with_holes};
ghost use Rattle.st_bridge.specs.inside.Walked.{row_walked};

use st_ids::{Copied, List, NodeId};
use st_marks::{Mark, RowMarks};
use st_moves::{index_rows, row_in};
use st_rows::{Piece, Table, lay_alike};
use std::alloc::{AllocError, Global};
use std::collections::BTreeMap;

// A step beside a void commit: a cell that the commit makes is there, and empty.
struct Holes;

impl Table for Holes {
    ghost use Rattle.st_steps.specs.Across.{hole_piece};

    ghost cell = { λ t. hole_piece };

    #[inline(always)]
    fn mark(&self, piece: Piece) -> Mark {
        match piece {
            Piece::Counted(count) => Mark::Skip(count),
            Piece::Both(_, y) => y,
            Piece::First(Mark::Make { cell, .. }) => Mark::Gap(cell),
            Piece::First(x) => x,
            Piece::Then(y) => y,
        }
    }
}

// A row that both list: as the step has it, with an empty cell for each that the commit makes.
fn row_with_holes(
    alloc: Global,
    node: NodeId,
    change: &List<Mark>,
    step: &List<Mark>,
) -> Result<RowMarks, AllocError>
    requires { may_list (spread change.now) (spread step.now) < 2 ^ 32 }
    ensures { IfOk result (λ r. r ≡ record { node = node; marks = merge (with_holes (spread change.now) (spread step.now)) }) }
{
    let marks = lay_alike(alloc, &Holes, change.as_slice(), step.as_slice())?;
    Ok(RowMarks { node, marks })
}

// Rows that are looked into by node.
#[derive(Drop)]
struct Rows<'a> {
    rows: &'a List<RowMarks>,
    index: BTreeMap<NodeId, usize>,
}

// The row of a node over a void commit, if the step lists it.
fn row_across(
    alloc: Global,
    node: NodeId,
    change: &Rows<'_>,
    step: &Rows<'_>,
) -> Result<Option<RowMarks>, AllocError>
    requires room { HasRoomAt change.now.rows.now step.now.rows.now node }
    requires change { IsIndex node_cmp (λ (r : Row). r.node) change.now.rows.now change.now.index }
    requires step { IsIndex node_cmp (λ (r : Row). r.node) step.now.rows.now step.now.index }
    ensures { IfOk result (λ o. o ≡ across node (item_of node_cmp (λ (r : Row). r.node) change.now.rows.now node) (item_of node_cmp (λ (r : Row). r.node) step.now.rows.now node)) }
{
    match (
        row_in(change.rows, &change.index, node),
        row_in(step.rows, &step.index, node),
    ) {
        (_, None) => Ok(None),
        (None, Some(step)) => Ok(Some(step.copy(alloc)?)),
        (Some(change), Some(step)) => Ok(Some(row_with_holes(
            alloc,
            node,
            &change.marks,
            &step.marks,
        )?)),
    }
}

// Puts a row behind others, if there is one.
fn push_if_some(list: &mut List<RowMarks>, row: Option<RowMarks>) -> Result<(), AllocError>
    ensures { OnOk result (list.new ≡ list.old ++ option_to_list row) }
{
    match row {
        None => Ok(()),
        Some(row) => {
            list.push(row)?;
            Ok(())
        }
    }
}

// Some rows of a step, each over the void commit.
fn rows_walked(
    alloc: Global,
    change: &Rows<'_>,
    step: &Rows<'_>,
    rows: &[RowMarks],
) -> Result<List<RowMarks>, AllocError>
    requires room { (n : Node) → HasRoomAt change.now.rows.now step.now.rows.now n }
    requires change { IsIndex node_cmp (λ (r : Row). r.node) change.now.rows.now change.now.index }
    requires step { IsIndex node_cmp (λ (r : Row). r.node) step.now.rows.now step.now.index }
    ensures { IfOk result (λ l. l ≡ filter_map (row_walked change.now.rows.now step.now.rows.now) rows.now) }
{
    let mut list = List::new(alloc);
    for row in rows {
        let across = row_across(alloc, row.node, change, step)?;
        push_if_some(&mut list, across)?;
    }
    Ok(list)
}

// Rows with their index.
fn rows_indexed(alloc: Global, rows: &List<RowMarks>) -> Result<Rows<'_>, AllocError>
    ensures rows { IfOk result (λ r. r.rows.now ≡ rows.now) }
    ensures index { IfOk result (λ r. IsIndex node_cmp (λ (q : Row). q.node) r.rows.now r.index) }
{
    let index = index_rows(alloc, rows.as_slice())?;
    Ok(Rows { rows, index })
}

/// The rows of a step over a void commit of which a change tells: each as the step has it, with an empty cell for each that the
/// commit makes.
pub fn rows_across(
    alloc: Global,
    change: &List<RowMarks>,
    step: &List<RowMarks>,
) -> Result<List<RowMarks>, AllocError>
    requires { (n : Node) → HasRoomAt change.now step.now n }
    ensures { IfOk result (λ l. l ≡ filter_map (row_walked change.now step.now) step.now) }
{
    let first = rows_indexed(alloc, change)?;
    let then = rows_indexed(alloc, step)?;
    rows_walked(alloc, &first, &then, step.as_slice())
}
