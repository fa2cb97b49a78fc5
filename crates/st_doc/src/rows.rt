//! Rows that grow.
ghost use Rattle.std.specs.Prelude.{◌≡◌, ◌≤◌, ◌&&◌, ◌++◌, [], OnOk, Some, None, cond, length, unwrap_or};
ghost use Rattle.std.specs.BTreeMap.{get};
ghost use Rattle.st_ids.specs.Listing.{AreDistinct};
ghost use Rattle.st_ids.specs.declared.names.NodeId.{NodeId as Node};
ghost use Rattle.st_ids.specs.Order.{node_cmp, same_node};
ghost use Rattle.st_marks.specs.declared.intents.Owned.{Owned as OwnedCell};
ghost use Rattle.st_marks.specs.Intent.{IsIntent, same_anchor, group_at};
ghost use Rattle.st_marks.specs.CarryOut.{with_groups};
ghost use Rattle.st_doc.specs.inside.Growing.{IsPlaceOf, at_anchor, at_place, with_group};

use crate::maps::set;
use st_ids::{CellId, List, NodeId, is_same_cell, is_same_node};
use st_intent::is_same_anchor;
use st_marks::{Group, Intent, Owned};
use std::alloc::{AllocError, Global};
use std::collections::BTreeMap;

// Whether a group stands at that anchor of that row.
fn is_at(group: &Group, node: NodeId, after: Option<CellId>) -> bool
    ensures { result ≡ (same_node group.now.node node && same_anchor group.now.after after) }
{
    is_same_node(group.node, node) && is_same_anchor(group.after, after)
}

/// The cells of the first group at that anchor of that row.
pub fn cells_at(intent: &Intent, node: NodeId, after: Option<CellId>) -> &[Owned]
    ensures { result.now ≡ group_at intent.now node after }
{
    for group in intent.groups.as_slice() {
        if is_at(group, node, after) {
            return group.cells.as_slice();
        }
    }
    &[]
}

/// The cells of a node's row.
pub fn cells_of(rows: &BTreeMap<NodeId, List<Owned>>, node: NodeId) -> &[Owned]
    ensures { result.now ≡ unwrap_or (get node_cmp rows.now node) [] }
{
    match rows.get(&node) {
        None => &[],
        Some(row) => row.as_slice(),
    }
}

// The place behind a cell of a row, if it is there.
fn place_behind(row: &[Owned], cell: CellId) -> Option<usize>
    ensures { IsPlaceOf (Some cell) row.now result }
{
    for (i, owned) in row.iter().enumerate() {
        if is_same_cell(owned.cell, cell) {
            return Some(i + 1);
        }
    }
    None
}

// The place in a row to which an anchor leads.
fn place_of(row: &[Owned], after: Option<CellId>) -> Option<usize>
    ensures { IsPlaceOf after row.now result }
{
    match after {
        None => Some(0),
        Some(cell) => place_behind(row, cell),
    }
}

// Puts cells at a place of a row: what stands behind it moves once.
fn put_at(row: &mut Vec<Owned>, place: usize, more: &[Owned]) -> Result<(), AllocError>
    requires { place ≤ length row.old.items }
    ensures { OnOk result (row.new.items ≡ at_place place more.now row.old.items) }
{
    row.extend_from_slice(more)?;
    row[place..].rotate_right(more.len());
    Ok(())
}

// Puts cells where their anchor leads.
fn put_behind(row: &mut Vec<Owned>, after: Option<CellId>, more: &[Owned]) -> Result<(), AllocError>
    ensures { OnOk result (row.new.items ≡ at_anchor after more.now row.old.items) }
{
    match place_of(row.as_slice(), after) {
        None => Ok(()),
        Some(place) => put_at(row, place, more),
    }
}

// Takes a node's row out.
fn take_row(alloc: Global, rows: &mut BTreeMap<NodeId, List<Owned>>, node: NodeId) -> Vec<Owned>
    ensures row { result.items ≡ unwrap_or (get node_cmp rows.old node) [] }
    ensures rest { (n : Node) → get node_cmp rows.new n ≡ cond (same_node node n) None (get node_cmp rows.old n) }
{
    match rows.remove(&node) {
        None => Vec::new(alloc),
        Some(row) => row.into_vec(),
    }
}

// Puts a group into its row.
fn put_group(
    alloc: Global,
    rows: &mut BTreeMap<NodeId, List<Owned>>,
    group: &Group,
) -> Result<(), AllocError>
    ensures { OnOk result ((n : Node) → unwrap_or (get node_cmp rows.new n) [] ≡ with_group group.now n (unwrap_or (get node_cmp rows.old n) [])) }
{
    let mut row = take_row(alloc, rows, group.node);
    put_behind(&mut row, group.after, group.cells.as_slice())?;
    set(rows, group.node, List::from_vec(row))?;
    Ok(())
}

/// Puts the groups into their rows, one by one: each by one look for its anchor, and one move of what stands behind it.
pub fn grow_rows(
    alloc: Global,
    rows: &mut BTreeMap<NodeId, List<Owned>>,
    intent: &Intent,
) -> Result<(), AllocError>
    requires once { (n : Node) → AreDistinct (λ (o : OwnedCell). o.cell) (unwrap_or (get node_cmp rows.old n) []) }
    requires itself { IsIntent intent.now }
    ensures { OnOk result ((n : Node) → unwrap_or (get node_cmp rows.new n) []
        ≡ group_at intent.now n None ++ with_groups intent.now n (unwrap_or (get node_cmp rows.old n) [])) }
{
    for group in intent.groups.as_slice() {
        put_group(alloc, rows, group)?;
    }
    Ok(())
}
