//! Cells that are made, by the places of their groups.
ghost use Rattle.std.specs.Prelude.{◌≡◌, ◌≤◌, ◌++◌, ◌∷◌, ◌&&◌, [], Some, None, Option as Maybe, length, cond, unwrap_or, OnOk};
ghost use Rattle.std.specs.BTreeMap.{get};
ghost use Rattle.std.specs.Option.{option_to_list};
ghost use Rattle.std.specs.Ordering.{is_eq};
ghost use Rattle.st_ids.specs.Order.{same_node};
ghost use Rattle.st_ids.specs.declared.names.CellId.{CellId as Cell};
ghost use Rattle.st_ids.specs.declared.names.NodeId.{NodeId as Node};
ghost use Rattle.st_marks.specs.Intent.{same_anchor};
ghost use Rattle.st_marks.specs.Row.{spread};
ghost use Rattle.st_meaning.specs.inside.Made.{after_mark, anchor_in, at_place, cells_at, made_by, made_from, next_in};

use st_ids::{CellId, List, NodeId};
use st_marks::{Mark, Owned};
use std::alloc::{AllocError, Global};
use std::collections::BTreeMap;

// Puts an item behind those at a key.
fn push_at<K: Ord + Drop, V: Drop>(
    alloc: Global,
    map: &mut BTreeMap<K, List<V>>,
    key: K,
    item: V,
) -> Result<(), AllocError>
    ensures { OnOk result ((q : K) → get K.cmp map.new q
        ≡ cond (is_eq (K.cmp key q)) (Some (unwrap_or (get K.cmp map.old key) [] ++ item ∷ [])) (get K.cmp map.old q)) }
{
    let there = map.entry(key)?.or_insert(List::new(alloc));
    there.push(item)?;
    Ok(())
}

// Keeps a cell that is made at a place.
fn keep_made(
    alloc: Global,
    cells: &mut BTreeMap<(NodeId, Option<CellId>), List<Owned>>,
    row: NodeId,
    after: Option<CellId>,
    made: Owned,
) -> Result<(), AllocError>
    ensures { OnOk result ((n : Node) (a : Maybe Cell) → cells_at cells.new n a
        ≡ cells_at cells.old n a ++ cond (same_node row n && same_anchor after a) (made ∷ []) []) }
{
    push_at(alloc, cells, (row, after), made)?;
    Ok(())
}

// The cell before a place of a row.
fn anchor_in(old: &[Owned], at: usize) -> Option<CellId>
    ensures { result ≡ anchor_in old.now at }
{
    if at == 0 {
        return None;
    }
    old.get(at - 1).map(|owned| owned.cell)
}

// The cell that a mark makes, with the cell before it.
fn made_by(old: &[Owned], at: usize, mark: Mark) -> Option<(Option<CellId>, Owned)>
    ensures { option_to_list result ≡ made_by old.now at mark }
{
    match mark {
        Mark::Make { cell, node, .. } => Some((anchor_in(old, at), Owned { cell, node })),
        _ => None,
    }
}

// Keeps a cell that is made in a row, if there is one.
fn keep_one(
    alloc: Global,
    cells: &mut BTreeMap<(NodeId, Option<CellId>), List<Owned>>,
    row: NodeId,
    one: Option<(Option<CellId>, Owned)>,
) -> Result<(), AllocError>
    ensures { OnOk result ((n : Node) (a : Maybe Cell) → cells_at cells.new n a
        ≡ cells_at cells.old n a ++ at_place row n a (option_to_list one)) }
{
    match one {
        None => Ok(()),
        Some((after, made)) => {
            keep_made(alloc, cells, row, after, made)?;
            Ok(())
        }
    }
}

// The place after some cells, or the row's end.
fn next_in(old: &[Owned], at: usize, count: u32) -> usize
    requires { at ≤ length old.now }
    ensures { result ≡ next_in old.now at count }
{
    (at + count as usize).min(old.len())
}

// Where one is after a mark.
fn after_mark(old: &[Owned], at: usize, mark: Mark) -> usize
    requires { at ≤ length old.now }
    ensures { result ≡ after_mark old.now at mark }
{
    match mark {
        Mark::Make { .. } => at,
        Mark::Skip(count) => next_in(old, at, count),
        Mark::Gap(_) | Mark::Touch { .. } | Mark::Fill { .. } => next_in(old, at, 1),
    }
}

/// Keeps the cells that the marks of a row make, where `old` are the cells that are there.
pub fn keep_row(
    alloc: Global,
    cells: &mut BTreeMap<(NodeId, Option<CellId>), List<Owned>>,
    row: NodeId,
    old: &[Owned],
    marks: &[Mark],
) -> Result<(), AllocError>
    ensures { OnOk result ((n : Node) (a : Maybe Cell) → cells_at cells.new n a
        ≡ cells_at cells.old n a ++ at_place row n a (made_from old.now 0 (spread marks.now))) }
{
    let mut at = 0;
    for mark in marks {
        keep_one(alloc, cells, row, made_by(old, at, *mark))?;
        at = after_mark(old, at, *mark);
    }
    Ok(())
}
