//! Cells that two listings show at two places, or with two owners.
ghost use Rattle.std.specs.Prelude.{◌≡◌, ◌++◌, cond, Option, Some, IfOk, OnOk};
ghost use Rattle.std.specs.BTreeMap.{get};
ghost use Rattle.std.specs.List.{flat_map};
ghost use Rattle.std.specs.Option.{option_copied};
ghost use Rattle.std.specs.Ordering.{is_eq};
ghost use Rattle.st_ids.specs.Order.{cell_cmp};
ghost use Rattle.st_ids.specs.declared.names.CellId.{CellId as Cell};
ghost use Rattle.st_clash.specs.declared.seen.Seen.{Seen as View};
ghost use Rattle.st_clash.specs.inside.Seen.{IsTable, apart_cell, apart_from, row_seen, same_seen};

use crate::owners::is_same_owner;
use crate::search::{cells_rise, push_by_search};
use crate::seen::{Seen, seen_cells};
use st_ids::{CellId, List, is_same_node};
use st_marks::RowMarks;
use std::alloc::{AllocError, Global};
use std::collections::BTreeMap;

// Keeps what is seen of a cell.
fn keep(table: &mut BTreeMap<CellId, Seen>, seen: Seen) -> Result<(), AllocError>
    ensures { OnOk result ((c : Cell) → get cell_cmp table.new c
        ≡ cond (is_eq (cell_cmp seen.cell c)) (Some seen) (get cell_cmp table.old c)) }
{
    table.insert(seen.cell, seen)?;
    Ok(())
}

// What is seen of each cell; of a cell that is seen twice, the last.
fn table_of(alloc: Global, list: &[Seen]) -> Result<BTreeMap<CellId, Seen>, AllocError>
    ensures { IfOk result (λ t. IsTable list.now (get cell_cmp t)) }
{
    let mut table = BTreeMap::new(alloc);
    for seen in list {
        keep(&mut table, *seen)?;
    }
    Ok(table)
}

// Whether a cell is seen at one place, and with one owner where both tell it.
fn is_same_seen(a: Seen, b: Seen) -> bool
    ensures { result ≡ same_seen a b }
{
    is_same_node(a.row, b.row) && a.place == b.place && is_same_owner(a.owner, b.owner)
}

/// Adds a cell, if it is seen otherwise.
pub fn push_if_other(bad: &mut List<CellId>, seen: Seen, other: Seen) -> Result<(), AllocError>
    ensures { OnOk result (bad.new ≡ bad.old ++ apart_from seen (Some other)) }
{
    if !is_same_seen(seen, other) {
        bad.push(seen.cell)?;
    }
    Ok(())
}

// Adds a cell that others show elsewhere.
fn push_if_apart(
    bad: &mut List<CellId>,
    table: &BTreeMap<CellId, Seen>,
    seen: Seen,
) -> Result<(), AllocError>
    ensures { OnOk result (bad.new ≡ bad.old ++ apart_cell (get cell_cmp table.now) seen) }
{
    match table.get(&seen.cell) {
        None => Ok(()),
        Some(other) => push_if_other(bad, seen, *other),
    }
}

// Adds the cells that others show elsewhere.
fn push_apart(
    bad: &mut List<CellId>,
    table: &BTreeMap<CellId, Seen>,
    list: &[Seen],
) -> Result<(), AllocError>
    ensures { OnOk result (bad.new ≡ bad.old ++ flat_map (apart_cell (get cell_cmp table.now)) list.now) }
{
    for seen in list {
        push_if_apart(bad, table, *seen)?;
    }
    Ok(())
}

// Adds the cells that others show elsewhere, by a table of these.
fn push_by_table(
    alloc: Global,
    bad: &mut List<CellId>,
    list: &[Seen],
    others: &[Seen],
) -> Result<(), AllocError>
    ensures { OnOk result ((at : Cell → Option View) × IsTable others.now at
        × (bad.new ≡ bad.old ++ flat_map (apart_cell at) list.now)) }
{
    let table = table_of(alloc, others)?;
    push_apart(bad, &table, list)
}

// Adds the cells that others show elsewhere: by a search where these rise by name, else by a table.
fn push_seen(
    alloc: Global,
    bad: &mut List<CellId>,
    list: &[Seen],
    others: &[Seen],
) -> Result<(), AllocError>
    ensures { OnOk result ((at : Cell → Option View) × IsTable others.now at
        × (bad.new ≡ bad.old ++ flat_map (apart_cell at) list.now)) }
{
    if cells_rise(others) {
        return push_by_search(bad, list, others);
    }
    push_by_table(alloc, bad, list, others)
}

/// Adds the cells that others show at another place or with another owner.
pub fn push_twice(
    alloc: Global,
    bad: &mut List<CellId>,
    rows: &[RowMarks],
    others: &[RowMarks],
) -> Result<(), AllocError>
    ensures { OnOk result ((at : Cell → Option View) × IsTable (flat_map row_seen others.now) at
        × (bad.new ≡ bad.old ++ flat_map (apart_cell at) (flat_map row_seen rows.now))) }
{
    let list = seen_cells(alloc, rows)?;
    if list.is_empty() {
        return Ok(());
    }
    let others = seen_cells(alloc, others)?;
    push_seen(alloc, bad, list.as_slice(), others.as_slice())
}
