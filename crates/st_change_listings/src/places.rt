//! Where nodes stand, read off a listing of a change.
ghost use Rattle.std.specs.Prelude.{◌≡◌, Some, None, cond, IfOk, OnOk};
ghost use Rattle.std.specs.BTreeMap.{get};
ghost use Rattle.std.specs.List.{flat_map};
ghost use Rattle.std.specs.Option.{option_or};
ghost use Rattle.std.specs.Ordering.{is_eq};
ghost use Rattle.st_ids.specs.Order.{node_cmp, same_node};
ghost use Rattle.st_ids.specs.declared.names.NodeId.{NodeId as Node};
ghost use Rattle.st_marks.specs.Listings.{one_or_none};
ghost use Rattle.st_puts.specs.inside.First.{first_at};
ghost use Rattle.st_puts.specs.inside.Spots.{stood_by};
ghost use Rattle.st_change_listings.specs.Places.{places_told, stood_in_register, stood_in_row};

use st_ids::{Copied, NodeId};
use st_marks::{Change, Mark, RegMark, RowMarks, Spot};
use std::alloc::{AllocError, Global};
use std::collections::BTreeMap;

// Keeps a value at a name that has none.
fn keep_at<K: Ord + Drop, V: Drop>(
    map: &mut BTreeMap<K, V>,
    key: K,
    value: V,
) -> Result<(), AllocError>
    ensures { OnOk result ((q : K) → get K.cmp map.new q
        ≡ option_or (get K.cmp map.old q) (cond (is_eq (K.cmp key q)) (Some value) None)) }
{
    if map.contains_key(&key) {
        return Ok(());
    }
    map.insert(key, value)?;
    Ok(())
}

// Keeps where a node stands, if nothing is told of it yet.
fn keep(spots: &mut BTreeMap<NodeId, Spot>, node: NodeId, spot: Spot) -> Result<(), AllocError>
    ensures { OnOk result ((n : Node) → get node_cmp spots.new n
        ≡ option_or (get node_cmp spots.old n) (cond (same_node node n) (Some spot) None)) }
{
    keep_at(spots, node, spot)?;
    Ok(())
}

// Keeps where the node of a mark stands, if it finds one.
fn keep_mark(spots: &mut BTreeMap<NodeId, Spot>, row: NodeId, mark: Mark) -> Result<(), AllocError>
    ensures { OnOk result ((n : Node) → get node_cmp spots.new n
        ≡ option_or (get node_cmp spots.old n) (first_at (stood_by row mark) n)) }
{
    match mark {
        Mark::Touch { cell, node, .. } => {
            keep(spots, node, Spot::Row { node: row, cell })?;
            Ok(())
        }
        Mark::Make { .. } => Ok(()),
        Mark::Fill { .. } => Ok(()),
        Mark::Gap(_) => Ok(()),
        Mark::Skip(_) => Ok(()),
    }
}

// Keeps who stands in a row's cells.
fn keep_marks(
    spots: &mut BTreeMap<NodeId, Spot>,
    row: NodeId,
    marks: &[Mark],
) -> Result<(), AllocError>
    ensures { OnOk result ((n : Node) → get node_cmp spots.new n
        ≡ option_or (get node_cmp spots.old n) (first_at (flat_map (stood_by row) marks.now) n)) }
{
    for mark in marks {
        keep_mark(spots, row, *mark)?;
    }
    Ok(())
}

// Keeps who stands in the cells of rows.
fn keep_rows(spots: &mut BTreeMap<NodeId, Spot>, rows: &[RowMarks]) -> Result<(), AllocError>
    ensures { OnOk result ((n : Node) → get node_cmp spots.new n
        ≡ option_or (get node_cmp spots.old n) (first_at (flat_map stood_in_row rows.now) n)) }
{
    for row in rows {
        keep_marks(spots, row.node, row.marks.as_slice())?;
    }
    Ok(())
}

// Keeps who is in a register, if someone is.
fn keep_register(
    alloc: Global,
    spots: &mut BTreeMap<NodeId, Spot>,
    reg: &RegMark,
) -> Result<(), AllocError>
    ensures { OnOk result ((n : Node) → get node_cmp spots.new n
        ≡ option_or (get node_cmp spots.old n) (first_at (stood_in_register reg.now) n)) }
{
    match reg.held {
        None => Ok(()),
        Some(node) => {
            let spot = Spot::Register(reg.field.copy(alloc)?);
            keep(spots, node, spot)?;
            Ok(())
        }
    }
}

// Keeps who is in registers.
fn keep_registers(
    alloc: Global,
    spots: &mut BTreeMap<NodeId, Spot>,
    regs: &[RegMark],
) -> Result<(), AllocError>
    ensures { OnOk result ((n : Node) → get node_cmp spots.new n
        ≡ option_or (get node_cmp spots.old n) (first_at (flat_map stood_in_register regs.now) n)) }
{
    for reg in regs {
        keep_register(alloc, spots, reg)?;
    }
    Ok(())
}

/// Where nodes stand that are in a cell or a register, as the touches of a listing of a change and the occupants of its registers tell.
pub fn places_listed(alloc: Global, listing: &Change) -> Result<BTreeMap<NodeId, Spot>, AllocError>
    ensures { IfOk result (λ m. (n : Node) → get node_cmp m n ≡ first_at (places_told listing.now) n) }
{
    let mut spots = BTreeMap::new(alloc);
    keep_rows(&mut spots, listing.rows.as_slice())?;
    keep_registers(alloc, &mut spots, listing.regs.as_slice())?;
    Ok(spots)
}
