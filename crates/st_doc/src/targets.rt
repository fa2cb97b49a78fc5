//! Where the puts of an intent lead.
ghost use Rattle.std.specs.Prelude.{◌≡◌, cond, None, IfOk, OnOk, option_map};
ghost use Rattle.std.specs.BTreeMap.{get};
ghost use Rattle.std.specs.Option.{option_or};
ghost use Rattle.st_ids.specs.declared.names.CellId.{CellId as Cell};
ghost use Rattle.st_ids.specs.declared.names.NodeId.{NodeId as Node};
ghost use Rattle.st_ids.specs.Order.{node_cmp, cell_cmp, same_node};
ghost use Rattle.st_marks.specs.Intent.{put_of, new_row_of, is_new};
ghost use Rattle.st_marks.specs.CarryOut.{spot_of};
ghost use Rattle.st_doc.specs.inside.Ahead.{AreTargets, in_new, inside_new};

use crate::climb::node_of;
use crate::maps::set;
use crate::names::add_rows;
use st_ids::{CellId, Copied, NodeId};
use st_intent::is_new;
use st_marks::{Intent, Spot, To};
use std::alloc::{AllocError, Global};
use std::collections::BTreeMap;

// In whose row a cell is, old or made.
fn row_after(
    row_of: &BTreeMap<CellId, NodeId>,
    made: &BTreeMap<CellId, NodeId>,
    cell: CellId,
) -> Option<NodeId>
    ensures { result ≡ option_or (get cell_cmp row_of.now cell) (get cell_cmp made.now cell) }
{
    row_of.get(&cell).copied().or(made.get(&cell).copied())
}

// Where a put leads.
fn spot_after(
    alloc: Global,
    row_of: &BTreeMap<CellId, NodeId>,
    made: &BTreeMap<CellId, NodeId>,
    to: &To,
) -> Result<Spot, AllocError>
    ensures { IfOk result (λ s. s ≡ spot_of (λ c. option_or (get cell_cmp row_of.now c) (get cell_cmp made.now c)) to.now) }
{
    match to {
        To::Nowhere => Ok(Spot::Nowhere),
        To::Cell(cell) => match row_after(row_of, made, *cell) {
            None => Ok(Spot::Nowhere),
            Some(node) => Ok(Spot::Row { node, cell: *cell }),
        },
        To::Register(field) => Ok(Spot::Register(field.copy(alloc)?)),
    }
}

// The rows of the cells that an intent makes.
fn made_rows(alloc: Global, intent: &Intent) -> Result<BTreeMap<CellId, NodeId>, AllocError>
    ensures { IfOk result (λ m. (c : Cell) → get cell_cmp m c ≡ new_row_of intent.now c) }
{
    let mut made = BTreeMap::new(alloc);
    add_rows(&mut made, intent)?;
    Ok(made)
}

/// Where each node that an intent puts is to stand, by its first put. The puts are taken from the last to the first.
pub fn targets(
    alloc: Global,
    row_of: &BTreeMap<CellId, NodeId>,
    intent: &Intent,
) -> Result<BTreeMap<NodeId, Spot>, AllocError>
    ensures { IfOk result (AreTargets row_of.now intent.now) }
{
    let made = made_rows(alloc, intent)?;
    let mut targets = BTreeMap::new(alloc);
    let puts = intent.put.as_slice();
    let mut left = puts.len();
    while left > 0 {
        left -= 1;
        let put = &puts[left];
        let spot = spot_after(alloc, row_of, &made, &put.to)?;
        set(&mut targets, put.node, spot)?;
    }
    Ok(targets)
}

// Whether a place is in a row or register of a new node.
fn is_in_new(intent: &Intent, spot: &Spot) -> bool
    ensures { result ≡ in_new intent.now spot.now }
{
    match node_of(spot) {
        None => false,
        Some(node) => is_new(intent, node),
    }
}

// Keeps where a node is to stand, if that is in a new node.
fn keep_inside(
    alloc: Global,
    kept: &mut BTreeMap<NodeId, Spot>,
    targets: &BTreeMap<NodeId, Spot>,
    intent: &Intent,
    node: NodeId,
) -> Result<(), AllocError>
    ensures { OnOk result ((n : Node) → get node_cmp kept.new n
        ≡ cond (same_node node n) (option_or (inside_new intent.now (get node_cmp targets.now node)) (get node_cmp kept.old n)) (get node_cmp kept.old n)) }
{
    let Some(spot) = targets.get(&node) else {
        return Ok(());
    };
    if !is_in_new(intent, spot) {
        return Ok(());
    }
    set(kept, node, spot.copy(alloc)?)?;
    Ok(())
}

/// Where new nodes inside new nodes are to stand.
pub fn targets_inside(
    alloc: Global,
    targets: &BTreeMap<NodeId, Spot>,
    intent: &Intent,
) -> Result<BTreeMap<NodeId, Spot>, AllocError>
    ensures { IfOk result (λ m. (n : Node) → get node_cmp m n
        ≡ cond (is_new intent.now n) (inside_new intent.now (get node_cmp targets.now n)) None) }
{
    let mut kept = BTreeMap::new(alloc);
    for new in intent.new.as_slice() {
        keep_inside(alloc, &mut kept, targets, intent, new.node)?;
    }
    Ok(kept)
}
