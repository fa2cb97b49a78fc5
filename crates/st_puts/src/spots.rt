//! Where nodes stand after a step.
ghost use Rattle.std.specs.Prelude.{◌≡◌, ◌++◌, [], IfOk, IfSome, OnOk, IsSome, Option as Maybe, map, true, false};
ghost use Rattle.std.specs.BTreeMap.{get};
ghost use Rattle.std.specs.List.{flat_map};
ghost use Rattle.std.specs.Option.{option_or};
ghost use Rattle.st_ids.specs.Order.{node_cmp};
ghost use Rattle.st_ids.specs.declared.names.NodeId.{NodeId as Node};
ghost use Rattle.st_marks.specs.declared.intents.Intent.{Intent};
ghost use Rattle.st_marks.specs.declared.marks.RegMark.{RegMark as Register};
ghost use Rattle.st_marks.specs.declared.marks.RegStep.{RegStep as RegisterOver};
ghost use Rattle.st_marks.specs.Document.{Document};
ghost use Rattle.st_marks.specs.Embedding.{is_among};
ghost use Rattle.st_marks.specs.Extends.{IsExtendedBy};
ghost use Rattle.st_marks.specs.Intent.{Fits};
ghost use Rattle.st_marks.specs.Listings.{nodes_loose, nodes_new, one_or_none, placed_before};
ghost use Rattle.st_mention_laws.specs.Shown.{Shows, ShowsStep};
ghost use Rattle.st_puts.specs.Mentions.{PlacesMentioned};
ghost use Rattle.st_puts.specs.inside.First.{first_at};
ghost use Rattle.st_puts.specs.inside.Spots.{
  found_before,
  gone_after,
  gone_spot,
  held_spot,
  leaves_by,
  loose_spot,
  new_spot,
  row_told,
  stands_after,
  stands_by,
  stood_by,
  told_by,
};

use crate::maps::{keep, keep_one};
use st_ids::{Copied, FieldId, NodeId};
use st_marks::{Change, How, Loose, Mark, NewNode, RegMark, RegStep, RowMarks, Spot, Step};
use std::alloc::{AllocError, Global};
use std::collections::BTreeMap;

// Who is told of a row's cells: who stands there after it, who leaves, or who stands there before.
#[derive(Clone, Copy)]
enum Told {
    After,
    Left,
    Before,
}

// Who stands in a cell after a mark.
fn stands(row: NodeId, mark: Mark) -> Option<(NodeId, Spot)>
    ensures { one_or_none result ≡ stands_by row mark }
{
    match mark {
        Mark::Touch {
            how: How::Leave,
            ..
        }
        | Mark::Make { full: false, .. } => None,
        Mark::Touch { cell, node, .. } => Some((node, Spot::Row { node: row, cell })),
        Mark::Make { cell, node, .. } => Some((node, Spot::Row { node: row, cell })),
        Mark::Fill { cell, node } => Some((node, Spot::Row { node: row, cell })),
        Mark::Skip(_) | Mark::Gap(_) => None,
    }
}

// Who leaves a cell.
fn leaves(mark: Mark) -> Option<(NodeId, Spot)>
    ensures { one_or_none result ≡ leaves_by mark }
{
    match mark {
        Mark::Touch {
            node,
            how: How::Leave,
            ..
        } => Some((node, Spot::Nowhere)),
        _ => None,
    }
}

// Who stands in a cell before a mark.
fn stood(row: NodeId, mark: Mark) -> Option<(NodeId, Spot)>
    ensures { one_or_none result ≡ stood_by row mark }
{
    match mark {
        Mark::Touch { cell, node, .. } => Some((node, Spot::Row { node: row, cell })),
        _ => None,
    }
}

// Who is told of a cell.
fn spot_told(told: Told, row: NodeId, mark: Mark) -> Option<(NodeId, Spot)>
    ensures { one_or_none result ≡ told_by told row mark }
{
    match told {
        Told::After => stands(row, mark),
        Told::Left => leaves(mark),
        Told::Before => stood(row, mark),
    }
}

// Whether someone is told of a cell.
#[inline(always)]
fn is_told(told: Told, mark: &Mark) -> bool
    ensures { (r : Node) → result ≡ false → told_by told r mark.now ≡ [] }
{
    match mark {
        Mark::Touch { how, .. } => match (told, how) {
            (Told::After, How::Leave) => false,
            (Told::Left, How::Leave) => true,
            (Told::Left, _) => false,
            _ => true,
        },
        Mark::Make { full, .. } => match told {
            Told::After => *full,
            _ => false,
        },
        Mark::Fill { .. } => match told {
            Told::After => true,
            _ => false,
        },
        Mark::Skip(_) | Mark::Gap(_) => false,
    }
}

// Keeps who is told of a row's cells.
fn keep_row(
    spots: &mut BTreeMap<NodeId, Spot>,
    told: Told,
    row: NodeId,
    marks: &[Mark],
) -> Result<(), AllocError>
    ensures { OnOk result ((n : Node) → get node_cmp spots.new n
        ≡ option_or (get node_cmp spots.old n) (first_at (flat_map (told_by told row) marks.now) n)) }
{
    for mark in marks {
        if !is_told(told, mark) {
            continue;
        }
        keep_one(spots, spot_told(told, row, *mark))?;
    }
    Ok(())
}

// Keeps who is told of the cells of rows.
fn keep_rows(
    spots: &mut BTreeMap<NodeId, Spot>,
    told: Told,
    rows: &[RowMarks],
) -> Result<(), AllocError>
    ensures { OnOk result ((n : Node) → get node_cmp spots.new n
        ≡ option_or (get node_cmp spots.old n) (first_at (flat_map (row_told told) rows.now) n)) }
{
    for row in rows {
        keep_row(spots, told, row.node, row.marks.as_slice())?;
    }
    Ok(())
}

// Keeps where a register's occupant stands, if there is one.
fn keep_held(
    alloc: Global,
    spots: &mut BTreeMap<NodeId, Spot>,
    field: &FieldId,
    held: Option<NodeId>,
) -> Result<(), AllocError>
    ensures { OnOk result ((n : Node) → get node_cmp spots.new n
        ≡ option_or (get node_cmp spots.old n) (first_at (held_spot field.now held) n)) }
{
    match held {
        None => Ok(()),
        Some(node) => {
            let spot = Spot::Register(field.copy(alloc)?);
            keep(spots, node, spot)?;
            Ok(())
        }
    }
}

// Keeps who is in registers after a step.
fn keep_after(
    alloc: Global,
    spots: &mut BTreeMap<NodeId, Spot>,
    regs: &[RegStep],
) -> Result<(), AllocError>
    ensures { OnOk result ((n : Node) → get node_cmp spots.new n
        ≡ option_or (get node_cmp spots.old n) (first_at (flat_map (λ (r : RegisterOver). held_spot r.field r.after) regs.now) n)) }
{
    for reg in regs {
        keep_held(alloc, spots, &reg.field, reg.after)?;
    }
    Ok(())
}

// Keeps who is in a change's registers.
fn keep_occupants(
    alloc: Global,
    spots: &mut BTreeMap<NodeId, Spot>,
    regs: &[RegMark],
) -> Result<(), AllocError>
    ensures { OnOk result ((n : Node) → get node_cmp spots.new n
        ≡ option_or (get node_cmp spots.old n) (first_at (flat_map (λ (r : Register). held_spot r.field r.held) regs.now) n)) }
{
    for reg in regs {
        keep_held(alloc, spots, &reg.field, reg.held)?;
    }
    Ok(())
}

// A node that is nowhere, if there is one.
fn nowhere(node: Option<NodeId>) -> Option<(NodeId, Spot)>
    ensures { one_or_none result ≡ gone_spot node }
{
    match node {
        None => None,
        Some(node) => Some((node, Spot::Nowhere)),
    }
}

// Keeps who is in registers before a step as nowhere.
fn keep_gone(spots: &mut BTreeMap<NodeId, Spot>, regs: &[RegStep]) -> Result<(), AllocError>
    ensures { OnOk result ((n : Node) → get node_cmp spots.new n
        ≡ option_or (get node_cmp spots.old n) (first_at (flat_map (λ (r : RegisterOver). gone_spot r.before) regs.now) n)) }
{
    for reg in regs {
        keep_one(spots, nowhere(reg.before))?;
    }
    Ok(())
}

// Keeps loose nodes as nowhere.
fn keep_loose(spots: &mut BTreeMap<NodeId, Spot>, loose: &[Loose]) -> Result<(), AllocError>
    ensures { OnOk result ((n : Node) → get node_cmp spots.new n
        ≡ option_or (get node_cmp spots.old n) (first_at (map loose_spot loose.now) n)) }
{
    for one in loose {
        keep(spots, one.node, Spot::Nowhere)?;
    }
    Ok(())
}

// Keeps new nodes as nowhere.
fn keep_new(spots: &mut BTreeMap<NodeId, Spot>, new: &[NewNode]) -> Result<(), AllocError>
    ensures { OnOk result ((n : Node) → get node_cmp spots.new n
        ≡ option_or (get node_cmp spots.old n) (first_at (map new_spot new.now) n)) }
{
    for made in new {
        keep(spots, made.node, Spot::Nowhere)?;
    }
    Ok(())
}

// Keeps who stands somewhere after a step.
fn keep_standing(
    alloc: Global,
    spots: &mut BTreeMap<NodeId, Spot>,
    step: &Step,
) -> Result<(), AllocError>
    ensures { OnOk result ((n : Node) → get node_cmp spots.new n
        ≡ option_or (get node_cmp spots.old n) (first_at (stands_after step.now) n)) }
{
    keep_rows(spots, Told::After, step.rows.as_slice())?;
    keep_after(alloc, spots, step.regs.as_slice())?;
    Ok(())
}

// Keeps whom a step lists before or makes as nowhere.
fn keep_rest(spots: &mut BTreeMap<NodeId, Spot>, step: &Step) -> Result<(), AllocError>
    ensures { OnOk result ((n : Node) → get node_cmp spots.new n
        ≡ option_or (get node_cmp spots.old n) (first_at (gone_after step.now) n)) }
{
    keep_rows(spots, Told::Left, step.rows.as_slice())?;
    keep_gone(spots, step.regs.as_slice())?;
    keep_loose(spots, step.loose.as_slice())?;
    keep_new(spots, step.new.as_slice())?;
    Ok(())
}

// Keeps whom a change finds where it finds them.
fn keep_found(
    alloc: Global,
    spots: &mut BTreeMap<NodeId, Spot>,
    change: &Change,
) -> Result<(), AllocError>
    ensures { OnOk result ((n : Node) → get node_cmp spots.new n
        ≡ option_or (get node_cmp spots.old n) (first_at (found_before change.now) n)) }
{
    keep_rows(spots, Told::Before, change.rows.as_slice())?;
    keep_occupants(alloc, spots, change.regs.as_slice())?;
    keep_loose(spots, change.loose.as_slice())?;
    Ok(())
}

// Where nodes stand after a step, as its marks show it.
fn spots_after(alloc: Global, step: &Step) -> Result<BTreeMap<NodeId, Spot>, AllocError>
    ensures { IfOk result (λ m. (n : Node) → get node_cmp m n
        ≡ option_or (first_at (stands_after step.now) n) (first_at (gone_after step.now) n)) }
{
    let mut spots = BTreeMap::new(alloc);
    keep_standing(alloc, &mut spots, step)?;
    keep_rest(&mut spots, step)?;
    Ok(spots)
}

// The same, and where a change finds nodes that the step doesn't show.
fn spots_beside(
    alloc: Global,
    change: &Change,
    step: &Step,
) -> Result<BTreeMap<NodeId, Spot>, AllocError>
    ensures { IfOk result (λ m. (n : Node) → get node_cmp m n
        ≡ option_or (option_or (first_at (stands_after step.now) n) (first_at (gone_after step.now) n))
        (first_at (found_before change.now) n)) }
{
    let mut spots = spots_after(alloc, step)?;
    keep_found(alloc, &mut spots, change)?;
    Ok(spots)
}

/// Where nodes stand after a step, read off its touches, fills and makes: whom it tells of stands there in the later
/// document, and it tells of each node that the step finds in a cell, in a register or nowhere, or makes.
pub fn places_after(alloc: Global, step: &Step) -> Result<BTreeMap<NodeId, Spot>, AllocError>
    ensures right { (D E : Document) → IsExtendedBy D E → ShowsStep D E step.now
        → IfOk result (λ m. (n : Node) → IfSome (get node_cmp m n) (λ s. E.place n ≡ s)) }
    ensures listed { (D E : Document) → IsExtendedBy D E → ShowsStep D E step.now
        → IfOk result (λ m. (n : Node)
        → is_among (nodes_new step.now.new ++ nodes_loose step.now.loose
        ++ placed_before step.now.rows (map (λ (r : RegisterOver). r.before) step.now.regs)) n ≡ true
        → IsSome (get node_cmp m n)) }
{
    spots_after(alloc, step)
}

/// Where the nodes stand after a step that the intent of a change mentions there, read off their marks.
pub fn places_beside(
    alloc: Global,
    change: &Change,
    step: &Step,
) -> Result<BTreeMap<NodeId, Spot>, AllocError>
    ensures { (D E : Document) (N : Intent) → IsExtendedBy D E → Fits D N → Fits E N
        → Shows D N change.now → ShowsStep D E step.now → IfOk result (PlacesMentioned E N) }
{
    spots_beside(alloc, change, step)
}
