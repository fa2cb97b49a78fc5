//! The nodes that differ, read off a listing of a step.
ghost use Rattle.std.specs.Prelude.{◌≡◌, ◌||◌, ◌++◌, IfOk, OnOk};
ghost use Rattle.std.specs.BTreeSet.{contains};
ghost use Rattle.std.specs.List.{flat_map, list_any};
ghost use Rattle.st_ids.specs.Order.{node_cmp, same_node};
ghost use Rattle.st_ids.specs.declared.names.NodeId.{NodeId as Node};
ghost use Rattle.st_marks.specs.declared.marks.Loose.{Loose as LooseNode};
ghost use Rattle.st_marks.specs.declared.marks.Mark.{Mark as AnyMark};
ghost use Rattle.st_marks.specs.Embedding.{is_among};
ghost use Rattle.st_marks.specs.Intent.{same_option};
ghost use Rattle.st_marks.specs.Listings.{nodes_new, one_or_none};
ghost use Rattle.st_trim.specs.inside.Told.{
  changes_by_register,
  changes_by_row,
  changes_told,
  differs,
  leaver,
  loose_leaver,
  row_changed,
  unless_in as unless_new,
};

use crate::sets::unless_in;
use st_climb::{add_one, new_names};
use st_ids::{NodeId, is_same_node};
use st_marks::{How, Loose, Mark, RegStep, RowMarks, Step};
use std::alloc::{AllocError, Global};
use std::collections::BTreeSet;

// Who leaves a cell.
fn leaver(mark: Mark) -> Option<NodeId>
    ensures { result ≡ leaver mark }
{
    match mark {
        Mark::Touch {
            node,
            how: How::Leave,
            ..
        } => Some(node),
        _ => None,
    }
}

// Whether a mark says that its row differs.
fn differs(mark: Mark) -> bool
    ensures { result ≡ differs mark }
{
    match mark {
        Mark::Touch {
            how: How::Leave,
            ..
        }
        | Mark::Make { .. }
        | Mark::Fill { .. } => true,
        _ => false,
    }
}

// Whether marks say that their row differs.
fn row_differs(marks: &[Mark]) -> bool
    ensures { result ≡ list_any differs marks.now }
{
    marks.iter().any(|mark| differs(*mark))
}

// The node of a row that differs, unless it is new.
fn row_changed(new: &BTreeSet<NodeId>, row: &RowMarks) -> Option<NodeId>
    ensures { result ≡ row_changed (contains node_cmp new.now) row.now }
{
    if row_differs(row.marks.as_slice()) {
        unless_in(new, row.node)
    } else {
        None
    }
}

// Adds those who leave a row.
fn add_leavers(set: &mut BTreeSet<NodeId>, marks: &[Mark]) -> Result<(), AllocError>
    ensures { OnOk result ((n : Node) → contains node_cmp set.new n
        ≡ (contains node_cmp set.old n || is_among (flat_map (λ (m : AnyMark). one_or_none (leaver m)) marks.now) n)) }
{
    for mark in marks {
        add_one(set, leaver(*mark))?;
    }
    Ok(())
}

// Adds the nodes that differ, as a row tells.
fn add_row(
    set: &mut BTreeSet<NodeId>,
    new: &BTreeSet<NodeId>,
    row: &RowMarks,
) -> Result<(), AllocError>
    ensures { OnOk result ((n : Node) → contains node_cmp set.new n
        ≡ (contains node_cmp set.old n || is_among (changes_by_row (contains node_cmp new.now) row.now) n)) }
{
    add_leavers(set, row.marks.as_slice())?;
    add_one(set, row_changed(new, row))?;
    Ok(())
}

// Adds the nodes that differ, as rows tell.
fn add_rows(
    set: &mut BTreeSet<NodeId>,
    new: &BTreeSet<NodeId>,
    rows: &[RowMarks],
) -> Result<(), AllocError>
    ensures { OnOk result ((n : Node) → contains node_cmp set.new n
        ≡ (contains node_cmp set.old n || is_among (flat_map (changes_by_row (contains node_cmp new.now)) rows.now) n)) }
{
    for row in rows {
        add_row(set, new, row)?;
    }
    Ok(())
}

/// Whether a register has one occupant before and after, or none.
pub fn is_same_occupant(before: Option<NodeId>, after: Option<NodeId>) -> bool
    ensures { result ≡ same_option same_node before after }
{
    match (before, after) {
        (None, None) => true,
        (Some(before), Some(after)) => is_same_node(before, after),
        _ => false,
    }
}

// Adds the occupant before of a register that differs, and its node, unless that is new.
fn add_differing(
    set: &mut BTreeSet<NodeId>,
    new: &BTreeSet<NodeId>,
    reg: &RegStep,
) -> Result<(), AllocError>
    ensures { OnOk result ((n : Node) → contains node_cmp set.new n
        ≡ (contains node_cmp set.old n || is_among (one_or_none reg.now.before ++ one_or_none (unless_new (contains node_cmp new.now) reg.now.field.node)) n)) }
{
    add_one(set, reg.before)?;
    add_one(set, unless_in(new, reg.field.node))?;
    Ok(())
}

// Adds the nodes that differ, as a register tells.
fn add_register(
    set: &mut BTreeSet<NodeId>,
    new: &BTreeSet<NodeId>,
    reg: &RegStep,
) -> Result<(), AllocError>
    ensures { OnOk result ((n : Node) → contains node_cmp set.new n
        ≡ (contains node_cmp set.old n || is_among (changes_by_register (contains node_cmp new.now) reg.now) n)) }
{
    if is_same_occupant(reg.before, reg.after) {
        Ok(())
    } else {
        add_differing(set, new, reg)
    }
}

// Adds the nodes that differ, as registers tell.
fn add_registers(
    set: &mut BTreeSet<NodeId>,
    new: &BTreeSet<NodeId>,
    regs: &[RegStep],
) -> Result<(), AllocError>
    ensures { OnOk result ((n : Node) → contains node_cmp set.new n
        ≡ (contains node_cmp set.old n || is_among (flat_map (changes_by_register (contains node_cmp new.now)) regs.now) n)) }
{
    for reg in regs {
        add_register(set, new, reg)?;
    }
    Ok(())
}

// A node that was nowhere and is put, unless it is new.
fn loose_leaver(new: &BTreeSet<NodeId>, loose: Loose) -> Option<NodeId>
    ensures { result ≡ loose_leaver (contains node_cmp new.now) loose }
{
    match loose.how {
        How::Leave => unless_in(new, loose.node),
        _ => None,
    }
}

// Adds the nodes that were nowhere and are put.
fn add_loose(
    set: &mut BTreeSet<NodeId>,
    new: &BTreeSet<NodeId>,
    loose: &[Loose],
) -> Result<(), AllocError>
    ensures { OnOk result ((n : Node) → contains node_cmp set.new n
        ≡ (contains node_cmp set.old n || is_among (flat_map (λ (l : LooseNode). one_or_none (loose_leaver (contains node_cmp new.now) l)) loose.now) n)) }
{
    for one in loose {
        add_one(set, loose_leaver(new, *one))?;
    }
    Ok(())
}

// Adds all nodes that differ.
fn add_told(
    set: &mut BTreeSet<NodeId>,
    new: &BTreeSet<NodeId>,
    listing: &Step,
) -> Result<(), AllocError>
    ensures { OnOk result ((n : Node) → contains node_cmp set.new n
        ≡ (contains node_cmp set.old n || is_among (changes_told (contains node_cmp new.now) listing.now) n)) }
{
    add_rows(set, new, listing.rows.as_slice())?;
    add_registers(set, new, listing.regs.as_slice())?;
    add_loose(set, new, listing.loose.as_slice())?;
    Ok(())
}

/// The nodes that differ: whoever leaves a place, and whose row or register differs, unless it is new.
pub fn nodes_changed(alloc: Global, listing: &Step) -> Result<BTreeSet<NodeId>, AllocError>
    ensures { IfOk result (λ s. (n : Node) → contains node_cmp s n
        ≡ is_among (changes_told (is_among (nodes_new listing.now.new)) listing.now) n) }
{
    let new = new_names(alloc, listing.new.as_slice())?;
    let mut set = BTreeSet::new(alloc);
    add_told(&mut set, &new, listing)?;
    Ok(set)
}
