//! The nodes that a change and a step find, and those that stand somewhere before and after a step.
ghost use Rattle.std.specs.Prelude.{◌≡◌, ◌||◌, ◌&&◌, ◌++◌, not, map, IfOk, OnOk};
ghost use Rattle.std.specs.BTreeSet.{contains};
ghost use Rattle.std.specs.List.{flat_map};
ghost use Rattle.st_ids.specs.Order.{node_cmp};
ghost use Rattle.st_ids.specs.declared.names.NodeId.{NodeId as Node};
ghost use Rattle.st_marks.specs.declared.marks.Mark.{Mark as AnyMark};
ghost use Rattle.st_marks.specs.declared.marks.RegMark.{RegMark as Register};
ghost use Rattle.st_marks.specs.declared.marks.RegStep.{RegStep as RegisterOver};
ghost use Rattle.st_marks.specs.declared.marks.RowMarks.{RowMarks as Row};
ghost use Rattle.st_marks.specs.Embedding.{is_among};
ghost use Rattle.st_marks.specs.Listings.{nodes_loose, one_or_none, placed_before};
ghost use Rattle.st_cross_laws.specs.Crossed.{found_by_change, found_by_step, is_named};
ghost use Rattle.st_carry.specs.inside.Standing.{held_by, placed_at, stands_by};

use st_climb::{add_one, new_names};
use st_ids::NodeId;
use st_marks::{Change, How, Loose, Mark, RegMark, RegStep, RowMarks, Step};
use std::alloc::{AllocError, Global};
use std::collections::BTreeSet;

// Who stands in the cell of a mark, before or after.
fn standing(mark: Mark, after: bool) -> Option<NodeId>
    ensures { result ≡ stands_by after mark }
{
    match mark {
        Mark::Touch {
            node,
            how: How::Leave,
            ..
        } => { if after { None } else { Some(node) } }
        Mark::Touch { node, .. } => Some(node),
        Mark::Make { node, full, .. } => { if after && full { Some(node) } else { None } }
        Mark::Fill { node, .. } => { if after { Some(node) } else { None } }
        _ => None,
    }
}

// Adds those who stand in the cells of a row.
fn add_row(set: &mut BTreeSet<NodeId>, marks: &[Mark], after: bool) -> Result<(), AllocError>
    ensures { OnOk result ((n : Node) → contains node_cmp set.new n
        ≡ (contains node_cmp set.old n || is_among (flat_map (λ (m : AnyMark). one_or_none (stands_by after m)) marks.now) n)) }
{
    for mark in marks {
        add_one(set, standing(*mark, after))?;
    }
    Ok(())
}

// Adds those who stand in the cells of rows.
fn add_rows(set: &mut BTreeSet<NodeId>, rows: &[RowMarks], after: bool) -> Result<(), AllocError>
    ensures { OnOk result ((n : Node) → contains node_cmp set.new n
        ≡ (contains node_cmp set.old n || is_among (flat_map (λ (r : Row). flat_map (λ (m : AnyMark). one_or_none (stands_by after m)) r.marks) rows.now) n)) }
{
    for row in rows {
        add_row(set, row.marks.as_slice(), after)?;
    }
    Ok(())
}

// Who is in a register, before or after.
fn held_by(reg: &RegStep, after: bool) -> Option<NodeId>
    ensures { result ≡ held_by after reg.now }
{
    if after { reg.after } else { reg.before }
}

// Adds those who are in registers.
fn add_registers(
    set: &mut BTreeSet<NodeId>,
    regs: &[RegStep],
    after: bool,
) -> Result<(), AllocError>
    ensures { OnOk result ((n : Node) → contains node_cmp set.new n
        ≡ (contains node_cmp set.old n || is_among (flat_map (λ (r : RegisterOver). one_or_none (held_by after r)) regs.now) n)) }
{
    for reg in regs {
        add_one(set, held_by(reg, after))?;
    }
    Ok(())
}

// Adds those who stand somewhere.
fn add_placed(
    set: &mut BTreeSet<NodeId>,
    rows: &[RowMarks],
    regs: &[RegStep],
    after: bool,
) -> Result<(), AllocError>
    ensures { OnOk result ((n : Node) → contains node_cmp set.new n
        ≡ (contains node_cmp set.old n || is_among (placed_at after rows.now regs.now) n)) }
{
    add_rows(set, rows, after)?;
    add_registers(set, regs, after)?;
    Ok(())
}

/// The nodes that stand somewhere before a step or after it, as its rows and registers tell.
pub fn nodes_placed(
    alloc: Global,
    rows: &[RowMarks],
    regs: &[RegStep],
    after: bool,
) -> Result<BTreeSet<NodeId>, AllocError>
    ensures { IfOk result (λ s. (n : Node) → contains node_cmp s n ≡ is_among (placed_at after rows.now regs.now) n) }
{
    let mut set = BTreeSet::new(alloc);
    add_placed(&mut set, rows, regs, after)?;
    Ok(set)
}

// Adds nodes that are nowhere.
fn add_loose(set: &mut BTreeSet<NodeId>, loose: &[Loose]) -> Result<(), AllocError>
    ensures { OnOk result ((n : Node) → contains node_cmp set.new n
        ≡ (contains node_cmp set.old n || is_among (nodes_loose loose.now) n)) }
{
    for one in loose {
        add_one(set, Some(one.node))?;
    }
    Ok(())
}

// Adds those whom a step finds.
fn add_step(set: &mut BTreeSet<NodeId>, step: &Step) -> Result<(), AllocError>
    ensures { OnOk result ((n : Node) → contains node_cmp set.new n
        ≡ (contains node_cmp set.old n || is_among (found_by_step step.now) n)) }
{
    add_loose(set, step.loose.as_slice())?;
    add_placed(set, step.rows.as_slice(), step.regs.as_slice(), false)?;
    Ok(())
}

// Adds those whom a change finds in registers.
fn add_held(set: &mut BTreeSet<NodeId>, regs: &[RegMark]) -> Result<(), AllocError>
    ensures { OnOk result ((n : Node) → contains node_cmp set.new n
        ≡ (contains node_cmp set.old n || is_among (flat_map (λ (r : Register). one_or_none r.held) regs.now) n)) }
{
    for reg in regs {
        add_one(set, reg.held)?;
    }
    Ok(())
}

// Adds those whom a change finds somewhere.
fn add_places(set: &mut BTreeSet<NodeId>, change: &Change) -> Result<(), AllocError>
    ensures { OnOk result ((n : Node) → contains node_cmp set.new n
        ≡ (contains node_cmp set.old n || is_among (placed_before change.now.rows (map (λ (r : Register). r.held) change.now.regs)) n)) }
{
    add_rows(set, change.rows.as_slice(), false)?;
    add_held(set, change.regs.as_slice())?;
    Ok(())
}

// Adds those whom a change finds.
fn add_change(set: &mut BTreeSet<NodeId>, change: &Change) -> Result<(), AllocError>
    ensures { OnOk result ((n : Node) → contains node_cmp set.new n
        ≡ (contains node_cmp set.old n || is_among (found_by_change change.now) n)) }
{
    add_loose(set, change.loose.as_slice())?;
    add_places(set, change)?;
    Ok(())
}

// Adds those whom a change finds, unless it is void before and after.
fn add_unless_void(
    set: &mut BTreeSet<NodeId>,
    change: &Change,
    void: bool,
) -> Result<(), AllocError>
    ensures { OnOk result ((n : Node) → contains node_cmp set.new n
        ≡ (contains node_cmp set.old n || (not void && is_among (found_by_change change.now) n))) }
{
    if void {
        return Ok(());
    }
    add_change(set, change)
}

// Whether both are so.
fn are_both(was: bool, is: bool) -> bool
    ensures { result ≡ (was && is) }
{
    was && is
}

/// The nodes that are named by a step after a change that is void before the step or not, and after it or not.
pub fn nodes_named(
    alloc: Global,
    change: &Change,
    step: &Step,
    was: bool,
    is: bool,
) -> Result<BTreeSet<NodeId>, AllocError>
    ensures { IfOk result (λ s. (n : Node) → contains node_cmp s n ≡ is_named was is change.now step.now n) }
{
    let mut set = new_names(alloc, change.new.as_slice())?;
    add_step(&mut set, step)?;
    add_unless_void(&mut set, change, are_both(was, is))?;
    Ok(set)
}
