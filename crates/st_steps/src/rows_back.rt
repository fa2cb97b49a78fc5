//! Rows and registers on the way back over a step.
ghost use Rattle.std.specs.Prelude.{◌≡◌, ◌^◌, ◌<◌, length, map, IfOk, if◌then◌else◌};
ghost use Rattle.std.specs.BTreeSet.{contains};
ghost use Rattle.std.specs.List.{AllByRecursion};
ghost use Rattle.st_ids.specs.Order.{node_cmp};
ghost use Rattle.st_marks.specs.declared.marks.How.TheVariants.{Stay, Leave};
ghost use Rattle.st_marks.specs.declared.marks.RowMarks.{RowMarks as Row};
ghost use Rattle.st_marks.specs.Row.{spread};
ghost use Rattle.st_steps.specs.WayBack.{only_new as only, register_back as back};
ghost use Rattle.st_steps.specs.inside.Back.{row_turned as turned, stay_if as stays};

use st_ids::{Copied, List, NodeId};
use st_marks::{How, Mark, RegStep, RowMarks};
use st_rows::invert;
use std::alloc::{AllocError, Global};
use std::collections::BTreeSet;

// Whether a node stays on the way back in the row of a new one: if it is new itself.
fn how_back(new: &BTreeSet<NodeId>, node: NodeId) -> How
    ensures { result ≡ (if contains node_cmp new.now node then Stay else Leave) }
{
    if new.contains(&node) {
        How::Stay
    } else {
        How::Leave
    }
}

// Who leaves the row of a new node stays, if it is new itself.
fn stay_if(new: &BTreeSet<NodeId>, mark: Mark) -> Mark
    ensures { result ≡ stays (contains node_cmp new.now) mark }
{
    match mark {
        Mark::Touch {
            cell,
            node,
            how: How::Leave,
        } => Mark::Touch {
            cell,
            node,
            how: how_back(new, node),
        },
        _ => mark,
    }
}

// Who leaves the row of a new node stays, of those that are new.
fn all_stay_if(
    alloc: Global,
    new: &BTreeSet<NodeId>,
    marks: &[Mark],
) -> Result<List<Mark>, AllocError>
    ensures { IfOk result (λ l. l ≡ map (stays (contains node_cmp new.now)) marks.now) }
{
    let mut list = List::new(alloc);
    for mark in marks {
        list.push(stay_if(new, *mark))?;
    }
    Ok(list)
}

// The marks of a row on the way back.
fn marks_back(
    alloc: Global,
    new: &BTreeSet<NodeId>,
    row: &RowMarks,
) -> Result<List<Mark>, AllocError>
    requires { length (spread row.now.marks) < 2 ^ 32 }
    ensures { IfOk result (λ l. record { node = row.now.node; marks = l } ≡ turned (contains node_cmp new.now) row.now) }
{
    let marks = invert(alloc, &row.marks)?;
    if new.contains(&row.node) {
        all_stay_if(alloc, new, marks.as_slice())
    } else {
        Ok(marks)
    }
}

// A row on the way back.
fn row_back(alloc: Global, new: &BTreeSet<NodeId>, row: &RowMarks) -> Result<RowMarks, AllocError>
    requires { length (spread row.now.marks) < 2 ^ 32 }
    ensures { IfOk result (λ r. r ≡ turned (contains node_cmp new.now) row.now) }
{
    let marks = marks_back(alloc, new, row)?;
    Ok(RowMarks {
        node: row.node,
        marks,
    })
}

/// The rows on the way back over a step that makes the nodes `new`.
pub fn rows_back(
    alloc: Global,
    new: &BTreeSet<NodeId>,
    rows: &[RowMarks],
) -> Result<List<RowMarks>, AllocError>
    requires { AllByRecursion (λ (r : Row). length (spread r.marks) < 2 ^ 32) rows.now }
    ensures { IfOk result (λ l. l ≡ map (turned (contains node_cmp new.now)) rows.now) }
{
    let mut list = List::new(alloc);
    for row in rows {
        list.push(row_back(alloc, new, row)?)?;
    }
    Ok(list)
}

// A node, if it is new.
fn only_new(new: &BTreeSet<NodeId>, node: Option<NodeId>) -> Option<NodeId>
    ensures { result ≡ only (contains node_cmp new.now) node }
{
    match node {
        None => None,
        Some(node) => {
            if new.contains(&node) {
                Some(node)
            } else {
                None
            }
        }
    }
}

// Who is in a register on the way back.
fn held_back(new: &BTreeSet<NodeId>, reg: &RegStep) -> Option<NodeId>
    ensures { result ≡ (back (contains node_cmp new.now) reg.now).after }
{
    if new.contains(&reg.field.node) {
        only_new(new, reg.after)
    } else {
        reg.before
    }
}

// A register on the way back.
fn register_back(
    alloc: Global,
    new: &BTreeSet<NodeId>,
    reg: &RegStep,
) -> Result<RegStep, AllocError>
    ensures { IfOk result (λ r. r ≡ back (contains node_cmp new.now) reg.now) }
{
    let after = held_back(new, reg);
    Ok(RegStep {
        field: reg.field.copy(alloc)?,
        before: reg.after,
        after,
    })
}

/// The registers on the way back over a step that makes the nodes `new`.
pub fn registers_back(
    alloc: Global,
    new: &BTreeSet<NodeId>,
    regs: &[RegStep],
) -> Result<List<RegStep>, AllocError>
    ensures { IfOk result (λ l. l ≡ map (back (contains node_cmp new.now)) regs.now) }
{
    let mut list = List::new(alloc);
    for reg in regs {
        list.push(register_back(alloc, new, reg)?)?;
    }
    Ok(list)
}
