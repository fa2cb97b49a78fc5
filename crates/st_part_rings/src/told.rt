//! A change told as a step: what it finds, and what it leaves where all of it is carried out.
ghost use Rattle.std.specs.Prelude.{◌≡◌, map, IfOk};
ghost use Rattle.st_marks.specs.Listings.{held_after};
ghost use Rattle.st_part_rings.specs.Told.{register_over, step_of};

use st_ids::{Copied, List, NodeId};
use st_marks::{Change, How, NewNode, RegMark, RegStep, RowMarks, Step};
use std::alloc::{AllocError, Global};

// Who is in a register after a change.
fn held_after(mark: &RegMark) -> Option<NodeId>
    ensures { result ≡ held_after mark.now }
{
    match (mark.fill, mark.how) {
        (Some(fill), _) => Some(fill),
        (None, How::Leave) => None,
        (None, How::Stay) => if mark.clear { None } else { mark.held },
        (None, How::Here) => mark.held,
    }
}

// A register with who is there before and after.
fn register_over(alloc: Global, mark: &RegMark) -> Result<RegStep, AllocError>
    ensures { IfOk result (λ r. r ≡ register_over mark.now) }
{
    let field = mark.field.copy(alloc)?;
    Ok(RegStep {
        field,
        before: mark.held,
        after: held_after(mark),
    })
}

// Registers with who is there before and after.
fn registers_over(alloc: Global, marks: &[RegMark]) -> Result<List<RegStep>, AllocError>
    ensures { IfOk result (λ l. l ≡ map register_over marks.now) }
{
    let mut list = List::new(alloc);
    for mark in marks {
        list.push(register_over(alloc, mark)?)?;
    }
    Ok(list)
}

// The step with these new nodes and rows, and with what else a change lists.
fn with_others(
    alloc: Global,
    change: &Change,
    new: List<NewNode>,
    rows: List<RowMarks>,
) -> Result<Step, AllocError>
    requires new { new ≡ change.now.new }
    requires rows { rows ≡ change.now.rows }
    ensures { IfOk result (λ s. s ≡ step_of change.now) }
{
    let regs = registers_over(alloc, change.regs.as_slice())?;
    let loose = change.loose.copy(alloc)?;
    Ok(Step {
        new,
        rows,
        regs,
        loose,
        schema: None,
    })
}

/// The step that finds what a change finds and leaves what the change, carried out whole, leaves. What the change needs isn't
/// in it, nor is what it does to the schema.
pub fn step_of(alloc: Global, change: &Change) -> Result<Step, AllocError>
    ensures { IfOk result (λ s. s ≡ step_of change.now) }
{
    let new = change.new.copy(alloc)?;
    let rows = change.rows.copy(alloc)?;
    with_others(alloc, change, new, rows)
}
