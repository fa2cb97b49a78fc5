//! A change over a step, and the step over the change, with empty cells named and counted.
use st_carry::{ListedCarrier, ThinCarrier};
use st_ids::{Atom, CellId, List, NodeId, OPENING, ROOT, Rev, Text};
use st_lean::rebase;
use st_marks::{Change, How, Mark, NewNode, RowMarks, Step, Verdict};
use st_reading::{Listed, Reading, Thin};
use st_rebaser::Carrier;
use std::alloc::{AllocError, Global};

fn name(at: u32) -> Atom {
    Atom {
        rev: Rev { session: 1, num: 1 },
        at,
    }
}

pub fn gap(at: u32) -> Mark {
    Mark::Gap(CellId(name(at)))
}

pub fn leave(at: u32) -> Mark {
    Mark::Touch {
        cell: CellId(name(at)),
        node: NodeId(name(at)),
        how: How::Leave,
    }
}

pub fn make(at: u32) -> Mark {
    Mark::Make {
        cell: CellId(name(at)),
        node: NodeId(name(at)),
        full: true,
    }
}

// The root's row, with these marks.
pub fn row_of(alloc: Global, marks: &[Mark]) -> Result<List<RowMarks>, AllocError> {
    let mut copy = List::new(alloc);
    for mark in marks {
        copy.push(*mark)?;
    }
    let mut rows = List::new(alloc);
    rows.push(RowMarks {
        node: ROOT,
        marks: copy,
    })?;
    Ok(rows)
}

// The change that takes the second node out.
pub fn change_of(alloc: Global, marks: &[Mark]) -> Result<Change, AllocError> {
    let rows = row_of(alloc, marks)?;
    Ok(Change {
        rev: Rev { session: 2, num: 1 },
        under: OPENING,
        base: true,
        need: List::new(alloc),
        new: List::new(alloc),
        rows,
        regs: List::new(alloc),
        loose: List::new(alloc),
        schema: None,
    })
}

// The step that takes the first node out, and makes one behind the second.
fn step_of(alloc: Global, marks: &[Mark]) -> Result<Step, AllocError> {
    let ty = Text::from_str(alloc, "t")?;
    let mut new = List::new(alloc);
    new.push(NewNode {
        node: NodeId(name(4)),
        ty,
        leaf: None,
    })?;
    Ok(Step {
        new,
        rows: row_of(alloc, marks)?,
        regs: List::new(alloc),
        loose: List::new(alloc),
        schema: None,
    })
}

// Whether the marks of the only row are these.
pub fn has_marks(change: &Change, marks: &[Mark]) -> bool {
    match change.rows.as_slice() {
        [row] => row.marks.as_slice() == marks,
        _ => false,
    }
}

// Whether a row of a change becomes another over a row of a step.
fn goes_over<R: Reading>(
    alloc: Global,
    reading: &R,
    before: &[Mark],
    step: &[Mark],
    after: &[Mark],
) -> Result<bool, AllocError> {
    let mut change = change_of(alloc, before)?;
    let step = step_of(alloc, step)?;
    rebase(alloc, reading, &mut change, &step)?;
    Ok(has_marks(&change, after))
}

// The row is a full cell, a full one and an empty one.
fn listed(alloc: Global) -> Result<bool, AllocError> {
    let before = [Mark::Skip(1), leave(2), gap(3)];
    let step = [leave(1), Mark::Skip(1), make(4), gap(3)];
    let after = [gap(1), leave(2), Mark::Skip(1), gap(3)];
    goes_over(alloc, &Listed, &before, &step, &after)
}

fn counted(alloc: Global) -> Result<bool, AllocError> {
    let before = [Mark::Skip(1), leave(2), Mark::Skip(1)];
    let step = [leave(1), Mark::Skip(1), make(4), Mark::Skip(1)];
    let after = [Mark::Skip(1), leave(2), Mark::Skip(2)];
    goes_over(alloc, &Thin, &before, &step, &after)
}

#[test]
fn changes_go_over_steps(rt: HostRuntime) -> Result<(), AllocError> {
    let alloc = rt.alloc();
    let (named, counted) = (listed(alloc)?, counted(alloc)?);
    assert!(rt; named && counted, "{named} {counted}");
    Ok(())
}

// Whether the marks of a step's only row are these, and no node is loose.
pub fn tells(step: &Step, marks: &[Mark]) -> bool {
    match step.rows.as_slice() {
        [row] => row.marks.as_slice() == marks && step.loose.is_empty(),
        _ => false,
    }
}

// Whether a row of a change and one of a step become others over each other, and the change stays sound.
fn carries<C: Carrier>(
    alloc: Global,
    before: &[Mark],
    step: &[Mark],
    after: &[Mark],
    over: &[Mark],
) -> Result<bool, AllocError> {
    let (mut change, mut step) = (change_of(alloc, before)?, step_of(alloc, step)?);
    let mut verdict = Verdict::Sound;
    C::carry(alloc, &mut change, &mut verdict, &mut step)?;
    Ok(has_marks(&change, after) && tells(&step, over) && verdict == Verdict::Sound)
}

fn carried_listed(alloc: Global) -> Result<bool, AllocError> {
    let before = [Mark::Skip(1), leave(2), gap(3)];
    let step = [leave(1), Mark::Skip(1), make(4), gap(3)];
    let after = [gap(1), leave(2), Mark::Skip(1), gap(3)];
    let over = [leave(1), gap(2), make(4), gap(3)];
    carries::<ListedCarrier>(alloc, &before, &step, &after, &over)
}

fn carried_counted(alloc: Global) -> Result<bool, AllocError> {
    let before = [Mark::Skip(1), leave(2), Mark::Skip(1)];
    let step = [leave(1), Mark::Skip(1), make(4), Mark::Skip(1)];
    let after = [Mark::Skip(1), leave(2), Mark::Skip(2)];
    let over = [leave(1), Mark::Skip(1), make(4), Mark::Skip(1)];
    carries::<ThinCarrier>(alloc, &before, &step, &after, &over)
}

// Both take the first node out.
fn carried_where_they_meet(alloc: Global) -> Result<bool, AllocError> {
    let before = [leave(1), leave(2), Mark::Skip(1)];
    let step = [leave(1), Mark::Skip(1), make(4), Mark::Skip(1)];
    let after = [Mark::Skip(1), leave(2), Mark::Skip(2)];
    let over = [Mark::Skip(2), make(4), Mark::Skip(1)];
    carries::<ThinCarrier>(alloc, &before, &step, &after, &over)
}

#[test]
fn both_go_over_each_other(rt: HostRuntime) -> Result<(), AllocError> {
    let alloc = rt.alloc();
    let (named, counted) = (carried_listed(alloc)?, carried_counted(alloc)?);
    let met = carried_where_they_meet(alloc)?;
    assert!(rt; named && counted && met, "{named} {counted} {met}");
    Ok(())
}
