//! The other calls on changes and steps of a row that is a full cell, a full one and an empty one.
use crate::rebases::{change_of, gap, has_marks, leave, row_of, tells};
use st_carry::ListedCarrier;
use st_ids::{Atom, CellId, List, NodeId, OPENING, Rev};
use st_marks::{Mark, Step, Verdict};
use st_rebaser::Rebaser;
use std::alloc::{AllocError, Global};

const REV: Rev = Rev { session: 3, num: 1 };

fn fill(at: u32) -> Mark {
    let name = Atom {
        rev: Rev { session: 1, num: 1 },
        at,
    };
    Mark::Fill {
        cell: CellId(name),
        node: NodeId(name),
    }
}

fn step_of(alloc: Global, marks: &[Mark]) -> Result<Step, AllocError> {
    Ok(Step {
        new: List::new(alloc),
        rows: row_of(alloc, marks)?,
        regs: List::new(alloc),
        loose: List::new(alloc),
        schema: None,
    })
}

// The first node leaves; then the second; and both.
fn first(alloc: Global) -> Result<Step, AllocError> {
    step_of(alloc, &[leave(1), Mark::Skip(1), gap(3)])
}

fn then(alloc: Global) -> Result<Step, AllocError> {
    step_of(alloc, &[gap(1), leave(2), gap(3)])
}

fn whole(alloc: Global) -> Result<Step, AllocError> {
    step_of(alloc, &[leave(1), leave(2), gap(3)])
}

fn does(alloc: Global) -> Result<bool, AllocError> {
    let marks = [leave(1), Mark::Skip(1), gap(3)];
    let change = change_of(alloc, &marks)?;
    let done = ListedCarrier::effect(alloc, &change)?;
    Ok(tells(&done.step, &marks) && done.verdict == Verdict::Sound)
}

fn composes(alloc: Global) -> Result<bool, AllocError> {
    let (mut first, then) = (first(alloc)?, then(alloc)?);
    let both = ListedCarrier::compose(alloc, &first, &then)?;
    ListedCarrier::splice(alloc, &mut first, &then)?;
    let marks = [leave(1), leave(2), gap(3)];
    Ok(tells(&both, &marks) && tells(&first, &marks))
}

fn strips(alloc: Global) -> Result<bool, AllocError> {
    let rest = ListedCarrier::strip(alloc, &first(alloc)?, &whole(alloc)?)?;
    Ok(tells(&rest, &[gap(1), leave(2), gap(3)]))
}

fn inverts(alloc: Global) -> Result<bool, AllocError> {
    let back = ListedCarrier::invert(alloc, &first(alloc)?)?;
    let marks = [fill(1), Mark::Skip(1), gap(3)];
    Ok(match back.rows.as_slice() {
        [row] => row.marks.as_slice() == marks.as_slice(),
        _ => false,
    })
}

fn reverts(alloc: Global) -> Result<bool, AllocError> {
    let back = ListedCarrier::revert(alloc, &first(alloc)?, REV, OPENING)?;
    Ok(has_marks(&back, &[fill(1), Mark::Skip(1), gap(3)]) && back.rev == REV)
}

fn joins(alloc: Global) -> Result<bool, AllocError> {
    let first = change_of(alloc, &[Mark::Skip(1), leave(2), gap(3)])?;
    let then = change_of(alloc, &[leave(1), gap(2), gap(3)])?;
    let both = ListedCarrier::join(alloc, &first, &then)?;
    Ok(has_marks(&both, &[leave(1), leave(2), gap(3)]))
}

#[test]
fn steps_answer(rt: HostRuntime) -> Result<(), AllocError> {
    let alloc = rt.alloc();
    let (a, b, c) = (composes(alloc)?, strips(alloc)?, inverts(alloc)?);
    assert!(rt; a && b && c, "{a} {b} {c}");
    Ok(())
}

#[test]
fn changes_answer(rt: HostRuntime) -> Result<(), AllocError> {
    let alloc = rt.alloc();
    let (a, b, c) = (does(alloc)?, reverts(alloc)?, joins(alloc)?);
    assert!(rt; a && b && c, "{a} {b} {c}");
    Ok(())
}
