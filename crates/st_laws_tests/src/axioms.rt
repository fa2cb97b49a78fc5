//! The root's row holds a and b. A step of Ann's puts a new q in front, and the next takes it out again. Ben's commit takes a out, and
//! another commit of his puts a new p in front, and takes it out in its second part.

use st_agree::FieldApart;
use st_ids::{Atom, CellId, List, NodeId, OPENING, Or, ROOT, Rev, Text};
use st_laws::{
    ChangeSides, StepSides, associative, bridge_in_turn, neutral, nothing_over, over_nothing,
    over_parts, parts_over, there_and_back,
};
use st_marks::{Change, How, Loose, Mark, NewNode, RowMarks, Step};
use std::alloc::{AllocError, Global};
use std::test::Fail;

const ANNS: Rev = Rev { session: 1, num: 1 };

const BENS: Rev = Rev { session: 2, num: 1 };

const A: NodeId = NodeId(Atom {
    rev: OPENING,
    at: 1,
});

const P: NodeId = NodeId(Atom { rev: BENS, at: 0 });

const Q: NodeId = NodeId(Atom { rev: ANNS, at: 0 });

const CELL_OF_A: CellId = CellId(Atom {
    rev: OPENING,
    at: 1,
});

const CELL_OF_P: CellId = CellId(Atom { rev: BENS, at: 0 });

const CELL_OF_Q: CellId = CellId(Atom { rev: ANNS, at: 0 });

const PUTS_Q: [Mark; 2] = [
    Mark::Make {
        cell: CELL_OF_Q,
        node: Q,
        full: true,
    },
    Mark::Skip(2),
];

const TAKES_Q: [Mark; 2] = [
    Mark::Touch {
        cell: CELL_OF_Q,
        node: Q,
        how: How::Leave,
    },
    Mark::Skip(2),
];

const BRINGS_Q: [Mark; 2] = [
    Mark::Fill {
        cell: CELL_OF_Q,
        node: Q,
    },
    Mark::Skip(2),
];

const TAKES_A: [Mark; 2] = [
    Mark::Touch {
        cell: CELL_OF_A,
        node: A,
        how: How::Leave,
    },
    Mark::Skip(1),
];

const PUTS_P: [Mark; 2] = [
    Mark::Make {
        cell: CELL_OF_P,
        node: P,
        full: true,
    },
    Mark::Skip(2),
];

const TAKES_P: [Mark; 2] = [
    Mark::Touch {
        cell: CELL_OF_P,
        node: P,
        how: How::Leave,
    },
    Mark::Skip(2),
];

fn no_step(alloc: Global) -> Step {
    Step {
        new: List::new(alloc),
        rows: List::new(alloc),
        regs: List::new(alloc),
        loose: List::new(alloc),
        schema: None,
    }
}

fn no_change(alloc: Global) -> Change {
    Change {
        rev: BENS,
        under: OPENING,
        base: true,
        need: List::new(alloc),
        new: List::new(alloc),
        rows: List::new(alloc),
        regs: List::new(alloc),
        loose: List::new(alloc),
        schema: None,
    }
}

fn push_new(alloc: Global, new: &mut List<NewNode>, node: NodeId) -> Result<(), AllocError> {
    let ty = Text::from_str(alloc, "t")?;
    new.push(NewNode {
        node,
        ty,
        leaf: None,
    })?;
    Ok(())
}

fn push_root(alloc: Global, rows: &mut List<RowMarks>, marks: &[Mark]) -> Result<(), AllocError> {
    let marks = List::from_vec(marks.to_vec(alloc)?);
    rows.push(RowMarks { node: ROOT, marks })?;
    Ok(())
}

fn step_of(alloc: Global, marks: &[Mark]) -> Result<Step, AllocError> {
    let mut step = no_step(alloc);
    push_root(alloc, &mut step.rows, marks)?;
    Ok(step)
}

fn change_of(alloc: Global, marks: &[Mark]) -> Result<Change, AllocError> {
    let mut change = no_change(alloc);
    push_root(alloc, &mut change.rows, marks)?;
    Ok(change)
}

fn puts_q(alloc: Global) -> Result<Step, AllocError> {
    let mut step = step_of(alloc, &PUTS_Q)?;
    push_new(alloc, &mut step.new, Q)?;
    Ok(step)
}

fn brings_q(alloc: Global) -> Result<Step, AllocError> {
    let mut step = step_of(alloc, &BRINGS_Q)?;
    step.loose.push(Loose {
        node: Q,
        how: How::Leave,
    })?;
    Ok(step)
}

fn puts_p(alloc: Global) -> Result<Change, AllocError> {
    let mut change = change_of(alloc, &PUTS_P)?;
    push_new(alloc, &mut change.new, P)?;
    Ok(change)
}

// How many marks the first of some rows lists.
fn marks_in(rows: &[RowMarks]) -> usize {
    match rows.first() {
        None => 0,
        Some(row) => row.marks.len(),
    }
}

// Two sides that are one step, which lists so many marks of the root's row.
fn is_one_step(sides: &Result<StepSides, Or<FieldApart>>, marks: usize) -> bool {
    match sides {
        Ok(it) => it.left == it.right && marks_in(it.left.rows.as_slice()) == marks,
        Err(_) => false,
    }
}

// Two sides that are one change, which lists so many marks of the root's row.
fn is_one_change(sides: &Result<ChangeSides, Or<FieldApart>>, marks: usize) -> bool {
    match sides {
        Ok(it) => it.left == it.right && marks_in(it.left.rows.as_slice()) == marks,
        Err(_) => false,
    }
}

// Refused at the root.
fn is_apart_at_root(sides: &Result<StepSides, Or<FieldApart>>) -> bool {
    match sides {
        Err(Or::Fault(apart)) => apart.field.node == ROOT,
        _ => false,
    }
}

// Ann's step and its way back; and nothing over it.
fn goes_back(alloc: Global, step: &Step) -> bool {
    is_one_step(&neutral(alloc, step), 2)
}

fn leaves_nothing(alloc: Global, step: &Step) -> bool {
    is_one_change(&nothing_over(alloc, step, BENS, OPENING), 0)
}

// Ben's change over nothing, over Ann's step and its way back, over her step and the next; and her step over it.
fn stays(alloc: Global, change: &Change) -> bool {
    is_one_change(&over_nothing(alloc, change), 2)
}

fn comes_back(alloc: Global, step: &Step, change: &Change) -> bool {
    is_one_change(&there_and_back(alloc, change, step), 3)
}

fn goes_over_both(alloc: Global, step: &Step, next: &Step, change: &Change) -> bool {
    is_one_change(&over_parts(alloc, change, step, next), 3)
}

fn is_gone_over(alloc: Global, step: &Step, change: &Change) -> bool {
    is_one_step(&bridge_in_turn(alloc, step, change), 3)
}

// Ann's step, the next, and one that brings q back.
fn is_brought_back(alloc: Global, step: &Step, next: &Step) -> Result<bool, AllocError> {
    let last = brings_q(alloc)?;
    Ok(is_one_step(&associative(alloc, step, next, &last), 2))
}

// One that brings q back, and twice the one that takes it out: the first two change nothing, and the last two don't agree.
fn is_taken_once(alloc: Global, next: &Step) -> Result<bool, AllocError> {
    let first = brings_q(alloc)?;
    Ok(is_apart_at_root(&associative(alloc, &first, next, next)))
}

// Ben's other commit in two parts.
fn goes_in_parts(alloc: Global, step: &Step, first: &Change) -> Result<bool, AllocError> {
    let then = change_of(alloc, &TAKES_P)?;
    Ok(is_one_change(&parts_over(alloc, first, &then, step), 2))
}

fn of_two_steps(
    alloc: Global,
    step: &Step,
    next: &Step,
    change: &Change,
) -> Result<bool, AllocError> {
    let in_turn = is_brought_back(alloc, step, next)? && is_taken_once(alloc, next)?;
    Ok(in_turn && goes_over_both(alloc, step, next, change))
}

fn of_steps(alloc: Global, step: &Step, change: &Change) -> Result<bool, AllocError> {
    let next = step_of(alloc, &TAKES_Q)?;
    of_two_steps(alloc, step, &next, change)
}

fn of_change(alloc: Global, step: &Step) -> Result<bool, AllocError> {
    let change = change_of(alloc, &TAKES_A)?;
    of_both(alloc, step, &change)
}

fn of_both(alloc: Global, step: &Step, change: &Change) -> Result<bool, AllocError> {
    let alone = stays(alloc, change) && comes_back(alloc, step, change);
    Ok(alone && is_gone_over(alloc, step, change) && of_steps(alloc, step, change)?)
}

fn of_parts(alloc: Global, step: &Step) -> Result<bool, AllocError> {
    let first = puts_p(alloc)?;
    goes_in_parts(alloc, step, &first)
}

fn of_step(alloc: Global, step: &Step) -> Result<bool, AllocError> {
    let alone = goes_back(alloc, step) && leaves_nothing(alloc, step);
    Ok(alone && of_change(alloc, step)? && of_parts(alloc, step)?)
}

fn come_to_one(alloc: Global) -> Result<bool, AllocError> {
    let step = puts_q(alloc)?;
    of_step(alloc, &step)
}

#[test]
fn sides_come_to_one(rt: HostRuntime) -> Result<(), Fail> {
    let one = come_to_one(rt.alloc())?;
    assert!(rt; one);
    Ok(())
}
