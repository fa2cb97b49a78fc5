//! Rows as a kind of field: each call once, with ample memory, and what is refused.
ghost use Rattle.std.specs.Prelude.{◌≡◌, ◌∷◌, [], IfOk};

use crate::rows::{are_short, is_short};
use st_ids::{Atom, CellId, Copied, List, NodeId, Or, Rev};
use st_kind::{Apart, FieldKind, Sides, rebase_over_both};
use st_marks::{How, Mark, Slot};
use st_rows::{
    RowChange, RowHeld, RowStep, rows_are_joined, rows_are_listed, rows_are_of_documents, rows_hold,
};
use st_seq::Sequence;
use std::alloc::{AllocError, Global};
use std::test::Fail;

const REV: Rev = Rev { session: 2, num: 1 };

// A node that is made by a step, and its cell.
const X: NodeId = NodeId(Atom {
    rev: Rev { session: 1, num: 1 },
    at: 0,
});

const CELL_X: CellId = CellId(Atom {
    rev: Rev { session: 1, num: 1 },
    at: 0,
});

// A node that the commit makes, and its cell.
const Q: NodeId = NodeId(Atom { rev: REV, at: 0 });

const CELL_Q: CellId = CellId(Atom { rev: REV, at: 0 });

// Another new node.
const NEXT: NodeId = NodeId(Atom { rev: REV, at: 1 });

const MAKE_X: Mark = Mark::Make {
    cell: CELL_X,
    node: X,
    full: true,
};

const HOLE_X: Mark = Mark::Make {
    cell: CELL_X,
    node: X,
    full: false,
};

const LEAVE_X: Mark = Mark::Touch {
    cell: CELL_X,
    node: X,
    how: How::Leave,
};

const STAY_X: Mark = Mark::Touch {
    cell: CELL_X,
    node: X,
    how: How::Stay,
};

const MAKE_Q: Mark = Mark::Make {
    cell: CELL_Q,
    node: Q,
    full: true,
};

const HOLE_Q: Mark = Mark::Make {
    cell: CELL_Q,
    node: Q,
    full: false,
};

const TAKE_Q: Mark = Mark::Touch {
    cell: CELL_Q,
    node: Q,
    how: How::Leave,
};

// Puts the node that is there into the new cell.
const MOVE_X: Mark = Mark::Make {
    cell: CELL_Q,
    node: X,
    full: true,
};

// Takes the node that is there from the other cell.
const TAKE_X: Mark = Mark::Touch {
    cell: CELL_Q,
    node: X,
    how: How::Leave,
};

const SLOT_X: Slot = Slot {
    cell: CELL_X,
    node: X,
    full: true,
};

fn one<T: Drop>(alloc: Global, item: T) -> Result<List<T>, AllocError>
    ensures { IfOk result (λ l. l ≡ item ∷ []) }
{
    let mut list = List::new(alloc);
    list.push(item)?;
    Ok(list)
}

fn list(alloc: Global, marks: &[Mark]) -> Result<List<Mark>, AllocError> {
    Ok(List::from_vec(marks.to_vec(alloc)?))
}

fn step(alloc: Global, marks: &[Mark]) -> Result<RowStep, AllocError> {
    let marks = list(alloc, marks)?;
    Ok(RowStep { marks })
}

// A change that makes a node.
fn change(alloc: Global, new: NodeId, marks: &[Mark]) -> Result<RowChange, AllocError> {
    let new = one(alloc, new)?;
    let marks = list(alloc, marks)?;
    Ok(RowChange {
        rev: REV,
        in_new: false,
        new,
        marks,
    })
}

// The row that holds the other node.
fn held_rows(alloc: Global) -> Result<RowHeld, AllocError> {
    let cells = one(alloc, SLOT_X)?;
    Ok(RowHeld { cells })
}

// The row after the step that makes the other node's cell.
fn row_after(alloc: Global) -> Result<RowHeld, Or<Apart>> {
    let none = RowHeld {
        cells: List::new(alloc),
    };
    let made = step(alloc, &[MAKE_X])?;
    if is_short(&made.marks) {
        Sequence::after(alloc, &none, &made)
    } else {
        Err(Or::NoMemory)
    }
}

// Two steps in turn.
fn compose_steps(alloc: Global, first: &[Mark], then: &[Mark]) -> Result<RowStep, Or<Apart>> {
    let first = step(alloc, first)?;
    let then = step(alloc, then)?;
    if is_short(&first.marks) && is_short(&then.marks) {
        Sequence::compose(alloc, &first, &then)
    } else {
        Err(Or::NoMemory)
    }
}

// Two changes of one commit, of which the second has another new node.
fn join_rows(alloc: Global, first: &[Mark], then: &[Mark]) -> Result<RowChange, Or<Apart>> {
    let first = change(alloc, Q, first)?;
    let then = change(alloc, NEXT, then)?;
    if is_short(&first.marks) && is_short(&then.marks) {
        Sequence::join(alloc, &first, &then)
    } else {
        Err(Or::NoMemory)
    }
}

// A change over a step.
fn rebase_change(alloc: Global, marks: &[Mark], over: &[Mark]) -> Result<RowChange, Or<Apart>> {
    let added = change(alloc, Q, marks)?;
    let between = step(alloc, over)?;
    if are_short(&added.marks, &between.marks) {
        Sequence::rebase(alloc, &added, &between)
    } else {
        Err(Or::NoMemory)
    }
}

// The step that empties the other node's cell, over the change that makes the new node, which becomes void.
fn bridge_step(alloc: Global) -> Result<RowStep, Or<Apart>> {
    let added = change(alloc, Q, &[MAKE_Q, Mark::Skip(1)])?;
    let left = step(alloc, &[LEAVE_X])?;
    if are_short(&added.marks, &left.marks) {
        Sequence::bridge(alloc, &left, &added, false, true)
    } else {
        Err(Or::NoMemory)
    }
}

// The step of the change that makes the new node, void.
fn effect_of_change(alloc: Global) -> Result<RowStep, AllocError> {
    let added = change(alloc, Q, &[MAKE_Q])?;
    if is_short(&added.marks) {
        Sequence::effect(alloc, &added, true)
    } else {
        Err(AllocError)
    }
}

// The step back from the one that makes the new node.
fn inverse_step(alloc: Global) -> Result<RowStep, AllocError> {
    let there = step(alloc, &[MAKE_Q])?;
    if is_short(&there.marks) {
        Sequence::invert(alloc, &there)
    } else {
        Err(AllocError)
    }
}

// A change over two steps: one that makes a cell, and one that empties it.
fn over_both(alloc: Global) -> Result<Sides<RowChange>, Or<Apart>> {
    let new = one(alloc, Q)?;
    let marks = one(alloc, MAKE_Q)?;
    let made = one(alloc, MAKE_X)?;
    let left = one(alloc, LEAVE_X)?;
    let change = RowChange {
        rev: REV,
        in_new: false,
        new,
        marks,
    };
    let first = RowStep { marks: made };
    let then = RowStep { marks: left };
    rebase_over_both::<Sequence>(alloc, &change, &first, &then)
}

// Whether a change of the row that holds the other node keeps the rules.
fn is_over(alloc: Global, new: NodeId, marks: &[Mark]) -> Result<bool, AllocError> {
    let change = change(alloc, new, marks)?;
    let held = held_rows(alloc)?;
    Ok(Sequence::over(&change, &held))
}

// Whether a step has these marks.
fn has_marks(step: &RowStep, marks: &[Mark]) -> bool {
    step.marks.as_slice() == marks
}

// Whether two arguments differ first at a place.
fn is_apart<T: Drop>(answer: Result<T, Or<Apart>>, place: u32) -> bool {
    answer.is_err_and(|error| error == Or::Fault(Apart { place }))
}

fn row_is_known(alloc: Global) -> bool {
    row_after(alloc).is_ok_and(|row| row.cells.as_slice() == [SLOT_X].as_slice())
}

fn rebased_is_known(alloc: Global) -> bool {
    rebase_change(alloc, &[MAKE_Q, Mark::Skip(1)], &[LEAVE_X]).is_ok_and(|change| change
        .marks
        .as_slice()
        == [MAKE_Q, Mark::Gap(CELL_X)].as_slice())
}

fn composed_is_known(alloc: Global) -> bool {
    compose_steps(alloc, &[MAKE_X], &[LEAVE_X]).is_ok_and(|step| has_marks(&step, &[HOLE_X]))
}

fn bridged_is_known(alloc: Global) -> bool {
    bridge_step(alloc).is_ok_and(|step| has_marks(&step, &[TAKE_Q, LEAVE_X]))
}

// The new nodes of both changes are those of the join.
fn joined_is_known(alloc: Global) -> bool {
    join_rows(alloc, &[MAKE_Q], &[TAKE_Q]).is_ok_and(|both| both.marks.as_slice()
        == [HOLE_Q].as_slice()
        && both.new.as_slice() == [Q, NEXT].as_slice())
}

fn sides_are_known(alloc: Global) -> bool {
    let marks = [MAKE_Q, Mark::Gap(CELL_X)];
    over_both(alloc).is_ok_and(|sides| sides.in_turn.marks.as_slice() == marks.as_slice()
        && sides.at_once.marks.as_slice() == marks.as_slice())
}

fn held_is_copied(alloc: Global) -> Result<bool, AllocError> {
    let held = held_rows(alloc)?;
    Ok(held.copy(alloc)? == held)
}

fn change_is_copied(alloc: Global) -> Result<bool, AllocError> {
    let change = change(alloc, Q, &[MAKE_Q])?;
    Ok(change.copy(alloc)? == change)
}

fn step_is_copied(alloc: Global) -> Result<bool, AllocError> {
    let step = step(alloc, &[LEAVE_X])?;
    Ok(step.copy(alloc)? == step)
}

fn steps_are_known(alloc: Global) -> Result<bool, AllocError> {
    let effect = effect_of_change(alloc)?;
    let back = inverse_step(alloc)?;
    Ok(has_marks(&effect, &[HOLE_Q]) && has_marks(&back, &[TAKE_Q]))
}

#[test]
fn one_argument(rt: HostRuntime) -> Result<(), Fail> {
    let alloc = rt.alloc();
    rows_are_joined();
    rows_are_listed();
    rows_are_of_documents();
    rows_hold();
    let (steps, held) = (steps_are_known(alloc)?, held_is_copied(alloc)?);
    let (change, step) = (change_is_copied(alloc)?, step_is_copied(alloc)?);
    assert!(rt;
        steps && held && change && step,
        "{steps} {held} {change} {step}"
    );
    Ok(())
}

#[test]
fn two_arguments(rt: HostRuntime) {
    let alloc = rt.alloc();
    let (after, composed) = (row_is_known(alloc), composed_is_known(alloc));
    let (joined, rebased) = (joined_is_known(alloc), rebased_is_known(alloc));
    let (bridged, sides) = (bridged_is_known(alloc), sides_are_known(alloc));
    assert!(rt;
        after && composed && joined && rebased && bridged && sides,
        "{after} {composed} {joined} {rebased} {bridged} {sides}"
    );
}

// Whether a change of the row that holds the other node is judged so.
fn is_judged(alloc: Global, new: NodeId, marks: &[Mark], over: bool) -> bool {
    is_over(alloc, new, marks).is_ok_and(|answer| answer == over)
}

// A change that breaks a rule is over no row: one that puts a node that stays where it is, or has a new node that is there.
#[test]
fn broken_rules(rt: HostRuntime) {
    let alloc = rt.alloc();
    let added = is_judged(alloc, Q, &[MAKE_Q, STAY_X], true);
    let moved = is_judged(alloc, Q, &[MOVE_X, LEAVE_X], true);
    let stays = is_judged(alloc, Q, &[MOVE_X, STAY_X], false);
    let again = is_judged(alloc, X, &[STAY_X], false);
    assert!(rt;
        added && moved && stays && again,
        "{added} {moved} {stays} {again}"
    );
}

// A cell stands at one place, and a cell that is made isn't there before.
#[test]
fn cells_are_named_apart(rt: HostRuntime) {
    let alloc = rt.alloc();
    let one = Mark::Skip(1);
    let twice = is_apart(rebase_change(alloc, &[STAY_X, one], &[one, LEAVE_X]), 0);
    let both = is_apart(rebase_change(alloc, &[one, MAKE_Q], &[one, MAKE_Q]), 1);
    let again = is_apart(compose_steps(alloc, &[MAKE_X], &[one, MAKE_X]), 0);
    assert!(rt; twice && both && again, "{twice} {both} {again}");
}

// A node stands at one place of a row.
#[test]
fn nodes_are_named_apart(rt: HostRuntime) {
    let alloc = rt.alloc();
    let two = Mark::Skip(2);
    let beside = is_apart(
        rebase_change(alloc, &[two, STAY_X, two], &[Mark::Skip(4), TAKE_X]),
        2,
    );
    let in_turn = is_apart(compose_steps(alloc, &[MAKE_X, two], &[two, TAKE_X]), 0);
    assert!(rt; beside && in_turn, "{beside} {in_turn}");
}

// A cell of a node that the first change makes is made by that change too.
#[test]
fn owners_come_with_their_cells(rt: HostRuntime) {
    let alloc = rt.alloc();
    let first = [Mark::Gap(CELL_X), MAKE_Q];
    let fill = Mark::Fill {
        cell: CELL_X,
        node: Q,
    };
    let early = is_apart(join_rows(alloc, &first, &[fill, Mark::Skip(1)]), 0);
    let known = join_rows(alloc, &first, &[Mark::Gap(CELL_X), Mark::Skip(1)]).is_ok();
    assert!(rt; early && known, "{early} {known}");
}
