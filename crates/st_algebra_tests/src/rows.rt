//! What becomes of the marks of one row: answers that were worked out by hand, cell by cell.
ghost use Rattle.std.specs.Prelude.{◌+◌, ◌^◌, ◌<◌, length, IsTrue};
ghost use Rattle.st_marks.specs.Row.{spread};
ghost use Rattle.st_marks.specs.Listings.{cells_before};
ghost use Rattle.st_rows.specs.Changes.{may_list};

use st_ids::{Atom, CellId, List, NodeId, Or, Rev};
use st_kind::Apart;
use st_marks::{How, Mark, Slot, after, before};
use st_rows::{after as row_after, bridge, compose, effect, invert, join, rebase, void_effect};
use std::alloc::{AllocError, Global};
use std::test::Fail;

const MOST: u64 = 4_294_967_295;

// The first name of a session's first commit.
const fn name(session: u32) -> Atom {
    Atom {
        rev: Rev { session, num: 1 },
        at: 0,
    }
}

fn make_mark(session: u32, full: bool) -> Mark {
    Mark::Make {
        cell: CellId(name(session)),
        node: NodeId(name(session)),
        full,
    }
}

fn touch(session: u32, how: How) -> Mark {
    Mark::Touch {
        cell: CellId(name(session)),
        node: NodeId(name(session)),
        how,
    }
}

fn gap(session: u32) -> Mark {
    Mark::Gap(CellId(name(session)))
}

fn row(alloc: Global, marks: &[Mark]) -> Result<List<Mark>, AllocError> {
    Ok(List::from_vec(marks.to_vec(alloc)?))
}

// Whether fewer than 2^32 cells are listed.
pub fn is_short(marks: &List<Mark>) -> bool
    ensures { IsTrue result → length (spread marks.now) < 2 ^ 32 }
{
    after(marks) <= MOST
}

// Whether both list fewer than 2^32 cells together.
pub fn are_short(first: &List<Mark>, then: &List<Mark>) -> bool
    ensures { IsTrue result → may_list (spread first.now) (spread then.now) < 2 ^ 32 }
{
    after(first) + after(then) <= MOST
}

// Whether a step finds fewer than 2^32 cells.
fn finds_few(marks: &List<Mark>) -> bool
    ensures { IsTrue result → length (cells_before (spread marks.now)) < 2 ^ 32 }
{
    let found = before(marks);
    found <= MOST
}

// The step back.
fn invert_row(alloc: Global, marks: &[Mark]) -> Result<List<Mark>, AllocError> {
    let step = row(alloc, marks)?;
    if is_short(&step) {
        invert(alloc, &step)
    } else {
        Err(AllocError)
    }
}

// What a change does.
fn effect_of(alloc: Global, marks: &[Mark]) -> Result<List<Mark>, AllocError> {
    let change = row(alloc, marks)?;
    if is_short(&change) {
        effect(alloc, &change)
    } else {
        Err(AllocError)
    }
}

// What a void change does that makes the second session's node, in the row of a new node or in another.
fn void_effect_of(alloc: Global, marks: &[Mark], in_new: bool) -> Result<List<Mark>, AllocError> {
    let change = row(alloc, marks)?;
    let mut new = List::new(alloc);
    new.push(NodeId(name(2)))?;
    if is_short(&change) {
        void_effect(alloc, &change, in_new, &new)
    } else {
        Err(AllocError)
    }
}

// Two steps in turn.
fn compose_rows(alloc: Global, first: &[Mark], then: &[Mark]) -> Result<List<Mark>, Or<Apart>> {
    let first = row(alloc, first)?;
    let then = row(alloc, then)?;
    if is_short(&first) && is_short(&then) {
        compose(alloc, &first, &then)
    } else {
        Err(Or::NoMemory)
    }
}

// Two changes in turn.
fn join_rows(alloc: Global, first: &[Mark], then: &[Mark]) -> Result<List<Mark>, Or<Apart>> {
    let first = row(alloc, first)?;
    let then = row(alloc, then)?;
    if is_short(&first) && is_short(&then) {
        join(alloc, &first, &then)
    } else {
        Err(Or::NoMemory)
    }
}

// A change after a step.
fn rebase_row(alloc: Global, change: &[Mark], step: &[Mark]) -> Result<List<Mark>, Or<Apart>> {
    let change = row(alloc, change)?;
    let step = row(alloc, step)?;
    if are_short(&change, &step) {
        rebase(alloc, &change, &step)
    } else {
        Err(Or::NoMemory)
    }
}

// A step after a change that was carried out and is void.
fn bridge_row(alloc: Global, step: &[Mark], change: &[Mark]) -> Result<List<Mark>, Or<Apart>> {
    let change = row(alloc, change)?;
    let step = row(alloc, step)?;
    let none = List::new(alloc);
    if are_short(&change, &step) {
        bridge(alloc, &step, &change, false, &none, false, true)
    } else {
        Err(Or::NoMemory)
    }
}

// The row after a step.
fn slots_after(alloc: Global, slots: &[Slot], marks: &[Mark]) -> Result<List<Slot>, Or<Apart>> {
    let slots = List::from_vec(slots.to_vec(alloc)?);
    let step = row(alloc, marks)?;
    if is_short(&step) && finds_few(&step) {
        row_after(alloc, &slots, &step)
    } else {
        Err(Or::NoMemory)
    }
}

// Whether an answer is these marks.
fn is_row(answer: Result<List<Mark>, Or<Apart>>, marks: &[Mark]) -> bool {
    answer.is_ok_and(|row| row.as_slice() == marks)
}

// Whether two listings differ first at a place.
fn differ_at(answer: Result<List<Mark>, Or<Apart>>, place: u32) -> bool {
    answer.is_err_and(|error| error == Or::Fault(Apart { place }))
}

fn back_is_known(alloc: Global) -> Result<bool, AllocError> {
    let back = invert_row(alloc, &[Mark::Skip(1), make_mark(1, true)])?;
    Ok(back.as_slice() == [Mark::Skip(1), touch(1, How::Leave)].as_slice())
}

fn effect_is_known(alloc: Global) -> Result<bool, AllocError> {
    let step = effect_of(alloc, &[Mark::Skip(1), make_mark(2, true)])?;
    Ok(step.as_slice() == [Mark::Skip(1), make_mark(2, true)].as_slice())
}

// The row of one cell after a step that makes another.
fn step_is_known(alloc: Global) -> bool {
    let slot = |session| Slot {
        cell: CellId(name(session)),
        node: NodeId(name(session)),
        full: true,
    };
    slots_after(alloc, &[slot(2)], &[Mark::Skip(1), make_mark(1, true)]).is_ok_and(
        |row| row.as_slice() == [slot(2), slot(1)].as_slice(),
    )
}

#[test]
fn one_argument(rt: HostRuntime) -> Result<(), Fail> {
    let alloc = rt.alloc();
    let (back, effect) = (back_is_known(alloc)?, effect_is_known(alloc)?);
    let step = step_is_known(alloc);
    assert!(rt; back && effect && step, "{back} {effect} {step}");
    Ok(())
}

// Of two inserts at one place the later stands left, also where the earlier was taken back.
#[test]
fn later_insert_stands_left(rt: HostRuntime) {
    let alloc = rt.alloc();
    let step = [Mark::Skip(1), make_mark(1, true)];
    let change = [Mark::Skip(1), make_mark(2, true)];
    let over = [Mark::Skip(1), make_mark(2, true), Mark::Skip(1)];
    let back = [Mark::Skip(1), touch(1, How::Leave)];
    let taken = [Mark::Skip(1), make_mark(2, true), gap(1)];
    let one = is_row(rebase_row(alloc, &change, &step), &over);
    let two = is_row(rebase_row(alloc, &over, &back), &taken);
    assert!(rt; one && two, "{one} {two}");
}

// The first cell at which two listings differ is named.
#[test]
fn first_difference_is_named(rt: HostRuntime) {
    let alloc = rt.alloc();
    let change = [Mark::Skip(2), make_mark(2, true)];
    let first = differ_at(rebase_row(alloc, &change, &[gap(3), Mark::Skip(1)]), 0);
    let longer = differ_at(rebase_row(alloc, &change, &[Mark::Skip(4), gap(3)]), 2);
    let left = [Mark::Skip(3), touch(1, How::Leave)];
    let last = differ_at(compose_rows(alloc, &left, &[Mark::Skip(4)]), 3);
    assert!(rt; first && longer && last, "{first} {longer} {last}");
}

// A node that a step moves to another cell of the row goes on as the change says.
#[test]
fn touch_follows_its_node(rt: HostRuntime) {
    let alloc = rt.alloc();
    let cell = CellId(name(2));
    let node = NodeId(name(1));
    let leaves = Mark::Touch {
        cell,
        node,
        how: How::Leave,
    };
    let fill_back = Mark::Fill {
        cell: CellId(name(1)),
        node,
    };
    let step = [touch(1, How::Leave), Mark::Fill { cell, node }];
    let removed = [touch(1, How::Leave), gap(2)];
    let kept = [touch(1, How::Here), gap(2)];
    let gone = is_row(rebase_row(alloc, &removed, &step), &[gap(1), leaves]);
    let back = is_row(rebase_row(alloc, &kept, &step), &[fill_back, leaves]);
    assert!(rt; gone && back, "{gone} {back}");
}

// A cell that is made and then emptied stays.
#[test]
fn emptied_cell_is_kept(rt: HostRuntime) {
    let alloc = rt.alloc();
    let made_first = [make_mark(1, true), Mark::Skip(2)];
    let taken = [touch(1, How::Leave), Mark::Skip(2)];
    let hole = [make_mark(1, false), Mark::Skip(2)];
    let changes = is_row(join_rows(alloc, &made_first, &taken), &hole);
    let steps = is_row(compose_rows(alloc, &made_first, &taken), &hole);
    assert!(rt; changes && steps, "{changes} {steps}");
}

// Whether a void change that makes two nodes, of which the second is new, has this effect.
fn has_void_effect(alloc: Global, in_new: bool, marks: &[Mark]) -> bool {
    void_effect_of(alloc, &[make_mark(1, true), make_mark(2, true)], in_new).is_ok_and(
        |row| row.as_slice() == marks,
    )
}

// A void change makes its cells, and puts new nodes inside new nodes alone.
#[test]
fn void_change_keeps_new_nodes_in_new_rows(rt: HostRuntime) {
    let inside = has_void_effect(rt.alloc(), true, &[make_mark(1, false), make_mark(2, true)]);
    let outside = has_void_effect(
        rt.alloc(),
        false,
        &[make_mark(1, false), make_mark(2, false)],
    );
    assert!(rt; inside && outside, "{inside} {outside}");
}

// A step stands after a change that was carried out and is void: what the change put there goes.
#[test]
fn void_change_gives_up_its_nodes(rt: HostRuntime) {
    let alloc = rt.alloc();
    let step = [Mark::Skip(1), make_mark(1, true)];
    let change = [make_mark(2, true), Mark::Skip(1)];
    let over = [touch(2, How::Leave), Mark::Skip(1), make_mark(1, true)];
    assert!(rt; is_row(bridge_row(alloc, &step, &change), &over));
}
