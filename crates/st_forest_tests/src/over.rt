//! Steps that stand over the document, and some that don't, by what they say.
use crate::document::{CELL, NOWHERE, TITLE, document};
use crate::steps::{add_loose, add_new, add_register, add_row, add_schemas, no_step};
use st_forest::Forest;
use st_ids::{Atom, CellId, NodeId, OPENING, ROOT, Rev};
use st_marks::{How, Mark, Step};
use st_over_step::{is_over_step, is_over_step_of_new_cells};
use std::alloc::{AllocError, Global};
use std::test::Fail;

const A: Rev = Rev { session: 1, num: 1 };

const B: Rev = Rev { session: 1, num: 2 };

const C: Rev = Rev { session: 2, num: 1 };

const NEW_NAME: Atom = Atom { rev: C, at: 0 };

const NEW: NodeId = NodeId(NEW_NAME);

const NEW_CELL: CellId = CellId(NEW_NAME);

const UNKNOWN: NodeId = NodeId(Atom { rev: C, at: 1 });

const GAP: Mark = Mark::Gap(CELL);

const OTHER_GAP: Mark = Mark::Gap(CellId(Atom { rev: A, at: 0 }));

const MADE: Mark = Mark::Make {
    cell: NEW_CELL,
    node: NEW,
    full: true,
};

// Marks of the root's row, which has one empty cell; a new node comes into it.
const ROWS: [(&[Mark], bool); 6] = [
    (&[GAP, MADE], true),
    (&[MADE, GAP], true),
    (&[Mark::Skip(1), MADE], false),
    (&[OTHER_GAP, MADE], false),
    (&[MADE], false),
    (&[GAP, OTHER_GAP, MADE], false),
];

// Who is the title before the step, which empties it.
const TITLES: [(NodeId, bool); 2] = [(TITLE, true), (NOWHERE, false)];

// Who is found nowhere, and put into the row.
const LOOSE: [(NodeId, bool); 3] = [(NOWHERE, true), (TITLE, false), (UNKNOWN, false)];

// Who is made, and put into the row.
const MADE_NODES: [(NodeId, bool); 3] = [(NEW, true), (NOWHERE, false), (TITLE, false)];

// Which cell is made, in the row of another node.
const MADE_CELLS: [(CellId, bool); 2] = [(NEW_CELL, true), (CELL, false)];

// Who owns an empty cell that is made, beside a new node.
const OWNERS: [(NodeId, bool); 4] = [
    (NEW, true),
    (NOWHERE, true),
    (TITLE, true),
    (UNKNOWN, false),
];

// Behind which schema which go, and which come.
const SCHEMAS: [(Rev, &[Rev], &[Rev], bool); 7] = [
    (B, &[], &[C], true),
    (A, &[B], &[C], true),
    (OPENING, &[A, B], &[], true),
    (A, &[], &[C], false),
    (OPENING, &[B], &[C], false),
    (A, &[C], &[], false),
    (B, &[], &[A], false),
];

// Both calls answer so.
fn is_over(forest: &Forest, step: &Step, over: bool) -> bool {
    is_over_step(forest, step) == over && is_over_step_of_new_cells(forest, step) == over
}

fn make_in_row(alloc: Global, step: &mut Step, marks: &[Mark]) -> Result<(), AllocError> {
    add_new(alloc, step, NEW)?;
    add_row(alloc, step, ROOT, marks)
}

fn judges_row(
    alloc: Global,
    forest: &Forest,
    marks: &[Mark],
    over: bool,
) -> Result<bool, AllocError> {
    let mut step = no_step(alloc);
    make_in_row(alloc, &mut step, marks)?;
    Ok(is_over(forest, &step, over))
}

fn judges_rows(alloc: Global, forest: &Forest) -> Result<bool, AllocError> {
    let mut right = true;
    for (marks, over) in ROWS.iter() {
        right = right && judges_row(alloc, forest, *marks, *over)?;
    }
    Ok(right)
}

fn judges_title(
    alloc: Global,
    forest: &Forest,
    before: NodeId,
    over: bool,
) -> Result<bool, AllocError> {
    let mut step = no_step(alloc);
    add_register(alloc, &mut step, Some(before), None)?;
    Ok(is_over(forest, &step, over))
}

fn judges_titles(alloc: Global, forest: &Forest) -> Result<bool, AllocError> {
    let mut right = true;
    for (before, over) in TITLES.iter() {
        right = right && judges_title(alloc, forest, *before, *over)?;
    }
    Ok(right)
}

// A cell is made for a node, at the end of the root's row.
fn add_cell(alloc: Global, step: &mut Step, node: NodeId, full: bool) -> Result<(), AllocError> {
    let made = Mark::Make {
        cell: NEW_CELL,
        node,
        full,
    };
    add_row(alloc, step, ROOT, &[GAP, made])
}

fn take_up(alloc: Global, step: &mut Step, node: NodeId) -> Result<(), AllocError> {
    add_loose(step, node, How::Leave)?;
    add_cell(alloc, step, node, true)
}

fn judges_loose(
    alloc: Global,
    forest: &Forest,
    node: NodeId,
    over: bool,
) -> Result<bool, AllocError> {
    let mut step = no_step(alloc);
    take_up(alloc, &mut step, node)?;
    Ok(is_over(forest, &step, over))
}

fn judges_all_loose(alloc: Global, forest: &Forest) -> Result<bool, AllocError> {
    let mut right = true;
    for (node, over) in LOOSE.iter() {
        right = right && judges_loose(alloc, forest, *node, *over)?;
    }
    Ok(right)
}

fn make_node(alloc: Global, step: &mut Step, node: NodeId) -> Result<(), AllocError> {
    add_new(alloc, step, node)?;
    add_cell(alloc, step, node, true)
}

fn judges_node(
    alloc: Global,
    forest: &Forest,
    node: NodeId,
    over: bool,
) -> Result<bool, AllocError> {
    let mut step = no_step(alloc);
    make_node(alloc, &mut step, node)?;
    Ok(is_over(forest, &step, over))
}

fn judges_nodes(alloc: Global, forest: &Forest) -> Result<bool, AllocError> {
    let mut right = true;
    for (node, over) in MADE_NODES.iter() {
        right = right && judges_node(alloc, forest, *node, *over)?;
    }
    Ok(right)
}

fn make_cell(alloc: Global, step: &mut Step, cell: CellId) -> Result<(), AllocError> {
    let made = Mark::Make {
        cell,
        node: NEW,
        full: true,
    };
    add_new(alloc, step, NEW)?;
    add_loose(step, NOWHERE, How::Stay)?;
    add_row(alloc, step, NOWHERE, &[made])
}

// Only one of the calls looks whether the cell is new.
fn judges_cell(
    alloc: Global,
    forest: &Forest,
    cell: CellId,
    over: bool,
) -> Result<bool, AllocError> {
    let mut step = no_step(alloc);
    make_cell(alloc, &mut step, cell)?;
    Ok(is_over_step(forest, &step) == over && is_over_step_of_new_cells(forest, &step))
}

fn judges_cells(alloc: Global, forest: &Forest) -> Result<bool, AllocError> {
    let mut right = true;
    for (cell, over) in MADE_CELLS.iter() {
        right = right && judges_cell(alloc, forest, *cell, *over)?;
    }
    Ok(right)
}

// A node is made, and an empty cell with an owner.
fn make_empty(alloc: Global, step: &mut Step, owner: NodeId) -> Result<(), AllocError> {
    add_new(alloc, step, NEW)?;
    add_cell(alloc, step, owner, false)
}

fn judges_owner(
    alloc: Global,
    forest: &Forest,
    owner: NodeId,
    over: bool,
) -> Result<bool, AllocError> {
    let mut step = no_step(alloc);
    make_empty(alloc, &mut step, owner)?;
    Ok(is_over(forest, &step, over))
}

fn judges_owners(alloc: Global, forest: &Forest) -> Result<bool, AllocError> {
    let mut right = true;
    for (owner, over) in OWNERS.iter() {
        right = right && judges_owner(alloc, forest, *owner, *over)?;
    }
    Ok(right)
}

fn judges_schema(
    alloc: Global,
    forest: &Forest,
    on: Rev,
    cut: &[Rev],
    add: &[Rev],
    over: bool,
) -> Result<bool, AllocError> {
    let mut step = no_step(alloc);
    add_schemas(alloc, &mut step, on, cut, add)?;
    Ok(is_over(forest, &step, over))
}

fn judges_schemas(alloc: Global, forest: &Forest) -> Result<bool, AllocError> {
    let mut right = true;
    for (on, cut, add, over) in SCHEMAS.iter() {
        right = right && judges_schema(alloc, forest, *on, *cut, *add, *over)?;
    }
    Ok(right)
}

fn judges_what_is_found(alloc: Global) -> Result<(bool, bool, bool), Fail> {
    let forest = document(alloc, &[A, B])?;
    Ok((
        judges_rows(alloc, &forest)?,
        judges_titles(alloc, &forest)?,
        judges_all_loose(alloc, &forest)?,
    ))
}

fn judges_what_is_made(alloc: Global) -> Result<(bool, bool, bool), Fail> {
    let forest = document(alloc, &[A, B])?;
    Ok((
        judges_nodes(alloc, &forest)?,
        judges_cells(alloc, &forest)?,
        judges_owners(alloc, &forest)?,
    ))
}

fn judges_what_is_in_effect(alloc: Global) -> Result<bool, Fail> {
    let forest = document(alloc, &[A, B])?;
    Ok(judges_schemas(alloc, &forest)?)
}

#[test]
fn finds(rt: HostRuntime) -> Result<(), Fail> {
    let (rows, registers, loose) = judges_what_is_found(rt.alloc())?;
    assert!(rt; rows && registers && loose, "{rows} {registers} {loose}");
    Ok(())
}

#[test]
fn makes(rt: HostRuntime) -> Result<(), Fail> {
    let (nodes, cells, owners) = judges_what_is_made(rt.alloc())?;
    assert!(rt; nodes && cells && owners, "{nodes} {cells} {owners}");
    Ok(())
}

#[test]
fn schemas(rt: HostRuntime) -> Result<(), Fail> {
    let right = judges_what_is_in_effect(rt.alloc())?;
    assert!(rt; right);
    Ok(())
}
