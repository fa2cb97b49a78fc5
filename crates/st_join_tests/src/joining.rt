//! Parts of one commit of which the first puts a new p into the root's row, and what is named where the second doesn't go on from it.

use st_ids::{Atom, CellId, List, NodeId, OPENING, Or, ROOT, Rev, Text};
use st_join_parts::{agree_parts, clashes_of_parts};
use st_marks::{Change, How, Mark, NewNode, RowMarks};
use std::alloc::{AllocError, Global};
use std::test::Fail;

const OURS: Rev = Rev { session: 2, num: 1 };

const A: NodeId = NodeId(Atom {
    rev: OPENING,
    at: 1,
});

const P: NodeId = NodeId(Atom { rev: OURS, at: 0 });

const Q: NodeId = NodeId(Atom { rev: OURS, at: 1 });

const CELL_OF_A: CellId = CellId(Atom {
    rev: OPENING,
    at: 1,
});

const CELL_OF_P: CellId = CellId(Atom { rev: OURS, at: 0 });

const CELL_OF_Q: CellId = CellId(Atom { rev: OURS, at: 1 });

const CELL_IN_Q: CellId = CellId(Atom { rev: OURS, at: 2 });

// A new cell with the new node in it.
const PUTS_P: [Mark; 1] = [Mark::Make {
    cell: CELL_OF_P,
    node: P,
    full: true,
}];

const TAKES_P: [Mark; 1] = [Mark::Touch {
    cell: CELL_OF_P,
    node: P,
    how: How::Leave,
}];

// The cell found empty.
const FINDS_NOBODY: [Mark; 1] = [Mark::Gap(CELL_OF_P)];

const PUTS_Q: [Mark; 1] = [Mark::Make {
    cell: CELL_OF_Q,
    node: Q,
    full: true,
}];

const PUTS_P_IN: [Mark; 1] = [Mark::Make {
    cell: CELL_IN_Q,
    node: P,
    full: true,
}];

const PUTS_A: [Mark; 1] = [Mark::Fill {
    cell: CELL_OF_A,
    node: A,
}];

fn no_change(alloc: Global) -> Change {
    Change {
        rev: OURS,
        under: OPENING,
        base: true,
        need: List::new(alloc),
        new: List::new(alloc),
        rows: List::new(alloc),
        regs: List::new(alloc),
        loose: List::new(alloc),
        schema: None,
    }
}

fn push_new(alloc: Global, change: &mut Change, node: NodeId) -> Result<(), AllocError> {
    let ty = Text::from_str(alloc, "t")?;
    change.new.push(NewNode {
        node,
        ty,
        leaf: None,
    })?;
    Ok(())
}

fn push_row(
    alloc: Global,
    change: &mut Change,
    node: NodeId,
    marks: &[Mark],
) -> Result<(), AllocError> {
    let marks = List::from_vec(marks.to_vec(alloc)?);
    change.rows.push(RowMarks { node, marks })?;
    Ok(())
}

// A change of one row.
fn of_row(alloc: Global, node: NodeId, marks: &[Mark]) -> Result<Change, AllocError> {
    let mut change = no_change(alloc);
    push_row(alloc, &mut change, node, marks)?;
    Ok(change)
}

// A change that makes a node, and puts it nowhere.
fn of_new(alloc: Global, node: NodeId) -> Result<Change, AllocError> {
    let mut change = no_change(alloc);
    push_new(alloc, &mut change, node)?;
    Ok(change)
}

// A new p in the root's row; it needs a.
fn first(alloc: Global) -> Result<Change, AllocError> {
    let mut change = of_row(alloc, ROOT, &PUTS_P)?;
    push_new(alloc, &mut change, P)?;
    change.need.push(A)?;
    Ok(change)
}

// The same, with a new q in p's row.
fn nested(alloc: Global) -> Result<Change, AllocError> {
    let mut change = first(alloc)?;
    push_new(alloc, &mut change, Q)?;
    push_row(alloc, &mut change, P, &PUTS_Q)?;
    Ok(change)
}

// A part that takes p out of the root's row and puts it into that of a node.
fn moving(alloc: Global, into: NodeId) -> Result<Change, AllocError> {
    let mut change = of_row(alloc, ROOT, &TAKES_P)?;
    push_row(alloc, &mut change, into, &PUTS_P_IN)?;
    Ok(change)
}

// Whose row is named, where two parts don't agree and no register is named.
fn named(alloc: Global, first: &Change, then: &Change) -> Result<Option<NodeId>, AllocError> {
    match agree_parts(alloc, first, then) {
        Err(Or::Fault(apart)) if apart.field.key.0.is_empty() => Ok(Some(apart.field.node)),
        Ok(()) | Err(Or::Fault(_)) => Ok(None),
        Err(Or::NoMemory) => Err(AllocError),
    }
}

// What goes on is not refused.
fn goes_on(alloc: Global) -> Result<bool, AllocError> {
    let (first, then) = (nested(alloc)?, moving(alloc, A)?);
    Ok(clashes_of_parts(alloc, &first, &then)?.is_empty())
}

// The row of p is found empty, p is made again, and a is made though it is needed.
fn rows_are_named(alloc: Global) -> Result<bool, AllocError> {
    let (first, then) = (first(alloc)?, of_row(alloc, ROOT, &FINDS_NOBODY)?);
    Ok(named(alloc, &first, &then)? == Some(ROOT))
}

fn made_nodes_are_named(alloc: Global, node: NodeId) -> Result<bool, AllocError> {
    let (first, then) = (first(alloc)?, of_new(alloc, node)?);
    Ok(named(alloc, &first, &then)? == Some(node))
}

// Another commit, and a schema that one alone has.
fn others_are_refused(alloc: Global) -> Result<bool, AllocError> {
    let (first, mut then) = (first(alloc)?, no_change(alloc));
    then.rev = OPENING;
    let other = named(alloc, &first, &then)?;
    then.rev = OURS;
    then.base = false;
    Ok(other == Some(ROOT) && named(alloc, &first, &then)? == Some(ROOT))
}

// A node that is left in its own row.
fn rings_are_refused(alloc: Global) -> Result<bool, AllocError> {
    let (first, then) = (of_row(alloc, A, &PUTS_A)?, no_change(alloc));
    Ok(named(alloc, &first, &then)? == Some(ROOT))
}

// The first puts q into p, the second p into q: nothing else is named.
fn made_rings_are_refused(alloc: Global) -> Result<bool, AllocError> {
    let (first, then) = (nested(alloc)?, moving(alloc, Q)?);
    let found = clashes_of_parts(alloc, &first, &then)?;
    Ok(found.len() == 1 && named(alloc, &first, &then)? == Some(ROOT))
}

#[test]
fn fields_are_named(rt: HostRuntime) -> Result<(), Fail> {
    let alloc = rt.alloc();
    let (on, rows) = (goes_on(alloc)?, rows_are_named(alloc)?);
    let (again, needed) = (
        made_nodes_are_named(alloc, P)?,
        made_nodes_are_named(alloc, A)?,
    );
    assert!(rt;
        on && rows && again && needed,
        "{on} {rows} {again} {needed}"
    );
    Ok(())
}

#[test]
fn no_parts_are_refused(rt: HostRuntime) -> Result<(), Fail> {
    let alloc = rt.alloc();
    let others = others_are_refused(alloc)?;
    let (rings, made) = (rings_are_refused(alloc)?, made_rings_are_refused(alloc)?);
    assert!(rt; others && rings && made, "{others} {rings} {made}");
    Ok(())
}
