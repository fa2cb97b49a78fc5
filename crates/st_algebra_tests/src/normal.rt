//! A change and a step in normal form, and one of each that isn't.

use st_ids::{Atom, CellId, List, NodeId, OPENING, ROOT, Rev, Text};
use st_marks::{Change, Mark, NewNode, RowMarks, SchemaStep, Step};
use st_normal::{Check, NotNormal};
use std::alloc::{AllocError, Global};
use std::test::Fail;

const REV: Rev = Rev { session: 2, num: 1 };

const NODE: NodeId = NodeId(Atom { rev: REV, at: 1 });

const MADE: Mark = Mark::Make {
    cell: CellId(Atom { rev: REV, at: 2 }),
    node: NODE,
    full: true,
};

fn new_node(alloc: Global) -> Result<List<NewNode>, AllocError> {
    let ty = Text::from_str(alloc, "note")?;
    let mut list = List::new(alloc);
    list.push(NewNode {
        node: NODE,
        ty,
        leaf: None,
    })?;
    Ok(list)
}

fn row_of_root(alloc: Global, marks: &[Mark]) -> Result<List<RowMarks>, AllocError> {
    let marks = List::from_vec(marks.to_vec(alloc)?);
    let mut list = List::new(alloc);
    list.push(RowMarks { node: ROOT, marks })?;
    Ok(list)
}

// What the test says of a change that puts the new node into the root's row.
fn of_change(alloc: Global, marks: &[Mark]) -> Result<Result<(), NotNormal>, AllocError> {
    let rows = row_of_root(alloc, marks)?;
    let new = new_node(alloc)?;
    let change = Change {
        rev: REV,
        under: OPENING,
        base: true,
        need: List::new(alloc),
        new,
        rows,
        regs: List::new(alloc),
        loose: List::new(alloc),
        schema: None,
    };
    Ok(change.check())
}

// What the test says of a step of that row, with entries that neither go nor come.
fn of_step(alloc: Global, marks: &[Mark], entries: bool) -> Result<bool, AllocError> {
    let rows = row_of_root(alloc, marks)?;
    let new = new_node(alloc)?;
    let none = SchemaStep {
        on: OPENING,
        cut: List::new(alloc),
        add: List::new(alloc),
    };
    let step = Step {
        new,
        rows,
        regs: List::new(alloc),
        loose: List::new(alloc),
        schema: if entries { Some(none) } else { None },
    };
    Ok(step.check().is_ok())
}

#[test]
fn judges_changes(rt: HostRuntime) -> Result<(), Fail> {
    let normal = of_change(rt.alloc(), &[Mark::Skip(2), MADE])? == Ok(());
    let refused = of_change(rt.alloc(), &[Mark::Skip(0), MADE])? == Err(NotNormal);
    assert!(rt; normal && refused, "{normal} {refused}");
    Ok(())
}

#[test]
fn judges_steps(rt: HostRuntime) -> Result<(), Fail> {
    let normal = of_step(rt.alloc(), &[Mark::Skip(2), MADE], false)?;
    let refused = !of_step(rt.alloc(), &[Mark::Skip(2), MADE], true)?;
    assert!(rt; normal && refused, "{normal} {refused}");
    Ok(())
}
