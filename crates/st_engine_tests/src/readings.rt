//! Empty cells of a change and of a step, counted and named again by a forest in which the only cell of the root's row is empty.
use crate::forests::{node, opened, promotion};
use crate::rebases::{change_of, has_marks, make, row_of, tells};
use st_forest::Forest;
use st_ids::{Atom, CellId, List, OPENING};
use st_listed::{list_change, list_step};
use st_marks::{Mark, Step};
use st_thin::{thin_change, thin_step};
use std::alloc::Global;
use std::test::Fail;

// The cell of the opening's text, which is empty.
fn empty() -> Mark {
    Mark::Gap(CellId(Atom {
        rev: OPENING,
        at: 0,
    }))
}

// The opening without its text, which is the title.
fn emptied(alloc: Global) -> Result<Forest, Fail> {
    let mut forest = opened(alloc)?;
    forest.apply(alloc, &promotion(alloc)?)?;
    Ok(forest)
}

// A change that makes a cell at the row's start.
fn changes(alloc: Global) -> Result<bool, Fail> {
    let forest = emptied(alloc)?;
    let mut change = change_of(alloc, &[make(4), empty()])?;
    thin_change(alloc, &mut change)?;
    let thin = has_marks(&change, &[make(4), Mark::Skip(1)]);
    list_change(alloc, &forest, &mut change)?;
    Ok(thin && has_marks(&change, &[make(4), empty()]))
}

// A step that says nothing of the cell.
fn steps(alloc: Global) -> Result<bool, Fail> {
    let forest = emptied(alloc)?;
    let mut step = Step {
        new: List::new(alloc),
        rows: row_of(alloc, &[empty()])?,
        regs: List::new(alloc),
        loose: List::new(alloc),
        schema: None,
    };
    thin_step(alloc, &mut step)?;
    let thin = tells(&step, &[Mark::Skip(1)]);
    list_step(alloc, &forest, &mut step)?;
    Ok(thin && tells(&step, &[empty()]) && forest.node(node(1)).is_some())
}

#[test]
fn empty_cells_are_counted_and_named(rt: HostRuntime) -> Result<(), Fail> {
    let (a, b) = (changes(rt.alloc())?, steps(rt.alloc())?);
    assert!(rt; a && b, "{a} {b}");
    Ok(())
}
