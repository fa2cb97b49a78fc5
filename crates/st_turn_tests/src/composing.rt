//! The same first step, composed with one that goes on from where it leads, and refused before one that doesn't.

ghost use Rattle.std.specs.Prelude.{◌≡◌, true};
ghost use Rattle.st_steps.specs.Short.{HasShortRowsListed};

use crate::turns::{BOTH_FULL, CELL_OF_A, CELL_OF_P, P, first, of_row};
use st_compose::compose;
use st_ids::{FieldId, Or, ROOT};
use st_marks::{How, Mark, Step};
use st_steps::has_short_rows;
use std::alloc::{AllocError, Global};
use std::test::Fail;

// The emptied cell, and the new node that goes again.
const GOES_ON: [Mark; 2] = [
    Mark::Gap(CELL_OF_A),
    Mark::Touch {
        cell: CELL_OF_P,
        node: P,
        how: How::Leave,
    },
];

// What both make of the row: one cell is emptied, and one is made and empty.
const BOTH: [Mark; 2] = [
    Mark::Touch {
        cell: CELL_OF_A,
        node: crate::turns::A,
        how: How::Leave,
    },
    Mark::Make {
        cell: CELL_OF_P,
        node: P,
        full: false,
    },
];

fn is_short(step: &Step) -> bool
    ensures { result ≡ true → HasShortRowsListed step.now }
{
    has_short_rows(step)
}

// The two as one, or the field at which they don't agree.
fn composed(alloc: Global, first: &Step, then: &Step) -> Result<Option<Step>, Or<FieldId>> {
    if !is_short(then) {
        return Ok(None);
    }
    match compose(alloc, first, then) {
        Ok(step) => Ok(Some(step)),
        Err(Or::Fault(apart)) => Err(Or::Fault(apart.field)),
        Err(Or::NoMemory) => Err(Or::NoMemory),
    }
}

fn has_row(step: &Step, marks: &[Mark]) -> bool {
    step.rows.len() == 1
        && step
            .rows
            .get(0)
            .is_some_and(|row| row.node == ROOT && row.marks.as_slice() == marks)
}

fn goes_on(alloc: Global) -> Result<bool, AllocError> {
    let (first, then) = (first(alloc)?, of_row(alloc, ROOT, &GOES_ON)?);
    match composed(alloc, &first, &then) {
        Ok(Some(step)) => Ok(has_row(&step, &BOTH)),
        Ok(None) | Err(Or::Fault(_)) => Ok(false),
        Err(Or::NoMemory) => Err(AllocError),
    }
}

fn is_refused(alloc: Global) -> Result<bool, AllocError> {
    let (first, then) = (first(alloc)?, of_row(alloc, ROOT, &BOTH_FULL)?);
    match composed(alloc, &first, &then) {
        Ok(_) => Ok(false),
        Err(Or::Fault(field)) => Ok(field.node == ROOT && field.key.0.as_str().is_empty()),
        Err(Or::NoMemory) => Err(AllocError),
    }
}

#[test]
fn steps_are_composed_or_refused(rt: HostRuntime) -> Result<(), Fail> {
    let (on, apart) = (goes_on(rt.alloc())?, is_refused(rt.alloc())?);
    assert!(rt; on && apart, "{on} {apart}");
    Ok(())
}
