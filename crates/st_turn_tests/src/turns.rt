//! Two steps of which the first takes a out of the root's row and puts a new p in, and fills a register; and what is named where
//! the second finds, makes or owns otherwise.

ghost use Rattle.std.specs.Prelude.{◌≡◌, true};
ghost use Rattle.st_ids.specs.Listing.{IsRising};
ghost use Rattle.st_ids.specs.Order.{field_cmp, node_cmp};
ghost use Rattle.st_marks.specs.declared.marks.RegStep.{RegStep as Register};
ghost use Rattle.st_marks.specs.declared.marks.RowMarks.{RowMarks as Row};

use st_agree_turn::{have_schemas_in_turn, push_cells, push_registers, push_rows};
use st_clash::rise;
use st_ids::{Atom, CellId, FieldId, Key, List, NodeId, OPENING, ROOT, Rev, Text};
use st_marks::{How, Loose, Mark, NewNode, RegStep, RowMarks, Step};
use st_turn_names::{push_made, push_owners};
use st_turn_places::push_twice;
use std::alloc::{AllocError, Global};
use std::test::Fail;

const OURS: Rev = Rev { session: 2, num: 1 };

pub(crate) const A: NodeId = NodeId(Atom {
    rev: OPENING,
    at: 1,
});

const Q: NodeId = NodeId(Atom {
    rev: OPENING,
    at: 2,
});

pub(crate) const P: NodeId = NodeId(Atom { rev: OURS, at: 0 });

pub(crate) const CELL_OF_A: CellId = CellId(Atom {
    rev: OPENING,
    at: 1,
});

const CELL_IN_Q: CellId = CellId(Atom {
    rev: OPENING,
    at: 2,
});

pub(crate) const CELL_OF_P: CellId = CellId(Atom { rev: OURS, at: 0 });

const SWAPPED: [Mark; 2] = [
    Mark::Touch {
        cell: CELL_OF_A,
        node: A,
        how: How::Leave,
    },
    Mark::Make {
        cell: CELL_OF_P,
        node: P,
        full: true,
    },
];

// Two full cells, where the first step leaves one of them empty.
pub(crate) const BOTH_FULL: [Mark; 2] = [
    Mark::Skip(1),
    Mark::Touch {
        cell: CELL_OF_P,
        node: P,
        how: How::Stay,
    },
];

// The new cell in another row.
const ELSEWHERE: [Mark; 1] = [Mark::Gap(CELL_OF_P)];

// An old cell that a new node is said to own.
const OWNED: [Mark; 1] = [Mark::Fill {
    cell: CELL_IN_Q,
    node: P,
}];

// The new node in another row than its own.
const FOUND_IN_Q: [Mark; 1] = [Mark::Touch {
    cell: CELL_IN_Q,
    node: P,
    how: How::Stay,
}];

fn push_row(
    alloc: Global,
    step: &mut Step,
    node: NodeId,
    marks: &[Mark],
) -> Result<(), AllocError> {
    let marks = List::from_vec(marks.to_vec(alloc)?);
    step.rows.push(RowMarks { node, marks })?;
    Ok(())
}

fn push_new(alloc: Global, step: &mut Step) -> Result<(), AllocError> {
    let ty = Text::from_str(alloc, "t")?;
    step.new.push(NewNode {
        node: P,
        ty,
        leaf: None,
    })?;
    Ok(())
}

// The root's register, filled where it was empty.
fn push_filled(alloc: Global, step: &mut Step) -> Result<(), AllocError> {
    let key = Key(Text::from_str(alloc, "k")?);
    step.regs.push(RegStep {
        field: FieldId { node: ROOT, key },
        before: None,
        after: Some(A),
    })?;
    Ok(())
}

fn no_step(alloc: Global) -> Step {
    Step {
        new: List::new(alloc),
        rows: List::new(alloc),
        regs: List::new(alloc),
        loose: List::new(alloc),
        schema: None,
    }
}

pub(crate) fn first(alloc: Global) -> Result<Step, AllocError> {
    let mut step = no_step(alloc);
    push_new(alloc, &mut step)?;
    push_row(alloc, &mut step, ROOT, &SWAPPED)?;
    push_filled(alloc, &mut step)?;
    Ok(step)
}

pub(crate) fn of_row(alloc: Global, node: NodeId, marks: &[Mark]) -> Result<Step, AllocError> {
    let mut step = no_step(alloc);
    push_row(alloc, &mut step, node, marks)?;
    Ok(step)
}

fn name_nodes(found: &List<FieldId>, nodes: &[NodeId]) -> bool {
    found.len() == nodes.len()
        && found
            .as_slice()
            .iter()
            .zip(nodes)
            .all(|(field, node)| field.node == *node)
}

fn rows_rise(step: &Step) -> bool
    ensures { result ≡ true → IsRising node_cmp (λ (r : Row). r.node) step.now.rows }
{
    rise(step.rows.as_slice())
}

fn registers_rise(step: &Step) -> bool
    ensures { result ≡ true → IsRising field_cmp (λ (r : Register). r.field) step.now.regs }
{
    rise(step.regs.as_slice())
}

// The rows that are found otherwise, if the rows rise.
fn rows_apart(alloc: Global, first: &Step, then: &Step) -> Result<List<FieldId>, AllocError> {
    let mut found = List::new(alloc);
    if rows_rise(then) {
        push_rows(alloc, &mut found, first, then)?;
    }
    Ok(found)
}

fn rows_are_named(alloc: Global, first: &Step) -> Result<bool, AllocError> {
    let then = of_row(alloc, ROOT, &BOTH_FULL)?;
    let found = rows_apart(alloc, first, &then)?;
    Ok(name_nodes(&found, &[ROOT]))
}

// The rows of cells that are found elsewhere, if the rows rise.
fn cells_apart(alloc: Global, first: &Step, then: &Step) -> Result<List<FieldId>, AllocError> {
    let mut found = List::new(alloc);
    if rows_rise(first) && rows_rise(then) {
        push_cells(alloc, &mut found, first, then)?;
    }
    Ok(found)
}

fn cells_are_named(alloc: Global, first: &Step) -> Result<bool, AllocError> {
    let then = of_row(alloc, Q, &ELSEWHERE)?;
    let found = cells_apart(alloc, first, &then)?;
    Ok(name_nodes(&found, &[ROOT, Q]))
}

// The rows of cells that are owned too early, if the rows rise.
fn owned_early(alloc: Global, first: &Step, then: &Step) -> Result<List<FieldId>, AllocError> {
    let mut found = List::new(alloc);
    if rows_rise(first) && rows_rise(then) {
        push_owners(alloc, &mut found, first, then)?;
    }
    Ok(found)
}

fn owners_are_named(alloc: Global, first: &Step) -> Result<bool, AllocError> {
    let then = of_row(alloc, Q, &OWNED)?;
    let found = owned_early(alloc, first, &then)?;
    Ok(name_nodes(&found, &[Q]))
}

// A step that fills the register again, and makes the new node again.
fn again(alloc: Global) -> Result<Step, AllocError> {
    let mut step = no_step(alloc);
    push_new(alloc, &mut step)?;
    push_filled(alloc, &mut step)?;
    Ok(step)
}

// The registers that are found otherwise, if they rise.
fn registers_apart(alloc: Global, first: &Step, then: &Step) -> Result<List<FieldId>, AllocError> {
    let mut found = List::new(alloc);
    if registers_rise(then) {
        push_registers(alloc, &mut found, first, then)?;
    }
    Ok(found)
}

fn registers_are_named(alloc: Global, first: &Step) -> Result<bool, AllocError> {
    let then = again(alloc)?;
    let found = registers_apart(alloc, first, &then)?;
    Ok(name_nodes(&found, &[ROOT]))
}

// The new node is named twice by the first: where it is made, and in its cell.
fn made_nodes_are_named(alloc: Global, first: &Step) -> Result<bool, AllocError> {
    let then = again(alloc)?;
    let mut found = List::new(alloc);
    push_made(alloc, &mut found, first, &then)?;
    Ok(name_nodes(&found, &[P, P]) && have_schemas_in_turn(first, &then))
}

// The fields of nodes that are found elsewhere, if the first's rows and registers rise.
fn places_apart(alloc: Global, first: &Step, then: &Step) -> Result<List<FieldId>, AllocError>
    requires rows { IsRising node_cmp (λ (r : Row). r.node) then.now.rows }
    requires regs { IsRising field_cmp (λ (r : Register). r.field) then.now.regs }
{
    let mut found = List::new(alloc);
    if rows_rise(first) && registers_rise(first) {
        push_twice(alloc, &mut found, first, then)?;
    }
    Ok(found)
}

// The same, if the second's rise too.
fn nodes_twice(alloc: Global, first: &Step, then: &Step) -> Result<List<FieldId>, AllocError> {
    if rows_rise(then) && registers_rise(then) {
        places_apart(alloc, first, then)
    } else {
        Ok(List::new(alloc))
    }
}

// The new node is found in q, and a, which is left in the register, nowhere.
fn strayed(alloc: Global) -> Result<Step, AllocError> {
    let mut step = of_row(alloc, Q, &FOUND_IN_Q)?;
    step.loose.push(Loose {
        node: A,
        how: How::Stay,
    })?;
    Ok(step)
}

fn places_are_named(alloc: Global, first: &Step) -> Result<bool, AllocError> {
    let then = strayed(alloc)?;
    let found = nodes_twice(alloc, first, &then)?;
    Ok(name_nodes(&found, &[ROOT, Q, ROOT]))
}

#[test]
fn fields_are_named(rt: HostRuntime) -> Result<(), Fail> {
    let alloc = rt.alloc();
    let first = first(alloc)?;
    let (rows, cells, places) = (
        rows_are_named(alloc, &first)?,
        cells_are_named(alloc, &first)?,
        places_are_named(alloc, &first)?,
    );
    assert!(rt; rows && cells && places, "{rows} {cells} {places}");
    Ok(())
}

#[test]
fn names_and_registers_are_named(rt: HostRuntime) -> Result<(), Fail> {
    let alloc = rt.alloc();
    let first = first(alloc)?;
    let (owners, registers, made) = (
        owners_are_named(alloc, &first)?,
        registers_are_named(alloc, &first)?,
        made_nodes_are_named(alloc, &first)?,
    );
    assert!(rt; owners && registers && made, "{owners} {registers} {made}");
    Ok(())
}
