//! Changes and steps that list a few rows, and the least field at which they clash.

use st_agree::agree;
use st_ids::{Atom, CellId, List, NodeId, OPENING, Or, ROOT, Rev};
use st_marks::{Change, How, Mark, RowMarks, Step};
use std::alloc::{AllocError, Global};
use std::test::Fail;

const REV: Rev = Rev { session: 2, num: 1 };

const NODE_1: NodeId = NodeId(Atom {
    rev: OPENING,
    at: 1,
});

const NODE_2: NodeId = NodeId(Atom {
    rev: OPENING,
    at: 2,
});

const CELL_1: CellId = CellId(Atom {
    rev: OPENING,
    at: 1,
});

const MADE: CellId = CellId(Atom { rev: REV, at: 0 });

/// A cell that is made for a node.
const MAKE: Mark = Mark::Make {
    cell: MADE,
    node: NODE_2,
    full: false,
};

const AT_1: Mark = Mark::Touch {
    cell: CELL_1,
    node: NODE_1,
    how: How::Stay,
};

// The rows that a change lists, and whether it has its base; the rows that a step lists, and the node of the least field at
// which they clash.
#[derive(Clone, Copy)]
struct Pair {
    name: &'static str,
    base: bool,
    change: &'static [(NodeId, &'static [Mark])],
    step: &'static [(NodeId, &'static [Mark])],
    clash: Option<NodeId>,
}

fn push_row(
    alloc: Global,
    rows: &mut List<RowMarks>,
    node: NodeId,
    marks: &[Mark],
) -> Result<(), AllocError> {
    let marks = List::from_vec(marks.to_vec(alloc)?);
    rows.push(RowMarks { node, marks })?;
    Ok(())
}

fn rows(alloc: Global, listed: &[(NodeId, &'static [Mark])]) -> Result<List<RowMarks>, AllocError> {
    let mut rows = List::new(alloc);
    for (node, marks) in listed {
        push_row(alloc, &mut rows, *node, marks)?;
    }
    Ok(rows)
}

fn change(alloc: Global, rows: List<RowMarks>, base: bool) -> Change {
    Change {
        rev: REV,
        under: OPENING,
        base,
        need: List::new(alloc),
        new: List::new(alloc),
        rows,
        regs: List::new(alloc),
        loose: List::new(alloc),
        schema: None,
    }
}

fn step(alloc: Global, rows: List<RowMarks>) -> Step {
    Step {
        new: List::new(alloc),
        rows,
        regs: List::new(alloc),
        loose: List::new(alloc),
        schema: None,
    }
}

fn clash(alloc: Global, change: &Change, step: &Step) -> Result<Option<NodeId>, AllocError> {
    match agree(alloc, change, step) {
        Ok(()) => Ok(None),
        Err(Or::Fault(apart)) => Ok(Some(apart.field.node)),
        Err(Or::NoMemory) => Err(AllocError),
    }
}

fn clash_over(alloc: Global, change: &Change, pair: &Pair) -> Result<Option<NodeId>, AllocError> {
    let step = step(alloc, rows(alloc, pair.step)?);
    clash(alloc, change, &step)
}

fn is_so(alloc: Global, pair: &Pair) -> Result<bool, AllocError> {
    let change = change(alloc, rows(alloc, pair.change)?, pair.base);
    Ok(clash_over(alloc, &change, pair)? == pair.clash)
}

fn wrong_pair(alloc: Global, pairs: &[Pair]) -> Result<Option<&'static str>, AllocError> {
    for pair in pairs {
        if !is_so(alloc, pair)? {
            return Ok(Some(pair.name));
        }
    }
    Ok(None)
}

const PAIRS: [Pair; 6] = [
    Pair {
        name: "one row of two cells, in which the change makes another",
        base: true,
        change: &[(ROOT, &[Mark::Skip(1), MAKE, Mark::Skip(1)])],
        step: &[(ROOT, &[AT_1, Mark::Skip(1)])],
        clash: None,
    },
    Pair {
        name: "a row of more cells",
        base: true,
        change: &[(ROOT, &[Mark::Skip(2)]), (NODE_1, &[Mark::Skip(1)])],
        step: &[(ROOT, &[AT_1]), (NODE_1, &[Mark::Skip(1)])],
        clash: Some(ROOT),
    },
    Pair {
        name: "a cell that is empty in one of both",
        base: true,
        change: &[(ROOT, &[Mark::Skip(2)]), (NODE_1, &[Mark::Skip(1)])],
        step: &[(NODE_1, &[Mark::Gap(CELL_1)])],
        clash: Some(NODE_1),
    },
    Pair {
        name: "a cell in two rows",
        base: true,
        change: &[(NODE_1, &[Mark::Gap(CELL_1)])],
        step: &[(NODE_2, &[Mark::Gap(CELL_1)])],
        clash: Some(NODE_1),
    },
    Pair {
        name: "a cell that the change makes in one row, and the step finds in another",
        base: true,
        change: &[(NODE_2, &[MAKE])],
        step: &[(NODE_1, &[Mark::Gap(MADE)])],
        clash: Some(NODE_1),
    },
    Pair {
        name: "the opening's schema is always in effect",
        base: false,
        change: &[(NODE_1, &[Mark::Skip(1)])],
        step: &[(NODE_1, &[Mark::Skip(1)])],
        clash: Some(ROOT),
    },
];

#[test]
fn clashes_are_found(rt: HostRuntime) -> Result<(), Fail> {
    let wrong = wrong_pair(rt.alloc(), &PAIRS)?;
    assert!(rt; wrong.is_none(), "{wrong:?}");
    Ok(())
}
