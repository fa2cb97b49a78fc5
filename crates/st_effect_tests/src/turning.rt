//! Steps that list a few rows, loose nodes and schemas: two in turn and the step over both, what is left of that behind the first, and
//! the way back over one.

use crate::names::{
    A, A_COMES, A_LEAVES, B, B_STAYS, CELL_OF_A, CELL_OF_P, EMPTY_CELL, OURS, P, P_PUT, P_UNPUT, Q,
    Q_PUT, new_nodes, rows,
};
use st_ids::{List, NodeId, OPENING, ROOT, Rev, Text};
use st_marks::{How, Loose, Mark, SchemaEntry, SchemaStep, Step};
use st_steps::{compose_agreed, has_short_rows, invert};
use st_strip::strip;
use std::alloc::{AllocError, Global};
use std::test::Fail;

const THEIRS: Rev = Rev { session: 1, num: 1 };

const A_RETURNS: Mark = Mark::Fill {
    cell: CELL_OF_A,
    node: A,
};

const A_GOES_BACK: Mark = Mark::Touch {
    cell: EMPTY_CELL,
    node: A,
    how: How::Leave,
};

const P_LEAVES: Mark = Mark::Touch {
    cell: CELL_OF_P,
    node: P,
    how: How::Leave,
};

const P_COMES: Mark = Mark::Fill {
    cell: CELL_OF_P,
    node: P,
};

const P_WAS_NOWHERE: Loose = Loose {
    node: P,
    how: How::Leave,
};

const A_WAS_NOWHERE: Loose = Loose {
    node: A,
    how: How::Leave,
};

// What a step lists: new nodes, rows, nodes that are nowhere, and the schemas that go and come behind the first.
#[derive(Clone, Copy)]
struct Listed {
    new: &'static [NodeId],
    rows: &'static [(NodeId, &'static [Mark])],
    loose: &'static [Loose],
    cut: &'static [Rev],
    add: &'static [Rev],
}

fn push_schema(alloc: Global, schemas: &mut List<SchemaEntry>, rev: Rev) -> Result<(), AllocError> {
    let text = Text::from_str(alloc, "s")?;
    schemas.push(SchemaEntry { rev, text })?;
    Ok(())
}

fn schemas(alloc: Global, revs: &[Rev]) -> Result<List<SchemaEntry>, AllocError> {
    let mut schemas = List::new(alloc);
    for rev in revs {
        push_schema(alloc, &mut schemas, *rev)?;
    }
    Ok(schemas)
}

fn schema_step(alloc: Global, listed: &Listed) -> Result<Option<SchemaStep>, AllocError> {
    if listed.cut.is_empty() && listed.add.is_empty() {
        return Ok(None);
    }
    let cut = schemas(alloc, listed.cut)?;
    let add = schemas(alloc, listed.add)?;
    Ok(Some(SchemaStep {
        on: OPENING,
        cut,
        add,
    }))
}

fn fill(alloc: Global, step: &mut Step, listed: &Listed) -> Result<(), AllocError> {
    step.new = new_nodes(alloc, listed.new)?;
    step.rows = rows(alloc, listed.rows)?;
    step.loose = List::from_vec(listed.loose.to_vec(alloc)?);
    step.schema = schema_step(alloc, listed)?;
    Ok(())
}

fn step(alloc: Global, listed: &Listed) -> Result<Step, AllocError> {
    let mut step = Step {
        new: List::new(alloc),
        rows: List::new(alloc),
        regs: List::new(alloc),
        loose: List::new(alloc),
        schema: None,
    };
    fill(alloc, &mut step, listed)?;
    Ok(step)
}

// Whether a step lists this.
fn is_step(alloc: Global, made: &Step, listed: &Listed) -> Result<bool, AllocError> {
    Ok(step(alloc, listed)? == *made)
}

// Two steps in turn, and the step over both.
#[derive(Clone, Copy)]
struct InTurn {
    name: &'static str,
    first: &'static Listed,
    second: &'static Listed,
    both: &'static Listed,
}

fn composes(alloc: Global, first: &Step, second: &Step, both: &Listed) -> Result<bool, AllocError> {
    if !has_short_rows(second) {
        return Ok(false);
    }
    let made = compose_agreed(alloc, first, second)?;
    is_step(alloc, &made, both)
}

fn goes_on(alloc: Global, first: &Step, case: &InTurn) -> Result<bool, AllocError> {
    let second = step(alloc, case.second)?;
    composes(alloc, first, &second, case.both)
}

fn is_both(alloc: Global, case: &InTurn) -> Result<bool, AllocError> {
    let first = step(alloc, case.first)?;
    goes_on(alloc, &first, case)
}

fn wrong_turn(alloc: Global, cases: &[InTurn]) -> Result<Option<&'static str>, AllocError> {
    for case in cases {
        if !is_both(alloc, case)? {
            return Ok(Some(case.name));
        }
    }
    Ok(None)
}

// What is left of the step over both behind the first is the second.
fn strips(alloc: Global, first: &Step, both: &Step, second: &Listed) -> Result<bool, AllocError> {
    if !has_short_rows(first) || !has_short_rows(both) {
        return Ok(false);
    }
    let made = strip(alloc, first, both)?;
    is_step(alloc, &made, second)
}

fn leaves(alloc: Global, first: &Step, case: &InTurn) -> Result<bool, AllocError> {
    let both = step(alloc, case.both)?;
    strips(alloc, first, &both, case.second)
}

fn is_rest(alloc: Global, case: &InTurn) -> Result<bool, AllocError> {
    let first = step(alloc, case.first)?;
    leaves(alloc, &first, case)
}

fn wrong_rest(alloc: Global, cases: &[InTurn]) -> Result<Option<&'static str>, AllocError> {
    for case in cases {
        if !is_rest(alloc, case)? {
            return Ok(Some(case.name));
        }
    }
    Ok(None)
}

// A step, and the way back over it.
#[derive(Clone, Copy)]
struct Back {
    name: &'static str,
    step: &'static Listed,
    back: &'static Listed,
}

fn turns_round(alloc: Global, step: &Step, back: &Listed) -> Result<bool, AllocError> {
    if !has_short_rows(step) {
        return Ok(false);
    }
    let made = invert(alloc, step)?;
    is_step(alloc, &made, back)
}

fn is_back(alloc: Global, case: &Back) -> Result<bool, AllocError> {
    let there = step(alloc, case.step)?;
    turns_round(alloc, &there, case.back)
}

fn wrong_back(alloc: Global, cases: &[Back]) -> Result<Option<&'static str>, AllocError> {
    for case in cases {
        if !is_back(alloc, case)? {
            return Ok(Some(case.name));
        }
    }
    Ok(None)
}

const MOVED: Listed = Listed {
    new: &[],
    rows: &[(ROOT, &[A_LEAVES, B_STAYS]), (B, &[A_COMES])],
    loose: &[],
    cut: &[],
    add: &[],
};

const MOVED_BACK: Listed = Listed {
    new: &[],
    rows: &[(ROOT, &[A_RETURNS, B_STAYS]), (B, &[A_GOES_BACK])],
    loose: &[],
    cut: &[],
    add: &[],
};

const P_MADE: Listed = Listed {
    new: &[P],
    rows: &[(ROOT, &[Mark::Skip(1), P_PUT])],
    loose: &[],
    cut: &[],
    add: &[],
};

const P_MADE_APART: Listed = Listed {
    new: &[P],
    rows: &[(ROOT, &[Mark::Skip(1), P_UNPUT])],
    loose: &[],
    cut: &[],
    add: &[],
};

const TURNS: [InTurn; 4] = [
    InTurn {
        name: "a new node is taken out again",
        first: &P_MADE,
        second: &Listed {
            new: &[],
            rows: &[(ROOT, &[Mark::Skip(1), P_LEAVES])],
            loose: &[],
            cut: &[],
            add: &[],
        },
        both: &P_MADE_APART,
    },
    InTurn {
        name: "a new node is put later",
        first: &P_MADE_APART,
        second: &Listed {
            new: &[],
            rows: &[(ROOT, &[Mark::Skip(1), P_COMES])],
            loose: &[P_WAS_NOWHERE],
            cut: &[],
            add: &[],
        },
        both: &P_MADE,
    },
    InTurn {
        name: "a node goes to another row, and back",
        first: &MOVED,
        second: &MOVED_BACK,
        both: &Listed {
            new: &[],
            rows: &[],
            loose: &[],
            cut: &[],
            add: &[],
        },
    },
    InTurn {
        name: "a new node comes in, and a node goes",
        first: &P_MADE,
        second: &Listed {
            new: &[],
            rows: &[(ROOT, &[A_LEAVES, Mark::Skip(1)])],
            loose: &[],
            cut: &[],
            add: &[],
        },
        both: &Listed {
            new: &[P],
            rows: &[(ROOT, &[A_LEAVES, P_PUT])],
            loose: &[],
            cut: &[],
            add: &[],
        },
    },
];

#[test]
fn steps_in_turn_are_one(rt: HostRuntime) -> Result<(), Fail> {
    let wrong = wrong_turn(rt.alloc(), &TURNS)?;
    assert!(rt; wrong.is_none(), "{wrong:?}");
    Ok(())
}

const SCHEMA_TURNS: [InTurn; 2] = [
    InTurn {
        name: "a schema comes, and goes for another",
        first: &Listed {
            new: &[],
            rows: &[],
            loose: &[],
            cut: &[],
            add: &[OURS],
        },
        second: &Listed {
            new: &[],
            rows: &[],
            loose: &[],
            cut: &[OURS],
            add: &[THEIRS],
        },
        both: &Listed {
            new: &[],
            rows: &[],
            loose: &[],
            cut: &[],
            add: &[THEIRS],
        },
    },
    InTurn {
        name: "a schema goes, and comes again",
        first: &Listed {
            new: &[],
            rows: &[],
            loose: &[],
            cut: &[OURS],
            add: &[THEIRS],
        },
        second: &Listed {
            new: &[],
            rows: &[],
            loose: &[],
            cut: &[THEIRS],
            add: &[OURS],
        },
        both: &Listed {
            new: &[],
            rows: &[],
            loose: &[],
            cut: &[],
            add: &[],
        },
    },
];

#[test]
fn schemas_in_turn_are_one(rt: HostRuntime) -> Result<(), Fail> {
    let wrong = wrong_turn(rt.alloc(), &SCHEMA_TURNS)?;
    assert!(rt; wrong.is_none(), "{wrong:?}");
    Ok(())
}

#[test]
fn first_parts_are_stripped(rt: HostRuntime) -> Result<(), Fail> {
    let rows = wrong_rest(rt.alloc(), &TURNS)?;
    let schemas = wrong_rest(rt.alloc(), &SCHEMA_TURNS)?;
    assert!(rt; rows.is_none() && schemas.is_none(), "{rows:?} {schemas:?}");
    Ok(())
}

const BACKS: [Back; 5] = [
    Back {
        name: "who went to another row goes back",
        step: &MOVED,
        back: &MOVED_BACK,
    },
    Back {
        name: "a new node leaves, and who is new in its row stays",
        step: &Listed {
            new: &[P, Q],
            rows: &[(ROOT, &[Mark::Skip(1), P_PUT]), (P, &[Q_PUT])],
            loose: &[],
            cut: &[],
            add: &[],
        },
        back: &Listed {
            new: &[],
            rows: &[(ROOT, &[Mark::Skip(1), P_LEAVES])],
            loose: &[],
            cut: &[],
            add: &[],
        },
    },
    Back {
        name: "who was taken out was nowhere",
        step: &Listed {
            new: &[],
            rows: &[(ROOT, &[A_LEAVES, Mark::Skip(1)])],
            loose: &[],
            cut: &[],
            add: &[],
        },
        back: &Listed {
            new: &[],
            rows: &[(ROOT, &[A_RETURNS, Mark::Skip(1)])],
            loose: &[A_WAS_NOWHERE],
            cut: &[],
            add: &[],
        },
    },
    Back {
        name: "who was nowhere is taken out",
        step: &Listed {
            new: &[],
            rows: &[(ROOT, &[A_RETURNS, Mark::Skip(1)])],
            loose: &[A_WAS_NOWHERE],
            cut: &[],
            add: &[],
        },
        back: &Listed {
            new: &[],
            rows: &[(ROOT, &[A_LEAVES, Mark::Skip(1)])],
            loose: &[],
            cut: &[],
            add: &[],
        },
    },
    Back {
        name: "a schema goes that came",
        step: &Listed {
            new: &[],
            rows: &[],
            loose: &[],
            cut: &[THEIRS],
            add: &[OURS],
        },
        back: &Listed {
            new: &[],
            rows: &[],
            loose: &[],
            cut: &[OURS],
            add: &[THEIRS],
        },
    },
];

#[test]
fn steps_turn_round(rt: HostRuntime) -> Result<(), Fail> {
    let wrong = wrong_back(rt.alloc(), &BACKS)?;
    assert!(rt; wrong.is_none(), "{wrong:?}");
    Ok(())
}
