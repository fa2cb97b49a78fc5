//! Worked cases of a rebase: a change of a few rows and registers, a step over the same document, and the change after it.

use st_family::rebase;
use st_ids::{Atom, CellId, FieldId, Key, List, NodeId, OPENING, Or, ROOT, Rev, Text};
use st_marks::{Change, How, Loose, Mark, NewNode, RegMark, RegStep, RowMarks, Step};
use st_rebase::has_room_in_rows;
use std::alloc::{AllocError, Global};
use std::test::Fail;

const OURS: Rev = Rev { session: 2, num: 1 };

const THEIRS: Rev = Rev { session: 1, num: 1 };

const A: NodeId = NodeId(Atom {
    rev: OPENING,
    at: 1,
});

const B: NodeId = NodeId(Atom {
    rev: OPENING,
    at: 2,
});

const C: NodeId = NodeId(Atom {
    rev: OPENING,
    at: 3,
});

/// The node that the change makes, and the one that the step makes.
const P: NodeId = NodeId(Atom { rev: OURS, at: 0 });

const Q: NodeId = NodeId(Atom { rev: THEIRS, at: 0 });

/// The cells in which the nodes stand first, and those that are made.
const OF_A: CellId = CellId(Atom {
    rev: OPENING,
    at: 1,
});

const OF_B: CellId = CellId(Atom {
    rev: OPENING,
    at: 2,
});

const OF_C: CellId = CellId(Atom {
    rev: OPENING,
    at: 3,
});

const OURS_MADE: CellId = CellId(Atom { rev: OURS, at: 0 });

const THEIRS_MADE: CellId = CellId(Atom { rev: THEIRS, at: 0 });

const MAKE_P: Mark = Mark::Make {
    cell: OURS_MADE,
    node: P,
    full: true,
};

const MAKE_Q: Mark = Mark::Make {
    cell: THEIRS_MADE,
    node: Q,
    full: true,
};

/// Marks of the nodes where they stand first, and of those that the step moves to the new cell.
const A_COMES: Mark = Mark::Make {
    cell: THEIRS_MADE,
    node: A,
    full: true,
};

const A_IS_SET: Mark = Mark::Touch {
    cell: OF_A,
    node: A,
    how: How::Here,
};

const A_LEAVES: Mark = Mark::Touch {
    cell: OF_A,
    node: A,
    how: How::Leave,
};

const A_MOVED_LEAVES: Mark = Mark::Touch {
    cell: THEIRS_MADE,
    node: A,
    how: How::Leave,
};

const A_STAYS: Mark = Mark::Touch {
    cell: OF_A,
    node: A,
    how: How::Stay,
};

const B_COMES: Mark = Mark::Make {
    cell: THEIRS_MADE,
    node: B,
    full: true,
};

const B_LEAVES: Mark = Mark::Touch {
    cell: OF_B,
    node: B,
    how: How::Leave,
};

const B_MOVED_STAYS: Mark = Mark::Touch {
    cell: THEIRS_MADE,
    node: B,
    how: How::Stay,
};

const B_STAYS: Mark = Mark::Touch {
    cell: OF_B,
    node: B,
    how: How::Stay,
};

const C_COMES: Mark = Mark::Make {
    cell: THEIRS_MADE,
    node: C,
    full: true,
};

const C_LEAVES: Mark = Mark::Touch {
    cell: OF_C,
    node: C,
    how: How::Leave,
};

const C_MOVED_STAYS: Mark = Mark::Touch {
    cell: THEIRS_MADE,
    node: C,
    how: How::Stay,
};

const C_STAYS: Mark = Mark::Touch {
    cell: OF_C,
    node: C,
    how: How::Stay,
};

type Row = (NodeId, &'static [Mark]);

// A register of a node under the key `k`: its occupant, what becomes of it, whether it is cleared, and who comes in.
type Register = (NodeId, Option<NodeId>, How, bool, Option<NodeId>);

// What is listed of a change.
#[derive(Clone, Copy)]
struct Listed {
    rows: &'static [Row],
    regs: &'static [Register],
    loose: &'static [Loose],
}

// What is listed of a step: rows, and of registers the occupants before and after.
#[derive(Clone, Copy)]
struct Between {
    rows: &'static [Row],
    regs: &'static [(NodeId, Option<NodeId>, Option<NodeId>)],
    makes: bool,
}

#[derive(Clone, Copy)]
struct Case {
    name: &'static str,
    makes: bool,
    need: Option<NodeId>,
    change: Listed,
    step: Between,
    after: Listed,
}

fn push_row(alloc: Global, rows: &mut List<RowMarks>, row: Row) -> Result<(), AllocError> {
    let marks = List::from_vec(row.1.to_vec(alloc)?);
    rows.push(RowMarks { node: row.0, marks })?;
    Ok(())
}

fn rows(alloc: Global, listed: &[Row]) -> Result<List<RowMarks>, AllocError> {
    let mut rows = List::new(alloc);
    for row in listed {
        push_row(alloc, &mut rows, *row)?;
    }
    Ok(rows)
}

fn field(alloc: Global, node: NodeId) -> Result<FieldId, AllocError> {
    let key = Key(Text::from_str(alloc, "k")?);
    Ok(FieldId { node, key })
}

fn push_reg(alloc: Global, regs: &mut List<RegMark>, reg: Register) -> Result<(), AllocError> {
    let (node, held, how, clear, fill) = reg;
    let field = field(alloc, node)?;
    regs.push(RegMark {
        field,
        held,
        how,
        clear,
        fill,
    })?;
    Ok(())
}

fn regs(alloc: Global, listed: &[Register]) -> Result<List<RegMark>, AllocError> {
    let mut regs = List::new(alloc);
    for reg in listed {
        push_reg(alloc, &mut regs, *reg)?;
    }
    Ok(regs)
}

fn push_swap(
    alloc: Global,
    regs: &mut List<RegStep>,
    swap: (NodeId, Option<NodeId>, Option<NodeId>),
) -> Result<(), AllocError> {
    let field = field(alloc, swap.0)?;
    regs.push(RegStep {
        field,
        before: swap.1,
        after: swap.2,
    })?;
    Ok(())
}

fn swaps(
    alloc: Global,
    listed: &[(NodeId, Option<NodeId>, Option<NodeId>)],
) -> Result<List<RegStep>, AllocError> {
    let mut regs = List::new(alloc);
    for swap in listed {
        push_swap(alloc, &mut regs, *swap)?;
    }
    Ok(regs)
}

fn made(alloc: Global, node: NodeId, makes: bool) -> Result<List<NewNode>, AllocError> {
    let mut new = List::new(alloc);
    if makes {
        let ty = Text::from_str(alloc, "text")?;
        new.push(NewNode {
            node,
            ty,
            leaf: None,
        })?;
    }
    Ok(new)
}

fn needed(alloc: Global, need: Option<NodeId>) -> Result<List<NodeId>, AllocError> {
    let mut list = List::new(alloc);
    if let Some(node) = need {
        list.push(node)?;
    }
    Ok(list)
}

// A change that lists nothing yet.
fn nothing(alloc: Global, new: List<NewNode>, need: List<NodeId>) -> Change {
    Change {
        rev: OURS,
        under: OPENING,
        base: true,
        need,
        new,
        rows: List::new(alloc),
        regs: List::new(alloc),
        loose: List::new(alloc),
        schema: None,
    }
}

fn fill(alloc: Global, change: &mut Change, listed: Listed) -> Result<(), AllocError> {
    change.rows = rows(alloc, listed.rows)?;
    change.regs = regs(alloc, listed.regs)?;
    change.loose = List::from_vec(listed.loose.to_vec(alloc)?);
    Ok(())
}

fn change(alloc: Global, case: &Case, listed: Listed) -> Result<Change, AllocError> {
    let new = made(alloc, P, case.makes)?;
    let need = needed(alloc, case.need)?;
    let mut change = nothing(alloc, new, need);
    fill(alloc, &mut change, listed)?;
    Ok(change)
}

fn step(alloc: Global, listed: Between) -> Result<Step, AllocError> {
    let new = made(alloc, Q, listed.makes)?;
    let rows = rows(alloc, listed.rows)?;
    let regs = swaps(alloc, listed.regs)?;
    Ok(Step {
        new,
        rows,
        regs,
        loose: List::new(alloc),
        schema: None,
    })
}

// A change over a step, if there is room and the two agree.
fn rebased(alloc: Global, change: &Change, step: &Step) -> Result<Option<Change>, AllocError> {
    if !has_room_in_rows(alloc, change, step)? {
        return Ok(None);
    }
    match rebase(alloc, change, step) {
        Ok(after) => Ok(Some(after)),
        Err(Or::Fault(_)) => Ok(None),
        Err(Or::NoMemory) => Err(AllocError),
    }
}

/// Whether a change over a step is another.
pub fn is_rebased_to(
    alloc: Global,
    change: &Change,
    step: &Step,
    there: &Change,
) -> Result<bool, AllocError> {
    match rebased(alloc, change, step)? {
        Some(over) => Ok(over == *there),
        None => Ok(false),
    }
}

fn comes_after(
    alloc: Global,
    case: &Case,
    before: &Change,
    step: &Step,
) -> Result<bool, AllocError> {
    let after = change(alloc, case, case.after)?;
    is_rebased_to(alloc, before, step, &after)
}

fn is_over_step(alloc: Global, case: &Case, before: &Change) -> Result<bool, AllocError> {
    let step = step(alloc, case.step)?;
    comes_after(alloc, case, before, &step)
}

fn is_so(alloc: Global, case: &Case) -> Result<bool, AllocError> {
    let before = change(alloc, case, case.change)?;
    is_over_step(alloc, case, &before)
}

fn wrong_case(alloc: Global, cases: &[Case]) -> Result<Option<&'static str>, AllocError> {
    for case in cases {
        if !is_so(alloc, case)? {
            return Ok(Some(case.name));
        }
    }
    Ok(None)
}

// An insert of p behind the first node of the root's row.
const INSERT: Listed = Listed {
    rows: &[(ROOT, &[Mark::Skip(1), MAKE_P])],
    regs: &[],
    loose: &[],
};

const CASES: [Case; 2] = [
    Case {
        name: "a tie: the later one stands left",
        makes: true,
        need: None,
        change: INSERT,
        step: Between {
            rows: &[(ROOT, &[Mark::Skip(1), MAKE_Q])],
            regs: &[],
            makes: true,
        },
        after: Listed {
            rows: &[(ROOT, &[Mark::Skip(1), MAKE_P, Mark::Skip(1)])],
            regs: &[],
            loose: &[],
        },
    },
    Case {
        name: "an emptied anchor keeps its place",
        makes: true,
        need: None,
        change: INSERT,
        step: Between {
            rows: &[(ROOT, &[A_LEAVES])],
            regs: &[],
            makes: false,
        },
        after: Listed {
            rows: &[(ROOT, &[Mark::Gap(OF_A), MAKE_P])],
            regs: &[],
            loose: &[],
        },
    },
];

const CASES_OF_MOVES: [Case; 2] = [
    Case {
        name: "a move takes an insert with it",
        makes: true,
        need: None,
        change: Listed {
            rows: &[(ROOT, &[Mark::Skip(1), B_STAYS]), (B, &[MAKE_P])],
            regs: &[],
            loose: &[],
        },
        step: Between {
            rows: &[(ROOT, &[A_STAYS, B_LEAVES]), (A, &[B_COMES])],
            regs: &[],
            makes: false,
        },
        after: Listed {
            rows: &[
                (ROOT, &[A_STAYS, Mark::Gap(OF_B)]),
                (A, &[B_MOVED_STAYS]),
                (B, &[MAKE_P]),
            ],
            regs: &[],
            loose: &[],
        },
    },
    Case {
        name: "an occupant is evicted that the change needs, and the one who came is evicted by the change",
        makes: true,
        need: Some(A),
        change: Listed {
            rows: &[],
            regs: &[(ROOT, Some(A), How::Stay, true, Some(P))],
            loose: &[],
        },
        step: Between {
            rows: &[],
            regs: &[(ROOT, Some(A), Some(Q))],
            makes: true,
        },
        after: Listed {
            rows: &[],
            regs: &[(ROOT, Some(Q), How::Stay, true, Some(P))],
            loose: &[Loose {
                node: A,
                how: How::Stay,
            }],
        },
    },
];

// Of nodes that the change mentions, and that the step moves or takes away.
const CASES_OF_NODES: [Case; 3] = [
    Case {
        name: "a node above is told though no mark of the change named it",
        makes: true,
        need: None,
        change: Listed {
            rows: &[
                (ROOT, &[A_STAYS, Mark::Skip(1)]),
                (A, &[C_STAYS, Mark::Skip(1)]),
                (C, &[MAKE_P]),
            ],
            regs: &[],
            loose: &[],
        },
        step: Between {
            rows: &[
                (ROOT, &[A_STAYS, B_STAYS]),
                (A, &[C_LEAVES, Mark::Skip(1)]),
                (B, &[C_COMES]),
            ],
            regs: &[],
            makes: false,
        },
        after: Listed {
            rows: &[
                (ROOT, &[Mark::Skip(1), B_STAYS]),
                (B, &[C_MOVED_STAYS]),
                (C, &[MAKE_P]),
            ],
            regs: &[],
            loose: &[],
        },
    },
    Case {
        name: "a node that was set where it stood is brought back",
        makes: false,
        need: None,
        change: Listed {
            rows: &[(ROOT, &[A_IS_SET, Mark::Skip(1)])],
            regs: &[],
            loose: &[],
        },
        step: Between {
            rows: &[(ROOT, &[A_LEAVES, B_STAYS]), (B, &[A_COMES])],
            regs: &[],
            makes: false,
        },
        after: Listed {
            rows: &[
                (
                    ROOT,
                    &[
                        Mark::Fill {
                            cell: OF_A,
                            node: A,
                        },
                        B_STAYS,
                    ],
                ),
                (B, &[A_MOVED_LEAVES]),
            ],
            regs: &[],
            loose: &[],
        },
    },
    Case {
        name: "a node that is removed already stays away",
        makes: false,
        need: None,
        change: Listed {
            rows: &[(ROOT, &[A_LEAVES])],
            regs: &[],
            loose: &[],
        },
        step: Between {
            rows: &[(ROOT, &[A_LEAVES])],
            regs: &[],
            makes: false,
        },
        after: Listed {
            rows: &[],
            regs: &[],
            loose: &[Loose {
                node: A,
                how: How::Here,
            }],
        },
    },
];

fn wrong_of_first(alloc: Global) -> Result<Option<&'static str>, AllocError> {
    wrong_case(alloc, &CASES)
}

fn wrong_of_moves(alloc: Global) -> Result<Option<&'static str>, AllocError> {
    wrong_case(alloc, &CASES_OF_MOVES)
}

fn wrong_of_nodes(alloc: Global) -> Result<Option<&'static str>, AllocError> {
    wrong_case(alloc, &CASES_OF_NODES)
}

fn wrong_of_placed(alloc: Global) -> Result<Option<&'static str>, AllocError> {
    let wrong = wrong_of_first(alloc)?;
    Ok(wrong.or(wrong_of_moves(alloc)?))
}

fn wrong_of_all(alloc: Global) -> Result<Option<&'static str>, AllocError> {
    let wrong = wrong_of_placed(alloc)?;
    Ok(wrong.or(wrong_of_nodes(alloc)?))
}

#[test]
fn changes_are_rebased(rt: HostRuntime) -> Result<(), Fail> {
    let wrong = wrong_of_all(rt.alloc())?;
    assert!(rt; wrong.is_none(), "{wrong:?}");
    Ok(())
}
