//! Changes that list a few rows, the verdict of each, and the rows of the step to the document after it.

use crate::names::{
    A, A_COMES, A_LEAVES, B, B_STAYS, OURS, P, P_PUT, P_UNPUT, Q, Q_PUT, new_nodes, rows,
};
use st_effect::{effect, has_short_rows};
use st_ids::{Atom, List, NodeId, OPENING, ROOT};
use st_marks::{Change, Mark, NewNode, RowMarks, Step, Verdict};
use std::alloc::{AllocError, Global};
use std::test::Fail;

/// A node of which nothing is listed.
const AWAY: NodeId = NodeId(Atom {
    rev: OPENING,
    at: 3,
});

// What a change makes, needs and lists, whether it has its base; its verdict, and the rows of its step.
#[derive(Clone, Copy)]
struct Case {
    name: &'static str,
    base: bool,
    new: &'static [NodeId],
    need: &'static [NodeId],
    change: &'static [(NodeId, &'static [Mark])],
    verdict: Verdict,
    step: &'static [(NodeId, &'static [Mark])],
}

fn empty_change(alloc: Global, base: bool) -> Change {
    Change {
        rev: OURS,
        under: OPENING,
        base,
        need: List::new(alloc),
        new: List::new(alloc),
        rows: List::new(alloc),
        regs: List::new(alloc),
        loose: List::new(alloc),
        schema: None,
    }
}

fn fill(alloc: Global, change: &mut Change, case: &Case) -> Result<(), AllocError> {
    change.need = List::from_vec(case.need.to_vec(alloc)?);
    change.new = new_nodes(alloc, case.new)?;
    change.rows = rows(alloc, case.change)?;
    Ok(())
}

fn step(new: List<NewNode>, rows: List<RowMarks>, alloc: Global) -> Step {
    Step {
        new,
        rows,
        regs: List::new(alloc),
        loose: List::new(alloc),
        schema: None,
    }
}

fn has_effect(alloc: Global, change: &Change, case: &Case) -> Result<bool, AllocError> {
    if !has_short_rows(change) {
        return Ok(false);
    }
    let done = effect(alloc, change)?;
    let step = step(new_nodes(alloc, case.new)?, rows(alloc, case.step)?, alloc);
    Ok(done.verdict == case.verdict && done.step == step)
}

fn is_so(alloc: Global, case: &Case) -> Result<bool, AllocError> {
    let mut change = empty_change(alloc, case.base);
    fill(alloc, &mut change, case)?;
    has_effect(alloc, &change, case)
}

fn wrong_case(alloc: Global, cases: &[Case]) -> Result<Option<&'static str>, AllocError> {
    for case in cases {
        if !is_so(alloc, case)? {
            return Ok(Some(case.name));
        }
    }
    Ok(None)
}

const CASES: [Case; 5] = [
    Case {
        name: "a node goes to another row, and a new one comes in",
        base: true,
        new: &[P],
        need: &[],
        change: &[(ROOT, &[A_LEAVES, B_STAYS, P_PUT]), (B, &[A_COMES])],
        verdict: Verdict::Sound,
        step: &[(ROOT, &[A_LEAVES, B_STAYS, P_PUT]), (B, &[A_COMES])],
    },
    Case {
        name: "the same where its schema isn't in effect",
        base: false,
        new: &[P],
        need: &[],
        change: &[(ROOT, &[A_LEAVES, B_STAYS, P_PUT]), (B, &[A_COMES])],
        verdict: Verdict::Schema(OPENING),
        step: &[(ROOT, &[Mark::Skip(2), P_UNPUT])],
    },
    Case {
        name: "a node that it needs isn't live",
        base: true,
        new: &[P],
        need: &[AWAY],
        change: &[(ROOT, &[Mark::Skip(1), P_PUT])],
        verdict: Verdict::Need(AWAY),
        step: &[(ROOT, &[Mark::Skip(1), P_UNPUT])],
    },
    Case {
        name: "a void change puts a new node into a new node",
        base: false,
        new: &[P, Q],
        need: &[],
        change: &[(ROOT, &[P_PUT]), (P, &[Q_PUT])],
        verdict: Verdict::Schema(OPENING),
        step: &[(ROOT, &[P_UNPUT]), (P, &[Q_PUT])],
    },
    Case {
        name: "a node would stand in its own row",
        base: true,
        new: &[],
        need: &[],
        change: &[(ROOT, &[A_LEAVES]), (A, &[A_COMES])],
        verdict: Verdict::Cycle(A),
        step: &[],
    },
];

#[test]
fn changes_have_effects(rt: HostRuntime) -> Result<(), Fail> {
    let wrong = wrong_case(rt.alloc(), &CASES)?;
    assert!(rt; wrong.is_none(), "{wrong:?}");
    Ok(())
}
