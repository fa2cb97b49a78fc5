//! Steps over a commit: whole on both sides, void after the step, with a node that both move, and a change of schema. The answers
//! were worked out by hand.

use crate::steps::{
    A, A_LEAVES, B, CELL_OF_A, CELL_OF_B, CELL_OF_P, Listed, OURS, P, P_PUT, change,
    change_into_register, no_step, schema_change, step, step_to_another, step_without_ours,
};
use st_bridge::{bridge, bridge_agreed};
use st_ids::{NodeId, Or, ROOT, Rev};
use st_marks::{Change, How, Mark, Step};
use st_rebase::has_room_in_rows;
use std::alloc::{AllocError, Global};
use std::test::Fail;

const THEIRS: Rev = Rev { session: 3, num: 1 };

// a, b: the first is taken out.
const FIRST_OUT: Listed = Listed {
    need: &[],
    new: &[],
    marks: &[A_LEAVES, Mark::Skip(1)],
    loose: &[],
};

// A commit that puts a new one between the two.
const PUT_BETWEEN: Listed = Listed {
    need: &[],
    new: &[P],
    marks: &[Mark::Skip(1), P_PUT, Mark::Skip(1)],
    loose: &[],
};

// The first is taken out, and the new one stays.
const FIRST_OUT_OF_THREE: Listed = Listed {
    need: &[],
    new: &[],
    marks: &[A_LEAVES, Mark::Skip(2)],
    loose: &[],
};

// The same commit, where it needs the first.
const PUT_BEHIND_FIRST: Listed = Listed {
    need: &[A],
    new: &[P],
    marks: &[
        Mark::Touch {
            cell: CELL_OF_A,
            node: A,
            how: How::Stay,
        },
        P_PUT,
        Mark::Skip(1),
    ],
    loose: &[],
};

// With the first the new one goes, since the commit is void then.
const BOTH_OUT: Listed = Listed {
    need: &[],
    new: &[],
    marks: &[
        A_LEAVES,
        Mark::Touch {
            cell: CELL_OF_P,
            node: P,
            how: How::Leave,
        },
        Mark::Skip(1),
    ],
    loose: &[],
};

// The second leaves the row: by a commit, for a register; by a step, for nowhere.
const SECOND_OUT: Listed = Listed {
    need: &[],
    new: &[],
    marks: &[
        Mark::Skip(1),
        Mark::Touch {
            cell: CELL_OF_B,
            node: B,
            how: How::Leave,
        },
    ],
    loose: &[],
};

// The first leaves, beside the cell that the second left.
const FIRST_OUT_BESIDE: Listed = Listed {
    need: &[],
    new: &[],
    marks: &[A_LEAVES, Mark::Gap(CELL_OF_B)],
    loose: &[],
};

// A row of one cell, where a new one is put.
const PUT_INTO_ONE: Listed = Listed {
    need: &[],
    new: &[P],
    marks: &[Mark::Skip(1), P_PUT],
    loose: &[],
};

// The step over a commit, if the rows have room.
fn step_over(alloc: Global, first: &Step, commit: &Change) -> Result<Option<Step>, AllocError> {
    if !has_room_in_rows(alloc, commit, first)? {
        return Ok(None);
    }
    Ok(Some(bridge_agreed(alloc, first, commit)?))
}

fn becomes(alloc: Global, first: &Step, commit: &Change, wanted: Step) -> Result<bool, AllocError> {
    Ok(step_over(alloc, first, commit)? == Some(wanted))
}

fn listed_becomes(
    alloc: Global,
    commit: &Change,
    first: &Listed,
    wanted: &Listed,
) -> Result<bool, AllocError> {
    let first = step(alloc, first)?;
    let wanted = step(alloc, wanted)?;
    becomes(alloc, &first, commit, wanted)
}

fn whole_commits_are_whole(alloc: Global) -> Result<bool, AllocError> {
    let commit = change(alloc, OURS, &PUT_BETWEEN)?;
    listed_becomes(alloc, &commit, &FIRST_OUT, &FIRST_OUT_OF_THREE)
}

fn void_commits_take_back(alloc: Global) -> Result<bool, AllocError> {
    let commit = change(alloc, OURS, &PUT_BEHIND_FIRST)?;
    listed_becomes(alloc, &commit, &FIRST_OUT, &BOTH_OUT)
}

fn moved_nodes_stay_moved(alloc: Global) -> Result<bool, AllocError> {
    let commit = change_into_register(alloc, OURS, &SECOND_OUT, B)?;
    listed_becomes(alloc, &commit, &FIRST_OUT, &FIRST_OUT_BESIDE)
}

// A node that both move is where the commit puts it, before and after.
fn commits_have_the_last_word(alloc: Global) -> Result<bool, AllocError> {
    let commit = change_into_register(alloc, OURS, &SECOND_OUT, B)?;
    let first = step(alloc, &SECOND_OUT)?;
    becomes(alloc, &first, &commit, no_step(alloc))
}

// A change of schema that is void before the step and sound after it.
fn schemas_come_where_sound(alloc: Global) -> Result<bool, AllocError> {
    let commit = schema_change(alloc, THEIRS)?;
    let first = step_without_ours(alloc)?;
    becomes(alloc, &first, &commit, step_to_another(alloc, THEIRS)?)
}

// The node of the field at which the two don't agree.
fn refused_at(alloc: Global, first: &Step, commit: &Change) -> Result<Option<NodeId>, AllocError> {
    if !has_room_in_rows(alloc, commit, first)? {
        return Ok(None);
    }
    match bridge(alloc, first, commit) {
        Ok(_) => Ok(None),
        Err(Or::Fault(apart)) => Ok(Some(apart.field.node)),
        Err(Or::NoMemory) => Err(AllocError),
    }
}

fn two_rows_are_refused(alloc: Global) -> Result<bool, AllocError> {
    let commit = change(alloc, OURS, &PUT_INTO_ONE)?;
    let first = step(alloc, &FIRST_OUT)?;
    Ok(refused_at(alloc, &first, &commit)? == Some(ROOT))
}

#[test]
fn steps_go_over_commits(rt: HostRuntime) -> Result<(), Fail> {
    let alloc = rt.alloc();
    let (whole, void) = (
        whole_commits_are_whole(alloc)?,
        void_commits_take_back(alloc)?,
    );
    let (moved, last) = (
        moved_nodes_stay_moved(alloc)?,
        commits_have_the_last_word(alloc)?,
    );
    assert!(rt;
        whole && void && moved && last,
        "{whole} {void} {moved} {last}"
    );
    Ok(())
}

#[test]
fn schemas_and_refusals(rt: HostRuntime) -> Result<(), Fail> {
    let alloc = rt.alloc();
    let (schemas, refused) = (
        schemas_come_where_sound(alloc)?,
        two_rows_are_refused(alloc)?,
    );
    assert!(rt; schemas && refused, "{schemas} {refused}");
    Ok(())
}
