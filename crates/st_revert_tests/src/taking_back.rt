//! A step that takes a node out and puts a new one in, taken back; what it makes; a step over a void commit; and a listing that names
//! a node too many.

use crate::steps::{
    A, A_LEAVES, B, CELL_OF_A, CELL_OF_B, CELL_OF_P, Listed, OURS, P, P_PUT, change, step,
    step_without_ours,
};
use st_bridge::bridge_void_agreed;
use st_ids::{NodeId, OPENING, ROOT, Rev};
use st_marks::{Change, How, Loose, Mark, Step};
use st_parts::{has_short_rows as change_has_short_rows, trim_change};
use st_rebase::has_room_in_rows;
use st_revert::{makings, revert};
use st_steps::has_short_rows;
use std::alloc::{AllocError, Global};
use std::collections::BTreeSet;
use std::test::Fail;

const BACK: Rev = Rev { session: 3, num: 1 };

// a, b: the first is taken out, and a new one comes behind.
const SWAPPED: Listed = Listed {
    need: &[],
    new: &[P],
    marks: &[A_LEAVES, Mark::Skip(1), P_PUT],
    loose: &[],
};

// What that makes: the new one's cell, empty.
const MADE: Listed = Listed {
    need: &[],
    new: &[P],
    marks: &[
        Mark::Skip(2),
        Mark::Make {
            cell: CELL_OF_P,
            node: P,
            full: false,
        },
    ],
    loose: &[],
};

// Taken back: the first, which was nowhere, comes, and the new one goes.
const SWAPPED_BACK: Listed = Listed {
    need: &[],
    new: &[],
    marks: &[
        Mark::Fill {
            cell: CELL_OF_A,
            node: A,
        },
        Mark::Skip(1),
        Mark::Touch {
            cell: CELL_OF_P,
            node: P,
            how: How::Leave,
        },
    ],
    loose: &[Loose {
        node: A,
        how: How::Leave,
    }],
};

fn makes(alloc: Global, first: &Step, made: &Step) -> Result<bool, AllocError> {
    Ok(makings(alloc, first)? == *made)
}

// Whether a step makes what is listed.
fn makes_listed(alloc: Global, first: &Step, made: &Listed) -> Result<bool, AllocError> {
    let made = step(alloc, made)?;
    makes(alloc, first, &made)
}

fn old_nodes_stay(alloc: Global) -> Result<bool, AllocError> {
    let first = step(alloc, &SWAPPED)?;
    makes_listed(alloc, &first, &MADE)
}

// The change that takes a step back, if that has short rows.
fn taken_back(alloc: Global, first: &Step, under: Rev) -> Result<Option<Change>, AllocError> {
    if !has_short_rows(first) {
        return Ok(None);
    }
    Ok(Some(revert(alloc, first, BACK, under)?))
}

fn goes_back_by(alloc: Global, first: &Step, back: Change) -> Result<bool, AllocError> {
    Ok(taken_back(alloc, first, OPENING)? == Some(back))
}

fn old_nodes_come_back(alloc: Global) -> Result<bool, AllocError> {
    let first = step(alloc, &SWAPPED)?;
    let back = change(alloc, BACK, &SWAPPED_BACK)?;
    goes_back_by(alloc, &first, back)
}

// Whether the change that takes a step back is based on a schema, if there is one.
fn base_of(alloc: Global, first: &Step, under: Rev) -> Result<Option<bool>, AllocError> {
    Ok(taken_back(alloc, first, under)?.map(|change| change.base))
}

fn base_goes_with_the_schema(alloc: Global) -> Result<bool, AllocError> {
    let first = step_without_ours(alloc)?;
    let gone = base_of(alloc, &first, OURS)? == Some(false);
    let stays = base_of(alloc, &first, OPENING)? == Some(true);
    Ok(gone && stays)
}

// a, b: the first is taken out.
const FIRST_OUT: Listed = Listed {
    need: &[],
    new: &[],
    marks: &[A_LEAVES, Mark::Skip(1)],
    loose: &[],
};

// A commit that puts a new one between the two, void.
const PUT_BETWEEN: Listed = Listed {
    need: &[],
    new: &[P],
    marks: &[Mark::Skip(1), P_PUT, Mark::Skip(1)],
    loose: &[],
};

// The first is taken out where the commit's cell is there, empty.
const FIRST_OUT_OVER: Listed = Listed {
    need: &[],
    new: &[],
    marks: &[A_LEAVES, Mark::Gap(CELL_OF_P), Mark::Skip(1)],
    loose: &[],
};

fn leads_over(
    alloc: Global,
    first: &Step,
    void: &Change,
    over: &Listed,
) -> Result<bool, AllocError> {
    if !has_room_in_rows(alloc, void, first)? {
        return Ok(false);
    }
    let made = bridge_void_agreed(alloc, first, void)?;
    Ok(step(alloc, over)? == made)
}

fn cells_of_void_commits_are_there(alloc: Global) -> Result<bool, AllocError> {
    let first = step(alloc, &FIRST_OUT)?;
    let void = change(alloc, OURS, &PUT_BETWEEN)?;
    leads_over(alloc, &first, &void, &FIRST_OUT_OVER)
}

const A_STAYS: Mark = Mark::Touch {
    cell: CELL_OF_A,
    node: A,
    how: How::Stay,
};

const B_STAYS: Mark = Mark::Touch {
    cell: CELL_OF_B,
    node: B,
    how: How::Stay,
};

// A listing for the first alone, which names the second too.
const BOTH_NAMED: Listed = Listed {
    need: &[A],
    new: &[],
    marks: &[A_STAYS, B_STAYS],
    loose: &[],
};

const FIRST_NAMED: Listed = Listed {
    need: &[A],
    new: &[],
    marks: &[A_STAYS, Mark::Skip(1)],
    loose: &[],
};

// The node that is needed, and the root above it.
fn mentioned(alloc: Global) -> Result<BTreeSet<NodeId>, AllocError> {
    let mut nodes = BTreeSet::new(alloc);
    nodes.insert(ROOT)?;
    nodes.insert(A)?;
    Ok(nodes)
}

// A listing with the mentioned nodes alone named, if that has short rows.
fn trimmed(alloc: Global, listing: Change) -> Result<Option<Change>, AllocError> {
    if !change_has_short_rows(&listing) {
        return Ok(None);
    }
    let nodes = mentioned(alloc)?;
    Ok(Some(trim_change(alloc, listing, &nodes)?))
}

fn is_trimmed_to(alloc: Global, listing: Change, wanted: Change) -> Result<bool, AllocError> {
    Ok(trimmed(alloc, listing)? == Some(wanted))
}

fn others_are_not_named(alloc: Global) -> Result<bool, AllocError> {
    let listing = change(alloc, OURS, &BOTH_NAMED)?;
    let wanted = change(alloc, OURS, &FIRST_NAMED)?;
    is_trimmed_to(alloc, listing, wanted)
}

#[test]
fn listings_are_trimmed(rt: HostRuntime) -> Result<(), Fail> {
    let trimmed = others_are_not_named(rt.alloc())?;
    assert!(rt; trimmed, "names the other");
    Ok(())
}

#[test]
fn steps_are_taken_back(rt: HostRuntime) -> Result<(), Fail> {
    let alloc = rt.alloc();
    let (made, back) = (old_nodes_stay(alloc)?, old_nodes_come_back(alloc)?);
    let (base, void) = (
        base_goes_with_the_schema(alloc)?,
        cells_of_void_commits_are_there(alloc)?,
    );
    assert!(rt; made && back && base && void, "{made} {back} {base} {void}");
    Ok(())
}
