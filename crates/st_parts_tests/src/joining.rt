//! Two parts of a commit over the root's row with two nodes, a and b, and a register of the root.

use st_ids::{Atom, CellId, FieldId, Key, List, NodeId, OPENING, ROOT, Rev, Text};
use st_marks::{Change, How, Mark, NewNode, RegMark, RowMarks};
use st_parts::{has_short_rows, join_agreed};
use std::alloc::{AllocError, Global};
use std::test::Fail;

const OURS: Rev = Rev { session: 2, num: 1 };

const A: NodeId = NodeId(Atom {
    rev: OPENING,
    at: 1,
});

const CELL_OF_A: CellId = CellId(Atom {
    rev: OPENING,
    at: 1,
});

// A node that the first part makes, and its cell.
const P: NodeId = NodeId(Atom { rev: OURS, at: 0 });

const CELL_OF_P: CellId = CellId(Atom { rev: OURS, at: 0 });

const A_STAYS: Mark = Mark::Touch {
    cell: CELL_OF_A,
    node: A,
    how: How::Stay,
};

const A_LEAVES: Mark = Mark::Touch {
    cell: CELL_OF_A,
    node: A,
    how: How::Leave,
};

const P_LEAVES: Mark = Mark::Touch {
    cell: CELL_OF_P,
    node: P,
    how: How::Leave,
};

// What a change lists: the nodes that it needs, the marks of the root's row, and who is in the root's register and who comes in.
#[derive(Clone, Copy)]
struct Listed {
    makes: bool,
    need: &'static [NodeId],
    marks: &'static [Mark],
    held: Option<NodeId>,
    fill: Option<NodeId>,
}

// a, p, b: the new one is made between the two.
const PUT_BETWEEN: Listed = Listed {
    makes: true,
    need: &[],
    marks: &[
        Mark::Skip(1),
        Mark::Make {
            cell: CELL_OF_P,
            node: P,
            full: true,
        },
        Mark::Skip(1),
    ],
    held: None,
    fill: None,
};

// The second part takes it out again, and needs a.
const TAKEN_OUT: Listed = Listed {
    makes: false,
    need: &[A],
    marks: &[A_STAYS, P_LEAVES, Mark::Skip(1)],
    held: None,
    fill: None,
};

// Both as one: an empty cell is made.
const MADE_EMPTY: Listed = Listed {
    makes: true,
    need: &[A],
    marks: &[
        A_STAYS,
        Mark::Make {
            cell: CELL_OF_P,
            node: P,
            full: false,
        },
        Mark::Skip(1),
    ],
    held: None,
    fill: None,
};

// The new one is set into the register.
const P_SET: Listed = Listed {
    makes: true,
    need: &[],
    marks: &[],
    held: None,
    fill: Some(P),
};

// The second part sets a into it, which evicts the new one.
const A_SET: Listed = Listed {
    makes: false,
    need: &[],
    marks: &[A_LEAVES, Mark::Skip(1)],
    held: Some(P),
    fill: Some(A),
};

// Both as one: a comes in, and the new one stands nowhere.
const A_SET_AT_ONCE: Listed = Listed {
    makes: true,
    need: &[],
    marks: &[A_LEAVES, Mark::Skip(1)],
    held: None,
    fill: Some(A),
};

fn push_row(alloc: Global, rows: &mut List<RowMarks>, marks: &[Mark]) -> Result<(), AllocError> {
    if marks.is_empty() {
        return Ok(());
    }
    let marks = List::from_vec(marks.to_vec(alloc)?);
    rows.push(RowMarks { node: ROOT, marks })?;
    Ok(())
}

fn push_new(alloc: Global, new: &mut List<NewNode>, makes: bool) -> Result<(), AllocError> {
    if !makes {
        return Ok(());
    }
    let ty = Text::from_str(alloc, "t")?;
    new.push(NewNode {
        node: P,
        ty,
        leaf: None,
    })?;
    Ok(())
}

fn push_register(
    alloc: Global,
    regs: &mut List<RegMark>,
    listed: &Listed,
) -> Result<(), AllocError> {
    if listed.fill.is_none() {
        return Ok(());
    }
    let key = Key(Text::from_str(alloc, "k")?);
    let field = FieldId { node: ROOT, key };
    regs.push(RegMark {
        field,
        held: listed.held,
        how: How::Stay,
        clear: true,
        fill: listed.fill,
    })?;
    Ok(())
}

fn fill(alloc: Global, change: &mut Change, listed: &Listed) -> Result<(), AllocError> {
    change.need = List::from_vec(listed.need.to_vec(alloc)?);
    push_new(alloc, &mut change.new, listed.makes)?;
    push_row(alloc, &mut change.rows, listed.marks)?;
    push_register(alloc, &mut change.regs, listed)?;
    Ok(())
}

// The change that lists this, under the opening's schema.
fn change(alloc: Global, listed: &Listed) -> Result<Change, AllocError> {
    let mut change = Change {
        rev: OURS,
        under: OPENING,
        base: true,
        need: List::new(alloc),
        new: List::new(alloc),
        rows: List::new(alloc),
        regs: List::new(alloc),
        loose: List::new(alloc),
        schema: None,
    };
    fill(alloc, &mut change, listed)?;
    Ok(change)
}

fn joined(alloc: Global, first: &Change, second: &Change) -> Result<Option<Change>, AllocError> {
    if !has_short_rows(first) {
        return Ok(None);
    }
    if !has_short_rows(second) {
        return Ok(None);
    }
    Ok(Some(join_agreed(alloc, first, second)?))
}

fn is_joined_to(
    alloc: Global,
    first: &Listed,
    second: &Listed,
    both: &Listed,
) -> Result<bool, AllocError> {
    let first = change(alloc, first)?;
    let second = change(alloc, second)?;
    let both = change(alloc, both)?;
    Ok(joined(alloc, &first, &second)? == Some(both))
}

#[test]
fn parts_are_joined(rt: HostRuntime) -> Result<(), Fail> {
    let alloc = rt.alloc();
    let (row, register) = (
        is_joined_to(alloc, &PUT_BETWEEN, &TAKEN_OUT, &MADE_EMPTY)?,
        is_joined_to(alloc, &P_SET, &A_SET, &A_SET_AT_ONCE)?,
    );
    assert!(rt; row && register, "{row} {register}");
    Ok(())
}
