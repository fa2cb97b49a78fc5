//! Changes of the row of a list, and what names them.

use st_clusters::IdRange;
use st_ids::{Atom, CellId, List, NodeId, OPENING, ROOT, Rev, Text};
use st_marks::{Change, How, Mark, NewNode, RowMarks, Step};
use std::alloc::{AllocError, Global};

/// The UUID of a session, of version 4.
pub fn uuid_of(session: u32) -> u128 {
    match session {
        1 => 0x0000_0000_0000_4004_8000_0000_0000_0000,
        2 => 0x0000_0001_0000_4004_8000_0000_0000_0000,
        _ => 0x0000_0002_0000_4004_8000_0000_0000_0000,
    }
}

/// Some ids of a session.
pub fn ids(session: u32, first: u32, count: u32) -> IdRange {
    IdRange {
        session,
        first,
        count,
    }
}

fn opened(at: u32) -> Atom {
    Atom { rev: OPENING, at }
}

fn made(session: u32, num: u32) -> Atom {
    let rev = Rev { session, num };
    Atom { rev, at: 0 }
}

/// A text of the opening leaves its cell: the first text is node 1, in cell 0.
pub fn leave(text: u32) -> Mark {
    Mark::Touch {
        cell: CellId(opened(text.saturating_sub(1))),
        node: NodeId(opened(text)),
        how: How::Leave,
    }
}

/// It is put into that cell again.
pub fn put_back(text: u32) -> Mark {
    Mark::Fill {
        cell: CellId(opened(text.saturating_sub(1))),
        node: NodeId(opened(text)),
    }
}

/// A commit makes a text, in a cell of its own.
pub fn make(session: u32, num: u32) -> Mark {
    Mark::Make {
        cell: CellId(made(session, num)),
        node: NodeId(made(session, num)),
        full: true,
    }
}

// The row of the list.
fn row_of(alloc: Global, marks: &[Mark]) -> Result<List<RowMarks>, AllocError> {
    let marks = List::from_vec(marks.to_vec(alloc)?);
    let mut rows = List::new(alloc);
    rows.push(RowMarks { node: ROOT, marks })?;
    Ok(rows)
}

/// A change with these marks of the row of the list, that makes nothing.
pub fn change_of(
    alloc: Global,
    session: u32,
    num: u32,
    marks: &[Mark],
) -> Result<Change, AllocError> {
    Ok(Change {
        rev: Rev { session, num },
        under: OPENING,
        base: true,
        need: List::new(alloc),
        new: List::new(alloc),
        rows: row_of(alloc, marks)?,
        regs: List::new(alloc),
        loose: List::new(alloc),
        schema: None,
    })
}

fn add_text(alloc: Global, new: &mut List<NewNode>, node: NodeId) -> Result<(), AllocError> {
    let ty = Text::from_str(alloc, "text")?;
    new.push(NewNode {
        node,
        ty,
        leaf: None,
    })?;
    Ok(())
}

/// A change that makes a text.
pub fn change_with_text(
    alloc: Global,
    session: u32,
    num: u32,
    marks: &[Mark],
) -> Result<Change, AllocError> {
    let mut change = change_of(alloc, session, num, marks)?;
    add_text(alloc, &mut change.new, NodeId(made(session, num)))?;
    Ok(change)
}

/// Whether these are the marks of the row of the list, the only one.
pub fn are_marks(rows: &[RowMarks], marks: &[Mark]) -> bool {
    match rows {
        [row] => row.node == ROOT && row.marks.as_slice() == marks,
        _ => false,
    }
}

/// Whether a change has these marks alone.
pub fn has_marks(change: &Change, marks: &[Mark]) -> bool {
    are_marks(change.rows.as_slice(), marks) && change.regs.is_empty() && change.loose.is_empty()
}

/// Whether a step has these marks alone.
pub fn leads_by(step: &Step, marks: &[Mark]) -> bool {
    are_marks(step.rows.as_slice(), marks) && step.regs.is_empty() && step.loose.is_empty()
}

/// Whether a step does nothing.
pub fn is_nothing(step: &Step) -> bool {
    step.new.is_empty()
        && step.rows.is_empty()
        && step.regs.is_empty()
        && step.loose.is_empty()
        && step.schema.is_none()
}
