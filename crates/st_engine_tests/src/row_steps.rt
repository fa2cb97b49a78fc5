//! Rows over steps: what a row is before, what the marks say, and what it is behind.
use st_chunks::{ChunkRow, Range};
use st_forest::apply_row;
use st_ids::{Atom, CellId, NodeId, Or, Rev};
use st_marks::{How, Mark, Slot};
use std::alloc::Global;

fn name(at: u32) -> Atom {
    Atom {
        rev: Rev { session: 1, num: 1 },
        at,
    }
}

fn cell(at: u32) -> CellId {
    CellId(name(at))
}

fn node(at: u32) -> NodeId {
    NodeId(name(at))
}

fn slot(at: u32, full: bool) -> Slot {
    Slot {
        cell: cell(at),
        node: node(at),
        full,
    }
}

// A row of a full cell, two empty ones and a full one.
fn before() -> [Slot; 4] {
    [slot(0, true), slot(1, false), slot(2, false), slot(3, true)]
}

// The first node leaves, the second empty cell is filled, and two cells are made behind it: one full, one empty.
fn behind() -> [Slot; 6] {
    [
        slot(0, false),
        slot(1, false),
        slot(2, true),
        slot(4, true),
        slot(5, false),
        slot(3, true),
    ]
}

fn touch(at: u32, how: How) -> Mark {
    Mark::Touch {
        cell: cell(at),
        node: node(at),
        how,
    }
}

fn fill(at: u32) -> Mark {
    Mark::Fill {
        cell: cell(at),
        node: node(at),
    }
}

fn make(at: u32, full: bool) -> Mark {
    Mark::Make {
        cell: cell(at),
        node: node(at),
        full,
    }
}

// The step with its empty cell named, and with it counted.
fn listed() -> [Mark; 6] {
    [
        touch(0, How::Leave),
        Mark::Gap(cell(1)),
        fill(2),
        make(4, true),
        make(5, false),
        touch(3, How::Stay),
    ]
}

fn thin() -> [Mark; 6] {
    [
        touch(0, How::Leave),
        Mark::Skip(1),
        fill(2),
        make(4, true),
        make(5, false),
        Mark::Skip(1),
    ]
}

fn row_of(alloc: Global, slots: &[Slot]) -> Result<ChunkRow, Or<Range>> {
    let mut row = ChunkRow::new(alloc);
    if row.len() == 0 && slots.len() < 1_000 {
        row.splice(alloc, 0, 0, slots)?;
    }
    Ok(row)
}

fn has(row: &ChunkRow, slots: &[Slot]) -> bool {
    let mut same = row.len() == slots.len() as u64;
    for (i, slot) in slots.iter().enumerate() {
        same = same && row.get(i as u64) == Ok(*slot);
    }
    same
}

fn leads(alloc: Global, marks: &[Mark]) -> Result<bool, Or<Range>> {
    let mut row = row_of(alloc, &before())?;
    apply_row(alloc, &mut row, marks)?;
    Ok(has(&row, &behind()))
}

#[test]
fn marks_lead(rt: HostRuntime) -> Result<(), Or<Range>> {
    let alloc = rt.alloc();
    let (named, counted) = (leads(alloc, &listed())?, leads(alloc, &thin())?);
    assert!(rt; named && counted, "{named} {counted}");
    Ok(())
}
