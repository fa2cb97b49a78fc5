//! Rows of 20,000 slots, as they grow one by one and all at once.
use st_chunks::{ChunkRow, Range};
use st_ids::{Atom, CellId, Copied, NodeId, Or, Rev};
use st_marks::Slot;
use std::alloc::Global;

const SLOTS: u32 = 20_000;

// The slot of a number, full where the number is even.
fn slot(num: u32) -> Slot {
    let name = Atom {
        rev: Rev { session: 1, num },
        at: 0,
    };
    Slot {
        cell: CellId(name),
        node: NodeId(name),
        full: num % 2 == 0,
    }
}

fn is_slot(found: Result<Slot, Range>, num: u32) -> bool {
    match found {
        Ok(found) => found == slot(num),
        Err(Range) => false,
    }
}

// Puts one slot into a row that is short enough.
fn put(alloc: Global, row: &mut ChunkRow, place: u64, num: u32) -> Result<(), Or<Range>> {
    let one = [slot(num)];
    if row.len() < 1_000_000 {
        row.splice(alloc, place, 0, &one)
    } else {
        Err(Or::Fault(Range))
    }
}

// Slots that are put at the end, each behind the last one.
fn grow(alloc: Global, row: &mut ChunkRow) -> Result<(), Or<Range>> {
    for num in 0..SLOTS {
        let end = row.len();
        put(alloc, row, end, num)?;
    }
    Ok(())
}

fn grown(alloc: Global) -> Result<bool, Or<Range>> {
    let mut row = ChunkRow::new(alloc);
    grow(alloc, &mut row)?;
    Ok(row.len() == 20_000 && row.full_len() == 10_000 && is_slot(row.get(12_345), 12_345))
}

fn found(alloc: Global) -> Result<bool, Or<Range>> {
    let mut row = ChunkRow::new(alloc);
    grow(alloc, &mut row)?;
    Ok(
        row.full_place(9_000) == Ok(18_000)
            && row.full_place(10_000) == Err(Range)
            && is_slot(row.get(0), 0)
            && row.get(20_000).is_err(),
    )
}

fn flipped(alloc: Global) -> Result<bool, Or<Range>> {
    let mut row = ChunkRow::new(alloc);
    grow(alloc, &mut row)?;
    let done = row.flip(500, false).is_ok() && row.flip(20_000, true).is_err();
    Ok(done && row.full_len() == 9_999 && row.full_place(250) == Ok(502))
}

// Half of a row is taken out of its middle, and one slot put there.
fn spliced(alloc: Global) -> Result<bool, Or<Range>> {
    let mut row = ChunkRow::new(alloc);
    grow(alloc, &mut row)?;
    let one = [slot(7)];
    if row.len() < 1_000_000 {
        row.splice(alloc, 5_000, 10_000, &one)?;
    }
    Ok(
        row.len() == 10_001
            && is_slot(row.get(4_999), 4_999)
            && is_slot(row.get(5_000), 7)
            && is_slot(row.get(5_001), 15_000),
    )
}

// The slots that one insert of so many items makes.
fn made(alloc: Global, count: u32) -> Result<Vec<Slot>, Or<Range>> {
    let mut slots = Vec::new(alloc);
    for at in 0..count {
        let name = Atom {
            rev: Rev { session: 1, num: 1 },
            at,
        };
        slots.push(Slot {
            cell: CellId(name),
            node: NodeId(name),
            full: true,
        })?;
    }
    Ok(slots)
}

// A row that one insert filled is one chunk; a flip in its midst parts it.
fn chunked(alloc: Global) -> Result<bool, Or<Range>> {
    let mut row = ChunkRow::new(alloc);
    let slots = made(alloc, 1_000)?;
    if row.len() < 1_000_000 && slots.len() < 1_000_000 {
        row.splice(alloc, 0, 0, slots.as_slice())?;
    }
    let whole = row.chunks();
    let done = row.flip(500, false).is_ok();
    let copy = row.copy(alloc)?;
    Ok(done && whole == 1 && row.chunks() == 3 && copy.chunks() == 3 && copy.full_len() == 999)
}

#[test]
fn rows_answer(rt: HostRuntime) -> Result<(), Or<Range>> {
    let alloc = rt.alloc();
    let (a, b) = (grown(alloc)?, found(alloc)?);
    let (c, d) = (flipped(alloc)?, spliced(alloc)?);
    let e = chunked(alloc)?;
    assert!(rt; a && b && c && d && e, "{a} {b} {c} {d} {e}");
    Ok(())
}
