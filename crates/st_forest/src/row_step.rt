//! A row over a step.
ghost use Rattle.std.specs.Prelude.{◌≡◌, ◌≢◌, false, ◌++◌, ◌∷◌, ◌<◌, ◌≤◌, ◌+◌, ◌^◌, length, min, take, drop, IfOk, OnOk, List as Seq};
ghost use Rattle.st_chunks.specs.Slots.{with_full};
ghost use Rattle.st_marks.specs.declared.marks.How.TheVariants.{Leave};
ghost use Rattle.st_marks.specs.declared.marks.Mark.{Mark as AnyMark};
ghost use Rattle.st_marks.specs.declared.places.Slot.{Slot as AnySlot};
ghost use Rattle.st_marks.specs.Row.{spread};
ghost use Rattle.st_forest.specs.RowSteps.{Leads};

use st_chunks::{ChunkRow, Range};
use st_ids::Or;
use st_marks::{How, Mark, Slot};
use std::alloc::{AllocError, Global};

// Past so many slots, or at the end.
fn past(row: &ChunkRow, place: u64, count: u32) -> u64
    requires { place ≤ length row.now }
    ensures { result ≡ min (place + count) (length row.now) }
{
    let len = row.len();
    if len - place < u64::from(count) {
        len
    } else {
        place + u64::from(count)
    }
}

// Makes the slot at a place full or empty, and goes past it, if there is one.
fn turn(row: &mut ChunkRow, place: u64, full: bool) -> u64
    requires { place ≤ length row.old }
    ensures there { place < length row.old → (row.new ≡ with_full row.old place full) × (result ≡ place + 1) }
    ensures within { result ≤ length row.new }
{
    match row.flip(place, full) {
        Ok(()) => past(row, place, 1),
        Err(Range) => place,
    }
}

// Makes the slot at a place empty, if its node leaves, and goes past it, if there is one.
fn touch(row: &mut ChunkRow, place: u64, how: How) -> u64
    requires { place ≤ length row.old }
    ensures leaves { how ≡ Leave → place < length row.old → (row.new ≡ with_full row.old place false) × (result ≡ place + 1) }
    ensures stays { how ≢ Leave → (row.new ≡ row.old) × (result ≡ min (place + 1) (length row.old)) }
    ensures within { result ≤ length row.new }
{
    match how {
        How::Leave => turn(row, place, false),
        How::Stay => past(row, place, 1),
        How::Here => past(row, place, 1),
    }
}

// Puts a slot at a place, and goes past it, where there is room for one.
fn make(alloc: Global, row: &mut ChunkRow, place: u64, slot: Slot) -> Result<u64, AllocError>
    requires { place ≤ length row.old }
    ensures made { IfOk result (λ q. length row.old + 1 < 2 ^ 32
        → (row.new ≡ take place row.old ++ slot ∷ drop place row.old) × (q ≡ place + 1)) }
    ensures within { IfOk result (λ q. q ≤ length row.new) }
{
    if row.len() + 1 >= 4_294_967_296 {
        return Ok(place);
    }
    match row.splice(alloc, place, 0, &[slot]) {
        Ok(()) => Ok(place + 1),
        Err(Or::NoMemory) => Err(AllocError),
        Err(Or::Fault(_)) => unreachable!(),
    }
}

// Changes a row at a place as a mark says, and goes past what the mark speaks of.
fn apply_mark(alloc: Global, row: &mut ChunkRow, place: u64, mark: Mark) -> Result<u64, AllocError>
    requires { place ≤ length row.old }
    ensures within { IfOk result (λ q. q ≤ length row.new) }
    ensures leads { (ms : Seq AnyMark) (d : Seq AnySlot)
        → Leads (drop place row.old) (spread (mark ∷ ms)) d → length (take place row.old ++ d) < 2 ^ 32
        → IfOk result (λ q. (e : Seq AnySlot) × Leads (drop q row.new) (spread ms) e
        × (take place row.old ++ d ≡ take q row.new ++ e)) }
{
    match mark {
        Mark::Skip(count) => Ok(past(row, place, count)),
        Mark::Gap(_) => Ok(past(row, place, 1)),
        Mark::Touch { how, .. } => Ok(touch(row, place, how)),
        Mark::Make { cell, node, full } => {
            let behind = make(alloc, row, place, Slot { cell, node, full })?;
            Ok(behind)
        }
        Mark::Fill { .. } => Ok(turn(row, place, true)),
    }
}

/// Changes a row as a step's marks say, whichever empty cells they name: it becomes the row to which they lead. It takes a search
/// for each mark that changes a slot, and goes past the others. After an `Err` the row is spent.
pub fn apply_row(alloc: Global, row: &mut ChunkRow, marks: &[Mark]) -> Result<(), AllocError>
    ensures { OnOk result ((d : Seq AnySlot) → length d < 2 ^ 32
        → Leads row.old (spread marks.now) d → row.new ≡ d) }
{
    let mut place = 0;
    for mark in marks {
        place = apply_mark(alloc, row, place, *mark)?;
    }
    Ok(())
}
