//! How many longest runs of slots there are of which each goes on from the one before.
ghost use Rattle.std.specs.Prelude.{◌≡◌, ◌<◌, ◌≤◌, ◌+◌, ◌^◌, ◌==◌, ◌&&◌, ◌++◌, ◌∷◌, length, List as Seq};
ghost use Rattle.st_ids.specs.Order.{same_rev};
ghost use Rattle.st_marks.specs.declared.places.Slot.{Slot as Cell};
ghost use Rattle.st_chunks.specs.Slots.{all_slots, chunk_count, goes_on, one_if};
ghost use Rattle.st_chunks.specs.inside.Breaks.{breaks_from};

use crate::block::{Block, one_if};
use st_ids::{Atom, is_same_rev};
use st_marks::Slot;

/// How many slots don't go on from the one before them, so far, and the last of these slots.
#[derive(Clone, Copy)]
struct Breaks {
    count: u64,
    last: Option<Slot>,
}

// Whether a name is the next one of the same revision.
fn follows(name: Atom, next: Atom) -> bool
    ensures { result ≡ (same_rev name.rev next.rev && (name.at + 1 == next.at)) }
{
    is_same_rev(name.rev, next.rev) && u64::from(name.at) + 1 == u64::from(next.at)
}

// Whether a slot goes on from the one before it.
fn goes_on(slot: Slot, next: Slot) -> bool
    ensures { result ≡ goes_on slot next }
{
    (if slot.full { next.full } else { !next.full })
        && follows(slot.cell.0, next.cell.0)
        && follows(slot.node.0, next.node.0)
}

// Whether a slot begins a run, behind the last one, if there is one.
fn begins(last: Option<Slot>, slot: Slot) -> bool
    ensures { (rest : Seq Cell) → breaks_from last (slot ∷ rest) ≡ one_if result + breaks_from (Some slot) rest }
{
    match last {
        None => true,
        Some(last) => !goes_on(last, slot),
    }
}

// Goes on over the slots of a block.
fn over_block(before: Breaks, slots: &[Slot]) -> Breaks
    requires { before.count + length slots.now < 2 ^ 64 }
    ensures breaks { (rest : Seq Cell)
        → result.count + breaks_from result.last rest ≡ before.count + breaks_from before.last (slots.now ++ rest) }
    ensures few { result.count ≤ before.count + length slots.now }
{
    let mut now = before;
    for slot in slots {
        now = Breaks {
            count: now.count + u64::from(one_if(begins(now.last, *slot))),
            last: Some(*slot),
        };
    }
    now
}

/// How many longest runs there are of which each slot goes on from the one before.
pub fn count_chunks(blocks: &[Block]) -> u64
    requires { length (all_slots blocks.now) < 2 ^ 32 }
    ensures { result ≡ chunk_count (all_slots blocks.now) }
{
    let mut now = Breaks {
        count: 0,
        last: None,
    };
    for block in blocks {
        now = over_block(now, block.as_slice());
    }
    now.count
}
