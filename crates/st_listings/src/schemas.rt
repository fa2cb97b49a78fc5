//! How the list of schemas in effect changes over two steps in turn.
ghost use Rattle.std.specs.Prelude.{◌≡◌, ◌==◌, ◌&&◌, ◌++◌, ◌≤◌, false, length, take, slice_get, Some, IfOk, OnOk};
ghost use Rattle.st_listings.specs.Schemas.{
  same_entry,
  schemas_in_turn as in_turn,
  settle as settled,
};
ghost use Rattle.st_listings.specs.inside.Settling.{IsSettling, agree};

use st_ids::{Copied, List, Rev, is_same_rev};
use st_marks::{SchemaEntry, SchemaStep};
use std::alloc::{AllocError, Global};

// Whether two entries have one revision and one text.
fn is_same_entry(a: &SchemaEntry, b: &SchemaEntry) -> bool
    ensures { result ≡ same_entry a.now b.now }
{
    is_same_rev(a.rev, b.rev) && a.text == b.text
}

// Whether both lists have the same entry at a place.
fn agree_at(cut: &[SchemaEntry], add: &[SchemaEntry], place: usize) -> bool
    ensures { result ≡ agree (slice_get cut.now place) (slice_get add.now place) }
{
    match (cut.get(place), add.get(place)) {
        (Some(a), Some(b)) => is_same_entry(a, b),
        _ => false,
    }
}

// Adds copies of entries.
fn push_copies(
    list: &mut List<SchemaEntry>,
    alloc: Global,
    entries: &[SchemaEntry],
) -> Result<(), AllocError>
    ensures { OnOk result (list.new ≡ list.old ++ entries.now) }
{
    for entry in entries {
        list.push(entry.copy(alloc)?)?;
    }
    Ok(())
}

// Copies of entries.
fn copies(alloc: Global, entries: &[SchemaEntry]) -> Result<List<SchemaEntry>, AllocError>
    ensures { IfOk result (λ l. l ≡ entries.now) }
{
    let mut list = List::new(alloc);
    push_copies(&mut list, alloc, entries)?;
    Ok(list)
}

// Copies of the entries of one list that stand before as many as a second list has, and those of a third behind them.
fn front_and(
    alloc: Global,
    entries: &[SchemaEntry],
    fewer: usize,
    more: &[SchemaEntry],
) -> Result<List<SchemaEntry>, AllocError>
    requires { fewer ≤ length entries.now }
    ensures { IfOk result (λ l. l ≡ take fewer entries.now ++ more.now) }
{
    let (front, _) = entries.split_at(fewer);
    let mut list = copies(alloc, front)?;
    push_copies(&mut list, alloc, more)?;
    Ok(list)
}

// What goes and what comes behind an entry.
fn behind(
    alloc: Global,
    on: Rev,
    cut: &[SchemaEntry],
    add: &[SchemaEntry],
) -> Result<Option<SchemaStep>, AllocError>
    ensures { IfOk result (λ s. s ≡ Some (record { on = on; cut = cut.now; add = add.now })) }
{
    let cut = copies(alloc, cut)?;
    let add = copies(alloc, add)?;
    Ok(Some(SchemaStep { on, cut, add }))
}

// How long the longest front is that both lists share, and the revision of its last entry, or the one that stands before.
fn shared_front(on: Rev, cut: &[SchemaEntry], add: &[SchemaEntry]) -> (usize, Rev)
    ensures settling { IsSettling on cut.now add.now result.0 result.1 }
    ensures ends { agree (slice_get cut.now result.0) (slice_get add.now result.0) ≡ false }
{
    let mut front = 0;
    let mut last = on;
    'front: while agree_at(cut, add, front) {
        last = cut[front].rev;
        front += 1;
    }
    (front, last)
}

// Whether two lists are empty.
fn are_empty(goes: &[SchemaEntry], comes: &[SchemaEntry]) -> bool
    ensures { result ≡ ((length goes.now == 0) && (length comes.now == 0)) }
{
    goes.is_empty() && comes.is_empty()
}

// What goes and what comes behind an entry, without what both lists share.
fn settle(
    alloc: Global,
    on: Rev,
    cut: &[SchemaEntry],
    add: &[SchemaEntry],
) -> Result<Option<SchemaStep>, AllocError>
    ensures { IfOk result (λ s. s ≡ settled on cut.now add.now) }
{
    let (front, last) = shared_front(on, cut, add);
    let (_, goes) = cut.split_at(front);
    let (_, comes) = add.split_at(front);
    if are_empty(goes, comes) {
        Ok(None)
    } else {
        behind(alloc, last, goes, comes)
    }
}

// Two changes of the list in turn, where the second takes away all that the first brings, and more before that.
fn taken_too(
    alloc: Global,
    first: &SchemaStep,
    second: &SchemaStep,
    more: usize,
) -> Result<Option<SchemaStep>, AllocError>
    requires { more ≤ length second.now.cut }
    ensures { IfOk result (λ o. o ≡ settled second.now.on (take more second.now.cut ++ first.now.cut) second.now.add) }
{
    let cut = front_and(alloc, second.cut.as_slice(), more, first.cut.as_slice())?;
    settle(alloc, second.on, cut.as_slice(), second.add.as_slice())
}

// Two changes of the list in turn, where the second leaves so many entries of those that the first brings.
fn left_of_both(
    alloc: Global,
    first: &SchemaStep,
    second: &SchemaStep,
    left: usize,
) -> Result<Option<SchemaStep>, AllocError>
    requires { left ≤ length first.now.add }
    ensures { IfOk result (λ o. o ≡ settled first.now.on first.now.cut (take left first.now.add ++ second.now.add)) }
{
    let add = front_and(alloc, first.add.as_slice(), left, second.add.as_slice())?;
    settle(alloc, first.on, first.cut.as_slice(), add.as_slice())
}

// Two changes of the list in turn.
fn both_in_turn(
    alloc: Global,
    first: &SchemaStep,
    second: &SchemaStep,
) -> Result<Option<SchemaStep>, AllocError>
    ensures { IfOk result (λ o. o ≡ in_turn (Some first.now) (Some second.now)) }
{
    let brought = first.add.len();
    let taken = second.cut.len();
    if brought < taken {
        taken_too(alloc, first, second, taken - brought)
    } else {
        left_of_both(alloc, first, second, brought - taken)
    }
}

/// How the list of schemas in effect changes over two steps in turn.
pub fn schemas_in_turn(
    alloc: Global,
    first: &Option<SchemaStep>,
    second: &Option<SchemaStep>,
) -> Result<Option<SchemaStep>, AllocError>
    ensures { IfOk result (λ o. o ≡ in_turn first.now second.now) }
{
    match (first, second) {
        (None, _) => second.copy(alloc),
        (Some(_), None) => first.copy(alloc),
        (Some(first), Some(second)) => both_in_turn(alloc, first, second),
    }
}
