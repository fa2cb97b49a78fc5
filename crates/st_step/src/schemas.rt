//! How the list of schemas in effect changes.
ghost use Rattle.std.specs.Prelude.{◌≡◌, ◌==◌, ◌&&◌, length, take, drop, option_map, slice_get, IfOk, IsSome};
ghost use Rattle.st_marks.specs.Document.{first_of, last_of, revs};
ghost use Rattle.st_marks.specs.Step.{IsSchemaStep};
ghost use Rattle.st_later.specs.inside.Extending.{same_entry};
ghost use Rattle.st_step.specs.inside.Schemas.{IsSharedFront, agree};

use st_ids::{Copied, List, Rev, is_same_rev};
use st_marks::{SchemaEntry, SchemaStep};
use std::alloc::{AllocError, Global};

// Whether two entries are the same.
fn is_same_entry(a: &SchemaEntry, b: &SchemaEntry) -> bool
    ensures { result ≡ same_entry a.now b.now }
{
    is_same_rev(a.rev, b.rev) && a.text == b.text
}

// Whether both lists have the same entry at a place.
fn agree_at(before: &[SchemaEntry], after: &[SchemaEntry], place: usize) -> bool
    ensures { result ≡ agree (slice_get before.now place) (slice_get after.now place) }
{
    match (before.get(place), after.get(place)) {
        (Some(a), Some(b)) => is_same_entry(a, b),
        _ => false,
    }
}

// How long the longest front is that both lists share.
fn shared_front(before: &[SchemaEntry], after: &[SchemaEntry]) -> usize
    ensures { IsSharedFront before.now after.now result }
{
    let mut front = 0;
    while agree_at(before, after, front) {
        front += 1;
    }
    front
}

// A copy of some entries.
fn copies(alloc: Global, entries: &[SchemaEntry]) -> Result<List<SchemaEntry>, AllocError>
    ensures { IfOk result (λ l. l ≡ entries.now) }
{
    let mut list = List::new(alloc);
    for entry in entries {
        list.push(entry.copy(alloc)?)?;
    }
    Ok(list)
}

// The revision of the last entry, if there is one.
fn last_rev(entries: &[SchemaEntry]) -> Option<Rev>
    ensures { result ≡ last_of (revs entries.now) }
{
    Some(entries.last()?.rev)
}

// What follows a front of both lists, if that has entries.
fn behind(
    alloc: Global,
    before: &[SchemaEntry],
    after: &[SchemaEntry],
    front: usize,
) -> Result<Option<SchemaStep>, AllocError>
    requires { IsSharedFront before.now after.now front }
    ensures { IfOk result (λ s. s ≡ option_map (λ r. record { on = r; cut = drop front before.now; add = drop front after.now })
        (last_of (revs (take front before.now)))) }
{
    let (shared, cut) = before.split_at(front);
    let (_, add) = after.split_at(front);
    match last_rev(shared) {
        None => Ok(None),
        Some(on) => {
            let cut = copies(alloc, cut)?;
            let add = copies(alloc, add)?;
            Ok(Some(SchemaStep { on, cut, add }))
        }
    }
}

// Whether a front is the whole of both lists.
fn is_whole(before: &[SchemaEntry], after: &[SchemaEntry], front: usize) -> bool
    ensures { result ≡ ((front == length before.now) && (front == length after.now)) }
{
    front == before.len() && front == after.len()
}

/// How the list of schemas in effect changes, where both lists begin alike: nothing where they are the same; else what
/// follows the longest front that they share.
pub fn schema_step(
    alloc: Global,
    before: &[SchemaEntry],
    after: &[SchemaEntry],
) -> Result<Option<SchemaStep>, AllocError>
    requires begun { IsSome (first_of before.now) }
    requires alike { first_of before.now ≡ first_of after.now }
    ensures { IfOk result (IsSchemaStep before.now after.now) }
{
    let front = shared_front(before, after);
    if is_whole(before, after, front) {
        return Ok(None);
    }
    let step = behind(alloc, before, after, front)?;
    Ok(step)
}
