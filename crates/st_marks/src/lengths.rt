//! How many cells marks list, before and after.

ghost use Rattle.std.specs.Prelude.{◌≡◌, ◌^◌, ◌∷◌, [], length, min};
ghost use Rattle.st_marks.specs.Row.{spread};
ghost use Rattle.st_marks.specs.Listings.{cells_before, cells_after};

use crate::marks::Mark;
use st_ids::List;

/// More cells than this aren't counted.
const MOST: u64 = 4_294_967_296;

/// How many cells a mark lists before.
fn before_one(mark: &Mark) -> u64
    ensures { result ≡ length (cells_before (spread (mark.now ∷ []))) }
{
    match mark {
        Mark::Skip(count) => u64::from(*count),
        Mark::Make { .. } => 0,
        _ => 1,
    }
}

/// How many cells a mark lists after.
fn after_one(mark: &Mark) -> u64
    ensures { result ≡ length (cells_after (spread (mark.now ∷ []))) }
{
    match mark {
        Mark::Skip(count) => u64::from(*count),
        _ => 1,
    }
}

/// How many cells the marks list before, and 2^32 where there are more.
pub fn before(marks: &List<Mark>) -> u64
    ensures { result ≡ min (length (cells_before (spread marks.now))) (2 ^ 32) }
{
    let mut count: u64 = 0;
    for mark in marks.as_slice() {
        count = MOST.min(count.saturating_add(before_one(mark)));
    }
    count
}

/// How many cells the marks list after, and 2^32 where there are more.
pub fn after(marks: &List<Mark>) -> u64
    ensures { result ≡ min (length (cells_after (spread marks.now))) (2 ^ 32) }
{
    let mut count: u64 = 0;
    for mark in marks.as_slice() {
        count = MOST.min(count.saturating_add(after_one(mark)));
    }
    count
}
