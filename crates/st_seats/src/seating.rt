//! The seats, as a session commits.
ghost use Rattle.std.specs.Prelude.{◌≡◌, ◌==◌, ◌≤◌, ℕ, true, false, length, IfOk, OnOk, List as Seq};
ghost use Rattle.std.specs.BTreeMap.{get};
ghost use Rattle.std.specs.Ordering.{nat_cmp};
ghost use Rattle.st_clusters.specs.declared.ids.IdRange.{IdRange as Range};
ghost use Rattle.st_lists.specs.declared.lists.Entry.{Entry};
ghost use Rattle.st_lists.specs.Log.{is_connected, known_reference, log_with};
ghost use Rattle.st_lists.specs.declared.lists.Body.TheVariants.{Commit};
ghost use Rattle.st_marks.specs.declared.intents.Intent.{Intent};
ghost use Rattle.st_marks.specs.Document.{Document};
ghost use Rattle.st_window_laws.specs.Windows.{IsWindowOf};
ghost use Rattle.st_seats.specs.Seats.{AreAllWritten, HaveSeats, IsComing, IsEntered, IsSeatAt, IsWrittenFrom};
ghost use Rattle.st_seats.specs.inside.Seating.{IsSeatOf, after};

use crate::following::seats_follow;
use crate::seat::Seat;
use st_marks::Change;
use st_rebaser::{Effected, Rebaser};
use st_window::Window;
use std::alloc::{AllocError, Global};
use std::collections::BTreeMap;

// The seat of a session that commits, with its reference, and what the commit does where it comes.
fn commit_at<R: Rebaser>(
    alloc: Global,
    seat: &mut Seat,
    window: &Window,
    session: u32,
    reference: u32,
    change: &mut Change,
) -> Result<Effected, AllocError>
    ensures { IfOk result (λ e. (O A T : Document) (log : Seq Entry) (known : ℕ) (ids : Range) (N : Intent) → IsWrittenFrom O log session known
        → IsWindowOf R.listed O log window.now → window.now.floor ≤ known → known ≤ reference → reference ≤ length log
        → IsSeatAt R.listed O log session known seat.old → IsComing R.listed O log session reference A T N change.entry.now
        → IsEntered R.listed T N change.exit.now e × IsSeatAt R.listed O (after log session reference ids N) session reference seat.new) }
{
    seat.raise::<R>(alloc, window, session, reference)?;
    seat.take_commit::<R>(alloc, change)?;
    let effected = R::effect(alloc, change)?;
    Ok(effected)
}

// The same in the map of all seats. Of a session without a seat nothing is promised.
fn commit_among<R: Rebaser>(
    alloc: Global,
    seats: &mut BTreeMap<u32, Seat>,
    window: &Window,
    session: u32,
    reference: u32,
    change: &mut Change,
) -> Result<Effected, AllocError>
    ensures own { IfOk result (λ e. (O A T : Document) (log : Seq Entry) (known : ℕ) (ids : Range) (N : Intent) → IsWrittenFrom O log session known
        → IsWindowOf R.listed O log window.now → window.now.floor ≤ known → known ≤ reference → reference ≤ length log
        → IsSeatOf R.listed O log session known (get nat_cmp seats.old session) → IsComing R.listed O log session reference A T N change.entry.now
        → IsEntered R.listed T N change.exit.now e
        × IsSeatOf R.listed O (after log session reference ids N) session reference (get nat_cmp seats.new session)) }
    ensures others { OnOk result ((other : ℕ) → (other == session) ≡ false
        → get nat_cmp seats.new other ≡ get nat_cmp seats.old other) }
{
    match seats.get_mut(&session) {
        Some(seat) => commit_at::<R>(alloc, seat, window, session, reference, change),
        None => R::effect(alloc, change),
    }
}

/// A session commits: its reference rises, its seat takes the commit, and the others follow its step. In place the change becomes that
/// of the commit where it comes, behind all commits received; gives what it does there. It costs what the commits that the session has
/// received now, and what it sent, cost over each other, and a composition for each other session. After an `Err` the seats are spent.
pub fn seats_take<R: Rebaser>(
    alloc: Global,
    seats: &mut BTreeMap<u32, Seat>,
    window: &Window,
    session: u32,
    reference: u32,
    change: &mut Change,
) -> Result<Effected, AllocError>
    ensures { IfOk result (λ e. (O A T : Document) (log : Seq Entry) (ids : Range) (N : Intent) → AreAllWritten O log session
        → IsWindowOf R.listed O log window.now → window.now.floor ≤ known_reference session log
        → is_connected session log ≡ true → known_reference session log ≤ reference → reference ≤ length log
        → HaveSeats R.listed O log (λ s. get nat_cmp seats.old s) → IsComing R.listed O log session reference A T N change.entry.now
        → IsEntered R.listed T N change.exit.now e
        × HaveSeats R.listed O (log_with log session (Commit reference ids N)) (λ s. get nat_cmp seats.new s)) }
{
    let effected = commit_among::<R>(alloc, seats, window, session, reference, change)?;
    seats_follow::<R>(alloc, seats, session, &effected.step)?;
    Ok(effected)
}
