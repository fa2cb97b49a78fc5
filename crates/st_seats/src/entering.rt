//! The seats, as a session joins, leaves, or tells how much it has received.
ghost use Rattle.std.specs.Prelude.{Bool, ℕ, true, ◌≡◌, ◌+◌, ◌≤◌, ◌==◌, false, None, length, OnOk, List as Seq};
ghost use Rattle.std.specs.BTreeMap.{get};
ghost use Rattle.std.specs.Ordering.{nat_cmp};
ghost use Rattle.st_lists.specs.declared.lists.Entry.{Entry};
ghost use Rattle.st_lists.specs.Log.{commits_in, is_connected, known_reference, log_with};
ghost use Rattle.st_lists.specs.declared.lists.Body.TheVariants.{Ack, Join, Leave};
ghost use Rattle.st_marks.specs.Document.{Document};
ghost use Rattle.st_marks.specs.Run.{Run};
ghost use Rattle.st_read_laws.specs.Reading.{IsStepRead};
ghost use Rattle.st_window_laws.specs.Windows.{IsWindowOf};
ghost use Rattle.st_seats.specs.Seats.{AreAllWritten, HaveSeats, IsSeatAt, IsWrittenFrom};
ghost use Rattle.st_seats.specs.inside.Seating.{IsSeatOf};

use crate::following::take_seat;
use crate::seat::{Seat, Turns};
use st_ids::List;
use st_marks::Step;
use st_rebaser::Rebaser;
use st_window::Window;
use std::alloc::{AllocError, Global};
use std::collections::BTreeMap;

/// The step from a document to itself.
pub fn no_step(alloc: Global) -> Step
    ensures { (l : Bool) (D : Document) → IsStepRead l D D result }
{
    Step {
        new: List::new(alloc),
        rows: List::new(alloc),
        regs: List::new(alloc),
        loose: List::new(alloc),
        schema: None,
    }
}

/// A session joins with the entry of a number, the next one: it has received all commits, and sent none since. After an `Err` the
/// seats are spent.
pub fn seats_join(
    alloc: Global,
    seats: &mut BTreeMap<u32, Seat>,
    session: u32,
    number: u32,
) -> Result<(), AllocError>
    ensures { OnOk result ((l : Bool) (O T : Document) (log : Seq Entry) (uuid : ℕ) → AreAllWritten O log session
        → Run O (commits_in log) T → number ≡ length log + 1 → HaveSeats l O log (λ s. get nat_cmp seats.old s)
        → HaveSeats l O (log_with log session (Join uuid)) (λ s. get nat_cmp seats.new s)) }
{
    let seat = Seat {
        reference: number,
        sent: Turns::new(alloc),
        bridge: no_step(alloc),
    };
    take_seat(seats, session, seat)?;
    Ok(())
}

// The seat of a session goes, if it has one.
fn give_seat_back(seats: &mut BTreeMap<u32, Seat>, session: u32)
    ensures own { get nat_cmp seats.new session ≡ None }
    ensures others { (other : ℕ) → (other == session) ≡ false
        → get nat_cmp seats.new other ≡ get nat_cmp seats.old other }
{
    let _left = seats.remove(&session);
}

/// A session leaves, and has no seat then.
pub fn seats_leave(seats: &mut BTreeMap<u32, Seat>, session: u32)
    ensures { (l : Bool) (O : Document) (log : Seq Entry) → AreAllWritten O log session
        → HaveSeats l O log (λ s. get nat_cmp seats.old s)
        → HaveSeats l O (log_with log session Leave) (λ s. get nat_cmp seats.new s) }
{
    give_seat_back(seats, session);
}

// The seat of a session in the map of all seats, with a reference that isn't lower. Of a session without a seat nothing is promised.
fn raise_among<R: Rebaser>(
    alloc: Global,
    seats: &mut BTreeMap<u32, Seat>,
    window: &Window,
    session: u32,
    reference: u32,
) -> Result<(), AllocError>
    ensures own { OnOk result ((O : Document) (log : Seq Entry) (known : ℕ) → IsWrittenFrom O log session known
        → IsWindowOf R.listed O log window.now → window.now.floor ≤ known → known ≤ reference → reference ≤ length log
        → IsSeatOf R.listed O log session known (get nat_cmp seats.old session)
        → IsSeatOf R.listed O log session reference (get nat_cmp seats.new session)) }
    ensures others { OnOk result ((other : ℕ) → (other == session) ≡ false
        → get nat_cmp seats.new other ≡ get nat_cmp seats.old other) }
{
    match seats.get_mut(&session) {
        Some(seat) => {
            seat.raise::<R>(alloc, window, session, reference)?;
            Ok(())
        }
        None => Ok(()),
    }
}

/// A session tells up to which entry it has received the log: its reference rises. It costs what the commits that it has received now,
/// and what it sent, cost over each other. After an `Err` the seats are spent.
pub fn seats_ack<R: Rebaser>(
    alloc: Global,
    seats: &mut BTreeMap<u32, Seat>,
    window: &Window,
    session: u32,
    reference: u32,
) -> Result<(), AllocError>
    ensures { OnOk result ((O : Document) (log : Seq Entry) → AreAllWritten O log session
        → IsWindowOf R.listed O log window.now → window.now.floor ≤ known_reference session log
        → is_connected session log ≡ true → known_reference session log ≤ reference → reference ≤ length log
        → HaveSeats R.listed O log (λ s. get nat_cmp seats.old s)
        → HaveSeats R.listed O (log_with log session (Ack reference)) (λ s. get nat_cmp seats.new s)) }
{
    raise_among::<R>(alloc, seats, window, session, reference)?;
    Ok(())
}
