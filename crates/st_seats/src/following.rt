//! The seats behind a step of the trunk.
ghost use Rattle.std.specs.Prelude.{◌≡◌, ◌==◌, ℕ, false, None, Some, OnOk};
ghost use Rattle.std.specs.BTreeMap.{get};
ghost use Rattle.std.specs.Ordering.{nat_cmp};
ghost use Rattle.st_seats.specs.inside.Following.{FollowsBut};

use crate::seat::Seat;
use st_marks::Step;
use st_rebaser::Rebaser;
use std::alloc::{AllocError, Global};
use std::collections::BTreeMap;

// Seats a session.
pub(crate) fn take_seat(
    seats: &mut BTreeMap<u32, Seat>,
    session: u32,
    seat: Seat,
) -> Result<(), AllocError>
    ensures own { OnOk result (get nat_cmp seats.new session ≡ Some seat) }
    ensures others { OnOk result ((other : ℕ) → (other == session) ≡ false
        → get nat_cmp seats.new other ≡ get nat_cmp seats.old other) }
{
    seats.insert(session, seat)?;
    Ok(())
}

// The bridge of a session's seat, if it has one, goes on by a step; that of one session stays.
fn seat_follows<R: Rebaser>(
    alloc: Global,
    seats: &mut BTreeMap<u32, Seat>,
    but: u32,
    session: u32,
    step: &Step,
) -> Result<(), AllocError>
    ensures own { OnOk result (FollowsBut R.listed step.now but session
        (get nat_cmp seats.old session) (get nat_cmp seats.new session)) }
    ensures others { OnOk result ((other : ℕ) → (other == session) ≡ false
        → get nat_cmp seats.new other ≡ get nat_cmp seats.old other) }
{
    if session == but {
        return Ok(());
    }
    match seats.get_mut(&session) {
        Some(seat) => R::splice(alloc, &mut seat.bridge, step),
        None => Ok(()),
    }
}

// Seats all sessions of a map in one that is empty; the bridge of each but one goes on by a step.
fn all_follow<R: Rebaser>(
    alloc: Global,
    left: &mut BTreeMap<u32, Seat>,
    seats: &mut BTreeMap<u32, Seat>,
    but: u32,
    step: &Step,
) -> Result<(), AllocError>
    ensures { OnOk result (((session : ℕ) → get nat_cmp seats.old session ≡ None)
        → (session : ℕ) → FollowsBut R.listed step.now but session (get nat_cmp left.old session)
        (get nat_cmp seats.new session)) }
{
    'followed: while let Some((session, seat)) = left.pop_first() {
        take_seat(seats, session, seat)?;
        seat_follows::<R>(alloc, seats, but, session, step)?;
    }
    Ok(())
}

/// The bridge of each seat but that of one session goes on by a step of the trunk. After an `Err` the seats are spent.
pub(crate) fn seats_follow<R: Rebaser>(
    alloc: Global,
    seats: &mut BTreeMap<u32, Seat>,
    but: u32,
    step: &Step,
) -> Result<(), AllocError>
    ensures { OnOk result ((session : ℕ) → FollowsBut R.listed step.now but session
        (get nat_cmp seats.old session) (get nat_cmp seats.new session)) }
{
    let mut left = std::mem::replace(seats, BTreeMap::new(alloc));
    all_follow::<R>(alloc, &mut left, seats, but, step)
}
