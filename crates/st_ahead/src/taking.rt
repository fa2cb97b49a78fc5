//! The lags, as a session commits.
ghost use Rattle.std.specs.Prelude.{◌≡◌, ◌==◌, ◌≤◌, ◌+◌, ℕ, true, false, length, IfOk, OnOk, List as Seq};
ghost use Rattle.std.specs.BTreeMap.{get};
ghost use Rattle.std.specs.Ordering.{nat_cmp};
ghost use Rattle.st_clusters.specs.declared.ids.IdRange.{IdRange as Range};
ghost use Rattle.st_lists.specs.declared.lists.Entry.{Entry};
ghost use Rattle.st_lists.specs.Log.{is_connected, known_reference, log_with};
ghost use Rattle.st_lists.specs.declared.lists.Body.TheVariants.{Commit};
ghost use Rattle.st_marks.specs.declared.intents.Intent.{Intent};
ghost use Rattle.st_marks.specs.Document.{Document};
ghost use Rattle.st_window_laws.specs.Windows.{IsWindowOf};
ghost use Rattle.st_seats.specs.Seats.{IsComing, IsEntered, IsWrittenFrom};
ghost use Rattle.st_ahead.specs.Lags.{HaveLags, IsLagAt};
ghost use Rattle.st_ahead.specs.inside.Carrying.{IsLagOf, after};

use crate::lag::Lag;
use st_marks::Change;
use st_rebaser::{Effected, Rebaser};
use st_window::Window;
use std::alloc::{AllocError, Global};
use std::collections::BTreeMap;

// The lag of a session that commits with the entry of a number, with its reference, and what the commit does where it comes.
fn commit_at<R: Rebaser>(
    alloc: Global,
    lag: &mut Lag,
    window: &Window,
    number: u32,
    reference: u32,
    change: &mut Change,
) -> Result<Effected, AllocError>
    ensures { IfOk result (λ e. (O A T : Document) (log : Seq Entry) (session known : ℕ)
        (ids : Range) (N : Intent)
        → IsWrittenFrom O (after log session reference ids N) session reference
        → number ≡ length log + 1 → IsWindowOf R.listed O log window.now
        → window.now.floor ≤ known → known ≤ reference → reference ≤ length log
        → IsLagAt R.listed O log session known lag.old
        → IsComing R.listed O log session reference A T N change.entry.now
        → IsEntered R.listed T N change.exit.now e
        × IsLagAt R.listed O (after log session reference ids N) session reference lag.new) }
{
    lag.raise(reference);
    lag.catch_up(alloc, window, number.saturating_sub(1))?;
    lag.take_commit::<R>(alloc, number, change)?;
    let effected = R::effect(alloc, change)?;
    Ok(effected)
}

// The same in the map of all lags. Of a session without a lag nothing is promised.
fn commit_among<R: Rebaser>(
    alloc: Global,
    lags: &mut BTreeMap<u32, Lag>,
    window: &Window,
    session: u32,
    number: u32,
    reference: u32,
    change: &mut Change,
) -> Result<Effected, AllocError>
    ensures own { IfOk result (λ e. (O A T : Document) (log : Seq Entry) (known : ℕ)
        (ids : Range) (N : Intent)
        → IsWrittenFrom O (after log session reference ids N) session reference
        → number ≡ length log + 1 → IsWindowOf R.listed O log window.now
        → window.now.floor ≤ known → known ≤ reference → reference ≤ length log
        → IsLagOf R.listed O log session known (get nat_cmp lags.old session)
        → IsComing R.listed O log session reference A T N change.entry.now
        → IsEntered R.listed T N change.exit.now e
        × IsLagOf R.listed O (after log session reference ids N) session reference
        (get nat_cmp lags.new session)) }
    ensures others { OnOk result ((other : ℕ) → (other == session) ≡ false
        → get nat_cmp lags.new other ≡ get nat_cmp lags.old other) }
{
    match lags.get_mut(&session) {
        Some(lag) => commit_at::<R>(alloc, lag, window, number, reference, change),
        None => R::effect(alloc, change),
    }
}

/// A session commits with the entry of a number, the next one: its reference rises, its lag catches up with the log, and what is ahead
/// goes on over the commit. In place the change becomes that of the commit where it comes, behind all commits received; gives what it
/// does there. What is kept of other sessions stays as it is, since the window has the commit. It costs what the change and the commits
/// that the session hasn't received cost over each other. After an `Err` the lags are spent.
pub fn lags_take<R: Rebaser>(
    alloc: Global,
    lags: &mut BTreeMap<u32, Lag>,
    window: &Window,
    session: u32,
    number: u32,
    reference: u32,
    change: &mut Change,
) -> Result<Effected, AllocError>
    ensures { IfOk result (λ e. (O A T : Document) (log : Seq Entry) (ids : Range) (N : Intent)
        → IsWrittenFrom O (log_with log session (Commit reference ids N)) session reference
        → number ≡ length log + 1
        → IsWindowOf R.listed O log window.now → window.now.floor ≤ known_reference session log
        → is_connected session log ≡ true
        → known_reference session log ≤ reference → reference ≤ length log
        → HaveLags R.listed O log (λ s. get nat_cmp lags.old s)
        → IsComing R.listed O log session reference A T N change.entry.now
        → IsEntered R.listed T N change.exit.now e
        × HaveLags R.listed O (log_with log session (Commit reference ids N))
        (λ s. get nat_cmp lags.new s)) }
{
    let effected = commit_among::<R>(alloc, lags, window, session, number, reference, change)?;
    Ok(effected)
}
