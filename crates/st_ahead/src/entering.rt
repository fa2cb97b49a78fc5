//! The lags, as a session joins, leaves, or tells how much it has received.
ghost use Rattle.std.specs.Prelude.{Bool, ℕ, true, ◌≡◌, ◌+◌, ◌≤◌, ◌==◌, false, None, Some, length, OnOk, List as Seq};
ghost use Rattle.std.specs.BTreeMap.{get};
ghost use Rattle.std.specs.Ordering.{nat_cmp};
ghost use Rattle.st_lists.specs.declared.lists.Entry.{Entry};
ghost use Rattle.st_lists.specs.Log.{is_connected, known_reference, log_with};
ghost use Rattle.st_lists.specs.declared.lists.Body.TheVariants.{Ack, Join, Leave};
ghost use Rattle.st_marks.specs.Document.{Document};
ghost use Rattle.st_ahead.specs.Lags.{HaveLags};
ghost use Rattle.st_ahead.specs.inside.Carrying.{IsLagOf};

use crate::lag::Lag;
use std::alloc::{AllocError, Global};
use std::collections::BTreeMap;

// A session has this lag.
fn put_lag(lags: &mut BTreeMap<u32, Lag>, session: u32, lag: Lag) -> Result<(), AllocError>
    ensures own { OnOk result (get nat_cmp lags.new session ≡ Some lag) }
    ensures others { OnOk result ((other : ℕ) → (other == session) ≡ false
        → get nat_cmp lags.new other ≡ get nat_cmp lags.old other) }
{
    lags.insert(session, lag)?;
    Ok(())
}

/// A session joins with the entry of a number, the next one: nothing is ahead of it. After an `Err` the lags are spent.
pub fn lags_join(
    alloc: Global,
    lags: &mut BTreeMap<u32, Lag>,
    session: u32,
    number: u32,
) -> Result<(), AllocError>
    ensures { OnOk result ((l : Bool) (O : Document) (log : Seq Entry) (uuid : ℕ)
        → known_reference session log ≤ length log → number ≡ length log + 1
        → HaveLags l O log (λ s. get nat_cmp lags.old s)
        → HaveLags l O (log_with log session (Join uuid)) (λ s. get nat_cmp lags.new s)) }
{
    put_lag(lags, session, Lag::at(alloc, number))?;
    Ok(())
}

// The lag of a session goes, if it has one.
fn give_lag_back(lags: &mut BTreeMap<u32, Lag>, session: u32)
    ensures own { get nat_cmp lags.new session ≡ None }
    ensures others { (other : ℕ) → (other == session) ≡ false
        → get nat_cmp lags.new other ≡ get nat_cmp lags.old other }
{
    let _left = lags.remove(&session);
}

/// A session leaves, and has no lag then.
pub fn lags_leave(lags: &mut BTreeMap<u32, Lag>, session: u32)
    ensures { (l : Bool) (O : Document) (log : Seq Entry)
        → HaveLags l O log (λ s. get nat_cmp lags.old s)
        → HaveLags l O (log_with log session Leave) (λ s. get nat_cmp lags.new s) }
{
    give_lag_back(lags, session);
}

// The lag of a session in the map of all lags, with a reference that isn't lower. Of a session without a lag nothing is promised.
fn raise_among(lags: &mut BTreeMap<u32, Lag>, session: u32, reference: u32)
    ensures own { (l : Bool) (O : Document) (log : Seq Entry) (known : ℕ)
        → known ≤ reference → reference ≤ length log
        → IsLagOf l O log session known (get nat_cmp lags.old session)
        → IsLagOf l O log session reference (get nat_cmp lags.new session) }
    ensures others { (other : ℕ) → (other == session) ≡ false
        → get nat_cmp lags.new other ≡ get nat_cmp lags.old other }
{
    if let Some(lag) = lags.get_mut(&session) {
        lag.raise(reference);
    }
}

/// A session tells up to which entry it has received the log: what is up to there isn't ahead of it any more.
pub fn lags_ack(lags: &mut BTreeMap<u32, Lag>, session: u32, reference: u32)
    ensures { (l : Bool) (O : Document) (log : Seq Entry) → is_connected session log ≡ true
        → known_reference session log ≤ reference → reference ≤ length log
        → HaveLags l O log (λ s. get nat_cmp lags.old s)
        → HaveLags l O (log_with log session (Ack reference)) (λ s. get nat_cmp lags.new s) }
{
    raise_among(lags, session, reference);
}
