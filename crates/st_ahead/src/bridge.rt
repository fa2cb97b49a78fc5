//! The step from the document over which a session writes to that of all commits.
ghost use Rattle.std.specs.Prelude.{◌≤◌, ℕ, length, map, IfOk, OnOk, List as Seq};
ghost use Rattle.st_lists.specs.declared.lists.Entry.{Entry};
ghost use Rattle.st_lists.specs.Log.{known_reference};
ghost use Rattle.st_marks.specs.Document.{Document};
ghost use Rattle.st_window_laws.specs.Windows.{IsWindowOf};
ghost use Rattle.st_seats.specs.Seats.{IsBridge, IsWrittenFrom};
ghost use Rattle.st_ahead.specs.Lags.{AreAhead, IsLag, IsLagAt};
ghost use Rattle.st_ahead.specs.inside.Bridging.{IsBridgeTo};
ghost use Rattle.st_ahead.specs.inside.Lists.{ahead_of};

use crate::lag::{Ahead, Lag};
use st_marks::Step;
use st_rebaser::Rebaser;
use st_seats::no_step;
use st_window::{Kept, Window};
use std::alloc::{AllocError, Global};

// A bridge goes on over what is ahead.
fn go_over<R: Rebaser>(alloc: Global, bridge: &mut Step, ahead: &[Ahead]) -> Result<(), AllocError>
    ensures { OnOk result ((O : Document) (log : Seq Entry) (session from place last : ℕ)
        → place ≤ last → last ≤ length log → AreAhead R.listed O log session place last ahead.now
        → IsBridgeTo R.listed O log session from place bridge.entry.now
        → IsBridgeTo R.listed O log session from last bridge.exit.now) }
{
    for one in ahead {
        R::splice(alloc, bridge, &one.step)?;
    }
    Ok(())
}

// The same over commits that are kept.
fn go_over_kept<R: Rebaser>(
    alloc: Global,
    bridge: &mut Step,
    kept: &[Kept],
) -> Result<(), AllocError>
    ensures { OnOk result ((O : Document) (log : Seq Entry) (session from place last : ℕ)
        → place ≤ last → last ≤ length log
        → AreAhead R.listed O log session place last (map ahead_of kept.now)
        → IsBridgeTo R.listed O log session from place bridge.entry.now
        → IsBridgeTo R.listed O log session from last bridge.exit.now) }
{
    for one in kept {
        R::splice(alloc, bridge, &one.step)?;
    }
    Ok(())
}

// A bridge over what is ahead goes on over what the window has behind that.
fn go_to_end<R: Rebaser>(
    alloc: Global,
    bridge: &mut Step,
    lag: &Lag,
    window: &Window,
) -> Result<(), AllocError>
    ensures { OnOk result ((O : Document) (log : Seq Entry) (session reference from : ℕ)
        → IsWrittenFrom O log session reference → IsWindowOf R.listed O log window.now
        → window.now.floor ≤ reference → IsLagAt R.listed O log session reference lag.now
        → IsBridgeTo R.listed O log session from lag.now.last bridge.entry.now
        → IsBridgeTo R.listed O log session from (length log) bridge.exit.now) }
{
    match window.since(lag.last) {
        Err(_) => Ok(()),
        Ok(kept) => go_over_kept::<R>(alloc, bridge, kept),
    }
}

// A bridge goes on over all that the session hasn't received.
fn go_over_all<R: Rebaser>(
    alloc: Global,
    bridge: &mut Step,
    lag: &Lag,
    window: &Window,
) -> Result<(), AllocError>
    ensures { OnOk result ((O : Document) (log : Seq Entry) (session reference : ℕ)
        → IsWrittenFrom O log session reference → IsWindowOf R.listed O log window.now
        → window.now.floor ≤ reference → IsLagAt R.listed O log session reference lag.now
        → IsBridgeTo R.listed O log session reference reference bridge.entry.now
        → IsBridgeTo R.listed O log session reference (length log) bridge.exit.now) }
{
    go_over::<R>(alloc, bridge, lag.ahead.as_slice())?;
    go_to_end::<R>(alloc, bridge, lag, window)
}

/// The step from the document over which a session writes, by its known reference, to that of all commits, which its lag and the
/// window tell of. It costs a composition for each commit of another that the session hasn't received.
pub fn bridge_of<R: Rebaser>(alloc: Global, lag: &Lag, window: &Window) -> Result<Step, AllocError>
    ensures { IfOk result (λ S. (O : Document) (log : Seq Entry) (session : ℕ)
        → IsWrittenFrom O log session (known_reference session log)
        → IsWindowOf R.listed O log window.now → window.now.floor ≤ known_reference session log
        → IsLag R.listed O log session lag.now → IsBridge R.listed O log session S) }
{
    let mut bridge = no_step(alloc);
    go_over_all::<R>(alloc, &mut bridge, lag, window)?;
    Ok(bridge)
}
