//! The change of a session's commit goes over what is ahead of the session.
ghost use Rattle.std.specs.Prelude.{◌≡◌, ◌≤◌, ◌+◌, ℕ, length, IfOk, OnOk, List as Seq};
ghost use Rattle.st_clusters.specs.declared.ids.IdRange.{IdRange as Range};
ghost use Rattle.st_lists.specs.declared.lists.Entry.{Entry};
ghost use Rattle.st_lists.specs.Log.{commits_in};
ghost use Rattle.st_marks.specs.declared.intents.Intent.{Intent};
ghost use Rattle.st_marks.specs.CarryOut.{full};
ghost use Rattle.st_marks.specs.Document.{Document, HasShortRows, IsSoundInForm};
ghost use Rattle.st_marks.specs.Intent.{Fits};
ghost use Rattle.st_marks.specs.Run.{Run};
ghost use Rattle.st_marks.specs.Verdict.{IsVerdict};
ghost use Rattle.st_read_laws.specs.Reading.{IsRead};
ghost use Rattle.st_seats.specs.Seats.{IsWrittenFrom};
ghost use Rattle.st_valid.specs.Author.{author_list};
ghost use Rattle.st_ahead.specs.Lags.{AreAhead, IsLagAt};
ghost use Rattle.st_ahead.specs.inside.Carrying.{after, IsCarriedAt, IsWrittenAt};

use crate::lag::{Ahead, Lag};
use st_ids::List;
use st_marks::{Change, Verdict};
use st_rebaser::{Carrier, Rebaser};
use std::alloc::{AllocError, Global};

// The verdict of a change where it stands.
fn verdict_of<R: Rebaser>(alloc: Global, change: &Change) -> Result<Verdict, AllocError>
    ensures { IfOk result (λ v. (A : Document) (N : Intent)
        → IsSoundInForm A → Fits A N → HasShortRows (full A N)
        → IsRead R.listed A N change.now → IsVerdict A N v) }
{
    let effected = R::effect(alloc, change)?;
    Ok(effected.verdict)
}

// The change over the step at a place, if there is one, and the step over the change.
fn carry_at<R: Carrier>(
    alloc: Global,
    ahead: &mut List<Ahead>,
    place: usize,
    change: &mut Change,
    verdict: &mut Verdict,
) -> Result<(), AllocError>
    ensures { OnOk result (IsCarriedAt R.listed place ahead.old change.entry.now verdict.old
        ahead.new change.exit.now verdict.new) }
{
    match ahead.get_mut(place) {
        None => Ok(()),
        Some(one) => R::carry(alloc, change, verdict, &mut one.step),
    }
}

// The change, of a commit that the log has next, over all steps, and each step over it.
fn carry_over_all<R: Carrier>(
    alloc: Global,
    ahead: &mut List<Ahead>,
    change: &mut Change,
    verdict: &mut Verdict,
) -> Result<(), AllocError>
    ensures { OnOk result ((O : Document) (log : Seq Entry) (session reference last : ℕ)
        (ids : Range) (N : Intent)
        → IsWrittenFrom O (after log session reference ids N) session reference
        → reference ≤ last → last ≤ length log
        → AreAhead R.listed O log session reference last ahead.old
        → IsWrittenAt R.listed O log session reference N change.entry.now verdict.old
        → AreAhead R.listed O (after log session reference ids N) session reference last ahead.new
        × IsWrittenAt R.listed O log session last N change.exit.now verdict.new) }
{
    for place in 0..ahead.len() {
        carry_at::<R>(alloc, ahead, place, change, verdict)?;
    }
    Ok(())
}

// The same, and the change alone where nothing is ahead: its verdict isn't asked for then.
fn carry_over<R: Rebaser>(
    alloc: Global,
    ahead: &mut List<Ahead>,
    change: &mut Change,
) -> Result<(), AllocError>
    ensures { OnOk result ((O A : Document) (log : Seq Entry) (session reference last : ℕ)
        (ids : Range) (N : Intent)
        → IsWrittenFrom O (after log session reference ids N) session reference
        → reference ≤ last → last ≤ length log
        → AreAhead R.listed O log session reference last ahead.old
        → Run O (author_list log session reference) A → IsRead R.listed A N change.entry.now
        → AreAhead R.listed O (after log session reference ids N) session reference last ahead.new
        × ((B : Document) → Run O (author_list log session last) B
        → IsRead R.listed B N change.exit.now)) }
{
    if ahead.is_empty() {
        return Ok(());
    }
    let mut verdict = verdict_of::<R>(alloc, change)?;
    carry_over_all::<R>(alloc, ahead, change, &mut verdict)
}

impl Lag {
    /// The session, to which all commits of others that it hasn't received are ahead, commits with the next entry, of this number: each
    /// step ahead becomes the one over its commit too. In place the change becomes that of the commit where it comes, behind all commits
    /// of the log. After an `Err` the lag is spent.
    pub fn take_commit<R: Rebaser>(
        &mut self,
        alloc: Global,
        number: u32,
        change: &mut Change,
    ) -> Result<(), AllocError>
        ensures { OnOk result ((O A T : Document) (log : Seq Entry) (session reference : ℕ)
            (ids : Range) (N : Intent)
            → IsWrittenFrom O (after log session reference ids N) session reference
            → IsLagAt R.listed O log session reference self.old
            → self.old.last ≡ length log → number ≡ length log + 1
            → Run O (author_list log session reference) A → Run O (commits_in log) T
            → IsRead R.listed A N change.entry.now
            → IsLagAt R.listed O (after log session reference ids N) session reference self.new
            × IsRead R.listed T N change.exit.now) }
    {
        carry_over::<R>(alloc, &mut self.ahead, change)?;
        self.last = number;
        Ok(())
    }
}
