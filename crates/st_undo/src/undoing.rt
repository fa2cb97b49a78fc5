//! Undoing a commit of one's own.
ghost use Rattle.std.specs.Prelude.{◌≡◌, ◌∷◌, ◌<◌, ℕ, true, None, Some, position, length, IfOk, OnOk, IfSome, List as Seq};
ghost use Rattle.st_ids.specs.Listing.{Has};
ghost use Rattle.st_ids.specs.Or.{IfRefused};
ghost use Rattle.st_ids.specs.Order.{same_rev};
ghost use Rattle.st_history.specs.Past.{Past, commits_of, has_commit};
ghost use Rattle.st_lists.specs.Undoing.{IsUndoing};
ghost use Rattle.st_log_laws.specs.Turns.{FitInTurn};
ghost use Rattle.st_marks.specs.declared.changes.Change.{Change as Meant};
ghost use Rattle.st_marks.specs.declared.intents.Intent.{Intent};
ghost use Rattle.st_marks.specs.declared.verdicts.Verdict.{Verdict as Outcome};
ghost use Rattle.st_marks.specs.Back.{IsBack};
ghost use Rattle.st_marks.specs.Document.{Document, IsSoundInForm, revs};
ghost use Rattle.st_marks.specs.Extends.{IsExtendedBy};
ghost use Rattle.st_marks.specs.Run.{Run};
ghost use Rattle.st_marks.specs.Verdict.{IsVerdict, carried_document};
ghost use Rattle.st_read_laws.specs.Reading.{IsRead, IsStepRead};
ghost use Rattle.st_rebaser.specs.InTurn.{ShowInTurn};
ghost use Rattle.st_window.specs.Window.{kept_with};
ghost use Rattle.st_window_laws.specs.Windows.{IsWindowOf};
ghost use Rattle.st_undo.specs.Undone.{CanBeUndone, IsRefused, IsSoundPast, fault_over};
ghost use Rattle.st_undo.specs.inside.Carrying.{LeadInTurn};
ghost use Rattle.st_undo.specs.inside.Refused.{IsRefusedThere, IsUndoneThere};

use crate::carrying::way_back;
use crate::faults::{UndoFault, fault_over};
use st_history::History;
use st_ids::{List, Or, Rev, is_same_rev};
use st_marks::{Change, Step, Verdict};
use st_rebaser::Rebaser;
use st_window::Kept;
use std::alloc::Global;

// The change that takes back a commit of which the step and the verdict are known, or why it isn't undone.
fn undo_step<R: Rebaser>(
    alloc: Global,
    commit: &Change,
    step: &Step,
    verdict: Verdict,
    kept: &[Kept],
    pending: &[Change],
    fresh: Rev,
    under: Rev,
) -> Result<Change, Or<UndoFault>>
    ensures ok { IfOk result (λ C. (D E T F : Document) (Ns : Seq Intent) (B : Intent) → IsExtendedBy D E → IsSoundInForm T
        → IsBack D E fresh under B → IsStepRead R.listed D E step.now → LeadInTurn R.listed E kept.now T → FitInTurn T Ns
        → ShowInTurn R.listed T Ns pending.now F → Has (revs F.schemas) under → IsRead R.listed F B C) }
    ensures answered { OnOk result (fault_over verdict commit.now.schema ≡ None) }
    ensures refused { IfRefused result (λ f. fault_over verdict commit.now.schema ≡ Some f) }
{
    match fault_over(verdict, &commit.schema) {
        Some(fault) => Err(Or::Fault(fault)),
        None => Ok(way_back::<R>(alloc, step, kept, pending, fresh, under)?),
    }
}

// The same of a commit that is pending, with those behind it.
fn undo_change<R: Rebaser>(
    alloc: Global,
    commit: &Change,
    later: &[Change],
    fresh: Rev,
    under: Rev,
) -> Result<Change, Or<UndoFault>>
    ensures ok { IfOk result (λ C. (D F : Document) (N B : Intent) (Ns : Seq Intent) (v : Outcome) → IsSoundInForm D → FitInTurn D (N ∷ Ns)
        → IsVerdict D N v → IsRead R.listed D N commit.now → ShowInTurn R.listed (carried_document v D N) Ns later.now F
        → IsBack D (carried_document v D N) fresh under B → Has (revs F.schemas) under → IsRead R.listed F B C) }
    ensures answered { OnOk result ((D : Document) (N : Intent) (Ns : Seq Intent) (v : Outcome) → IsSoundInForm D → FitInTurn D (N ∷ Ns)
        → IsVerdict D N v → IsRead R.listed D N commit.now → fault_over v N.schema ≡ None) }
    ensures refused { IfRefused result (λ f. (D : Document) (N : Intent) (Ns : Seq Intent) (v : Outcome) → IsSoundInForm D → FitInTurn D (N ∷ Ns)
        → IsVerdict D N v → IsRead R.listed D N commit.now → fault_over v N.schema ≡ Some f) }
{
    let effected = R::effect(alloc, commit)?;
    let none = List::new(alloc);
    undo_step::<R>(
        alloc,
        commit,
        &effected.step,
        effected.verdict,
        none.as_slice(),
        later,
        fresh,
        under,
    )
}

// The place of the change of a revision.
fn place_of(changes: &[Change], rev: Rev) -> Option<usize>
    ensures place { result ≡ position (λ (C : Meant). same_rev C.rev rev) changes.now }
    ensures within { IfSome result (λ j. j < length changes.now) }
{
    changes
        .iter()
        .position(|change| is_same_rev(change.rev, rev))
}

// A commit of a revision that isn't kept: a pending one, or one that is gone.
fn undo_pending<R: Rebaser, H: History>(
    alloc: Global,
    history: &H,
    rev: Rev,
    fresh: Rev,
    under: Rev,
) -> Result<Change, Or<UndoFault>>
    requires { H.listed ≡ R.listed }
    ensures ok { IfOk result (λ C. (p : Past) (B : Intent) (F : Document) → H.tells history.now p → IsSoundPast p
        → IsUndoing p.opening (commits_of p) rev fresh B → B.under ≡ under → Run p.opening (commits_of p) F → IsRead R.listed F B C) }
    ensures answered { OnOk result ((p : Past) → H.tells history.now p → IsSoundPast p → IsUndoneThere (H.window history.now).floor p rev) }
    ensures refused { IfRefused result (λ f. (p : Past) → H.tells history.now p → IsSoundPast p → has_commit p rev ≡ true
        → IsWindowOf R.listed p.opening p.log (H.window history.now) → kept_with rev (H.window history.now).kept ≡ None
        → IsRefusedThere (H.window history.now).floor p rev f) }
{
    let pending = history.local().as_slice();
    let gone = Or::Fault(UndoFault::Gone {
        floor: history.lowest(),
    });
    let Some(place) = place_of(pending, rev) else {
        return Err(gone);
    };
    let (_, behind) = pending.split_at(place);
    match behind.split_first() {
        Some((commit, later)) => undo_change::<R>(alloc, commit, later, fresh, under),
        None => Err(gone),
    }
}

// A commit that is kept.
fn undo_kept<R: Rebaser, H: History>(
    alloc: Global,
    history: &H,
    commit: &Kept,
    fresh: Rev,
    under: Rev,
) -> Result<Change, Or<UndoFault>>
    requires { H.listed ≡ R.listed }
    ensures ok { IfOk result (λ C. (p : Past) (B : Intent) (F : Document) → H.tells history.now p → IsSoundPast p
        → Has (H.window history.now).kept commit.now → IsUndoing p.opening (commits_of p) commit.now.change.rev fresh B
        → B.under ≡ under → Run p.opening (commits_of p) F → IsRead R.listed F B C) }
    ensures answered { OnOk result ((p : Past) → H.tells history.now p → IsSoundPast p
        → Has (H.window history.now).kept commit.now → IsUndoneThere (H.window history.now).floor p commit.now.change.rev) }
    ensures refused { IfRefused result (λ f. (p : Past) → H.tells history.now p → IsSoundPast p
        → Has (H.window history.now).kept commit.now → IsRefusedThere (H.window history.now).floor p commit.now.change.rev f) }
{
    match history.kept().since(commit.n) {
        Ok(later) => undo_step::<R>(
            alloc,
            &commit.change,
            &commit.step,
            commit.verdict,
            later,
            history.local().as_slice(),
            fresh,
            under,
        ),
        Err(gone) => Err(Or::Fault(UndoFault::Gone { floor: gone.floor })),
    }
}

// A commit of a revision that is there.
fn undo_own<R: Rebaser, H: History>(
    alloc: Global,
    history: &H,
    rev: Rev,
    fresh: Rev,
    under: Rev,
) -> Result<Change, Or<UndoFault>>
    requires { H.listed ≡ R.listed }
    ensures ok { IfOk result (λ C. (p : Past) (B : Intent) (F : Document) → H.tells history.now p → IsSoundPast p
        → IsUndoing p.opening (commits_of p) rev fresh B → B.under ≡ under → Run p.opening (commits_of p) F → IsRead R.listed F B C) }
    ensures answered { OnOk result ((p : Past) → H.tells history.now p → IsSoundPast p → IsUndoneThere (H.window history.now).floor p rev) }
    ensures refused { IfRefused result (λ f. (p : Past) → H.tells history.now p → IsSoundPast p → has_commit p rev ≡ true
        → IsRefusedThere (H.window history.now).floor p rev f) }
{
    match history.kept().find(rev) {
        Some(commit) => undo_kept::<R, H>(alloc, history, commit, fresh, under),
        None => undo_pending::<R, H>(alloc, history, rev, fresh, under),
    }
}

/// The change that takes back the commit of a revision, over the document of all commits received and pending: that of the way back
/// over that commit alone, with a fresh revision, and with the schema in effect as the one under which it is made. `own` is the
/// session of whose commits each can be undone. It costs what the commits behind that one cost over the way back.
pub fn undo<R: Rebaser, H: History>(
    alloc: Global,
    history: &H,
    own: u32,
    rev: Rev,
    fresh: Rev,
    under: Rev,
) -> Result<Change, Or<UndoFault>>
    requires { H.listed ≡ R.listed }
    ensures ok { IfOk result (λ C. (p : Past) (B : Intent) (F : Document) → H.tells history.now p → IsSoundPast p
        → IsUndoing p.opening (commits_of p) rev fresh B → B.under ≡ under → Run p.opening (commits_of p) F → IsRead R.listed F B C) }
    ensures answered { OnOk result ((p : Past) → H.tells history.now p → IsSoundPast p
        → CanBeUndone own (H.window history.now).floor p rev) }
    ensures refused { IfRefused result (λ f. (p : Past) → H.tells history.now p → IsSoundPast p
        → IsRefused own (H.window history.now).floor p rev f) }
{
    if !history.has(rev) {
        return Err(Or::Fault(UndoFault::NoCommit));
    }
    if rev.session != own {
        return Err(Or::Fault(UndoFault::NotOwn));
    }
    undo_own::<R, H>(alloc, history, rev, fresh, under)
}
