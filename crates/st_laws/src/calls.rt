//! The calls of the algebra, for arguments of which nothing is asked.
ghost use Rattle.std.specs.Prelude.{◌≡◌, ◌↔◌, true, IfOk};
ghost use Rattle.st_agree.specs.Apart.{TellsLeast};
ghost use Rattle.st_effect.specs.Short.{HasShortRowsListed};
ghost use Rattle.st_ids.specs.declared.names.NodeId.{NodeId as Node};
ghost use Rattle.st_ids.specs.Or.{IfRefused};
ghost use Rattle.st_kind.specs.Refused.{IfMemory};
ghost use Rattle.st_marks.specs.declared.intents.Intent.{Intent};
ghost use Rattle.st_marks.specs.declared.verdicts.Verdict.{Verdict};
ghost use Rattle.st_marks.specs.Agree.{ComposeClash, JoinClash, RebaseClash};
ghost use Rattle.st_marks.specs.Back.{retreat};
ghost use Rattle.st_marks.specs.CarryOut.{full};
ghost use Rattle.st_marks.specs.Document.{Document, HasShortRows, IsSoundInForm};
ghost use Rattle.st_marks.specs.Embedding.{IsEmbedding};
ghost use Rattle.st_marks.specs.Extends.{IsExtendedBy};
ghost use Rattle.st_marks.specs.Intent.{Fits};
ghost use Rattle.st_marks.specs.Join.{AreParts, IsJoin};
ghost use Rattle.st_marks.specs.Step.{IsStep};
ghost use Rattle.st_marks.specs.Verdict.{IsAboveItself, IsVerdict, carried_document};
ghost use Rattle.st_moves.specs.Room.{HasRoomInRows};
ghost use Rattle.st_normal.specs.Rules.{ObeysChangeRules, ObeysStepRules};
ghost use Rattle.st_laws.specs.InOrder.{Bridged, Composed, Joined, Rebased, Told};

use crate::nothing::empty_step;
use crate::values::{
    joined_parts_obey, later_changes_obey, steps_in_turn_obey, steps_over_commits_obey,
};
use st_agree::FieldApart;
use st_bridge::bridge;
use st_compose::compose;
use st_effect::{changes_have_short_rows, effect};
use st_family::rebase;
use st_ids::{Copied, Or};
use st_join_parts::join;
use st_marks::{Change, Step};
use st_moves::documents_have_room;
use st_normal_laws::changes_that_obey_are_normal;
use st_normal_step_laws::steps_that_obey_are_normal;
use st_rebase::has_room_in_rows;
use st_steps::{has_short_rows, invert};
use std::alloc::{AllocError, Global};

/// Two steps in turn, or the field at which they don't agree. A second one with a row of 2^32 cells stands over no document, and
/// adds nothing.
pub fn in_turn(alloc: Global, first: &Step, second: &Step) -> Result<Step, Or<FieldApart>>
    ensures later { (D E F : Document) → IsExtendedBy D E → IsExtendedBy E F → IsStep D E first.now → IsStep E F second.now
        → IfMemory result (IsStep D F) }
    ensures apart { ObeysStepRules first.now → ObeysStepRules second.now → TellsLeast result (ComposeClash first.now second.now) }
    ensures told { ObeysStepRules first.now → ObeysStepRules second.now → Told result (Composed first.now second.now) }
{
    steps_that_obey_are_normal();
    steps_in_turn_obey();
    if has_short_rows(second) {
        compose(alloc, first, second)
    } else {
        Ok(first.copy(alloc)?)
    }
}

/// The way back over a step. One with a row of 2^32 cells is its own.
pub fn way_back(alloc: Global, step: &Step) -> Result<Step, AllocError>
    ensures { (D E : Document) → IsExtendedBy D E → IsStep D E step.now → IfOk result (IsStep E (retreat D E)) }
{
    if has_short_rows(step) {
        invert(alloc, step)
    } else {
        step.copy(alloc)
    }
}

/// A change over a step, or the field at which they don't agree. Where the two have no room in a row they stand over no document
/// together, and the change stays.
pub fn over(alloc: Global, change: &Change, step: &Step) -> Result<Change, Or<FieldApart>>
    ensures later { (D E : Document) (N : Intent) → IsExtendedBy D E → Fits D N → Fits E N → HasShortRows (full E N)
        → IsEmbedding D N change.now → IsStep D E step.now → IfMemory result (IsEmbedding E N) }
    ensures named { IfRefused result (λ a. RebaseClash change.now step.now a.field) }
    ensures apart { HasRoomInRows change.now step.now → ObeysChangeRules change.now → ObeysStepRules step.now
        → TellsLeast result (RebaseClash change.now step.now) }
    ensures told { ObeysChangeRules change.now → ObeysStepRules step.now → Told result (Rebased change.now step.now) }
{
    documents_have_room();
    later_changes_obey();
    let room = has_room_in_rows(alloc, change, step)?;
    if room {
        rebase(alloc, change, step)
    } else {
        Ok(change.copy(alloc)?)
    }
}

/// A step over a commit, or the field at which they don't agree. Where the two have no room in a row they stand over no document
/// together, and the step stays.
pub fn step_over(alloc: Global, step: &Step, change: &Change) -> Result<Step, Or<FieldApart>>
    ensures later { (D E : Document) (N : Intent) (v u : Verdict) → IsExtendedBy D E → Fits D N → Fits E N → HasShortRows (full D N) → HasShortRows (full E N)
        → IsEmbedding D N change.now → IsStep D E step.now → IsVerdict D N v → IsVerdict E N u
        → IfMemory result (IsStep (carried_document v D N) (carried_document u E N)) }
    ensures named { IfRefused result (λ a. RebaseClash change.now step.now a.field) }
    ensures apart { HasRoomInRows change.now step.now → ObeysChangeRules change.now → ObeysStepRules step.now
        → TellsLeast result (RebaseClash change.now step.now) }
    ensures told { ObeysChangeRules change.now → ObeysStepRules step.now → Told result (Bridged step.now change.now) }
{
    documents_have_room();
    steps_over_commits_obey();
    let room = has_room_in_rows(alloc, change, step)?;
    if room {
        bridge(alloc, step, change)
    } else {
        Ok(step.copy(alloc)?)
    }
}

/// What a change does where it stands. One with a row of 2^32 cells stands over no document, and does nothing.
pub fn done_by(alloc: Global, change: &Change) -> Result<Step, AllocError>
    ensures { (D : Document) (N : Intent) (v : Verdict) → IsSoundInForm D → Fits D N → HasShortRows (full D N)
        → IsEmbedding D N change.now → IsVerdict D N v → IfOk result (IsStep D (carried_document v D N)) }
{
    changes_have_short_rows();
    if st_effect::has_short_rows(change) {
        let done = effect(alloc, change)?;
        let step = done.step.copy(alloc)?;
        Ok(step)
    } else {
        Ok(empty_step(alloc))
    }
}

// Whether two changes list fewer than 2^32 cells of each row.
fn are_short(first: &Change, then: &Change) -> bool
    ensures { (result ≡ true) ↔ (HasShortRowsListed first.now × HasShortRowsListed then.now) }
{
    st_effect::has_short_rows(first) && st_effect::has_short_rows(then)
}

/// Two parts of a commit as one change, or the field at which they don't agree. Where one has a row of 2^32 cells they stand over
/// no document, and the first stays.
pub fn as_one(alloc: Global, first: &Change, then: &Change) -> Result<Change, Or<FieldApart>>
    ensures later { (D : Document) (N M J : Intent) → IsSoundInForm D → AreParts D N M → ((n : Node) → IsAboveItself D N n → ⊥) → IsJoin N M J
        → HasShortRows (full D N) → HasShortRows (full (full D N) M) → IsEmbedding D N first.now → IsEmbedding (full D N) M then.now
        → IfMemory result (IsEmbedding D J) }
    ensures apart { ObeysChangeRules first.now → ObeysChangeRules then.now → TellsLeast result (JoinClash first.now then.now) }
    ensures told { ObeysChangeRules first.now → ObeysChangeRules then.now → Told result (Joined first.now then.now) }
{
    changes_have_short_rows();
    changes_that_obey_are_normal();
    joined_parts_obey();
    if are_short(first, then) {
        join(alloc, first, then)
    } else {
        Ok(first.copy(alloc)?)
    }
}
