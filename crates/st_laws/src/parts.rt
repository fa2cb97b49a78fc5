//! The axiom on two parts of a commit.
ghost use Rattle.std.specs.Prelude.{◌≡◌, IfOk};
ghost use Rattle.st_ids.specs.declared.names.NodeId.{NodeId};
ghost use Rattle.st_kind.specs.Refused.{IfMemory};
ghost use Rattle.st_marks.specs.declared.intents.Intent.{Intent};
ghost use Rattle.st_marks.specs.declared.verdicts.Verdict.TheVariants.{Sound};
ghost use Rattle.st_marks.specs.Agree.{Agrees, JoinClash, RebaseClash};
ghost use Rattle.st_marks.specs.CarryOut.{full};
ghost use Rattle.st_marks.specs.Document.{Document};
ghost use Rattle.st_marks.specs.Embedding.{IsEmbedding};
ghost use Rattle.st_marks.specs.Verdict.{IsAboveItself, IsVerdict};
ghost use Rattle.st_moves.specs.Room.{HasRoomInRows};
ghost use Rattle.st_normal.specs.Rules.{ObeysChangeRules, ObeysStepRules};
ghost use Rattle.st_laws.specs.First.{TellsLeastFirst};
ghost use Rattle.st_laws.specs.InOrder.{ArePartsOver, EachOver, Gives, Joined, SecondOver, Then, Told, WholeOver};
ghost use Rattle.st_laws.specs.PartsOver.{AreOver};

use crate::calls::{as_one, over, step_over};
use crate::sides::ChangeSides;
use st_agree::FieldApart;
use st_ids::Or;
use st_marks::{Change, Step};
use st_push::extends_beside;
use std::alloc::Global;

// The parts as one, and this over the step.
fn whole_over(
    alloc: Global,
    first: &Change,
    then: &Change,
    step: &Step,
) -> Result<Change, Or<FieldApart>>
    ensures later { (D E : Document) (N M J : Intent) → AreOver D E N M J first.now then.now step.now → ((n : NodeId) → IsAboveItself D N n → ⊥)
        → IfMemory result (IsEmbedding E J) }
    ensures first { ObeysChangeRules first.now → ObeysChangeRules then.now → TellsLeastFirst result (JoinClash first.now then.now) }
    ensures told { ObeysChangeRules first.now → ObeysChangeRules then.now → ObeysStepRules step.now → Told result (WholeOver first.now then.now step.now) }
{
    match as_one(alloc, first, then) {
        Ok(whole) => over(alloc, &whole, step),
        Err(why) => Err(why),
    }
}

// The second part over the step that is left once the first is carried out.
fn second_over(
    alloc: Global,
    first: &Change,
    then: &Change,
    step: &Step,
) -> Result<Change, Or<FieldApart>>
    ensures later { (D E : Document) (N M J : Intent) → AreOver D E N M J first.now then.now step.now → IsVerdict D N Sound → IsVerdict E N Sound
        → IfMemory result (IsEmbedding (full E N) M) }
    ensures told { ObeysChangeRules first.now → ObeysChangeRules then.now → ObeysStepRules step.now → Told result (SecondOver first.now then.now step.now) }
{
    extends_beside();
    match step_over(alloc, step, first) {
        Ok(between) => over(alloc, then, &between),
        Err(why) => Err(why),
    }
}

// The first part after the step, and the second behind it.
fn behind_first(
    alloc: Global,
    later: &Change,
    first: &Change,
    then: &Change,
    step: &Step,
) -> Result<Change, Or<FieldApart>>
    ensures later { (D E : Document) (N M J : Intent) → AreOver D E N M J first.now then.now step.now → IsVerdict D N Sound → IsVerdict E N Sound → IsEmbedding E N later.now
        → IfMemory result (IsEmbedding E J) }
    ensures told { ObeysChangeRules later.now → ObeysChangeRules first.now → ObeysChangeRules then.now → ObeysStepRules step.now
        → Told result (Then (SecondOver first.now then.now step.now) (λ second. Joined later.now second)) }
{
    match second_over(alloc, first, then, step) {
        Ok(second) => as_one(alloc, later, &second),
        Err(why) => Err(why),
    }
}

// Each part over the step, and then both as one.
fn each_over(
    alloc: Global,
    first: &Change,
    then: &Change,
    step: &Step,
) -> Result<Change, Or<FieldApart>>
    ensures later { (D E : Document) (N M J : Intent) → AreOver D E N M J first.now then.now step.now → IsVerdict D N Sound → IsVerdict E N Sound
        → IfMemory result (IsEmbedding E J) }
    ensures each { HasRoomInRows first.now step.now → ObeysChangeRules first.now → ObeysStepRules step.now
        → IfOk result (λ s. Agrees (RebaseClash first.now step.now)) }
    ensures told { ObeysChangeRules first.now → ObeysChangeRules then.now → ObeysStepRules step.now → Told result (EachOver first.now then.now step.now) }
{
    match over(alloc, first, step) {
        Ok(later) => behind_first(alloc, &later, first, then, step),
        Err(why) => Err(why),
    }
}

// The left side, with the parts over the step on the right.
fn beside_parts(
    alloc: Global,
    left: Change,
    first: &Change,
    then: &Change,
    step: &Step,
) -> Result<ChangeSides, Or<FieldApart>>
    ensures left { (E : Document) (J : Intent) → IsEmbedding E J left → IfOk result (λ s. IsEmbedding E J s.left) }
    ensures both { (D E : Document) (N M J : Intent) → AreOver D E N M J first.now then.now step.now → IsVerdict D N Sound → IsVerdict E N Sound → IsEmbedding E J left
        → IfMemory result (λ s. IsEmbedding E J s.left × (s.left ≡ s.right)) }
    ensures each { HasRoomInRows first.now step.now → ObeysChangeRules first.now → ObeysStepRules step.now
        → IfOk result (λ s. Agrees (RebaseClash first.now step.now)) }
    ensures told { ObeysChangeRules first.now → ObeysChangeRules then.now → ObeysStepRules step.now
        → Told result (Then (EachOver first.now then.now step.now) (λ right. Gives (record { left = left; right = right }))) }
{
    match each_over(alloc, first, then, step) {
        Ok(right) => Ok(ChangeSides { left, right }),
        Err(why) => Err(why),
    }
}

/// Two parts of a commit as one and then over a step; and the first over the step, the second over what is left of the step once
/// the first is carried out, and then both as one. Refused where one of these calls is. Over documents where the first part is
/// sound before the step and after it none is, and both sides are the change of the join after the step. Where it is void, but
/// forms no ring before the step, the left side still is that change. Of the right one nothing is promised there, which may be
/// refused, since the second part doesn't stand where the step over a void part begins.
/// Of arguments in normal form, those are refused of which the parts don't agree, at the least field; and those of which the first
/// part and the step don't, where these have room together in each row. And all calls are told of them in their order: each one's
/// value, with which the next goes on, or the least field of the first that is refused; what has no room stays.
pub fn parts_over(
    alloc: Global,
    first: &Change,
    then: &Change,
    step: &Step,
) -> Result<ChangeSides, Or<FieldApart>>
    ensures left { (D E : Document) (N M J : Intent) → AreOver D E N M J first.now then.now step.now → ((n : NodeId) → IsAboveItself D N n → ⊥)
        → IfOk result (λ s. IsEmbedding E J s.left) }
    ensures both { (D E : Document) (N M J : Intent) → AreOver D E N M J first.now then.now step.now → IsVerdict D N Sound → IsVerdict E N Sound
        → IfMemory result (λ s. IsEmbedding E J s.left × (s.left ≡ s.right)) }
    ensures first { ObeysChangeRules first.now → ObeysChangeRules then.now → TellsLeastFirst result (JoinClash first.now then.now) }
    ensures each { HasRoomInRows first.now step.now → ObeysChangeRules first.now → ObeysStepRules step.now
        → IfOk result (λ s. Agrees (RebaseClash first.now step.now)) }
    ensures told { ObeysChangeRules first.now → ObeysChangeRules then.now → ObeysStepRules step.now → Told result (ArePartsOver first.now then.now step.now) }
{
    match whole_over(alloc, first, then, step) {
        Ok(left) => beside_parts(alloc, left, first, then, step),
        Err(why) => Err(why),
    }
}
