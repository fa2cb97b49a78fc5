//! Axioms on steps.
ghost use Rattle.std.specs.Prelude.{◌≡◌, IfOk};
ghost use Rattle.st_agree.specs.Apart.{TellsLeast};
ghost use Rattle.st_kind.specs.Refused.{IfMemory};
ghost use Rattle.st_marks.specs.declared.intents.Intent.{Intent};
ghost use Rattle.st_marks.specs.declared.verdicts.Verdict.{Verdict};
ghost use Rattle.st_marks.specs.Agree.{Agrees, ComposeClash, RebaseClash};
ghost use Rattle.st_marks.specs.Back.{retreat};
ghost use Rattle.st_marks.specs.CarryOut.{full};
ghost use Rattle.st_marks.specs.Document.{Document, HasShortRows};
ghost use Rattle.st_marks.specs.Embedding.{IsEmbedding};
ghost use Rattle.st_marks.specs.Extends.{IsExtendedBy};
ghost use Rattle.st_marks.specs.Intent.{Fits};
ghost use Rattle.st_marks.specs.Step.{IsStep};
ghost use Rattle.st_marks.specs.Verdict.{IsVerdict, carried_document};
ghost use Rattle.st_moves.specs.Room.{HasRoomInRows};
ghost use Rattle.st_normal.specs.Rules.{ObeysChangeRules, ObeysStepRules};
ghost use Rattle.st_laws.specs.First.{TellsLeastFirst};
ghost use Rattle.st_laws.specs.InOrder.{FirstTogether, Gives, IsAssociative, LastTogether, Then, Told};
ghost use Rattle.st_laws.specs.inside.Together.{IsDoneBy};

use crate::calls::{done_by, in_turn, over, step_over, way_back};
use crate::sides::StepSides;
use crate::together::stand_together;
use st_agree::FieldApart;
use st_ids::Or;
use st_marks::{Change, Step};
use st_normal_step_laws::steps_that_obey_are_normal;
use st_push::extends_beside;
use st_revert::makings;
use std::alloc::Global;

// Three steps in turn, the first two taken together.
fn first_together(alloc: Global, a: &Step, b: &Step, c: &Step) -> Result<Step, Or<FieldApart>>
    ensures later { (D E F G : Document) → IsExtendedBy D E → IsExtendedBy E F → IsExtendedBy F G
        → IsStep D E a.now → IsStep E F b.now → IsStep F G c.now → IfMemory result (IsStep D G) }
    ensures first { ObeysStepRules a.now → ObeysStepRules b.now → TellsLeastFirst result (ComposeClash a.now b.now) }
    ensures told { ObeysStepRules a.now → ObeysStepRules b.now → ObeysStepRules c.now → Told result (FirstTogether a.now b.now c.now) }
{
    match in_turn(alloc, a, b) {
        Ok(together) => in_turn(alloc, &together, c),
        Err(why) => Err(why),
    }
}

// Three steps in turn, the last two taken together.
fn last_together(alloc: Global, a: &Step, b: &Step, c: &Step) -> Result<Step, Or<FieldApart>>
    ensures later { (D E F G : Document) → IsExtendedBy D E → IsExtendedBy E F → IsExtendedBy F G
        → IsStep D E a.now → IsStep E F b.now → IsStep F G c.now → IfMemory result (IsStep D G) }
    ensures last { ObeysStepRules b.now → ObeysStepRules c.now → IfOk result (λ s. Agrees (ComposeClash b.now c.now)) }
    ensures told { ObeysStepRules a.now → ObeysStepRules b.now → ObeysStepRules c.now → Told result (LastTogether a.now b.now c.now) }
{
    match in_turn(alloc, b, c) {
        Ok(together) => in_turn(alloc, a, &together),
        Err(why) => Err(why),
    }
}

// The left side, with the last two taken together on the right.
fn beside_last(
    alloc: Global,
    left: Step,
    a: &Step,
    b: &Step,
    c: &Step,
) -> Result<StepSides, Or<FieldApart>>
    ensures sides { (D E F G : Document) → IsExtendedBy D E → IsExtendedBy E F → IsExtendedBy F G
        → IsStep D E a.now → IsStep E F b.now → IsStep F G c.now → IsStep D G left
        → IfMemory result (λ s. IsStep D G s.left × (s.left ≡ s.right)) }
    ensures last { ObeysStepRules b.now → ObeysStepRules c.now → IfOk result (λ s. Agrees (ComposeClash b.now c.now)) }
    ensures told { ObeysStepRules a.now → ObeysStepRules b.now → ObeysStepRules c.now
        → Told result (Then (LastTogether a.now b.now c.now) (λ right. Gives (record { left = left; right = right }))) }
{
    match last_together(alloc, a, b, c) {
        Ok(right) => Ok(StepSides { left, right }),
        Err(why) => Err(why),
    }
}

/// Three steps in turn: the first two composed and then the third, and the first with the last two composed. Refused where one
/// of these calls is. Over documents none is, and both sides are the step from the first document to the last. Of steps in normal
/// form, those are refused of which the first two or the last two don't agree: at the least field where the first two don't. And
/// all calls are told of them in their order: each one's value, with which the next goes on, or the least field of the first that
/// is refused.
pub fn associative(alloc: Global, a: &Step, b: &Step, c: &Step) -> Result<StepSides, Or<FieldApart>>
    ensures sides { (D E F G : Document) → IsExtendedBy D E → IsExtendedBy E F → IsExtendedBy F G
        → IsStep D E a.now → IsStep E F b.now → IsStep F G c.now → IfMemory result (λ s. IsStep D G s.left × (s.left ≡ s.right)) }
    ensures first { ObeysStepRules a.now → ObeysStepRules b.now → TellsLeastFirst result (ComposeClash a.now b.now) }
    ensures last { ObeysStepRules b.now → ObeysStepRules c.now → IfOk result (λ s. Agrees (ComposeClash b.now c.now)) }
    ensures told { ObeysStepRules a.now → ObeysStepRules b.now → ObeysStepRules c.now → Told result (IsAssociative a.now b.now c.now) }
{
    match first_together(alloc, a, b, c) {
        Ok(left) => beside_last(alloc, left, a, b, c),
        Err(why) => Err(why),
    }
}

// A step and its way back.
fn there_and_home(alloc: Global, step: &Step) -> Result<Step, Or<FieldApart>>
    ensures { (D E : Document) → IsExtendedBy D E → IsStep D E step.now → IfMemory result (IsStep D (retreat D E)) }
{
    let back = way_back(alloc, step)?;
    in_turn(alloc, step, &back)
}

// The left side, with what the step makes on the right.
fn beside_makings(alloc: Global, left: Step, step: &Step) -> Result<StepSides, Or<FieldApart>>
    ensures { (D E : Document) → IsExtendedBy D E → IsStep D E step.now → IsStep D (retreat D E) left
        → IfMemory result (λ s. IsStep D (retreat D E) s.left × (s.left ≡ s.right)) }
{
    let right = makings(alloc, step)?;
    Ok(StepSides { left, right })
}

/// A step composed with its way back, and what the step makes, with old nodes where they were. Over documents none is refused, and
/// both sides are the step to the retreat. So none in normal form is, and both sides are one.
pub fn neutral(alloc: Global, step: &Step) -> Result<StepSides, Or<FieldApart>>
    ensures sides { (D E : Document) → IsExtendedBy D E → IsStep D E step.now
        → IfMemory result (λ s. IsStep D (retreat D E) s.left × (s.left ≡ s.right)) }
    ensures whole { ObeysStepRules step.now → IfMemory result (λ s. s.left ≡ s.right) }
{
    steps_that_obey_are_normal();
    match there_and_home(alloc, step) {
        Ok(left) => beside_makings(alloc, left, step),
        Err(why) => Err(why),
    }
}

// What a commit did, and then the step over it, which agrees with what the commit did where it agrees with the commit.
fn commit_over(
    alloc: Global,
    done: &Step,
    step: &Step,
    change: &Change,
) -> Result<Step, Or<FieldApart>>
    ensures later { (D E : Document) (N : Intent) (v u : Verdict) → IsExtendedBy D E → Fits D N → Fits E N → HasShortRows (full D N) → HasShortRows (full E N)
        → IsEmbedding D N change.now → IsStep D E step.now → IsVerdict D N v → IsVerdict E N u → IsStep D (carried_document v D N) done.now
        → IfMemory result (IsStep D (carried_document u E N)) }
    ensures apart { HasRoomInRows change.now step.now → ObeysChangeRules change.now → ObeysStepRules step.now → IsDoneBy change.now done.now
        → TellsLeast result (RebaseClash change.now step.now) }
{
    stand_together();
    extends_beside();
    match step_over(alloc, step, change) {
        Ok(over) => in_turn(alloc, done, &over),
        Err(why) => Err(why),
    }
}

// What a commit does, and then the step over it.
fn commit_first(alloc: Global, step: &Step, change: &Change) -> Result<Step, Or<FieldApart>>
    ensures later { (D E : Document) (N : Intent) (v u : Verdict) → IsExtendedBy D E → Fits D N → Fits E N → HasShortRows (full D N) → HasShortRows (full E N)
        → IsEmbedding D N change.now → IsStep D E step.now → IsVerdict D N v → IsVerdict E N u
        → IfMemory result (IsStep D (carried_document u E N)) }
    ensures apart { HasRoomInRows change.now step.now → ObeysChangeRules change.now → ObeysStepRules step.now
        → TellsLeast result (RebaseClash change.now step.now) }
{
    let done = done_by(alloc, change)?;
    commit_over(alloc, &done, step, change)
}

// A step, and then what a commit does behind it.
fn step_then(alloc: Global, step: &Step, later: &Change) -> Result<Step, Or<FieldApart>>
    ensures { (D E : Document) (N : Intent) (u : Verdict) → IsExtendedBy D E → Fits E N → HasShortRows (full E N)
        → IsEmbedding E N later.now → IsStep D E step.now → IsVerdict E N u → IfMemory result (IsStep D (carried_document u E N)) }
{
    let done = done_by(alloc, later)?;
    in_turn(alloc, step, &done)
}

// A step, and then what the commit does after it.
fn step_first(alloc: Global, step: &Step, change: &Change) -> Result<Step, Or<FieldApart>>
    ensures { (D E : Document) (N : Intent) (u : Verdict) → IsExtendedBy D E → Fits D N → Fits E N → HasShortRows (full E N)
        → IsEmbedding D N change.now → IsStep D E step.now → IsVerdict E N u → IfMemory result (IsStep D (carried_document u E N)) }
{
    match over(alloc, change, step) {
        Ok(later) => step_then(alloc, step, &later),
        Err(why) => Err(why),
    }
}

// The left side, with the step first on the right.
fn beside_step(
    alloc: Global,
    left: Step,
    step: &Step,
    change: &Change,
) -> Result<StepSides, Or<FieldApart>>
    ensures { (D E : Document) (N : Intent) (u : Verdict) → IsExtendedBy D E → Fits D N → Fits E N → HasShortRows (full E N)
        → IsEmbedding D N change.now → IsStep D E step.now → IsVerdict E N u → IsStep D (carried_document u E N) left
        → IfMemory result (λ s. IsStep D (carried_document u E N) s.left × (s.left ≡ s.right)) }
{
    match step_first(alloc, step, change) {
        Ok(right) => Ok(StepSides { left, right }),
        Err(why) => Err(why),
    }
}

/// What a commit does composed with the step over it, and the step composed with what the commit does after it. In either place
/// the commit may be void. Over documents none is refused, and both sides are the step to the later document after the commit. A
/// change and a step in normal form that have room together in each row are refused exactly where they don't agree, at the least
/// field that a rule of agreement names, and by no later call; where they aren't refused, both sides are one.
pub fn bridge_in_turn(
    alloc: Global,
    step: &Step,
    change: &Change,
) -> Result<StepSides, Or<FieldApart>>
    ensures sides { (D E : Document) (N : Intent) (v u : Verdict) → IsExtendedBy D E → Fits D N → Fits E N → HasShortRows (full D N) → HasShortRows (full E N)
        → IsEmbedding D N change.now → IsStep D E step.now → IsVerdict D N v → IsVerdict E N u
        → IfMemory result (λ s. IsStep D (carried_document u E N) s.left × (s.left ≡ s.right)) }
    ensures apart { HasRoomInRows change.now step.now → ObeysChangeRules change.now → ObeysStepRules step.now
        → TellsLeast result (RebaseClash change.now step.now) }
    ensures equal { HasRoomInRows change.now step.now → ObeysChangeRules change.now → ObeysStepRules step.now
        → IfOk result (λ s. s.left ≡ s.right) }
{
    stand_together();
    match commit_first(alloc, step, change) {
        Ok(left) => beside_step(alloc, left, step, change),
        Err(why) => Err(why),
    }
}
