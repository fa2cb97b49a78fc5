//! Axioms on changes.
ghost use Rattle.std.specs.Prelude.{◌≡◌, IfOk};
ghost use Rattle.st_agree.specs.Apart.{TellsLeast};
ghost use Rattle.st_ids.specs.Or.{IfRefused};
ghost use Rattle.st_kind.specs.Refused.{IfMemory};
ghost use Rattle.st_marks.specs.declared.intents.Intent.{Intent};
ghost use Rattle.st_marks.specs.Agree.{Agrees, ComposeClash, RebaseClash};
ghost use Rattle.st_marks.specs.Back.{retreat};
ghost use Rattle.st_marks.specs.CarryOut.{full};
ghost use Rattle.st_marks.specs.Document.{Document, HasShortRows, IsSoundInForm};
ghost use Rattle.st_marks.specs.Embedding.{IsEmbedding};
ghost use Rattle.st_marks.specs.Extends.{IsExtendedBy};
ghost use Rattle.st_marks.specs.Intent.{Fits};
ghost use Rattle.st_marks.specs.Step.{IsStep};
ghost use Rattle.st_moves.specs.Room.{HasRoomInRows};
ghost use Rattle.st_normal.specs.Rules.{ObeysChangeRules, ObeysStepRules};
ghost use Rattle.st_laws.specs.Empty.{nothing};
ghost use Rattle.st_laws.specs.First.{TellsLeastFirst};
ghost use Rattle.st_laws.specs.InOrder.{Gives, IsOverParts, OverBoth, OverEach, Then, Told};
ghost use Rattle.st_laws.specs.Unmade.{MakesNoneIn};

use crate::calls::{in_turn, over, way_back};
use crate::nothing::empty_step;
use crate::sides::ChangeSides;
use crate::together::stand_together;
use st_agree::FieldApart;
use st_ids::{Copied, Or};
use st_marks::{Change, Step};
use st_revert::makings;
use std::alloc::{AllocError, Global};

// A change over two steps taken together.
fn over_both(alloc: Global, change: &Change, a: &Step, b: &Step) -> Result<Change, Or<FieldApart>>
    ensures later { (D E F : Document) (N : Intent) → IsExtendedBy D E → IsExtendedBy E F → Fits D N → Fits F N → HasShortRows (full F N)
        → IsEmbedding D N change.now → IsStep D E a.now → IsStep E F b.now → IfMemory result (IsEmbedding F N) }
    ensures first { ObeysStepRules a.now → ObeysStepRules b.now → TellsLeastFirst result (ComposeClash a.now b.now) }
    ensures told { ObeysChangeRules change.now → ObeysStepRules a.now → ObeysStepRules b.now → Told result (OverBoth change.now a.now b.now) }
{
    match in_turn(alloc, a, b) {
        Ok(together) => over(alloc, change, &together),
        Err(why) => Err(why),
    }
}

// A change over one step and then over another.
fn over_each(alloc: Global, change: &Change, a: &Step, b: &Step) -> Result<Change, Or<FieldApart>>
    ensures later { (D E F : Document) (N : Intent) → IsExtendedBy D E → IsExtendedBy E F → Fits D N → Fits E N → Fits F N
        → HasShortRows (full E N) → HasShortRows (full F N)
        → IsEmbedding D N change.now → IsStep D E a.now → IsStep E F b.now → IfMemory result (IsEmbedding F N) }
    ensures each { HasRoomInRows change.now a.now → ObeysChangeRules change.now → ObeysStepRules a.now
        → IfOk result (λ s. Agrees (RebaseClash change.now a.now)) }
    ensures told { ObeysChangeRules change.now → ObeysStepRules a.now → ObeysStepRules b.now → Told result (OverEach change.now a.now b.now) }
{
    match over(alloc, change, a) {
        Ok(between) => over(alloc, &between, b),
        Err(why) => Err(why),
    }
}

// The left side, with the change over the one and then the other on the right.
fn beside_each(
    alloc: Global,
    left: Change,
    change: &Change,
    a: &Step,
    b: &Step,
) -> Result<ChangeSides, Or<FieldApart>>
    ensures sides { (D E F : Document) (N : Intent) → IsExtendedBy D E → IsExtendedBy E F → Fits D N → Fits E N → Fits F N
        → HasShortRows (full E N) → HasShortRows (full F N)
        → IsEmbedding D N change.now → IsStep D E a.now → IsStep E F b.now → IsEmbedding F N left
        → IfMemory result (λ s. IsEmbedding F N s.left × (s.left ≡ s.right)) }
    ensures each { HasRoomInRows change.now a.now → ObeysChangeRules change.now → ObeysStepRules a.now
        → IfOk result (λ s. Agrees (RebaseClash change.now a.now)) }
    ensures told { ObeysChangeRules change.now → ObeysStepRules a.now → ObeysStepRules b.now
        → Told result (Then (OverEach change.now a.now b.now) (λ right. Gives (record { left = left; right = right }))) }
{
    match over_each(alloc, change, a, b) {
        Ok(right) => Ok(ChangeSides { left, right }),
        Err(why) => Err(why),
    }
}

/// A change over two steps composed, and over the one and then the other. Refused where one of these calls is. Over documents
/// none is, and both sides are the change of the intent after both steps. Of arguments in normal form, those are refused of which
/// the steps don't agree, at the least field; and those of which the change and the first step don't, where these have room
/// together in each row. And all calls are told of them in their order: each one's value, with which the next goes on, or the least
/// field of the first that is refused; a change that has no room beside a step stays.
pub fn over_parts(
    alloc: Global,
    change: &Change,
    a: &Step,
    b: &Step,
) -> Result<ChangeSides, Or<FieldApart>>
    ensures sides { (D E F : Document) (N : Intent) → IsExtendedBy D E → IsExtendedBy E F → Fits D N → Fits E N → Fits F N
        → HasShortRows (full E N) → HasShortRows (full F N)
        → IsEmbedding D N change.now → IsStep D E a.now → IsStep E F b.now
        → IfMemory result (λ s. IsEmbedding F N s.left × (s.left ≡ s.right)) }
    ensures first { ObeysStepRules a.now → ObeysStepRules b.now → TellsLeastFirst result (ComposeClash a.now b.now) }
    ensures each { HasRoomInRows change.now a.now → ObeysChangeRules change.now → ObeysStepRules a.now
        → IfOk result (λ s. Agrees (RebaseClash change.now a.now)) }
    ensures told { ObeysChangeRules change.now → ObeysStepRules a.now → ObeysStepRules b.now → Told result (IsOverParts change.now a.now b.now) }
{
    match over_both(alloc, change, a, b) {
        Ok(left) => beside_each(alloc, left, change, a, b),
        Err(why) => Err(why),
    }
}

// A change over the way back over a step.
fn over_back(alloc: Global, change: &Change, step: &Step) -> Result<Change, Or<FieldApart>>
    ensures { (D E : Document) (N : Intent) → IsExtendedBy D E → Fits D N → Fits E N → HasShortRows (full E N)
        → IsEmbedding E N change.now → IsStep D E step.now → IfMemory result (IsEmbedding (retreat D E) N) }
{
    let back = way_back(alloc, step)?;
    over(alloc, change, &back)
}

// A change over a step and over its way back. The way back refuses none that the step lets through.
fn over_and_back(alloc: Global, change: &Change, step: &Step) -> Result<Change, Or<FieldApart>>
    ensures later { (D E : Document) (N : Intent) → IsExtendedBy D E → Fits D N → Fits E N → HasShortRows (full E N)
        → IsEmbedding D N change.now → IsStep D E step.now → IfMemory result (IsEmbedding (retreat D E) N) }
    ensures apart { HasRoomInRows change.now step.now → ObeysChangeRules change.now → ObeysStepRules step.now
        → TellsLeast result (RebaseClash change.now step.now) }
{
    stand_together();
    match over(alloc, change, step) {
        Ok(later) => over_back(alloc, &later, step),
        Err(why) => Err(why),
    }
}

// A change over what a step makes.
fn over_makings(alloc: Global, change: &Change, step: &Step) -> Result<Change, Or<FieldApart>>
    ensures { (D E : Document) (N : Intent) → IsExtendedBy D E → Fits D N → Fits E N → HasShortRows (full E N)
        → IsEmbedding D N change.now → IsStep D E step.now → IfMemory result (IsEmbedding (retreat D E) N) }
{
    let made = makings(alloc, step)?;
    over(alloc, change, &made)
}

// The left side, with the change over what the step makes on the right.
fn beside_makings(
    alloc: Global,
    left: Change,
    change: &Change,
    step: &Step,
) -> Result<ChangeSides, Or<FieldApart>>
    ensures { (D E : Document) (N : Intent) → IsExtendedBy D E → Fits D N → Fits E N → HasShortRows (full E N)
        → IsEmbedding D N change.now → IsStep D E step.now → IsEmbedding (retreat D E) N left
        → IfMemory result (λ s. IsEmbedding (retreat D E) N s.left × (s.left ≡ s.right)
        × (MakesNoneIn step.now change.now → s.left ≡ change.now)) }
{
    match over_makings(alloc, change, step) {
        Ok(right) => Ok(ChangeSides { left, right }),
        Err(why) => Err(why),
    }
}

/// A change over a step and over its way back, and the change over what the step makes, with old nodes where they were. Over
/// documents none is refused, and both sides are the change of the intent in the retreat; where the step makes no cell in a row
/// that the change lists, they are the change itself. A change and a step in normal form that have room together in each row are
/// refused exactly where they don't agree, at the least field that a rule of agreement names, and by no later call; where they
/// aren't refused, both sides are one.
pub fn there_and_back(
    alloc: Global,
    change: &Change,
    step: &Step,
) -> Result<ChangeSides, Or<FieldApart>>
    ensures sides { (D E : Document) (N : Intent) → IsExtendedBy D E → Fits D N → Fits E N → HasShortRows (full E N)
        → IsEmbedding D N change.now → IsStep D E step.now
        → IfMemory result (λ s. IsEmbedding (retreat D E) N s.left × (s.left ≡ s.right)
        × (MakesNoneIn step.now change.now → s.left ≡ change.now)) }
    ensures apart { HasRoomInRows change.now step.now → ObeysChangeRules change.now → ObeysStepRules step.now
        → TellsLeast result (RebaseClash change.now step.now) }
    ensures equal { HasRoomInRows change.now step.now → ObeysChangeRules change.now → ObeysStepRules step.now
        → IfOk result (λ s. (s.left ≡ s.right) × (MakesNoneIn step.now change.now → s.left ≡ change.now)) }
{
    stand_together();
    match over_and_back(alloc, change, step) {
        Ok(left) => beside_makings(alloc, left, change, step),
        Err(why) => Err(why),
    }
}

// The left side, with the change itself on the right.
fn beside_itself(alloc: Global, left: Change, change: &Change) -> Result<ChangeSides, AllocError>
    ensures { left ≡ change.now → IfOk result (λ s. (s.left ≡ change.now) × (s.left ≡ s.right)) }
{
    let right = change.copy(alloc)?;
    Ok(ChangeSides { left, right })
}

// A change over a step that changes nothing, and the change.
fn over_none(alloc: Global, change: &Change, step: &Step) -> Result<ChangeSides, Or<FieldApart>>
    ensures stays { (D : Document) (N : Intent) → IsSoundInForm D → Fits D N → HasShortRows (full D N) → IsEmbedding D N change.now
        → IsStep D D step.now → IfMemory result (λ s. (s.left ≡ change.now) × (s.left ≡ s.right)) }
    ensures named { IfRefused result (λ a. RebaseClash change.now step.now a.field) }
    ensures apart { HasRoomInRows change.now step.now → ObeysChangeRules change.now → ObeysStepRules step.now
        → TellsLeast result (RebaseClash change.now step.now) }
{
    match over(alloc, change, step) {
        Ok(left) => Ok(beside_itself(alloc, left, change)?),
        Err(why) => Err(why),
    }
}

/// A change over the step that changes nothing, and the change. Refused at a field that a rule of agreement names; a change in
/// normal form exactly where one is named, at the least. Over a document none is, and both sides are the change.
pub fn over_nothing(alloc: Global, change: &Change) -> Result<ChangeSides, Or<FieldApart>>
    ensures stays { (D : Document) (N : Intent) → IsSoundInForm D → Fits D N → HasShortRows (full D N) → IsEmbedding D N change.now
        → IfMemory result (λ s. (s.left ≡ change.now) × (s.left ≡ s.right)) }
    ensures named { IfRefused result (λ a. RebaseClash change.now nothing a.field) }
    ensures apart { ObeysChangeRules change.now → TellsLeast result (RebaseClash change.now nothing) }
{
    let nothing = empty_step(alloc);
    over_none(alloc, change, &nothing)
}
