//! The step over a commit.
ghost use Rattle.std.specs.Prelude.{◌≡◌, IfOk, OnOk, None, Option};
ghost use Rattle.st_ids.specs.Or.{IfRefused};
ghost use Rattle.st_kind.specs.Refused.{IfMemory};
ghost use Rattle.st_marks.specs.declared.intents.Intent.{Intent};
ghost use Rattle.st_marks.specs.declared.verdicts.Verdict.{Verdict};
ghost use Rattle.st_marks.specs.Agree.{RebaseClash};
ghost use Rattle.st_marks.specs.CarryOut.{full};
ghost use Rattle.st_marks.specs.Document.{Document, HasShortRows};
ghost use Rattle.st_marks.specs.Embedding.{IsEmbedding};
ghost use Rattle.st_marks.specs.Extends.{IsExtendedBy};
ghost use Rattle.st_marks.specs.Intent.{Fits};
ghost use Rattle.st_marks.specs.Step.{IsStep};
ghost use Rattle.st_marks.specs.Verdict.{IsVerdict, carried_document};
ghost use Rattle.st_agree.specs.Apart.{TellsLeast};
ghost use Rattle.st_moves.specs.Room.{HasRoomInRows};
ghost use Rattle.st_normal.specs.Rules.{ObeysChangeRules, ObeysStepRules};

use crate::entries::over_schema;
use crate::void::bridge_void_agreed;
use crate::ways::{from_carried, to_carried};
use st_agree::{FieldApart, agree};
use st_ids::Or;
use st_marks::{Change, Step};
use st_rebase::rebase_agreed;
use std::alloc::{AllocError, Global};

// The step over a commit of data, where `rebased` is the commit's change after the step.
fn over_data(
    alloc: Global,
    step: &Step,
    change: &Change,
    rebased: &Change,
) -> Result<Step, AllocError>
    requires { HasRoomInRows change.now step.now }
    ensures { (D E : Document) (N : Intent) (v u : Verdict) → IsExtendedBy D E → Fits D N → Fits E N → N.schema ≡ None → HasShortRows (full D N) → HasShortRows (full E N)
        → IsEmbedding D N change.now → IsEmbedding E N rebased.now → IsStep D E step.now → IsVerdict D N v → IsVerdict E N u
        → IfOk result (IsStep (carried_document v D N) (carried_document u E N)) }
{
    let over = bridge_void_agreed(alloc, step, change)?;
    let from = from_carried(alloc, change, over)?;
    to_carried(alloc, from, rebased)
}

// The step over a commit, where `rebased` is the commit's change after the step.
fn over_commit(
    alloc: Global,
    step: &Step,
    change: &Change,
    rebased: &Change,
) -> Result<Step, AllocError>
    requires { HasRoomInRows change.now step.now }
    ensures { (D E : Document) (N : Intent) (v u : Verdict) → IsExtendedBy D E → Fits D N → Fits E N → HasShortRows (full D N) → HasShortRows (full E N)
        → IsEmbedding D N change.now → IsEmbedding E N rebased.now → IsStep D E step.now → IsVerdict D N v → IsVerdict E N u
        → IfOk result (IsStep (carried_document v D N) (carried_document u E N)) }
{
    match &change.schema {
        None => over_data(alloc, step, change, rebased),
        Some(text) => over_schema(alloc, step, change.rev, text, (change.base, rebased.base)),
    }
}

/// A step over a commit, for two that are known to stand over one document: from the document after the commit where the step
/// begins to the one after it where the step leads. In each of the two the commit is whole or void, as its verdict there says. Of
/// two that don't agree, anything may be answered. Takes O(n log n) for n marks and names, whatever a Skip counts, beside the two
/// verdicts.
pub fn bridge_agreed(alloc: Global, step: &Step, change: &Change) -> Result<Step, AllocError>
    requires { HasRoomInRows change.now step.now }
    ensures { (D E : Document) (N : Intent) (v u : Verdict) → IsExtendedBy D E → Fits D N → Fits E N → HasShortRows (full D N) → HasShortRows (full E N)
        → IsEmbedding D N change.now → IsStep D E step.now → IsVerdict D N v → IsVerdict E N u
        → IfOk result (IsStep (carried_document v D N) (carried_document u E N)) }
{
    let rebased = rebase_agreed(alloc, change, step)?;
    over_commit(alloc, step, change, &rebased)
}

/// A step over a commit, or the field at which the two don't agree. Refused at a field, that is one which a rule of agreement
/// names; between a change and a step in normal form it is the least of all that are named. Where both stand over one document,
/// and the intent fits after the step too, none is refused.
pub fn bridge(alloc: Global, step: &Step, change: &Change) -> Result<Step, Or<FieldApart>>
    requires { HasRoomInRows change.now step.now }
    ensures bridged { (D E : Document) (N : Intent) (v u : Verdict) → IsExtendedBy D E → Fits D N → Fits E N → HasShortRows (full D N) → HasShortRows (full E N)
        → IsEmbedding D N change.now → IsStep D E step.now → IsVerdict D N v → IsVerdict E N u
        → IfMemory result (IsStep (carried_document v D N) (carried_document u E N)) }
    ensures named { IfRefused result (λ a. RebaseClash change.now step.now a.field) }
    ensures apart { ObeysChangeRules change.now → ObeysStepRules step.now → TellsLeast result (RebaseClash change.now step.now) }
{
    match agree(alloc, change, step) {
        Ok(()) => Ok(bridge_agreed(alloc, step, change)?),
        Err(why) => Err(why),
    }
}
