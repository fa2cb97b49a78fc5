//! Ways between the document that a commit left and the one where it is void.
ghost use Rattle.std.specs.Prelude.{◌≡◌, IfOk, OnOk, None, Option};
ghost use Rattle.st_marks.specs.declared.intents.Intent.{Intent};
ghost use Rattle.st_marks.specs.declared.verdicts.Verdict.{Verdict as Outcome};
ghost use Rattle.st_marks.specs.Back.{retreat};
ghost use Rattle.st_marks.specs.CarryOut.{full, void};
ghost use Rattle.st_marks.specs.Document.{Document, HasShortRows, IsSoundInForm};
ghost use Rattle.st_marks.specs.Embedding.{IsEmbedding};
ghost use Rattle.st_marks.specs.Extends.{IsExtendedBy};
ghost use Rattle.st_marks.specs.Intent.{Fits};
ghost use Rattle.st_marks.specs.Step.{IsStep};
ghost use Rattle.st_marks.specs.Verdict.{IsVerdict, carried_document};
ghost use Rattle.st_bridge.specs.inside.Ways.{LeadsFromVoid, LeadsToVoid};

use st_effect::{effect, has_short_rows};
use st_ids::Copied;
use st_marks::{Change, Step, Verdict};
use st_steps::{compose_agreed, invert};
use std::alloc::{AllocError, Global};

// The way back over a step.
fn step_back(alloc: Global, step: &Step) -> Result<Step, AllocError>
    ensures { (D E : Document) → IsExtendedBy D E → IsStep D E step.now → IfOk result (IsStep E (retreat D E)) }
{
    if st_steps::has_short_rows(step) {
        invert(alloc, step)
    } else {
        step.copy(alloc)
    }
}

// Two steps in turn.
fn in_turn(alloc: Global, first: &Step, second: &Step) -> Result<Step, AllocError>
    ensures { (D E F : Document) → IsExtendedBy D E → IsExtendedBy E F → IsStep D E first.now → IsStep E F second.now
        → IfOk result (IsStep D F) }
{
    if st_steps::has_short_rows(second) {
        compose_agreed(alloc, first, second)
    } else {
        first.copy(alloc)
    }
}

// The way back over what a commit of data did, if it is sound.
fn way_back_of(alloc: Global, verdict: Verdict, step: &Step) -> Result<Option<Step>, AllocError>
    ensures { (D : Document) (N : Intent) → IsSoundInForm D → Fits D N → HasShortRows (full D N) → N.schema ≡ None
        → IsVerdict D N verdict → IsStep D (carried_document verdict D N) step.now → IfOk result (λ o. LeadsToVoid D N verdict o) }
{
    match verdict {
        Verdict::Sound => Ok(Some(step_back(alloc, step)?)),
        _ => Ok(None),
    }
}

// The way from the document that a commit of data left to the one where it is void.
fn way_to_void(alloc: Global, change: &Change) -> Result<Option<Step>, AllocError>
    ensures { (D : Document) (N : Intent) (v : Outcome) → IsSoundInForm D → Fits D N → HasShortRows (full D N) → N.schema ≡ None
        → IsEmbedding D N change.now → IsVerdict D N v → IfOk result (λ o. LeadsToVoid D N v o) }
{
    if !has_short_rows(change) {
        return Ok(None);
    }
    let done = effect(alloc, change)?;
    way_back_of(alloc, done.verdict, &done.step)
}

// The way from the document where a commit of data is void to the one that it left.
fn way_from_void(alloc: Global, change: &Change) -> Result<Option<Step>, AllocError>
    ensures { (D : Document) (N : Intent) (v : Outcome) → IsSoundInForm D → Fits D N → HasShortRows (full D N) → N.schema ≡ None
        → IsEmbedding D N change.now → IsVerdict D N v → IfOk result (λ o. LeadsFromVoid D N v o) }
{
    match way_to_void(alloc, change)? {
        None => Ok(None),
        Some(way) => Ok(Some(step_back(alloc, &way)?)),
    }
}

// A step behind a way, if there is one.
fn behind_way(alloc: Global, way: Option<Step>, step: Step) -> Result<Step, AllocError>
    ensures { (D F : Document) (N : Intent) (v : Outcome) → IsExtendedBy D (carried_document v D N) → Fits D N → N.schema ≡ None → LeadsToVoid D N v way
        → IsExtendedBy (void D N) F → IsStep (void D N) F step → IfOk result (IsStep (carried_document v D N) F) }
{
    match way {
        None => Ok(step),
        Some(way) => in_turn(alloc, &way, &step),
    }
}

// A step before a way, if there is one.
fn before_way(alloc: Global, step: Step, way: Option<Step>) -> Result<Step, AllocError>
    ensures { (D F : Document) (N : Intent) (v : Outcome) → IsExtendedBy D (carried_document v D N) → Fits D N → N.schema ≡ None → LeadsFromVoid D N v way
        → IsExtendedBy F (void D N) → IsStep F (void D N) step → IfOk result (IsStep F (carried_document v D N)) }
{
    match way {
        None => Ok(step),
        Some(way) => in_turn(alloc, &step, &way),
    }
}

/// The step from the document that a commit of data left, whole or void, to which the given one leads from where it is void.
pub fn from_carried(alloc: Global, change: &Change, step: Step) -> Result<Step, AllocError>
    ensures { (D F : Document) (N : Intent) (v : Outcome) → IsSoundInForm D → Fits D N → HasShortRows (full D N) → N.schema ≡ None
        → IsEmbedding D N change.now → IsVerdict D N v → IsExtendedBy (void D N) F → IsStep (void D N) F step → IfOk result (IsStep (carried_document v D N) F) }
{
    let way = way_to_void(alloc, change)?;
    behind_way(alloc, way, step)
}

/// The step to the document that a commit of data left, whole or void, from which the given one leads to where it is void.
pub fn to_carried(alloc: Global, step: Step, change: &Change) -> Result<Step, AllocError>
    ensures { (D F : Document) (N : Intent) (v : Outcome) → IsSoundInForm D → Fits D N → HasShortRows (full D N) → N.schema ≡ None
        → IsEmbedding D N change.now → IsVerdict D N v → IsExtendedBy F (void D N) → IsStep F (void D N) step → IfOk result (IsStep F (carried_document v D N)) }
{
    let way = way_from_void(alloc, change)?;
    before_way(alloc, step, way)
}
