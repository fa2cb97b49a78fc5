//! Calls of the algebra on changes and steps of documents, whichever empty cells these name, behind a test that rows are short.
ghost use Rattle.std.specs.Prelude.{IfOk, OnOk};
ghost use Rattle.st_ids.specs.Listing.{Has};
ghost use Rattle.st_ids.specs.declared.names.NodeId.{NodeId};
ghost use Rattle.st_marks.specs.declared.intents.Intent.{Intent};
ghost use Rattle.st_marks.specs.Back.{IsBack, retreat};
ghost use Rattle.st_marks.specs.CarryOut.{full};
ghost use Rattle.st_marks.specs.Document.{Document, HasShortRows, IsSoundInForm, revs};
ghost use Rattle.st_marks.specs.Embedding.{IsEmbedding};
ghost use Rattle.st_marks.specs.Extends.{IsExtendedBy};
ghost use Rattle.st_marks.specs.Intent.{Fits};
ghost use Rattle.st_marks.specs.Join.{AreParts, IsJoin};
ghost use Rattle.st_marks.specs.Step.{IsStep};
ghost use Rattle.st_marks.specs.Verdict.{IsAboveItself, IsVerdict, carried_document};
ghost use Rattle.st_mention_laws.specs.Shown.{Shows, ShowsStep};
ghost use Rattle.st_effect.specs.Short.{HasShortRowsListed as IsShortChange};
ghost use Rattle.st_steps.specs.Short.{HasShortRowsListed as IsShortStep};

use st_effect::{changes_have_short_rows, effect, has_short_rows as is_short_change};
use st_ids::{Copied, List, Rev};
use st_marks::{Change, Step, Verdict};
use st_parts::join_agreed;
use st_rebaser::Effected;
use st_revert::revert;
use st_steps::{compose_agreed, has_short_rows as is_short_step, invert, steps_have_short_rows};
use st_strip::strip;
use std::alloc::{AllocError, Global};

// The step that lists nothing.
fn no_step(alloc: Global) -> Step {
    Step {
        new: List::new(alloc),
        rows: List::new(alloc),
        regs: List::new(alloc),
        loose: List::new(alloc),
        schema: None,
    }
}

// What a change does that lists few cells of each row.
fn effect_of_short(alloc: Global, change: &Change) -> Result<Effected, AllocError>
    requires { IsShortChange change.now }
    ensures exact { (D : Document) (N : Intent) → IsSoundInForm D → Fits D N → HasShortRows (full D N) → IsEmbedding D N change.now
        → IfOk result (λ r. IsVerdict D N r.verdict × IsStep D (carried_document r.verdict D N) r.step) }
    ensures shown { (D : Document) (N : Intent) → IsSoundInForm D → Fits D N → HasShortRows (full D N) → Shows D N change.now
        → IfOk result (λ r. IsVerdict D N r.verdict × ShowsStep D (carried_document r.verdict D N) r.step) }
{
    let done = effect(alloc, change)?;
    Ok(Effected {
        step: done.step,
        verdict: done.verdict,
    })
}

/// What a change does where it stands.
pub fn effect_of(alloc: Global, change: &Change) -> Result<Effected, AllocError>
    ensures exact { (D : Document) (N : Intent) → IsSoundInForm D → Fits D N → HasShortRows (full D N) → IsEmbedding D N change.now
        → IfOk result (λ r. IsVerdict D N r.verdict × IsStep D (carried_document r.verdict D N) r.step) }
    ensures shown { (D : Document) (N : Intent) → IsSoundInForm D → Fits D N → HasShortRows (full D N) → Shows D N change.now
        → IfOk result (λ r. IsVerdict D N r.verdict × ShowsStep D (carried_document r.verdict D N) r.step) }
{
    changes_have_short_rows();
    if !is_short_change(change) {
        return Ok(Effected {
            step: no_step(alloc),
            verdict: Verdict::Sound,
        });
    }
    effect_of_short(alloc, change)
}

/// Two steps in turn as one.
pub fn compose_of(alloc: Global, first: &Step, then: &Step) -> Result<Step, AllocError>
    ensures exact { (D E F : Document) → IsExtendedBy D E → IsExtendedBy E F → IsStep D E first.now → IsStep E F then.now
        → IfOk result (IsStep D F) }
    ensures shown { (D E F : Document) → IsExtendedBy D E → IsExtendedBy E F → ShowsStep D E first.now → ShowsStep E F then.now
        → IfOk result (ShowsStep D F) }
{
    steps_have_short_rows();
    if !is_short_step(then) {
        return Ok(no_step(alloc));
    }
    compose_agreed(alloc, first, then)
}

// What is left of a step behind a first part of it that lists few cells of each row.
fn strip_short(alloc: Global, first: &Step, whole: &Step) -> Result<Step, AllocError>
    requires { IsShortStep first.now }
    ensures exact { (D E F : Document) → IsExtendedBy D E → IsExtendedBy E F → IsStep D E first.now → IsStep D F whole.now
        → IfOk result (IsStep E F) }
    ensures shown { (D E F : Document) → IsExtendedBy D E → IsExtendedBy E F → ShowsStep D E first.now → ShowsStep D F whole.now
        → IfOk result (ShowsStep E F) }
{
    steps_have_short_rows();
    if !is_short_step(whole) {
        return Ok(no_step(alloc));
    }
    strip(alloc, first, whole)
}

/// What is left of a step behind a first part of it.
pub fn strip_of(alloc: Global, first: &Step, whole: &Step) -> Result<Step, AllocError>
    ensures exact { (D E F : Document) → IsExtendedBy D E → IsExtendedBy E F → IsStep D E first.now → IsStep D F whole.now
        → IfOk result (IsStep E F) }
    ensures shown { (D E F : Document) → IsExtendedBy D E → IsExtendedBy E F → ShowsStep D E first.now → ShowsStep D F whole.now
        → IfOk result (ShowsStep E F) }
{
    steps_have_short_rows();
    if !is_short_step(first) {
        return Ok(no_step(alloc));
    }
    strip_short(alloc, first, whole)
}

/// The way back over a step.
pub fn invert_of(alloc: Global, step: &Step) -> Result<Step, AllocError>
    ensures exact { (D E : Document) → IsExtendedBy D E → IsStep D E step.now → IfOk result (IsStep E (retreat D E)) }
    ensures shown { (D E : Document) → IsExtendedBy D E → ShowsStep D E step.now → IfOk result (ShowsStep E (retreat D E)) }
{
    steps_have_short_rows();
    if !is_short_step(step) {
        return Ok(no_step(alloc));
    }
    invert(alloc, step)
}

// A change that lists nothing.
fn no_change(alloc: Global, rev: Rev, under: Rev) -> Change {
    Change {
        rev,
        under,
        base: false,
        need: List::new(alloc),
        new: List::new(alloc),
        rows: List::new(alloc),
        regs: List::new(alloc),
        loose: List::new(alloc),
        schema: None,
    }
}

/// The change of the intent that leads back over a step.
pub fn revert_of(alloc: Global, step: &Step, rev: Rev, under: Rev) -> Result<Change, AllocError>
    ensures exact { (D E : Document) (B : Intent) → IsExtendedBy D E → IsBack D E rev under B → Has (revs E.schemas) under
        → IsStep D E step.now → IfOk result (IsEmbedding E B) }
    ensures shown { (D E : Document) (B : Intent) → IsExtendedBy D E → IsBack D E rev under B → Has (revs E.schemas) under
        → ShowsStep D E step.now → IfOk result (Shows E B) }
{
    steps_have_short_rows();
    if !is_short_step(step) {
        return Ok(no_change(alloc, rev, under));
    }
    revert(alloc, step, rev, under)
}

// The changes of two parts of a commit as one, of which the first lists few cells of each row.
fn join_short(alloc: Global, first: &Change, then: &Change) -> Result<Change, AllocError>
    requires { IsShortChange first.now }
    ensures exact { (D : Document) (N M J : Intent) → IsSoundInForm D → AreParts D N M → IsJoin N M J
        → ((n : NodeId) → IsAboveItself D N n → ⊥) → HasShortRows (full D N) → HasShortRows (full (full D N) M)
        → IsEmbedding D N first.now → IsEmbedding (full D N) M then.now → IfOk result (IsEmbedding D J) }
    ensures shown { (D : Document) (N M J : Intent) → IsSoundInForm D → AreParts D N M → IsJoin N M J
        → ((n : NodeId) → IsAboveItself D N n → ⊥) → HasShortRows (full D N) → HasShortRows (full (full D N) M)
        → Shows D N first.now → Shows (full D N) M then.now → IfOk result (Shows D J) }
{
    changes_have_short_rows();
    if !is_short_change(then) {
        return first.copy(alloc);
    }
    join_agreed(alloc, first, then)
}

/// The changes of two parts of a commit as one.
pub fn join_of(alloc: Global, first: &Change, then: &Change) -> Result<Change, AllocError>
    ensures exact { (D : Document) (N M J : Intent) → IsSoundInForm D → AreParts D N M → IsJoin N M J
        → ((n : NodeId) → IsAboveItself D N n → ⊥) → HasShortRows (full (full D N) M)
        → IsEmbedding D N first.now → IsEmbedding (full D N) M then.now → IfOk result (IsEmbedding D J) }
    ensures shown { (D : Document) (N M J : Intent) → IsSoundInForm D → AreParts D N M → IsJoin N M J
        → ((n : NodeId) → IsAboveItself D N n → ⊥) → HasShortRows (full (full D N) M)
        → Shows D N first.now → Shows (full D N) M then.now → IfOk result (Shows D J) }
{
    changes_have_short_rows();
    if !is_short_change(first) {
        return first.copy(alloc);
    }
    join_short(alloc, first, then)
}
