//! The calls of the algebra on changes and steps that stand over documents.
ghost use Rattle.std.specs.Prelude.{Bool, ◌≡◌, IfOk, OnOk};
ghost use Rattle.st_ids.specs.Listing.{Has};
ghost use Rattle.st_ids.specs.declared.names.NodeId.{NodeId};
ghost use Rattle.st_marks.specs.declared.intents.Intent.{Intent};
ghost use Rattle.st_marks.specs.declared.verdicts.Verdict.{Verdict as Outcome};
ghost use Rattle.st_marks.specs.Back.{IsBack, retreat};
ghost use Rattle.st_marks.specs.CarryOut.{full};
ghost use Rattle.st_marks.specs.Document.{Document, HasShortRows, IsSoundInForm, revs};
ghost use Rattle.st_marks.specs.Extends.{IsExtendedBy};
ghost use Rattle.st_marks.specs.Intent.{Fits};
ghost use Rattle.st_marks.specs.Join.{AreParts, IsJoin};
ghost use Rattle.st_marks.specs.Verdict.{IsAboveItself, IsVerdict, carried_document};
ghost use Rattle.st_read_laws.specs.Reading.{IsRead, IsStepRead};

use st_ids::Rev;
use st_marks::{Change, Step, Verdict};
use std::alloc::{AllocError, Global};

/// What a change does where it stands: whether it is void there, and the step to the document after it.
#[derive(Drop)]
pub struct Effected {
    pub step: Step,
    pub verdict: Verdict,
}

/// A change over a step and the step over the change, at once, of whole documents, from their marks alone. Nothing is promised of
/// arguments that stand over no documents but that the call returns; where they do, it answers what the documents say, unless memory
/// fails. What a call that failed was to change in place is spent.
pub trait Carrier: Sized {
    /// Whether its changes and steps name each empty cell, or count those that stay empty.
    ghost listed: { Bool };

    /// A change over a step, and the step over the change, at once: the change becomes that of its intent in the later document,
    /// with the verdict there, and the step leads from the earlier document after the intent to the later one after it. `verdict`
    /// is that of the change before.
    fn carry(
        alloc: Global,
        change: &mut Change,
        verdict: &mut Verdict,
        step: &mut Step,
    ) -> Result<(), AllocError>
        ensures { OnOk result ((D E : Document) (N : Intent)
            → IsExtendedBy D E → Fits D N → Fits E N
            → HasShortRows (full D N) → HasShortRows (full E N)
            → IsVerdict D N verdict.old → IsRead listed D N change.entry.now
            → IsStepRead listed D E step.entry.now
            → IsVerdict E N verdict.new × IsRead listed E N change.exit.now
            × IsExtendedBy (carried_document verdict.old D N) (carried_document verdict.new E N)
            × IsStepRead listed (carried_document verdict.old D N) (carried_document verdict.new E N)
            step.exit.now) };
}

/// What else is done with changes and steps that are carried so; the same is promised of each call.
pub trait Rebaser: Carrier {
    /// What a change does where it stands.
    fn effect(alloc: Global, change: &Change) -> Result<Effected, AllocError>
        ensures { (D : Document) (N : Intent)
            → IsSoundInForm D → Fits D N → HasShortRows (full D N) → IsRead Self.listed D N change.now
            → IfOk result (λ r. IsVerdict D N r.verdict
            × IsStepRead Self.listed D (carried_document r.verdict D N) r.step) };

    /// Two steps in turn as one.
    fn compose(alloc: Global, first: &Step, then: &Step) -> Result<Step, AllocError>
        ensures { (D E F : Document) → IsExtendedBy D E → IsExtendedBy E F
            → IsStepRead Self.listed D E first.now → IsStepRead Self.listed E F then.now
            → IfOk result (λ s. IsStepRead Self.listed D F s) };

    /// A step that goes on by another: the same, in place.
    fn splice(alloc: Global, step: &mut Step, then: &Step) -> Result<(), AllocError>
        ensures { OnOk result ((D E F : Document) → IsExtendedBy D E → IsExtendedBy E F
            → IsStepRead Self.listed D E step.entry.now → IsStepRead Self.listed E F then.now
            → IsStepRead Self.listed D F step.exit.now) };

    /// What is left of a step behind a first part of it.
    fn strip(alloc: Global, first: &Step, whole: &Step) -> Result<Step, AllocError>
        ensures { (D E F : Document) → IsExtendedBy D E → IsExtendedBy E F
            → IsStepRead Self.listed D E first.now → IsStepRead Self.listed D F whole.now
            → IfOk result (λ s. IsStepRead Self.listed E F s) };

    /// The way back over a step: to the retreat, which has all that the later document has, with the nodes of the earlier one where
    /// they were.
    fn invert(alloc: Global, step: &Step) -> Result<Step, AllocError>
        ensures { (D E : Document) → IsExtendedBy D E → IsStepRead Self.listed D E step.now
            → IfOk result (λ s. IsStepRead Self.listed E (retreat D E) s) };

    /// The change of the intent that leads back over a step, with that revision, and made under that schema, which has to be in effect
    /// behind the step.
    fn revert(alloc: Global, step: &Step, rev: Rev, under: Rev) -> Result<Change, AllocError>
        ensures { (D E : Document) (B : Intent) → IsExtendedBy D E → IsBack D E rev under B
            → Has (revs E.schemas) under → IsStepRead Self.listed D E step.now
            → IfOk result (λ c. IsRead Self.listed E B c) };

    /// The changes of two parts of a commit as one; the first part makes no ring.
    fn join(alloc: Global, first: &Change, then: &Change) -> Result<Change, AllocError>
        ensures { (D : Document) (N M J : Intent) → IsSoundInForm D → AreParts D N M → IsJoin N M J
            → ((n : NodeId) → IsAboveItself D N n → ⊥) → HasShortRows (full (full D N) M)
            → IsRead Self.listed D N first.now → IsRead Self.listed (full D N) M then.now
            → IfOk result (λ c. IsRead Self.listed D J c) };
}
