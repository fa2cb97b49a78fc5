//! Laws on steps and documents: each is the contract of a function that does nothing.
ghost use Rattle.std.specs.Prelude.{◌≡◌, ◌↔◌, true};
ghost use Rattle.st_ids.specs.declared.names.NodeId.{NodeId};
ghost use Rattle.st_marks.specs.declared.steps.Step.{Step};
ghost use Rattle.st_marks.specs.Document.{Document, IsSoundInForm};
ghost use Rattle.st_marks.specs.Extends.{IsExtendedBy};
ghost use Rattle.st_marks.specs.Normal.{IsNormalStep};
ghost use Rattle.st_marks.specs.Step.{IsMentionedByStep, IsStep};
ghost use Rattle.st_normal.specs.Rules.{ObeysStepRules};
ghost use Rattle.st_normal_step_laws.specs.StepOver.{IsOverStep, later, mentions_over};

/// A step that obeys the rules stands over each sound document in which it finds what is so: the document after it extends that
/// document, and the step is the one from the one to the other.
pub fn steps_stand_over()
    ensures extends { (D : Document) (S : Step) → IsSoundInForm D → ObeysStepRules S → IsOverStep D S → IsExtendedBy D (later D S) }
    ensures step { (D : Document) (S : Step) → IsSoundInForm D → ObeysStepRules S → IsOverStep D S → IsStep D (later D S) S }
{}

/// The step from a document to one that extends it finds there what is so. So that a step stands over a document is told by the
/// document before alone.
pub fn steps_find_what_is_so()
    ensures { (D E : Document) (S : Step) → IsExtendedBy D E → IsStep D E S → IsOverStep D S }
{}

/// What such a step mentions is exactly what it lists as mentioned: the documents aren't needed to tell.
pub fn step_mentions_are_exact()
    ensures { (D : Document) (S : Step) (n : NodeId) → IsSoundInForm D → ObeysStepRules S → IsOverStep D S
        → (mentions_over S n ≡ true) ↔ IsMentionedByStep D (later D S) n }
{}

/// A step that obeys the rules of normal form is normal: it leads from some document to one that extends it.
pub fn steps_that_obey_are_normal()
    ensures { (S : Step) → ObeysStepRules S → IsNormalStep S }
{}

/// A step is normal exactly where it obeys the rules of normal form: what `Step::check` lets through is what leads from some
/// document to one that extends it, and nothing else.
pub fn steps_are_normal_where_they_obey()
    ensures { (S : Step) → IsNormalStep S ↔ ObeysStepRules S }
{}
