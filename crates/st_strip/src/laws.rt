//! Laws on what is left of a step: each is the contract of a function that does nothing.
ghost use Rattle.st_kind.specs.Named.{Nodes};
ghost use Rattle.st_marks.specs.declared.steps.Step.{Step};
ghost use Rattle.st_marks.specs.Document.{Document};
ghost use Rattle.st_marks.specs.Extends.{IsExtendedBy};
ghost use Rattle.st_marks.specs.Step.{IsStep};
ghost use Rattle.st_trim.specs.Covers.{CoversStep};
ghost use Rattle.st_trim.specs.Trimmed.{ListsStep};
ghost use Rattle.st_strip.specs.Rest.{IsRestOf, TellsRest, named_rest};

/// What is left of a step behind a first part of it, told name by name, lists the step from where that part leads to where the
/// whole step leads, with all that either names and all that is new at last.
pub fn rests_of_steps_are_listed()
    ensures { (D E F : Document) (S W G : Step) (told between last : Nodes)
        → IsExtendedBy D E → IsExtendedBy E F → (first : IsStep D E S) → (whole : IsStep D F W)
        → TellsRest D E F first.mentioned whole.mentioned told between last
        → IsRestOf S W G told between last
        → ListsStep E F (named_rest D F first.mentioned whole.mentioned) G }
{}

/// What a first part of a step names, what is new at last and what the whole step names has all that the rest mentions.
pub fn rests_of_steps_are_covered()
    ensures { (D E F : Document) (S W : Step) → IsExtendedBy D E → IsExtendedBy E F
        → (first : IsStep D E S) → (whole : IsStep D F W)
        → CoversStep E F (named_rest D F first.mentioned whole.mentioned) }
{}
