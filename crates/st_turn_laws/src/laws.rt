//! Laws on steps that stand in turn over documents: each is the contract of a function that does nothing.
ghost use Rattle.st_marks.specs.declared.steps.Step.{Step};
ghost use Rattle.st_marks.specs.Agree.{Agrees, ComposeClash};
ghost use Rattle.st_marks.specs.Document.{Document};
ghost use Rattle.st_marks.specs.Extends.{IsExtendedBy};
ghost use Rattle.st_marks.specs.Step.{IsStep};

/// Two steps of which the second begins where the first leads agree: none of the rules by which a composition is refused is
/// broken.
pub fn steps_in_turn_agree()
    ensures { (D E F : Document) (S T : Step) → IsExtendedBy D E → IsExtendedBy E F → IsStep D E S → IsStep E F T
        → Agrees (ComposeClash S T) }
{}
