//! Laws on two steps in turn and documents: each is the contract of a function that does nothing.
ghost use Rattle.st_marks.specs.declared.steps.Step.{Step};
ghost use Rattle.st_marks.specs.Agree.{Agrees, ComposeClash};
ghost use Rattle.st_marks.specs.Document.{Document};
ghost use Rattle.st_marks.specs.Extends.{IsExtendedBy};
ghost use Rattle.st_marks.specs.Step.{IsStep};
ghost use Rattle.st_normal.specs.Rules.{ObeysStepRules};

/// Two steps that obey the rules of normal form and agree in turn stand over documents in turn: there are three sound documents,
/// each of which extends the one before, and the steps lead from the first to the second and from there to the third. So two
/// steps in normal form that may be composed have documents over which they are.
pub fn stand_in_turn()
    ensures { (S T : Step) → ObeysStepRules S → ObeysStepRules T → Agrees (ComposeClash S T)
        → (D : Document) × (E : Document) × (F : Document)
        × IsExtendedBy D E × IsExtendedBy E F × IsStep D E S × IsStep E F T }
{}
