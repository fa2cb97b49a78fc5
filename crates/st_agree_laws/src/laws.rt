//! Laws on arguments that stand over documents: each is the contract of a function that does nothing.
ghost use Rattle.st_marks.specs.declared.changes.Change.{Change};
ghost use Rattle.st_marks.specs.declared.intents.Intent.{Intent};
ghost use Rattle.st_marks.specs.declared.steps.Step.{Step};
ghost use Rattle.st_marks.specs.Agree.{Agrees, RebaseClash};
ghost use Rattle.st_marks.specs.Document.{Document};
ghost use Rattle.st_marks.specs.Embedding.{IsEmbedding};
ghost use Rattle.st_marks.specs.Extends.{IsExtendedBy};
ghost use Rattle.st_marks.specs.Intent.{Fits};
ghost use Rattle.st_marks.specs.Step.{IsStep};

/// A change and a step that stand over one document agree, where the intent fits after the step too: none of the rules by
/// which a rebase is refused is broken.
pub fn changes_agree_with_steps()
    ensures { (D E : Document) (N : Intent) (C : Change) (S : Step)
        → IsExtendedBy D E → Fits D N → Fits E N → IsEmbedding D N C → IsStep D E S
        → Agrees (RebaseClash C S) }
{}
