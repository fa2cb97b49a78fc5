//! Laws about changes and steps: each is the contract of a function that does nothing.

ghost use Rattle.std.specs.Prelude.{◌≡◌};
ghost use Rattle.st_marks.specs.declared.changes.Change.{Change};
ghost use Rattle.st_marks.specs.declared.intents.Intent.{Intent};
ghost use Rattle.st_marks.specs.declared.steps.Step.{Step};
ghost use Rattle.st_marks.specs.Document.{Document, IsSoundInForm};
ghost use Rattle.st_marks.specs.Embedding.{IsEmbedding};
ghost use Rattle.st_marks.specs.Step.{IsStep};

/// An intent has one embedding in a document.
pub fn one_embedding()
    ensures { (D : Document) (N : Intent) (C K : Change) → IsEmbedding D N C → IsEmbedding D N K → C ≡ K }
{}

/// There is one step between two documents.
pub fn one_step()
    ensures { (D E : Document) (S T : Step) → IsSoundInForm E → IsStep D E S → IsStep D E T → S ≡ T }
{}
