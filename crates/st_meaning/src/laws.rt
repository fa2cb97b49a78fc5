//! A law on the intents of a change: the contract of a function that does nothing.
ghost use Rattle.std.specs.Prelude.{◌≡◌};
ghost use Rattle.st_marks.specs.declared.changes.Change.{Change};
ghost use Rattle.st_marks.specs.declared.intents.Intent.{Intent};
ghost use Rattle.st_marks.specs.Document.{Document, IsSoundInForm};
ghost use Rattle.st_marks.specs.Embedding.{IsEmbedding};
ghost use Rattle.st_marks.specs.Intent.{Fits};
ghost use Rattle.st_meaning.specs.InOrder.{IsInOrder};

/// The law that a change has one intent whose lists stand in the order of their names.
pub fn one_meaning()
    ensures { (D : Document) (N M : Intent) (C : Change) → IsSoundInForm D → Fits D N → Fits D M
        → IsEmbedding D N C → IsEmbedding D M C → IsInOrder N → IsInOrder M → N ≡ M }
{}
