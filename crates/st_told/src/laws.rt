//! Laws on the intents of a change: each is the contract of a function that does nothing.
ghost use Rattle.st_marks.specs.Document.{Document, IsSoundInForm};
ghost use Rattle.st_marks.specs.Embedding.{IsEmbedding};
ghost use Rattle.st_marks.specs.Intent.{Fits, IsIntent};
ghost use Rattle.st_marks.specs.declared.changes.Change.{Change};
ghost use Rattle.st_marks.specs.declared.intents.Intent.{Intent};
ghost use Rattle.st_same_laws.specs.Same.{SaysTheSame};

/// The law that two intents which fit a document and have one change there say the same: they differ
/// in the order of their lists and in what these repeat, and in nothing else.
pub fn one_intent()
    ensures { (D : Document) (N M : Intent) (C : Change) → IsSoundInForm D → Fits D N → Fits D M
        → IsEmbedding D N C → IsEmbedding D M C → SaysTheSame N M }
{}

/// The law that an intent which says the same as one that fits a document fits it too.
pub fn alike_intents_fit()
    ensures { (D : Document) (N M : Intent) → IsIntent M → SaysTheSame N M → Fits D N → Fits D M }
{}
