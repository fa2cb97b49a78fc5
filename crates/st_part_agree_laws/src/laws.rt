//! Laws on changes that are two parts of a commit over documents: each is the contract of a function that does nothing.
ghost use Rattle.st_ids.specs.declared.names.NodeId.{NodeId};
ghost use Rattle.st_marks.specs.declared.changes.Change.{Change};
ghost use Rattle.st_marks.specs.declared.intents.Intent.{Intent};
ghost use Rattle.st_marks.specs.Agree.{Agrees, JoinClash};
ghost use Rattle.st_marks.specs.CarryOut.{full};
ghost use Rattle.st_marks.specs.Document.{Document, HasShortRows, IsSoundInForm};
ghost use Rattle.st_marks.specs.Embedding.{IsEmbedding};
ghost use Rattle.st_marks.specs.Join.{AreParts};
ghost use Rattle.st_marks.specs.Verdict.{IsAboveItself};

/// The changes of two parts of a commit agree, where the first part forms no ring and leaves rows short: none of the rules by
/// which a join is refused is broken.
pub fn parts_agree()
    ensures { (D : Document) (N M : Intent) (C K : Change) → IsSoundInForm D → AreParts D N M → ((n : NodeId) → IsAboveItself D N n → ⊥)
        → HasShortRows (full D N) → IsEmbedding D N C → IsEmbedding (full D N) M K
        → Agrees (JoinClash C K) }
{}
