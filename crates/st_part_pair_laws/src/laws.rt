//! Laws on two parts of a commit and documents: each is the contract of a function that does nothing.
ghost use Rattle.std.specs.Prelude.{◌≡◌, ◌↔◌};
ghost use Rattle.st_ids.specs.declared.names.NodeId.{NodeId};
ghost use Rattle.st_marks.specs.declared.changes.Change.{Change};
ghost use Rattle.st_marks.specs.declared.intents.Intent.{Intent};
ghost use Rattle.st_marks.specs.Agree.{Agrees, JoinClash};
ghost use Rattle.st_marks.specs.CarryOut.{full};
ghost use Rattle.st_marks.specs.Document.{Document, HasShortRows, IsSoundInForm};
ghost use Rattle.st_marks.specs.Embedding.{IsEmbedding};
ghost use Rattle.st_marks.specs.Join.{AreParts, IsJoin};
ghost use Rattle.st_marks.specs.Verdict.{IsAboveItself};
ghost use Rattle.st_normal.specs.Rules.{ObeysChangeRules};
ghost use Rattle.st_part_pair_laws.specs.Parts.{StandAsParts};

/// Two changes that obey the rules of normal form and agree as parts of one commit stand over documents: the first over a sound
/// one, where it forms no ring, and the second over the one to which the first leads. There is the intent of both as one, and rows
/// are left short. So whoever joins two changes in normal form that aren't refused has documents for them. Names of definitions are
/// whole numbers, so the sessions of fresh ones may pass 2^32.
pub fn parts_stand()
    ensures { (C K : Change)
        → ObeysChangeRules C → ObeysChangeRules K → Agrees (JoinClash C K)
        → StandAsParts C K }
{}

/// Two changes stand over documents as parts of one commit exactly where both obey the rules of normal form and the two agree: the
/// rules, which are told from the two alone, ask neither too much nor too little.
pub fn part_agreement_is_exact()
    ensures { (C K : Change)
        → StandAsParts C K ↔ (ObeysChangeRules C × ObeysChangeRules K × Agrees (JoinClash C K)) }
{}

/// For two changes in normal form that agree as parts of one commit, one change alone is that of both as one, whatever documents
/// they stand over. So what a join that isn't refused may answer is one value.
pub fn one_change_of_parts()
    ensures { (C K X Y : Change)
        → ObeysChangeRules C → ObeysChangeRules K → Agrees (JoinClash C K)
        → ((D : Document) (N M J : Intent)
        → IsSoundInForm D → AreParts D N M
        → ((n : NodeId) → IsAboveItself D N n → ⊥) → IsJoin N M J
        → HasShortRows (full D N) → HasShortRows (full (full D N) M)
        → IsEmbedding D N C → IsEmbedding (full D N) M K
        → IsEmbedding D J X × IsEmbedding D J Y)
        → X ≡ Y }
{}
