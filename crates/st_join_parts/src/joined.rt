//! Two parts of one commit as one change, or the field at which they don't agree.
ghost use Rattle.st_ids.specs.Or.{IfRefused};
ghost use Rattle.st_ids.specs.declared.names.NodeId.{NodeId as Node};
ghost use Rattle.st_kind.specs.Refused.{IfMemory};
ghost use Rattle.st_marks.specs.declared.intents.Intent.{Intent};
ghost use Rattle.st_marks.specs.Agree.{JoinClash};
ghost use Rattle.st_marks.specs.CarryOut.{full};
ghost use Rattle.st_marks.specs.Document.{Document, HasShortRows, IsSoundInForm};
ghost use Rattle.st_marks.specs.Embedding.{IsEmbedding};
ghost use Rattle.st_marks.specs.Join.{AreParts, IsJoin};
ghost use Rattle.st_marks.specs.Verdict.{IsAboveItself};
ghost use Rattle.st_normal.specs.Rules.{ObeysChangeRules};
ghost use Rattle.st_agree.specs.Apart.{TellsLeast};
ghost use Rattle.st_parts.specs.Short.{HasShortRowsListed};

use crate::agreement::agree_parts;
use st_agree::FieldApart;
use st_ids::Or;
use st_marks::Change;
use st_parts::join_agreed;
use std::alloc::Global;

/// Two parts of one commit as one change. Refused at a field, that is one which a rule of agreement names; between two changes in
/// normal form it is the least of all that are named, and those which agree are joined. Two parts of a commit over a document,
/// the first of which forms no ring, are never refused.
pub fn join(alloc: Global, first: &Change, then: &Change) -> Result<Change, Or<FieldApart>>
    requires first { HasShortRowsListed first.now }
    requires second { HasShortRowsListed then.now }
    ensures joined { (D : Document) (N M J : Intent) → IsSoundInForm D → AreParts D N M → ((n : Node) → IsAboveItself D N n → ⊥) → IsJoin N M J
        → HasShortRows (full D N) → HasShortRows (full (full D N) M) → IsEmbedding D N first.now → IsEmbedding (full D N) M then.now
        → IfMemory result (IsEmbedding D J) }
    ensures named { IfRefused result (λ a. JoinClash first.now then.now a.field) }
    ensures apart { ObeysChangeRules first.now → ObeysChangeRules then.now → TellsLeast result (JoinClash first.now then.now) }
{
    match agree_parts(alloc, first, then) {
        Ok(()) => Ok(join_agreed(alloc, first, then)?),
        Err(why) => Err(why),
    }
}
