//! Whether two parts of one commit agree.
ghost use Rattle.st_ids.specs.Or.{IfRefused};
ghost use Rattle.st_ids.specs.declared.names.NodeId.{NodeId as Node};
ghost use Rattle.st_marks.specs.declared.intents.Intent.{Intent};
ghost use Rattle.st_marks.specs.Agree.{JoinClash};
ghost use Rattle.st_marks.specs.CarryOut.{full};
ghost use Rattle.st_marks.specs.Document.{Document, HasShortRows, IsSoundInForm};
ghost use Rattle.st_marks.specs.Embedding.{IsEmbedding};
ghost use Rattle.st_marks.specs.Join.{AreParts};
ghost use Rattle.st_marks.specs.Verdict.{IsAboveItself};
ghost use Rattle.st_normal.specs.Rules.{ObeysChangeRules};
ghost use Rattle.st_agree.specs.Apart.{TellsLeast};

use crate::clashes::clashes_of_parts;
use st_agree::{FieldApart, refused_at};
use st_ids::Or;
use st_marks::Change;
use std::alloc::Global;

/// Whether the second of two changes goes on from where the first leads, as two parts of one commit do: what it finds is what the
/// first leaves, it makes no name again, and both can be parts of one. Refused at a field, that is one which a rule of agreement
/// names; between two changes in normal form it is the least of all that are named, and those which pass agree. Where they are the
/// changes of two parts of a commit over a document, the first of which forms no ring, none is refused.
pub fn agree_parts(alloc: Global, first: &Change, then: &Change) -> Result<(), Or<FieldApart>>
    ensures named { IfRefused result (λ a. JoinClash first.now then.now a.field) }
    ensures apart { ObeysChangeRules first.now → ObeysChangeRules then.now → TellsLeast result (JoinClash first.now then.now) }
    ensures over { (D : Document) (N M : Intent) → IsSoundInForm D → AreParts D N M → ((n : Node) → IsAboveItself D N n → ⊥)
        → HasShortRows (full D N) → IsEmbedding D N first.now → IsEmbedding (full D N) M then.now → IfRefused result (λ a. ⊥) }
{
    let found = clashes_of_parts(alloc, first, then)?;
    refused_at(alloc, found.as_slice())
}
