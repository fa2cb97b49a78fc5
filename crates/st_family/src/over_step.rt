//! A change over a step, or the field at which the two don't agree.
ghost use Rattle.st_ids.specs.Or.{IfRefused};
ghost use Rattle.st_kind.specs.Refused.{IfMemory};
ghost use Rattle.st_marks.specs.declared.intents.Intent.{Intent};
ghost use Rattle.st_marks.specs.Agree.{RebaseClash};
ghost use Rattle.st_marks.specs.Document.{Document};
ghost use Rattle.st_marks.specs.Embedding.{IsEmbedding};
ghost use Rattle.st_marks.specs.Extends.{IsExtendedBy};
ghost use Rattle.st_marks.specs.Intent.{Fits};
ghost use Rattle.st_marks.specs.Step.{IsStep};
ghost use Rattle.st_normal.specs.Rules.{ObeysChangeRules, ObeysStepRules};
ghost use Rattle.st_agree.specs.Apart.{TellsLeast};
ghost use Rattle.st_moves.specs.Room.{HasRoomInRows};

use st_agree::{FieldApart, agree};
use st_ids::Or;
use st_marks::{Change, Step};
use st_rebase::rebase_agreed;
use std::alloc::Global;

/// A change over a step: what the change's intent is in the document after the step. Refused at a field, that is one which a
/// rule of agreement names; between a change and a step in normal form it is the least of all that are named. Where both stand
/// over one document, and the intent fits after the step too, none is refused.
pub fn rebase(alloc: Global, change: &Change, step: &Step) -> Result<Change, Or<FieldApart>>
    requires { HasRoomInRows change.now step.now }
    ensures rebased { (D E : Document) (N : Intent) → IsExtendedBy D E → Fits D N → Fits E N
        → IsEmbedding D N change.now → IsStep D E step.now → IfMemory result (IsEmbedding E N) }
    ensures named { IfRefused result (λ a. RebaseClash change.now step.now a.field) }
    ensures apart { ObeysChangeRules change.now → ObeysStepRules step.now → TellsLeast result (RebaseClash change.now step.now) }
{
    match agree(alloc, change, step) {
        Ok(()) => Ok(rebase_agreed(alloc, change, step)?),
        Err(why) => Err(why),
    }
}
