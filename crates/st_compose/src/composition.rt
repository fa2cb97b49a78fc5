//! Two steps in turn as one, or the field at which they don't agree.
ghost use Rattle.st_ids.specs.Or.{IfRefused};
ghost use Rattle.st_kind.specs.Refused.{IfMemory};
ghost use Rattle.st_marks.specs.Agree.{ComposeClash};
ghost use Rattle.st_marks.specs.Document.{Document};
ghost use Rattle.st_marks.specs.Extends.{IsExtendedBy};
ghost use Rattle.st_marks.specs.Step.{IsStep};
ghost use Rattle.st_normal.specs.Rules.{ObeysStepRules};
ghost use Rattle.st_agree.specs.Apart.{TellsLeast};
ghost use Rattle.st_steps.specs.Short.{HasShortRowsListed};

use crate::clashes::clashes_in_turn;
use st_agree::{FieldApart, refused_at};
use st_ids::Or;
use st_marks::Step;
use st_steps::compose_agreed;
use std::alloc::Global;

/// Whether the second of two steps goes on from where the first leads: what it finds is what the first leaves, it makes no name
/// again, and some schema entries suit both. Refused at a field, that is one which a rule of agreement names; between two steps
/// in normal form it is the least of all that are named, and those which pass agree. Where the second leads on from the document
/// to which the first leads, none is refused.
pub fn agree_in_turn(alloc: Global, first: &Step, then: &Step) -> Result<(), Or<FieldApart>>
    ensures named { IfRefused result (λ a. ComposeClash first.now then.now a.field) }
    ensures apart { ObeysStepRules first.now → ObeysStepRules then.now → TellsLeast result (ComposeClash first.now then.now) }
    ensures over { (D E F : Document) → IsExtendedBy D E → IsExtendedBy E F → IsStep D E first.now → IsStep E F then.now
        → IfRefused result (λ a. ⊥) }
{
    let found = clashes_in_turn(alloc, first, then)?;
    refused_at(alloc, found.as_slice())
}

/// Two steps in turn as one. Refused at a field, that is one which a rule of agreement names; between two steps in normal form
/// it is the least of all that are named, and those which agree are composed. Where the second leads on from the document to
/// which the first leads, none is refused.
pub fn compose(alloc: Global, first: &Step, then: &Step) -> Result<Step, Or<FieldApart>>
    requires { HasShortRowsListed then.now }
    ensures composed { (D E F : Document) → IsExtendedBy D E → IsExtendedBy E F → IsStep D E first.now → IsStep E F then.now
        → IfMemory result (IsStep D F) }
    ensures named { IfRefused result (λ a. ComposeClash first.now then.now a.field) }
    ensures apart { ObeysStepRules first.now → ObeysStepRules then.now → TellsLeast result (ComposeClash first.now then.now) }
{
    match agree_in_turn(alloc, first, then) {
        Ok(()) => Ok(compose_agreed(alloc, first, then)?),
        Err(why) => Err(why),
    }
}
