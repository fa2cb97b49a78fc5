//! The axiom on the change that changes nothing.
ghost use Rattle.std.specs.Prelude.{◌≡◌, not};
ghost use Rattle.st_agree.specs.Apart.{TellsLeast};
ghost use Rattle.st_ids.specs.Listing.{Has};
ghost use Rattle.st_ids.specs.Or.{IfRefused};
ghost use Rattle.st_kind.specs.Refused.{IfMemory};
ghost use Rattle.st_marks.specs.Agree.{RebaseClash};
ghost use Rattle.st_marks.specs.Document.{Document, revs};
ghost use Rattle.st_marks.specs.Extends.{IsExtendedBy};
ghost use Rattle.st_marks.specs.Step.{IsStep};
ghost use Rattle.st_normal.specs.Rules.{ObeysStepRules};
ghost use Rattle.st_revert.specs.Reversal.{takes_out};
ghost use Rattle.st_laws.specs.Empty.{empty_change};

use crate::calls::over;
use crate::sides::ChangeSides;
use st_agree::FieldApart;
use st_ids::{List, Or, Rev};
use st_marks::{Change, Step};
use std::alloc::Global;

// A commit that wants nothing, made under a schema that is in effect.
fn empty_change(alloc: Global, rev: Rev, under: Rev) -> Change
    ensures { result ≡ empty_change rev under }
{
    Change {
        rev,
        under,
        base: true,
        need: List::new(alloc),
        new: List::new(alloc),
        rows: List::new(alloc),
        regs: List::new(alloc),
        loose: List::new(alloc),
        schema: None,
    }
}

/// The change that changes nothing over a step, and the change. Refused at a field that a rule of agreement names; with a step in
/// normal form exactly where one is named, at the least. Over a document where the schema under which the change is made is in
/// effect none is, and the left side changes nothing too: the two are one, but that the left one's schema is no longer in effect
/// where the step takes it out.
pub fn nothing_over(
    alloc: Global,
    step: &Step,
    rev: Rev,
    under: Rev,
) -> Result<ChangeSides, Or<FieldApart>>
    ensures sides { (D E : Document) → IsExtendedBy D E → Has (revs D.schemas) under → IsStep D E step.now
        → IfMemory result (λ s. (s.left ≡ record s.right { base = not (takes_out step.now.schema under) }) × (s.right ≡ empty_change rev under)) }
    ensures named { IfRefused result (λ a. RebaseClash (empty_change rev under) step.now a.field) }
    ensures apart { ObeysStepRules step.now → TellsLeast result (RebaseClash (empty_change rev under) step.now) }
{
    let right = empty_change(alloc, rev, under);
    match over(alloc, &right, step) {
        Ok(left) => Ok(ChangeSides { left, right }),
        Err(why) => Err(why),
    }
}
