//! Whether a change and a step agree, with the least field at which they don't.
ghost use Rattle.std.specs.Prelude.{◌≡◌, false, [], IfOk, OnOk};
ghost use Rattle.std.specs.Ordering.{is_lt};
ghost use Rattle.st_ids.specs.Listing.{Has};
ghost use Rattle.st_ids.specs.Or.{IfRefused};
ghost use Rattle.st_ids.specs.Order.{field_cmp};
ghost use Rattle.st_ids.specs.declared.names.FieldId.{FieldId as Field};
ghost use Rattle.st_marks.specs.declared.intents.Intent.{Intent};
ghost use Rattle.st_marks.specs.Agree.{RebaseClash};
ghost use Rattle.st_marks.specs.Document.{Document};
ghost use Rattle.st_marks.specs.Embedding.{IsEmbedding};
ghost use Rattle.st_marks.specs.Extends.{IsExtendedBy};
ghost use Rattle.st_marks.specs.Intent.{Fits};
ghost use Rattle.st_marks.specs.Step.{IsStep};
ghost use Rattle.st_normal.specs.Rules.{ObeysChangeRules, ObeysStepRules};
ghost use Rattle.st_agree.specs.Apart.{TellsLeast};

use crate::named::clashes;
use st_clash::least_field;
use st_ids::{Copied, FieldId, Or};
use st_marks::{Change, Step};
use std::alloc::{AllocError, Global};

/// The least field at which two arguments don't agree.
#[derive(Debug, Drop, PartialEq, Eq)]
pub struct FieldApart {
    pub field: FieldId,
}

// The refusal at a field.
fn apart_at(alloc: Global, field: &FieldId) -> Result<FieldApart, AllocError>
    ensures { IfOk result (λ a. a.field ≡ field.now) }
{
    let field = field.copy(alloc)?;
    Ok(FieldApart { field })
}

/// The refusal at the least of the fields that are named, if one is.
pub fn refused_at(alloc: Global, found: &[FieldId]) -> Result<(), Or<FieldApart>>
    ensures ok { OnOk result (found.now ≡ []) }
    ensures among { IfRefused result (λ a. Has found.now a.field) }
    ensures least { IfRefused result (λ a. (g : Field) → Has found.now g → is_lt (field_cmp g a.field) ≡ false) }
{
    match least_field(found) {
        None => Ok(()),
        Some(field) => Err(Or::Fault(apart_at(alloc, field)?)),
    }
}

/// Whether a change and a step agree in what they show of the document where both begin, in the names that they make, and in
/// the schemas. Refused at a field, that is one which a rule of agreement names; between a change and a step in normal form it
/// is the least of all that are named, and those which pass agree. Where both stand over one document, and the intent fits
/// after the step too, none is refused. Takes O(n log n) for n marks and names, whatever a Skip counts.
pub fn agree(alloc: Global, change: &Change, step: &Step) -> Result<(), Or<FieldApart>>
    ensures named { IfRefused result (λ a. RebaseClash change.now step.now a.field) }
    ensures apart { ObeysChangeRules change.now → ObeysStepRules step.now → TellsLeast result (RebaseClash change.now step.now) }
    ensures over { (D E : Document) (N : Intent) → IsExtendedBy D E → Fits D N → Fits E N
        → IsEmbedding D N change.now → IsStep D E step.now → IfRefused result (λ a. ⊥) }
{
    let found = clashes(alloc, change, step)?;
    refused_at(alloc, found.as_slice())
}
