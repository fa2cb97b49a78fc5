//! The step between two documents.
ghost use Rattle.std.specs.Prelude.{IfOk};
ghost use Rattle.st_ids.specs.Or.{IfRefused};
ghost use Rattle.st_marks.specs.Document.{IsSoundInForm};
ghost use Rattle.st_marks.specs.Extends.{IsExtendedBy};
ghost use Rattle.st_marks.specs.Step.{IsStep};
ghost use Rattle.st_doc.specs.Doc.{document_of};

use crate::new::new_of;
use crate::registers::{loose_of, registers_of};
use crate::rows::rows_of;
use crate::schemas::schema_step;
use crate::sources::mentioned_between;
use st_doc::Doc;
use st_embed::rows_of_cells;
use st_ids::Or;
use st_later::{NotLater, is_extended_by};
use st_marks::Step;
use std::alloc::{AllocError, Global};

// The step, where the later document extends the earlier one.
fn step_between(alloc: Global, doc: &Doc, later: &Doc) -> Result<Step, AllocError>
    requires { IsExtendedBy (document_of doc.now) (document_of later.now) }
    ensures { IfOk result (IsStep (document_of doc.now) (document_of later.now)) }
{
    let cells = rows_of_cells(alloc, doc)?;
    let mentioned = mentioned_between(alloc, &cells, doc, later)?;
    let new = new_of(alloc, doc, later)?;
    let rows = rows_of(alloc, &cells, doc, later, &mentioned)?;
    let regs = registers_of(alloc, doc, later, &mentioned)?;
    let loose = loose_of(alloc, doc, later, &mentioned)?;
    let schema = schema_step(alloc, doc.schemas(), later.schemas())?;
    Ok(Step {
        new,
        rows,
        regs,
        loose,
        schema,
    })
}

/// The step from a document to a later one: the difference of their places. It is refused exactly where the later
/// document does not extend the earlier one. Both have to be sound in form. It goes through all that both have, in
/// O(d log d) for d names: the yardstick of steps that are told from changes alone.
pub fn step_to(alloc: Global, doc: &Doc, later: &Doc) -> Result<Step, Or<NotLater>>
    requires before { IsSoundInForm (document_of doc.now) }
    requires after { IsSoundInForm (document_of later.now) }
    ensures step { IfOk result (IsStep (document_of doc.now) (document_of later.now)) }
    ensures later { IfOk result (λ _. IsExtendedBy (document_of doc.now) (document_of later.now)) }
    ensures not_later { IfRefused result (λ _. IsExtendedBy (document_of doc.now) (document_of later.now) → ⊥) }
{
    if !is_extended_by(alloc, doc, later)? {
        return Err(Or::Fault(NotLater));
    }
    let step = step_between(alloc, doc, later)?;
    Ok(step)
}
