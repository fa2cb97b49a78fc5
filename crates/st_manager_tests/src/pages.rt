//! Changes and steps as documents tell them.
ghost use Rattle.st_marks.specs.Document.{IsSoundInForm};
ghost use Rattle.st_doc.specs.Doc.{document_of};

use st_doc::Doc;
use st_draws::between;
use st_embed::embed;
use st_marks::{Change, Intent, Step, Verdict};
use st_thin::{thin_change, thin_step};
use std::alloc::{AllocError, Global};

// A change with its empty cells counted, or as it is.
fn change_read(alloc: Global, change: Change, thin: bool) -> Result<Change, AllocError> {
    let mut change = change;
    if thin {
        thin_change(alloc, &mut change)?;
    }
    Ok(change)
}

fn step_read(alloc: Global, step: Step, thin: bool) -> Result<Step, AllocError> {
    let mut step = step;
    if thin {
        thin_step(alloc, &mut step)?;
    }
    Ok(step)
}

/// Whether an intent fits, and leaves room in each row.
pub fn takes(doc: &Doc, intent: &Intent) -> bool
    requires { IsSoundInForm (document_of doc.now) }
{
    doc.fits(intent) && doc.has_room(intent)
}

/// The change of an intent, if that fits: with empty cells counted where it is to be thin.
pub fn change_in(
    alloc: Global,
    doc: &Doc,
    intent: &Intent,
    thin: bool,
) -> Result<Option<Change>, AllocError>
    requires { IsSoundInForm (document_of doc.now) }
{
    if !doc.fits(intent) {
        return Ok(None);
    }
    let change = embed(alloc, doc, intent)?;
    Ok(Some(change_read(alloc, change, thin)?))
}

/// Whether a change is that of an intent.
pub fn shows(
    alloc: Global,
    doc: &Doc,
    intent: &Intent,
    change: &Change,
    thin: bool,
) -> Result<bool, AllocError>
    requires { IsSoundInForm (document_of doc.now) }
{
    match change_in(alloc, doc, intent, thin)? {
        Some(told) => Ok(told == *change),
        None => Ok(false),
    }
}

/// Whether a verdict is that of an intent.
pub fn judges(
    alloc: Global,
    doc: &Doc,
    intent: &Intent,
    verdict: Verdict,
) -> Result<bool, AllocError> {
    let told = doc.fails(alloc, intent)?;
    Ok(told == verdict)
}

/// The step to a later document, if that has all that the earlier one has: with empty cells counted where it is to be thin.
pub fn step_from(
    alloc: Global,
    doc: &Doc,
    later: &Doc,
    thin: bool,
) -> Result<Option<Step>, AllocError>
    requires before { IsSoundInForm (document_of doc.now) }
    requires after { IsSoundInForm (document_of later.now) }
{
    match between(alloc, doc, later)? {
        Some(step) => Ok(Some(step_read(alloc, step, thin)?)),
        None => Ok(None),
    }
}

/// Whether a step leads to a later document.
pub fn leads(
    alloc: Global,
    doc: &Doc,
    later: &Doc,
    step: &Step,
    thin: bool,
) -> Result<bool, AllocError>
    requires before { IsSoundInForm (document_of doc.now) }
    requires after { IsSoundInForm (document_of later.now) }
{
    match step_from(alloc, doc, later, thin)? {
        Some(told) => Ok(told == *step),
        None => Ok(false),
    }
}
