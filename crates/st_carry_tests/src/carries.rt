//! A change and a step over each other, from their marks alone, beside what documents tell.
ghost use Rattle.st_marks.specs.Document.{IsSoundInForm};
ghost use Rattle.st_marks.specs.Intent.{Fits};
ghost use Rattle.st_doc.specs.Doc.{document_of};

use crate::tally::{Tally, add};
use st_author_over::{author_over, is_over};
use st_carry::{ListedCarrier, ThinCarrier};
use st_doc::Doc;
use st_draws::{after, between};
use st_embed::embed;
use st_fast_path::pass;
use st_forest::Forest;
use st_ids::Copied;
use st_lean::can_be_laid;
use st_marks::{Change, Intent, Step, Verdict};
use st_rebaser::Carrier;
use st_thin::{thin_change, thin_step};
use std::alloc::{AllocError, Global};

/// A change and a step before they go over each other, and after it.
#[derive(Clone, Copy)]
struct Case<'a> {
    change: &'a Change,
    step: &'a Step,
    was: Verdict,
    there: &'a Change,
    over: &'a Step,
    is: Verdict,
}

// Whether they come out so.
fn comes_out<C: Carrier>(
    alloc: Global,
    change: &mut Change,
    step: &mut Step,
    case: &Case<'_>,
) -> Result<bool, AllocError> {
    let mut verdict = case.was;
    C::carry(alloc, change, &mut verdict, step)?;
    Ok(*change == *case.there && *step == *case.over && verdict == case.is)
}

fn carries<C: Carrier>(alloc: Global, case: &Case<'_>) -> Result<bool, AllocError> {
    let mut change = case.change.copy(alloc)?;
    let mut step = case.step.copy(alloc)?;
    comes_out::<C>(alloc, &mut change, &mut step, case)
}

// A change with its empty cells counted.
fn thin(alloc: Global, change: &Change) -> Result<Change, AllocError> {
    let mut thin = change.copy(alloc)?;
    thin_change(alloc, &mut thin)?;
    Ok(thin)
}

fn counted(alloc: Global, step: &Step) -> Result<Step, AllocError> {
    let mut thin = step.copy(alloc)?;
    thin_step(alloc, &mut thin)?;
    Ok(thin)
}

// Whether the thin change and step pass each other.
fn pass_each_other(alloc: Global, change: &Change, step: &Step) -> bool {
    can_be_laid(alloc, change, step) && pass(change, step)
}

// Where steps are thin: counts whether the two pass each other.
fn carries_thin_steps(
    alloc: Global,
    case: &Case<'_>,
    tally: &mut Tally,
) -> Result<bool, AllocError> {
    let passes = pass_each_other(alloc, case.change, case.step);
    add(&mut tally.passed, passes);
    add(&mut tally.met, !passes);
    carries::<ThinCarrier>(alloc, case)
}

// Where changes are thin.
fn carries_thin_changes(
    alloc: Global,
    case: &Case<'_>,
    tally: &mut Tally,
) -> Result<bool, AllocError> {
    let step = counted(alloc, case.step)?;
    let over = counted(alloc, case.over)?;
    let case = Case {
        step: &step,
        over: &over,
        ..*case
    };
    carries_thin_steps(alloc, &case, tally)
}

fn carries_thin(alloc: Global, case: &Case<'_>, tally: &mut Tally) -> Result<bool, AllocError> {
    let change = thin(alloc, case.change)?;
    let there = thin(alloc, case.there)?;
    let case = Case {
        change: &change,
        there: &there,
        ..*case
    };
    carries_thin_changes(alloc, &case, tally)
}

// Whether both readings come out so, and counts what occurs.
fn carries_both(alloc: Global, case: &Case<'_>, tally: &mut Tally) -> Result<bool, AllocError> {
    let (was, is) = (case.was == Verdict::Sound, case.is == Verdict::Sound);
    add(&mut tally.void, !was || !is);
    add(&mut tally.turned, was != is);
    Ok(carries::<ListedCarrier>(alloc, case)? && carries_thin(alloc, case, tally)?)
}

// The step between the documents after the intent.
fn step_over(
    alloc: Global,
    doc: &Doc,
    later: &Doc,
    intent: &Intent,
) -> Result<Option<Step>, AllocError>
    requires before { IsSoundInForm (document_of doc.now) }
    requires after { IsSoundInForm (document_of later.now) }
{
    let first = after(alloc, doc, intent)?;
    let then = after(alloc, later, intent)?;
    between(alloc, &first, &then)
}

fn verdicts(
    alloc: Global,
    doc: &Doc,
    later: &Doc,
    intent: &Intent,
) -> Result<(Verdict, Verdict), AllocError> {
    let was = doc.fails(alloc, intent)?;
    let is = later.fails(alloc, intent)?;
    Ok((was, is))
}

// Whether a forest of the later document, to which the step leads, judges both changes so: each is that of an intent which fits.
fn is_judged(forest: &Forest, case: &Case<'_>) -> bool {
    author_over(forest, case.step, case.change) && is_over(forest, case.there)
}

// Whether the changes of an intent in two documents go over the step between these so, and the step over them.
fn go_over(
    alloc: Global,
    doc: &Doc,
    later: &Doc,
    forest: &Forest,
    intent: &Intent,
    change: &Change,
    there: &Change,
    tally: &mut Tally,
) -> Result<bool, AllocError>
    requires before { IsSoundInForm (document_of doc.now) }
    requires after { IsSoundInForm (document_of later.now) }
{
    let (was, is) = verdicts(alloc, doc, later, intent)?;
    let step = between(alloc, doc, later)?;
    let over = step_over(alloc, doc, later, intent)?;
    match (&step, &over) {
        (Some(step), Some(over)) => {
            let case = Case {
                change,
                step,
                was,
                there,
                over,
                is,
            };
            Ok(is_judged(forest, &case) && carries_both(alloc, &case, tally)?)
        }
        _ => Ok(false),
    }
}

/// Whether the change of an intent in a document goes over the step to a later one, of which a forest is handed in, and the step over
/// it, as the documents tell: in both readings of empty cells.
pub fn is_carried(
    alloc: Global,
    doc: &Doc,
    later: &Doc,
    forest: &Forest,
    intent: &Intent,
    tally: &mut Tally,
) -> Result<bool, AllocError>
    requires before { IsSoundInForm (document_of doc.now) }
    requires after { IsSoundInForm (document_of later.now) }
    requires fits { Fits (document_of doc.now) intent.now }
    requires fits_later { Fits (document_of later.now) intent.now }
{
    let change = embed(alloc, doc, intent)?;
    let there = embed(alloc, later, intent)?;
    go_over(alloc, doc, later, forest, intent, &change, &there, tally)
}
