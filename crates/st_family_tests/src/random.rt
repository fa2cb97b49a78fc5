//! Changes that are carried over steps, and what they do, from their marks alone, beside what documents tell: documents and
//! intents are drawn at random.
ghost use Rattle.std.specs.Prelude.{OnOk};
ghost use Rattle.st_marks.specs.Document.{IsSoundInForm};
ghost use Rattle.st_marks.specs.Intent.{Fits};
ghost use Rattle.st_doc.specs.Doc.{document_of};
ghost use Rattle.st_effect.specs.Short.{HasShortRowsListed};

use crate::cases::is_rebased_to;
use crate::tally::{Tally, add, has_moved};
use st_doc::Doc;
use st_draws::{Draw, after, between, intent_over, others, root_alone};
use st_effect::{effect, has_short_rows};
use st_embed::embed;
use st_ids::Rev;
use st_marks::{Change, Intent, Step, Verdict};
use st_void::verdict;
use std::alloc::{AllocError, Global};
use std::test::Fail;

// Whether a change with short rows does this, as its marks tell it.
fn tells(alloc: Global, change: &Change, verdict: Verdict, step: &Step) -> Result<bool, AllocError>
    requires { HasShortRowsListed change.now }
{
    let told = effect(alloc, change)?;
    Ok(told.verdict == verdict && told.step == *step)
}

// Whether a change does this, where there is such a step.
fn does(
    alloc: Global,
    change: &Change,
    verdict: Verdict,
    step: &Option<Step>,
) -> Result<bool, AllocError> {
    match step {
        Some(step) if has_short_rows(change) => tells(alloc, change, verdict, step),
        _ => Ok(false),
    }
}

// Whether a change does what the documents before and after its intent tell.
fn leads_to(
    alloc: Global,
    doc: &Doc,
    after: &Doc,
    change: &Change,
    verdict: Verdict,
) -> Result<bool, AllocError>
    requires before { IsSoundInForm (document_of doc.now) }
    requires after { IsSoundInForm (document_of after.now) }
{
    let step = between(alloc, doc, after)?;
    does(alloc, change, verdict, &step)
}

// Whether a change has the verdict of its intent, and does what the document after it tells.
fn has_effect_to(
    alloc: Global,
    doc: &Doc,
    after: &Doc,
    intent: &Intent,
    change: &Change,
) -> Result<bool, AllocError>
    requires before { IsSoundInForm (document_of doc.now) }
    requires after { IsSoundInForm (document_of after.now) }
{
    let fails = doc.fails(alloc, intent)?;
    Ok(verdict(change) == fails && leads_to(alloc, doc, after, change, fails)?)
}

// The same, and counts the moves of the intent.
fn has_effect(
    alloc: Global,
    doc: &Doc,
    intent: &Intent,
    change: &Change,
    tally: &mut Tally,
) -> Result<bool, AllocError>
    requires { IsSoundInForm (document_of doc.now) }
{
    let after = after(alloc, doc, intent)?;
    add(&mut tally.moves, has_moved(doc, &after, intent));
    has_effect_to(alloc, doc, &after, intent, change)
}

// Whether a change over a step is another.
fn leads_over(
    alloc: Global,
    change: &Change,
    step: &Option<Step>,
    there: &Change,
    tally: &mut Tally,
) -> Result<bool, AllocError> {
    let Some(step) = step else {
        return Ok(false);
    };
    tally.count(change, step, verdict(change), verdict(there));
    is_rebased_to(alloc, change, step, there)
}

// Whether a change over the step between two documents is the change there.
fn is_rebased(
    alloc: Global,
    doc: &Doc,
    later: &Doc,
    change: &Change,
    there: &Change,
    tally: &mut Tally,
) -> Result<bool, AllocError>
    requires before { IsSoundInForm (document_of doc.now) }
    requires after { IsSoundInForm (document_of later.now) }
{
    let step = between(alloc, doc, later)?;
    leads_over(alloc, change, &step, there, tally)
}

// Whether the changes of an intent in two documents are told rightly.
fn are_told(
    alloc: Global,
    doc: &Doc,
    later: &Doc,
    intent: &Intent,
    change: &Change,
    there: &Change,
    tally: &mut Tally,
) -> Result<bool, AllocError>
    requires before { IsSoundInForm (document_of doc.now) }
    requires after { IsSoundInForm (document_of later.now) }
{
    Ok(
        is_rebased(alloc, doc, later, change, there, tally)?
            && has_effect(alloc, doc, intent, change, tally)?
            && has_effect(alloc, later, intent, there, tally)?,
    )
}

// The same, with the change in the later document.
fn is_told_there(
    alloc: Global,
    doc: &Doc,
    later: &Doc,
    intent: &Intent,
    change: &Change,
    tally: &mut Tally,
) -> Result<bool, AllocError>
    requires before { IsSoundInForm (document_of doc.now) }
    requires after { IsSoundInForm (document_of later.now) }
    requires fits { Fits (document_of later.now) intent.now }
{
    let there = embed(alloc, later, intent)?;
    are_told(alloc, doc, later, intent, change, &there, tally)
}

// Whether the change of an intent in a document, over the step to a later one, is the intent's change there, and both have the
// verdicts and the effects of the intent.
fn is_told(
    alloc: Global,
    doc: &Doc,
    later: &Doc,
    intent: &Intent,
    tally: &mut Tally,
) -> Result<bool, AllocError>
    requires before { IsSoundInForm (document_of doc.now) }
    requires after { IsSoundInForm (document_of later.now) }
    requires fits { Fits (document_of doc.now) intent.now }
    requires fits_later { Fits (document_of later.now) intent.now }
{
    let change = embed(alloc, doc, intent)?;
    is_told_there(alloc, doc, later, intent, &change, tally)
}

// Counts an intent that fits both documents.
fn judge(
    alloc: Global,
    doc: &Doc,
    later: &Doc,
    intent: &Intent,
    tally: &mut Tally,
) -> Result<(), AllocError>
    requires before { IsSoundInForm (document_of doc.now) }
    requires after { IsSoundInForm (document_of later.now) }
{
    if doc.fits(intent) && later.fits(intent) {
        add(&mut tally.fit, true);
        add(&mut tally.moved, has_moved(doc, later, intent));
        let right = is_told(alloc, doc, later, intent, tally)?;
        add(&mut tally.wrong, !right);
    }
    Ok(())
}

// An intent in the document before others' intents.
fn round_from(
    alloc: Global,
    draw: &mut Draw,
    before: &Doc,
    doc: &mut Doc,
    round: u32,
    tally: &mut Tally,
) -> Result<(), AllocError>
    requires before { IsSoundInForm (document_of before.now) }
    requires sound { IsSoundInForm (document_of doc.old) }
    ensures { OnOk result (IsSoundInForm (document_of doc.new)) }
{
    others(alloc, draw, doc, round)?;
    let rev = Rev {
        session: 2,
        num: round,
    };
    let intent = intent_over(alloc, draw, before, rev)?;
    judge(alloc, before, &*doc, &intent, tally)
}

// One round: an intent in a document, and the document after others' intents, which stays for the next.
fn round(
    alloc: Global,
    draw: &mut Draw,
    doc: &mut Doc,
    round: u32,
    tally: &mut Tally,
) -> Result<(), AllocError>
    requires { IsSoundInForm (document_of doc.old) }
    ensures { OnOk result (IsSoundInForm (document_of doc.new)) }
{
    let before = doc.copy(alloc)?;
    round_from(alloc, draw, &before, doc, round, tally)
}

fn rounds(
    alloc: Global,
    draw: &mut Draw,
    doc: &mut Doc,
    tally: &mut Tally,
) -> Result<(), AllocError>
    requires { IsSoundInForm (document_of doc.old) }
{
    for at in 0..20 {
        round(alloc, draw, doc, at, tally)?;
    }
    Ok(())
}

// Rounds over one document.
fn rounds_from(alloc: Global, seed: u64, tally: &mut Tally) -> Result<(), Fail> {
    let mut doc = root_alone(alloc)?;
    rounds(alloc, &mut Draw { state: seed }, &mut doc, tally)?;
    Ok(())
}

fn all_rounds(alloc: Global) -> Result<Tally, Fail> {
    let mut tally = Tally::new();
    for seed in 0..36 {
        rounds_from(alloc, seed, &mut tally)?;
    }
    Ok(tally)
}

#[test]
fn changes_are_carried(rt: HostRuntime) -> Result<(), Fail> {
    let tally = all_rounds(rt.alloc())?;
    assert!(rt;
        tally.wrong == 0 && tally.fit > 400 && tally.has_each(20),
        "{tally:?}"
    );
    Ok(())
}
