//! Rounds: an intent in a document, and the document after others' intents, which stays for the next round.
ghost use Rattle.std.specs.Prelude.{OnOk};
ghost use Rattle.st_marks.specs.Document.{IsSoundInForm};
ghost use Rattle.st_doc.specs.Doc.{document_of};

use crate::carries::is_carried;
use crate::forests::{forest_alone, go_along};
use crate::tally::{Tally, add};
use st_doc::Doc;
use st_draws::{Draw, intent_over, others, root_alone};
use st_forest::Forest;
use st_ids::Rev;
use st_marks::Intent;
use std::alloc::{AllocError, Global};
use std::test::Fail;

// Counts an intent that fits both documents.
fn judge(
    alloc: Global,
    doc: &Doc,
    later: &Doc,
    forest: &Forest,
    intent: &Intent,
    tally: &mut Tally,
) -> Result<(), AllocError>
    requires before { IsSoundInForm (document_of doc.now) }
    requires after { IsSoundInForm (document_of later.now) }
{
    if doc.fits(intent) && later.fits(intent) {
        let right = is_carried(alloc, doc, later, forest, intent, tally)?;
        add(&mut tally.fit, true);
        add(&mut tally.wrong, !right);
    }
    Ok(())
}

// An intent in the document before others' intents; the forest is of the one after them.
fn draw_and_judge(
    alloc: Global,
    draw: &mut Draw,
    doc: &Doc,
    later: &Doc,
    forest: &Forest,
    round: u32,
    tally: &mut Tally,
) -> Result<(), AllocError>
    requires before { IsSoundInForm (document_of doc.now) }
    requires after { IsSoundInForm (document_of later.now) }
{
    let rev = Rev {
        session: 2,
        num: round,
    };
    let intent = intent_over(alloc, draw, doc, rev)?;
    judge(alloc, doc, later, forest, &intent, tally)
}

/// A document, the forests that go along with it, and what occurred.
#[derive(Drop)]
struct Table {
    doc: Doc,
    listed: Forest,
    thin: Forest,
    draw: Draw,
}

// One round.
fn round(alloc: Global, table: &mut Table, round: u32, tally: &mut Tally) -> Result<(), AllocError>
    requires { IsSoundInForm (document_of table.old.doc) }
    ensures { OnOk result (IsSoundInForm (document_of table.new.doc)) }
{
    let before = table.doc.copy(alloc)?;
    others(alloc, &mut table.draw, &mut table.doc, round)?;
    go_along(
        alloc,
        &mut table.listed,
        &mut table.thin,
        &before,
        &table.doc,
        tally,
    )?;
    draw_and_judge(
        alloc,
        &mut table.draw,
        &before,
        &table.doc,
        &table.thin,
        round,
        tally,
    )
}

fn rounds(alloc: Global, table: &mut Table, tally: &mut Tally) -> Result<(), AllocError>
    requires { IsSoundInForm (document_of table.old.doc) }
{
    for at in 0..20 {
        round(alloc, table, at, tally)?;
    }
    Ok(())
}

// Rounds over one document.
fn rounds_from(alloc: Global, seed: u64, tally: &mut Tally) -> Result<(), Fail> {
    let mut table = Table {
        doc: root_alone(alloc)?,
        listed: forest_alone(alloc)?,
        thin: forest_alone(alloc)?,
        draw: Draw { state: seed },
    };
    rounds(alloc, &mut table, tally)?;
    Ok(())
}

fn all_rounds(alloc: Global) -> Result<Tally, Fail> {
    let mut tally = Tally::new();
    for seed in 0..36 {
        rounds_from(alloc, seed, &mut tally)?;
    }
    Ok(tally)
}

#[test]
fn changes_and_forests_go_along(rt: HostRuntime) -> Result<(), Fail> {
    let tally = all_rounds(rt.alloc())?;
    assert!(rt;
        tally.wrong == 0 && tally.apart == 0 && tally.fit > 400 && tally.has_each(20),
        "{tally:?}"
    );
    Ok(())
}
