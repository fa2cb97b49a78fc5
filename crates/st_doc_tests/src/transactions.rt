//! A transaction shows what its edits show one after the other, and so does the line once it is committed.
ghost use Rattle.std.specs.Prelude.{◌≡◌, Option, None, true, IfOk, OnOk};
ghost use Rattle.st_marks.specs.Document.{IsSoundInForm};
ghost use Rattle.st_doc.specs.Doc.{document_of};
ghost use Rattle.st_lists.specs.Open.{with_open, IsSoundPart};
ghost use Rattle.st_heads.specs.Transactions.{HasOpen, IsOpen};

use crate::given::{Case, Scene, part, shows};
use crate::joining::Parts;
use st_doc::Doc;
use st_edits::NameCounters;
use st_heads::Head;
use st_ids::Rev;
use st_marks::{Intent, Verdict};
use st_schema::Schema;
use std::alloc::{AllocError, Global};
use std::test::Fail;

const REV: Rev = Rev { session: 1, num: 1 };

// Whether an intent is a part of a transaction in the document that is shown.
fn is_sound_part(alloc: Global, doc: &Doc, part: &Intent) -> Result<bool, Fail>
    requires { IsSoundInForm (document_of doc.now) }
    ensures { IfOk result (λ b. b ≡ true → IsSoundPart (document_of doc.now) part.now) }
{
    if part.schema.is_some() || !doc.fits(part) || !doc.has_room(part) {
        return Ok(false);
    }
    match doc.fails(alloc, part)? {
        Verdict::Sound => Ok(true),
        _ => Ok(false),
    }
}

// Whether a head with an open transaction shows a tree.
fn head_shows(
    alloc: Global,
    head: &Head,
    joined: &Option<Intent>,
    tree: &str,
) -> Result<bool, AllocError>
    requires has { HasOpen head.now joined.now }
    requires sound { IsSoundInForm (with_open (document_of head.now.doc) joined.now) }
{
    shows(alloc, head.shown_doc(), tree)
}

// Whether an intent is a part of the transaction that is open on a head.
fn is_next_part(
    alloc: Global,
    head: &Head,
    joined: &Option<Intent>,
    part: &Intent,
) -> Result<bool, Fail>
    requires has { HasOpen head.now joined.now }
    requires sound { IsSoundInForm (with_open (document_of head.now.doc) joined.now) }
    ensures { IfOk result (λ b. b ≡ true → IsSoundPart (with_open (document_of head.now.doc) joined.now) part.now) }
{
    is_sound_part(alloc, head.shown_doc(), part)
}

// Whether an intent goes on with the transaction that is open on a head.
fn goes_on(
    alloc: Global,
    head: &Head,
    joined: &Option<Intent>,
    under: Rev,
    part: &Intent,
) -> Result<bool, Fail>
    requires has { HasOpen head.now joined.now }
    requires sound { IsSoundInForm (with_open (document_of head.now.doc) joined.now) }
    ensures part { IfOk result (λ b. b ≡ true → IsSoundPart (with_open (document_of head.now.doc) joined.now) part.now) }
    ensures names { IfOk result (λ b. b ≡ true → (part.now.rev ≡ REV) × (part.now.under ≡ under)) }
{
    if part.rev != REV || part.under != under {
        return Ok(false);
    }
    is_next_part(alloc, head, joined, part)
}

// Edits in the transaction that is open on a head.
fn edit_at(
    alloc: Global,
    head: &mut Head,
    joined: &mut Option<Intent>,
    under: Rev,
    part: Intent,
) -> Result<(), Fail>
    requires line { IsSoundInForm (document_of head.old.doc) }
    requires going { IsOpen head.old joined.old REV under }
    ensures line { OnOk result (head.new.doc ≡ head.old.doc) }
    ensures going { OnOk result (IsOpen head.new joined.new REV under) }
{
    match goes_on(alloc, head, joined, under, &part) {
        Ok(true) => Ok(head.edit(alloc, joined, part)?),
        Ok(false) => Err(Fail::from("not sound")),
        Err(fail) => Err(fail),
    }
}

// The head of a document that has no commit of its own yet.
fn line_over(alloc: Global, doc: &Doc) -> Result<Head, Fail>
    requires { IsSoundInForm (document_of doc.now) }
    ensures sound { IfOk result (λ h. IsSoundInForm (document_of h.doc)) }
    ensures none { IfOk result (λ h. h.edited ≡ None) }
{
    Ok(Head::over(alloc, doc, &[])?)
}

// What a case means in the document that is shown, with the names that are free.
fn part_at(
    alloc: Global,
    schema: &Schema,
    head: &Head,
    made: (u32, u32),
    case: Case,
) -> Result<Intent, Fail> {
    let given = NameCounters {
        rev: REV,
        nodes: made.0,
        cells: made.1,
    };
    part(alloc, schema, head.shown_doc(), given, case)
}

// Whether the line shows a tree once a transaction is committed.
fn commits(alloc: Global, head: &mut Head, whole: &Intent, tree: &str) -> Result<bool, Fail>
    requires line { IsSoundInForm (document_of head.old.doc) }
{
    if !head.doc.fits(whole) || !head.doc.has_room(whole) {
        return Err(Fail::from("does not fit"));
    }
    head.commit(alloc, whole)?;
    Ok(shows(alloc, &head.doc, tree)?)
}

// Whether a transaction shows a tree, and the line shows it too once the transaction is committed.
fn leads(alloc: Global, head: &mut Head, joined: &Option<Intent>, tree: &str) -> Result<bool, Fail>
    requires line { IsSoundInForm (document_of head.old.doc) }
    requires has { HasOpen head.old joined.now }
    requires sound { IsSoundInForm (with_open (document_of head.old.doc) joined.now) }
{
    let open = head_shows(alloc, head, joined, tree)?;
    let Some(whole) = joined else {
        return Ok(false);
    };
    Ok(open && commits(alloc, head, whole, tree)?)
}

// Whether a second edit leads to a row's tree, after the first.
fn second_leads(
    alloc: Global,
    schema: &Schema,
    head: &mut Head,
    joined: &mut Option<Intent>,
    under: Rev,
    row: &Parts,
) -> Result<bool, Fail>
    requires line { IsSoundInForm (document_of head.old.doc) }
    requires going { IsOpen head.old joined.old REV under }
{
    let part = part_at(alloc, schema, head, row.made, row.second)?;
    edit_at(alloc, head, joined, under, part)?;
    leads(alloc, head, joined, row.both)
}

// Whether two edits of the transaction that is open on a head lead to a row's tree.
fn edits_lead_at(
    alloc: Global,
    schema: &Schema,
    head: &mut Head,
    joined: &mut Option<Intent>,
    part: Intent,
    row: &Parts,
) -> Result<bool, Fail>
    requires line { IsSoundInForm (document_of head.old.doc) }
    requires going { IsOpen head.old joined.old REV part.under }
{
    let under = part.under;
    edit_at(alloc, head, joined, under, part)?;
    second_leads(alloc, schema, head, joined, under, row)
}

// Whether two edits of one transaction over a document lead to a row's tree.
fn both_lead(alloc: Global, schema: &Schema, head: &mut Head, row: &Parts) -> Result<bool, Fail>
    requires line { IsSoundInForm (document_of head.old.doc) }
    requires none { head.old.edited ≡ None }
{
    let part = part_at(alloc, schema, head, (0, 0), row.first)?;
    let mut joined = None;
    edits_lead_at(alloc, schema, head, &mut joined, part, row)
}

// Whether a transaction that is let go of leaves the line as it was.
fn lets_go(alloc: Global, head: &mut Head, tree: &str) -> Result<bool, Fail>
    requires line { IsSoundInForm (document_of head.old.doc) }
{
    head.abort();
    Ok(head_shows(alloc, head, &None, tree)?)
}

// Whether an edit shows in the transaction that is open on a head, and not after it is let go of.
fn edit_goes(
    alloc: Global,
    head: &mut Head,
    joined: &mut Option<Intent>,
    part: Intent,
    tree: &str,
) -> Result<bool, Fail>
    requires line { IsSoundInForm (document_of head.old.doc) }
    requires going { IsOpen head.old joined.old REV part.under }
{
    let under = part.under;
    edit_at(alloc, head, joined, under, part)?;
    let before = head_shows(alloc, head, joined, tree)?;
    Ok(!before && lets_go(alloc, head, tree)?)
}

// Whether the first edit of a row shows in a transaction, and not after it is let go of.
fn first_goes(alloc: Global, schema: &Schema, head: &mut Head, row: &Parts) -> Result<bool, Fail>
    requires line { IsSoundInForm (document_of head.old.doc) }
    requires none { head.old.edited ≡ None }
{
    let part = part_at(alloc, schema, head, (0, 0), row.first)?;
    let mut joined = None;
    edit_goes(alloc, head, &mut joined, part, row.tree)
}

// The same over a document.
fn first_goes_over(alloc: Global, scene: &Scene, row: &Parts) -> Result<bool, Fail>
    requires { IsSoundInForm (document_of scene.now.doc) }
{
    let mut line = line_over(alloc, &scene.doc)?;
    first_goes(alloc, &scene.schema, &mut line, row)
}

fn both_lead_over(alloc: Global, scene: &Scene, row: &Parts) -> Result<bool, Fail>
    requires { IsSoundInForm (document_of scene.now.doc) }
{
    let mut line = line_over(alloc, &scene.doc)?;
    both_lead(alloc, &scene.schema, &mut line, row)
}

/// Whether the edits of a row lead to its tree as those of a transaction, and go where it is let go of.
pub fn edits_lead(alloc: Global, scene: &Scene, row: &Parts) -> Result<bool, Fail>
    requires { IsSoundInForm (document_of scene.now.doc) }
{
    Ok(both_lead_over(alloc, scene, row)? && first_goes_over(alloc, scene, row)?)
}
