//! Documents that grow.
ghost use Rattle.std.specs.Prelude.{◌≡◌, true, IfOk, OnOk};
ghost use Rattle.st_tree.specs.Form.{has_form};
ghost use Rattle.st_tree.specs.Node.{view};
ghost use Rattle.st_marks.specs.Document.{IsSoundInForm};
ghost use Rattle.st_doc.specs.Doc.{document_of};

use crate::intents::{Draw, intent_over};
use st_doc::Doc;
use st_ids::{List, Or, Rev, Text};
use st_marks::{Intent, Step};
use st_step::step_to;
use st_tree::{Tree, check};
use std::alloc::{AllocError, Global};
use std::test::Fail;

// The document of a tree, which has to be small.
fn open(alloc: Global, tree: &Tree) -> Result<Doc, Fail>
    requires { has_form (view tree.now) ≡ true }
    ensures { IfOk result (λ d. IsSoundInForm (document_of d)) }
{
    if check(tree) != Ok(()) {
        return Err(Fail::from("too large"));
    }
    let schema = Text::from_str(alloc, "{}")?;
    Ok(Doc::start(alloc, schema, tree)?)
}

/// The tree of a list that is empty.
pub fn empty_list(alloc: Global) -> Result<Tree, AllocError>
    ensures { IfOk result (λ t. has_form (view t) ≡ true) }
{
    Ok(Tree {
        ty: Text::from_str(alloc, "list")?,
        leaf: None,
        fields: List::new(alloc),
    })
}

/// The document of a root alone, an empty list.
pub fn root_alone(alloc: Global) -> Result<Doc, Fail>
    ensures { IfOk result (λ d. IsSoundInForm (document_of d)) }
{
    let tree = empty_list(alloc)?;
    open(alloc, &tree)
}

/// Carries an intent out where it fits.
pub fn carry(alloc: Global, doc: &mut Doc, intent: &Intent) -> Result<(), AllocError>
    requires { IsSoundInForm (document_of doc.old) }
    ensures { OnOk result (IsSoundInForm (document_of doc.new)) }
{
    if doc.fits(intent) && doc.has_room(intent) {
        doc.carry(alloc, intent)?;
    }
    Ok(())
}

/// The document after an intent.
pub fn after(alloc: Global, doc: &Doc, intent: &Intent) -> Result<Doc, AllocError>
    requires { IsSoundInForm (document_of doc.now) }
    ensures { IfOk result (λ d. IsSoundInForm (document_of d)) }
{
    let mut after = doc.copy(alloc)?;
    carry(alloc, &mut after, intent)?;
    Ok(after)
}

// Carries one intent of others out.
fn other(alloc: Global, draw: &mut Draw, doc: &mut Doc, rev: Rev) -> Result<(), AllocError>
    requires { IsSoundInForm (document_of doc.old) }
    ensures { OnOk result (IsSoundInForm (document_of doc.new)) }
{
    let intent = intent_over(alloc, draw, &*doc, rev)?;
    carry(alloc, doc, &intent)
}

/// Carries out what others want in a round: three intents, one after another.
pub fn others(alloc: Global, draw: &mut Draw, doc: &mut Doc, round: u32) -> Result<(), AllocError>
    requires { IsSoundInForm (document_of doc.old) }
    ensures { OnOk result (IsSoundInForm (document_of doc.new)) }
{
    for session in 3..6 {
        let rev = Rev {
            session,
            num: round,
        };
        other(alloc, draw, doc, rev)?;
    }
    Ok(())
}

/// The step between two documents, if the later one has all that the earlier has.
pub fn between(alloc: Global, doc: &Doc, later: &Doc) -> Result<Option<Step>, AllocError>
    requires before { IsSoundInForm (document_of doc.now) }
    requires after { IsSoundInForm (document_of later.now) }
{
    match step_to(alloc, doc, later) {
        Ok(step) => Ok(Some(step)),
        Err(Or::Fault(_)) => Ok(None),
        Err(Or::NoMemory) => Err(AllocError),
    }
}
