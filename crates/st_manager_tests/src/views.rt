//! The documents of a plain log, which opens over an empty list.
ghost use Rattle.std.specs.Prelude.{IfOk, OnOk};
ghost use Rattle.st_marks.specs.Document.{IsSoundInForm};
ghost use Rattle.st_doc.specs.Doc.{document_of};

use crate::plain::{Plain, Sent, Waiting};
use st_doc::Doc;
use st_draws::{carry, empty_list};
use st_ids::Text;
use st_tree::check;
use std::alloc::{AllocError, Global};

/// The document of all commits received, and with those behind it that wait.
#[derive(Drop)]
pub struct Views {
    pub trunk: Doc,
    pub local: Doc,
}

// The document of an empty list. No memory is what it is refused for.
fn opening(alloc: Global) -> Result<Doc, AllocError>
    ensures { IfOk result (λ d. IsSoundInForm (document_of d)) }
{
    let tree = empty_list(alloc)?;
    if check(&tree) != Ok(()) {
        return Err(AllocError);
    }
    let schema = Text::from_str(alloc, "{}")?;
    Doc::start(alloc, schema, &tree)
}

// A document goes on by the commits up to a number.
fn go_up_to(alloc: Global, doc: &mut Doc, sent: &[Sent], n: u32) -> Result<(), AllocError>
    requires { IsSoundInForm (document_of doc.old) }
    ensures { OnOk result (IsSoundInForm (document_of doc.new)) }
{
    for it in sent {
        if it.n <= n {
            carry(alloc, doc, &it.intent)?;
        }
    }
    Ok(())
}

// And by those of a session above it.
fn go_above(
    alloc: Global,
    doc: &mut Doc,
    sent: &[Sent],
    session: u32,
    n: u32,
) -> Result<(), AllocError>
    requires { IsSoundInForm (document_of doc.old) }
    ensures { OnOk result (IsSoundInForm (document_of doc.new)) }
{
    for it in sent {
        if it.n > n && it.session == session {
            carry(alloc, doc, &it.intent)?;
        }
    }
    Ok(())
}

// And by those that wait.
fn go_through(alloc: Global, doc: &mut Doc, waiting: &[Waiting]) -> Result<(), AllocError>
    requires { IsSoundInForm (document_of doc.old) }
    ensures { OnOk result (IsSoundInForm (document_of doc.new)) }
{
    for it in waiting {
        carry(alloc, doc, &it.intent)?;
    }
    Ok(())
}

/// The document of all commits received.
pub fn trunk_of(alloc: Global, plain: &Plain) -> Result<Doc, AllocError>
    ensures { IfOk result (λ d. IsSoundInForm (document_of d)) }
{
    let mut doc = opening(alloc)?;
    go_up_to(alloc, &mut doc, plain.sent.as_slice(), plain.entries)?;
    Ok(doc)
}

// A document goes on by the commits up to a number, and by those of a session above it.
fn go_as_author(
    alloc: Global,
    doc: &mut Doc,
    sent: &[Sent],
    session: u32,
    reference: u32,
) -> Result<(), AllocError>
    requires { IsSoundInForm (document_of doc.old) }
    ensures { OnOk result (IsSoundInForm (document_of doc.new)) }
{
    go_up_to(alloc, doc, sent, reference)?;
    go_above(alloc, doc, sent, session, reference)
}

/// The document over which a session writes that has received the log up to a reference.
pub fn author_of(
    alloc: Global,
    plain: &Plain,
    session: u32,
    reference: u32,
) -> Result<Doc, AllocError>
    ensures { IfOk result (λ d. IsSoundInForm (document_of d)) }
{
    let mut doc = opening(alloc)?;
    go_as_author(alloc, &mut doc, plain.sent.as_slice(), session, reference)?;
    Ok(doc)
}

// The document of the local view, behind that of all commits received.
fn local_of(alloc: Global, trunk: &Doc, plain: &Plain) -> Result<Doc, AllocError>
    requires { IsSoundInForm (document_of trunk.now) }
    ensures { IfOk result (λ d. IsSoundInForm (document_of d)) }
{
    let mut doc = trunk.copy(alloc)?;
    go_through(alloc, &mut doc, plain.waiting.as_slice())?;
    Ok(doc)
}

/// Both documents.
pub fn views_of(alloc: Global, plain: &Plain) -> Result<Views, AllocError>
    ensures trunk { IfOk result (λ v. IsSoundInForm (document_of v.trunk)) }
    ensures local { IfOk result (λ v. IsSoundInForm (document_of v.local)) }
{
    let trunk = trunk_of(alloc, plain)?;
    let local = local_of(alloc, &trunk, plain)?;
    Ok(Views { trunk, local })
}
