//! An opening document, and logs in short.
ghost use Rattle.std.specs.Prelude.{◌≡◌, true, IfOk};
ghost use Rattle.st_doc.specs.Doc.{document_of};
ghost use Rattle.st_marks.specs.Document.{IsSoundInForm};
ghost use Rattle.st_tree.specs.Form.{has_form};
ghost use Rattle.st_tree.specs.Node.{view};

use st_clusters::IdRange;
use st_doc::Doc;
use st_ids::{Atom, CellId, Leaf, List, NodeId, OPENING, ROOT, Rev, Text};
use st_lists::{Body, Entry};
use st_marks::{Group, Intent, NewNode, Owned, Put, To};
use st_tree::{Tree, check};
use std::alloc::{AllocError, Global};
use std::test::Fail;

// The document of a tree, which has to be small.
fn open_tree(alloc: Global, tree: &Tree) -> Result<Doc, Fail>
    requires { has_form (view tree.now) ≡ true }
    ensures { IfOk result (λ d. IsSoundInForm (document_of d)) }
{
    if check(tree) != Ok(()) {
        return Err(Fail::from("too large"));
    }
    let schema = Text::from_str(alloc, "{}")?;
    Ok(Doc::start(alloc, schema, tree)?)
}

/// The document of an empty list.
pub fn open(alloc: Global) -> Result<Doc, Fail>
    ensures { IfOk result (λ d. IsSoundInForm (document_of d)) }
{
    let ty = Text::from_str(alloc, "list")?;
    let fields = List::new(alloc);
    let leaf = None;
    open_tree(alloc, &Tree { ty, leaf, fields })
}

// An intent that makes nothing.
fn nothing(alloc: Global, rev: Rev) -> Intent {
    Intent {
        rev,
        under: OPENING,
        new: List::new(alloc),
        groups: List::new(alloc),
        clear: List::new(alloc),
        put: List::new(alloc),
        need: List::new(alloc),
        schema: None,
    }
}

// The first name of a commit.
fn first(rev: Rev) -> Atom {
    Atom { rev, at: 0 }
}

fn make_text(alloc: Global, intent: &mut Intent, word: &str) -> Result<(), AllocError> {
    let node = NodeId(first(intent.rev));
    let ty = Text::from_str(alloc, "text")?;
    let leaf = Some(Leaf::Words(Text::from_str(alloc, word)?));
    intent.new.push(NewNode { node, ty, leaf })?;
    Ok(())
}

fn make_cell(alloc: Global, intent: &mut Intent) -> Result<(), AllocError> {
    let (node, cell) = (NodeId(first(intent.rev)), CellId(first(intent.rev)));
    let mut cells = List::new(alloc);
    cells.push(Owned { cell, node })?;
    let (node, after) = (ROOT, None);
    intent.groups.push(Group { node, after, cells })?;
    Ok(())
}

// Puts a node somewhere.
fn put(intent: &mut Intent, rev: Rev, to: To) -> Result<(), AllocError> {
    let node = NodeId(first(rev));
    intent.put.push(Put { node, to })?;
    Ok(())
}

// Puts a new text at the start of the list.
fn insert(alloc: Global, intent: &mut Intent, word: &str) -> Result<(), AllocError> {
    make_text(alloc, intent, word)?;
    make_cell(alloc, intent)?;
    let rev = intent.rev;
    put(intent, rev, To::Cell(CellId(first(rev))))
}

/// What a commit does: it puts a text at the start of the list, or takes one of another commit out, which has to be there.
#[derive(Clone, Copy)]
pub enum Does {
    Inserts(&'static str),
    Removes(u32, u32),
}

fn fill(alloc: Global, intent: &mut Intent, does: Does) -> Result<(), AllocError> {
    match does {
        Does::Inserts(word) => insert(alloc, intent, word),
        Does::Removes(session, num) => {
            let rev = Rev { session, num };
            intent.need.push(NodeId(first(rev)))?;
            put(intent, rev, To::Nowhere)
        }
    }
}

fn commit(alloc: Global, rev: Rev, does: Does) -> Result<Intent, AllocError> {
    let mut intent = nothing(alloc, rev);
    fill(alloc, &mut intent, does)?;
    Ok(intent)
}

/// A message in short.
#[derive(Clone, Copy)]
pub enum Said {
    Joins,
    Acks,
    Commits(u32, Does),
}

fn body(alloc: Global, session: u32, reference: u32, said: Said) -> Result<Body, AllocError> {
    match said {
        Said::Joins => Ok(Body::Join { uuid: 0 }),
        Said::Acks => Ok(Body::Ack { reference }),
        Said::Commits(num, does) => {
            let intent = commit(alloc, Rev { session, num }, does)?;
            let (first, count) = (num, 1);
            let ids = IdRange {
                session,
                first,
                count,
            };
            Ok(Body::Commit {
                reference,
                ids,
                intent,
            })
        }
    }
}

/// A message: its session, its reference, and what it says.
pub type Message = (u32, u32, Said);

fn push(alloc: Global, log: &mut List<Entry>, message: Message) -> Result<(), AllocError> {
    let (session, reference, said) = message;
    let body = body(alloc, session, reference, said)?;
    log.push(Entry {
        n: 0,
        session,
        body,
    })?;
    Ok(())
}

/// The log of some messages.
pub fn log_of(alloc: Global, messages: &[Message]) -> Result<List<Entry>, AllocError> {
    let mut log = List::new(alloc);
    for message in messages {
        push(alloc, &mut log, *message)?;
    }
    Ok(log)
}
