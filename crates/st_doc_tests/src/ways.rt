//! The way back over a commit, made of the commit and the document before it, is the way back between the two documents.
ghost use Rattle.st_marks.specs.Document.{IsSoundInForm};
ghost use Rattle.st_marks.specs.Intent.{Fits};
ghost use Rattle.st_doc.specs.Doc.{document_of};

use crate::given::{Case, Row, Scene, after, wrong_row};
use st_doc::Doc;
use st_heads::way_back;
use st_ids::{FieldId, OPENING, Or, Rev};
use st_later::{NotLater, back};
use st_marks::{Intent, Put};
use std::alloc::Global;
use std::test::Fail;

const REV: Rev = Rev { session: 9, num: 1 };

// An edit of a tree, and whether the tree has all that there is after the edit.
#[derive(Clone, Copy)]
struct Edited {
    tree: &'static str,
    case: Case,
    keeps_all: bool,
}

// The way back between two documents, if the later one extends the earlier.
fn between(alloc: Global, before: &Doc, after: &Doc) -> Result<Option<Intent>, Fail>
    requires before { IsSoundInForm (document_of before.now) }
    requires after { IsSoundInForm (document_of after.now) }
{
    match back(alloc, before, after, REV, OPENING) {
        Ok(intent) => Ok(Some(intent)),
        Err(Or::Fault(NotLater)) => Ok(None),
        Err(Or::NoMemory) => Err(Fail::from("no memory")),
    }
}

// The way back over a commit.
fn over(alloc: Global, doc: &Doc, intent: &Intent) -> Result<Intent, Fail>
    requires sound { IsSoundInForm (document_of doc.now) }
    requires fits { Fits (document_of doc.now) intent.now }
{
    let way = way_back(alloc, doc, intent)?;
    Ok(way.intent(alloc, REV, OPENING)?)
}

fn has_put(puts: &[Put], put: &Put) -> bool {
    puts.iter().any(|it| *it == *put)
}

// Whether two lists, each of which puts a node once, have the same puts.
fn are_same_puts(a: &[Put], b: &[Put]) -> bool {
    a.len() == b.len() && a.iter().all(|put| has_put(b, put))
}

fn has_field(fields: &[FieldId], field: &FieldId) -> bool {
    fields.iter().any(|it| *it == *field)
}

fn has_fields(fields: &[FieldId], among: &[FieldId]) -> bool {
    among.iter().all(|field| has_field(fields, field))
}

// Whether two lists, in which a field may stand twice, have the same fields.
fn are_same_fields(a: &[FieldId], b: &[FieldId]) -> bool {
    has_fields(a, b) && has_fields(b, a)
}

// Whether two intents lead back the same way.
fn is_same_way(a: &Intent, b: &Intent) -> bool {
    are_same_puts(a.put.as_slice(), b.put.as_slice())
        && are_same_fields(a.clear.as_slice(), b.clear.as_slice())
}

// Whether there is a way back between two documents, and it is this one.
fn is_between(alloc: Global, before: &Doc, after: &Doc, way: &Intent) -> Result<bool, Fail>
    requires before { IsSoundInForm (document_of before.now) }
    requires after { IsSoundInForm (document_of after.now) }
{
    match between(alloc, before, after)? {
        Some(other) => Ok(is_same_way(way, &other)),
        None => Ok(false),
    }
}

// Whether the way back over a commit is the one between the documents before and after it.
fn is_over(alloc: Global, before: &Doc, after: &Doc, intent: &Intent) -> Result<bool, Fail>
    requires before { IsSoundInForm (document_of before.now) }
    requires after { IsSoundInForm (document_of after.now) }
    requires fits { Fits (document_of before.now) intent.now }
{
    let way = over(alloc, before, intent)?;
    is_between(alloc, before, after, &way)
}

// Whether both ways back over a commit are one; and whether a way leads back from the document before it to that after it, if
// that is asked.
fn leads_back(
    alloc: Global,
    before: &Doc,
    after: &Doc,
    intent: &Intent,
    keeps_all: Option<bool>,
) -> Result<bool, Fail>
    requires before { IsSoundInForm (document_of before.now) }
    requires after { IsSoundInForm (document_of after.now) }
    requires fits { Fits (document_of before.now) intent.now }
{
    let one = is_over(alloc, before, after, intent)?;
    match keeps_all {
        Some(keeps) => Ok(one && between(alloc, after, before)?.is_some() == keeps),
        None => Ok(one),
    }
}

fn commit_leads_back(
    alloc: Global,
    doc: &Doc,
    intent: &Intent,
    keeps_all: Option<bool>,
) -> Result<bool, Fail>
    requires { IsSoundInForm (document_of doc.now) }
{
    if !doc.fits(intent) {
        return Err(Fail::from("does not fit"));
    }
    let after = after(alloc, doc, intent)?;
    leads_back(alloc, doc, &after, intent, keeps_all)
}

/// Whether both ways back over the commit of a case are one; and whether a document has all that there is after it, if that is
/// asked.
pub fn case_leads_back(
    alloc: Global,
    scene: &Scene,
    case: Case,
    keeps_all: Option<bool>,
) -> Result<bool, Fail>
    requires { IsSoundInForm (document_of scene.now.doc) }
{
    let intent = scene.made(alloc, 1, case)?;
    commit_leads_back(alloc, &scene.doc, &intent, keeps_all)
}

impl Row for Edited {
    fn is_so(&self, alloc: Global, scene: &mut Scene) -> Result<bool, Fail> {
        scene.open(alloc, self.tree)?;
        case_leads_back(alloc, scene, self.case, Some(self.keeps_all))
    }

    fn message(&self) -> &'static str {
        self.tree
    }
}

static ROWS: [Edited; 16] = [
    // New items, of which one has items and fields of its own.
    Edited {
        tree: r#"{"list":["x"]}"#,
        case: Case::Insert(
            &[],
            1,
            &[
                r#"{"list":["a",{"card":{"note":"n","title":"t"}}]}"#,
                r#""b""#,
            ],
        ),
        keeps_all: false,
    },
    Edited {
        tree: r#"{"list":[{"list":[]}]}"#,
        case: Case::Insert(&[("", 0)], 0, &[r#""a""#]),
        keeps_all: false,
    },
    // What goes nowhere.
    Edited {
        tree: r#"{"list":["w","x","y"]}"#,
        case: Case::Remove(&[], 0, 2),
        keeps_all: true,
    },
    Edited {
        tree: r#"{"list":[{"list":["n"]},{"card":{"note":"n","title":"t"}}]}"#,
        case: Case::Remove(&[], 0, 2),
        keeps_all: true,
    },
    Edited {
        tree: r#"{"list":["w"]}"#,
        case: Case::Remove(&[], 1, 0),
        keeps_all: true,
    },
    // Moves to another row, within a row, to where the item stands, and into a field.
    Edited {
        tree: r#"{"list":[{"list":["n","o"]},{"list":["m"]}]}"#,
        case: Case::Move(&[("", 0)], 0, 2, &[("", 1)], "", 1),
        keeps_all: false,
    },
    Edited {
        tree: r#"{"list":["w","x","y"]}"#,
        case: Case::Move(&[], 0, 1, &[], "", 3),
        keeps_all: false,
    },
    Edited {
        tree: r#"{"list":["w","x"]}"#,
        case: Case::Move(&[], 0, 1, &[], "", 0),
        keeps_all: false,
    },
    Edited {
        tree: r#"{"list":[{"card":{"note":"n","title":"p"}},"x"]}"#,
        case: Case::Move(&[], 1, 1, &[("", 0)], "note", 0),
        keeps_all: true,
    },
    Edited {
        tree: r#"{"list":[{"card":{"title":"p"}},"x"]}"#,
        case: Case::Move(&[], 1, 1, &[("", 0)], "note", 0),
        keeps_all: true,
    },
    // A field that is filled anew, one that was empty, and one that is emptied, twice.
    Edited {
        tree: r#"{"list":[{"card":{"note":"n","title":"p"}}]}"#,
        case: Case::Put(&[("", 0)], "title", r#""a""#),
        keeps_all: false,
    },
    Edited {
        tree: r#"{"list":[{"card":{"note":{"list":["a"]},"title":"p"}}]}"#,
        case: Case::Put(&[("", 0)], "note", r#"{"list":["b"]}"#),
        keeps_all: false,
    },
    Edited {
        tree: r#"{"list":[{"card":{"title":"p"}}]}"#,
        case: Case::Put(&[("", 0)], "note", r#""n""#),
        keeps_all: false,
    },
    Edited {
        tree: r#"{"list":[{"card":{"note":"n","title":"p"}}]}"#,
        case: Case::Clear(&[("", 0)], "note"),
        keeps_all: true,
    },
    Edited {
        tree: r#"{"list":[{"card":{"title":"p"}}]}"#,
        case: Case::Clear(&[("", 0)], "note"),
        keeps_all: true,
    },
    // A need, which changes nothing.
    Edited {
        tree: r#"{"list":["w"]}"#,
        case: Case::Need(&[("", 0)]),
        keeps_all: true,
    },
];

#[test]
fn ways_back(rt: HostRuntime) -> Result<(), Fail> {
    let wrong = wrong_row(rt.alloc(), &ROWS)?;
    assert!(rt; wrong.is_none(), "{wrong:?}");
    Ok(())
}
