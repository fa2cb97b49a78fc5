//! What a commit did is undone by the way back that is remembered of it, also after another commit.
ghost use Rattle.std.specs.Prelude.{IfOk, OnOk};
ghost use Rattle.st_marks.specs.Document.{IsSoundInForm};
ghost use Rattle.st_doc.specs.Doc.{document_of};

use crate::given::{Case, Row, Scene, shows, wrong_row};
use crate::ways::case_leads_back;
use st_doc::Doc;
use st_heads::{Head, Way};
use st_ids::{Copied, List, OPENING, Rev};
use st_marks::Intent;
use std::alloc::{AllocError, Global};
use std::test::Fail;

// What one author does to a tree and then another, and the tree after both, and after the first commit is undone.
#[derive(Clone, Copy)]
struct Pair {
    tree: &'static str,
    first: Case,
    second: Case,
    both: &'static str,
    undone: &'static str,
}

// The intent that goes a way.
fn intent_of_way(alloc: Global, way: &Way) -> Result<Intent, AllocError> {
    let clear = way.clear.copy(alloc)?;
    let put = way.put.copy(alloc)?;
    Ok(Intent {
        rev: Rev { session: 9, num: 1 },
        under: OPENING,
        new: List::new(alloc),
        groups: List::new(alloc),
        clear,
        put,
        need: List::new(alloc),
        schema: None,
    })
}

// The intent that goes the first way that is remembered.
fn first_way(alloc: Global, head: &Head) -> Result<Intent, Fail> {
    match head.own.get(0) {
        Some(carried) if !carried.void => Ok(intent_of_way(alloc, &carried.back)?),
        _ => Err(Fail::from("no way")),
    }
}

// The head of one commit over a document.
fn head_of(alloc: Global, doc: &Doc, intent: Intent) -> Result<Head, Fail>
    requires { IsSoundInForm (document_of doc.now) }
    ensures { IfOk result (λ h. IsSoundInForm (document_of h.doc)) }
{
    if intent.schema.is_some() || !doc.fits(&intent) || !doc.has_room(&intent) {
        return Err(Fail::from("does not fit"));
    }
    let intents = [intent];
    Ok(Head::over(alloc, doc, &intents)?)
}

// Carries a commit out that fits.
fn carry_at(alloc: Global, head: &mut Head, intent: &Intent) -> Result<(), Fail>
    requires { IsSoundInForm (document_of head.old.doc) }
    ensures { OnOk result (IsSoundInForm (document_of head.new.doc)) }
{
    if !head.doc.fits(intent) || !head.doc.has_room(intent) {
        return Err(Fail::from("does not fit"));
    }
    head.carry(alloc, intent)?;
    Ok(())
}

// Goes the first way that is remembered.
fn go_back(alloc: Global, head: &mut Head) -> Result<(), Fail>
    requires { IsSoundInForm (document_of head.old.doc) }
    ensures { OnOk result (IsSoundInForm (document_of head.new.doc)) }
{
    let intent = first_way(alloc, head)?;
    carry_at(alloc, head, &intent)
}

// Whether the first commit is undone.
fn undoes(alloc: Global, head: &mut Head, tree: &str) -> Result<bool, Fail>
    requires { IsSoundInForm (document_of head.old.doc) }
{
    go_back(alloc, head)?;
    Ok(shows(alloc, &head.doc, tree)?)
}

// Whether the second commit leads on, and the first is then undone.
fn leads(alloc: Global, head: &mut Head, second: &Intent, row: &Pair) -> Result<bool, Fail>
    requires { IsSoundInForm (document_of head.old.doc) }
{
    carry_at(alloc, head, second)?;
    let both = shows(alloc, &head.doc, row.both)?;
    let undone = undoes(alloc, head, row.undone)?;
    Ok(both && undone)
}

fn pair_leads(
    alloc: Global,
    doc: &Doc,
    first: Intent,
    second: &Intent,
    row: &Pair,
) -> Result<bool, Fail>
    requires { IsSoundInForm (document_of doc.now) }
{
    let mut head = head_of(alloc, doc, first)?;
    leads(alloc, &mut head, second, row)
}

fn row_leads(alloc: Global, scene: &Scene, row: &Pair) -> Result<bool, Fail>
    requires { IsSoundInForm (document_of scene.now.doc) }
{
    let first = scene.made(alloc, 1, row.first)?;
    match scene.intents.get(0) {
        Some(second) => pair_leads(alloc, &scene.doc, first, second, row),
        None => Ok(false),
    }
}

impl Row for Pair {
    fn is_so(&self, alloc: Global, scene: &mut Scene) -> Result<bool, Fail> {
        scene.open(alloc, self.tree)?;
        scene.commit(alloc, 2, self.second)?;
        let undone = row_leads(alloc, scene, self)?;
        let first = case_leads_back(alloc, scene, self.first, None)?;
        Ok(undone && first && case_leads_back(alloc, scene, self.second, None)?)
    }

    fn message(&self) -> &'static str {
        self.both
    }
}

static ROWS: [Pair; 6] = [
    // What was inserted goes, and what another inserted stays.
    Pair {
        tree: r#"{"list":["x"]}"#,
        first: Case::Insert(&[], 1, &[r#"{"list":["a"]}"#, r#""b""#]),
        second: Case::Insert(&[], 0, &[r#""c""#]),
        both: r#"{"list":["c","x",{"list":["a"]},"b"]}"#,
        undone: r#"{"list":["c","x"]}"#,
    },
    // What was removed comes back to its place.
    Pair {
        tree: r#"{"list":["w","x","y"]}"#,
        first: Case::Remove(&[], 0, 2),
        second: Case::Insert(&[], 1, &[r#""b""#]),
        both: r#"{"list":["b","y"]}"#,
        undone: r#"{"list":["w","b","x","y"]}"#,
    },
    // What was moved goes back.
    Pair {
        tree: r#"{"list":[{"list":["n"]},{"list":["m"]}]}"#,
        first: Case::Move(&[("", 0)], 0, 1, &[("", 1)], "", 1),
        second: Case::Insert(&[("", 1)], 0, &[r#""b""#]),
        both: r#"{"list":[{"list":[]},{"list":["b","m","n"]}]}"#,
        undone: r#"{"list":[{"list":["n"]},{"list":["b","m"]}]}"#,
    },
    // The occupant that another took the place of comes back.
    Pair {
        tree: r#"{"list":[{"card":{"note":"n","title":"p"}}]}"#,
        first: Case::Put(&[("", 0)], "title", r#""a""#),
        second: Case::Clear(&[("", 0)], "note"),
        both: r#"{"list":[{"card":{"title":"a"}}]}"#,
        undone: r#"{"list":[{"card":{"title":"p"}}]}"#,
    },
    // A cleared field has its occupant again, with what another put into it.
    Pair {
        tree: r#"{"list":[{"card":{"note":{"list":[]},"title":"p"}}]}"#,
        first: Case::Clear(&[("", 0)], "note"),
        second: Case::Insert(&[("", 0), ("note", 0)], 0, &[r#""b""#]),
        both: r#"{"list":[{"card":{"title":"p"}}]}"#,
        undone: r#"{"list":[{"card":{"note":{"list":["b"]},"title":"p"}}]}"#,
    },
    // An item that was moved into a field goes back into its row, and who was in the field comes back.
    Pair {
        tree: r#"{"list":[{"card":{"note":"n","title":"p"}},"x"]}"#,
        first: Case::Move(&[], 1, 1, &[("", 0)], "note", 0),
        second: Case::Insert(&[], 2, &[r#""b""#]),
        both: r#"{"list":[{"card":{"note":"x","title":"p"}},"b"]}"#,
        undone: r#"{"list":[{"card":{"note":"n","title":"p"}},"x","b"]}"#,
    },
];

#[test]
fn commits_are_undone(rt: HostRuntime) -> Result<(), Fail> {
    let wrong = wrong_row(rt.alloc(), &ROWS)?;
    assert!(rt; wrong.is_none(), "{wrong:?}");
    Ok(())
}
