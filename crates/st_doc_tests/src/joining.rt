//! Two edits of one commit, the second made in the document after the first, do joined what they do in turn, also as the
//! edits of a transaction.
ghost use Rattle.std.specs.Prelude.{OnOk};
ghost use Rattle.st_marks.specs.Document.{IsSoundInForm};
ghost use Rattle.st_doc.specs.Doc.{document_of};

use crate::given::{Case, Row, Scene, part, wrong_row};
use crate::transactions::edits_lead;
use st_edits::NameCounters;
use st_ids::{List, Rev};
use st_join::join;
use st_marks::Intent;
use std::alloc::Global;
use std::test::Fail;

const REV: Rev = Rev { session: 1, num: 1 };

// Two edits of a tree, how many nodes and cells the first makes, and the tree after both.
#[derive(Clone, Copy)]
pub struct Parts {
    pub tree: &'static str,
    pub first: Case,
    pub made: (u32, u32),
    pub second: Case,
    pub both: &'static str,
}

// Adds what a case means in the document, as a part of a commit that has made names, and carries it out.
fn carry_part(alloc: Global, scene: &mut Scene, made: (u32, u32), case: Case) -> Result<(), Fail>
    requires { IsSoundInForm (document_of scene.old.doc) }
    ensures { OnOk result (IsSoundInForm (document_of scene.new.doc)) }
{
    let given = NameCounters {
        rev: REV,
        nodes: made.0,
        cells: made.1,
    };
    let at = scene.intents.len();
    let part = part(alloc, &scene.schema, &scene.doc, given, case)?;
    scene.add(part)?;
    scene.carry(alloc, at)?;
    Ok(())
}

// The join of the two intents that there are.
fn joined(alloc: Global, intents: &List<Intent>) -> Result<Intent, Fail> {
    match intents.as_slice() {
        [first, second] => Ok(join(alloc, first, second)?),
        _ => Err(Fail::from("not two")),
    }
}

// Whether the join of the two parts leads to a tree.
fn join_leads(alloc: Global, scene: &mut Scene, tree: &str) -> Result<bool, Fail>
    requires { IsSoundInForm (document_of scene.old.doc) }
{
    let whole = joined(alloc, &scene.intents)?;
    scene.carry_new(alloc, whole)?;
    Ok(scene.shows(alloc, tree)?)
}

impl Row for Parts {
    fn is_so(&self, alloc: Global, scene: &mut Scene) -> Result<bool, Fail> {
        scene.open(alloc, self.tree)?;
        let open = edits_lead(alloc, scene, self)?;
        carry_part(alloc, scene, (0, 0), self.first)?;
        carry_part(alloc, scene, self.made, self.second)?;
        let in_turn = scene.shows(alloc, self.both)?;
        scene.open_again(alloc, self.tree)?;
        Ok(open && in_turn && join_leads(alloc, scene, self.both)?)
    }

    fn message(&self) -> &'static str {
        self.both
    }
}

static ROWS: [Parts; 5] = [
    // Into a list that the first part makes.
    Parts {
        tree: r#"{"list":["x"]}"#,
        first: Case::Insert(&[], 1, &[r#"{"list":[]}"#]),
        made: (1, 1),
        second: Case::Insert(&[("", 1)], 0, &[r#""b""#]),
        both: r#"{"list":["x",{"list":["b"]}]}"#,
    },
    // At one place: the later stands left.
    Parts {
        tree: r#"{"list":["x"]}"#,
        first: Case::Insert(&[], 0, &[r#""a""#]),
        made: (1, 1),
        second: Case::Insert(&[], 0, &[r#""b""#]),
        both: r#"{"list":["b","a","x"]}"#,
    },
    // After an item that the first part makes.
    Parts {
        tree: r#"{"list":["x"]}"#,
        first: Case::Insert(&[], 1, &[r#""a""#, r#""c""#]),
        made: (2, 2),
        second: Case::Insert(&[], 2, &[r#""b""#]),
        both: r#"{"list":["x","a","b","c"]}"#,
    },
    // What the first part makes goes again.
    Parts {
        tree: r#"{"list":["x"]}"#,
        first: Case::Insert(&[], 1, &[r#""a""#, r#""c""#]),
        made: (2, 2),
        second: Case::Remove(&[], 1, 1),
        both: r#"{"list":["x","c"]}"#,
    },
    // Of two settings of a field the second stays.
    Parts {
        tree: r#"{"list":[{"card":{"title":"p"}}]}"#,
        first: Case::Put(&[("", 0)], "title", r#""a""#),
        made: (1, 0),
        second: Case::Put(&[("", 0)], "title", r#""b""#),
        both: r#"{"list":[{"card":{"title":"b"}}]}"#,
    },
];

#[test]
fn joins(rt: HostRuntime) -> Result<(), Fail> {
    let wrong = wrong_row(rt.alloc(), &ROWS)?;
    assert!(rt; wrong.is_none(), "{wrong:?}");
    Ok(())
}
