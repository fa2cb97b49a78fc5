//! Each edit, and its refusals.
use crate::given::{Case, Places, Resolved, Row, Scene, resolved, wrong_row};
use st_edits::NameCounters;
use st_ids::{Limit, LimitOf, Or, Rev};
use st_marks::Intent;
use st_tree::EditFault;
use std::alloc::Global;
use std::test::Fail;

const TREE: &str = r#"{"list":["w","x",{"list":["n"]},{"list":[]},{"card":{"title":"t"}}]}"#;

// Two names are left of a commit's.
const GIVEN: NameCounters = NameCounters {
    rev: Rev { session: 1, num: 2 },
    nodes: 2046,
    cells: 0,
};

// How many nodes, groups, clears, puts and needs an intent has.
fn parts(intent: &Intent) -> [usize; 5] {
    [
        intent.new.len(),
        intent.groups.len(),
        intent.clear.len(),
        intent.put.len(),
        intent.need.len(),
    ]
}

// An edit in the tree, and how many it makes of each.
type Made = (Case, [usize; 5]);

fn comes_to(alloc: Global, scene: &Scene, made: &Made) -> Result<bool, Fail> {
    let intent = scene.made(alloc, 1, made.0)?;
    Ok(parts(&intent) == made.1)
}

const FIRST: Places = &[("", 2)];

const CARD: Places = &[("", 4)];

const EDITS: [Made; 8] = [
    (Case::Insert(&[], 5, &[r#""a""#]), [1, 1, 0, 1, 0]),
    (
        Case::Insert(FIRST, 1, &[r#"{"list":["b","c"]}"#]),
        [3, 2, 0, 3, 0],
    ),
    (Case::Remove(&[], 1, 2), [0, 0, 0, 2, 0]),
    (Case::Move(&[], 0, 2, FIRST, "", 1), [0, 1, 0, 2, 0]),
    (Case::Move(&[], 0, 1, CARD, "note", 0), [0, 0, 1, 1, 0]),
    (Case::Put(CARD, "title", r#""u""#), [1, 0, 1, 1, 0]),
    (Case::Clear(CARD, "note"), [0, 0, 1, 0, 0]),
    (Case::Need(CARD), [0, 0, 0, 0, 1]),
];

fn all_made(alloc: Global, scene: &Scene, edits: &[Made]) -> Result<bool, Fail> {
    for made in edits {
        if !comes_to(alloc, scene, made)? {
            return Ok(false);
        }
    }
    Ok(true)
}

fn is_fault(resolved: Resolved, fault: EditFault) -> bool {
    match resolved {
        Ok(_) => false,
        Err(refusal) => refusal == Or::Fault(fault),
    }
}

fn is_refused(alloc: Global, scene: &Scene, refusal: &(Case, EditFault)) -> Result<bool, Fail> {
    let resolved = resolved(alloc, &scene.schema, &scene.doc, GIVEN, refusal.0)?;
    Ok(is_fault(resolved, refusal.1))
}

const REFUSALS: [(Case, EditFault); 13] = [
    (
        Case::Insert(&[("", 2), ("", 1)], 9, &["true"]),
        EditFault::NoNode { depth: 1 },
    ),
    (
        Case::Move(&[], 9, 1, &[("", 4), ("note", 0)], "", 0),
        EditFault::NoNode { depth: 1 },
    ),
    (Case::Insert(&[("", 0)], 9, &["true"]), EditFault::Kind),
    (Case::Clear(CARD, "title"), EditFault::Kind),
    (Case::Move(&[], 0, 1, CARD, "title", 0), EditFault::Kind),
    (Case::Insert(&[], 6, &["true"]), EditFault::Range),
    (Case::Remove(&[], 4, 2), EditFault::Range),
    (Case::Move(&[], 0, 2, CARD, "note", 0), EditFault::Range),
    (Case::Move(&[], 2, 1, FIRST, "", 0), EditFault::Inside),
    (Case::Move(&[], 4, 1, CARD, "note", 0), EditFault::Inside),
    (
        Case::Insert(&[], 0, &[r#"{"list":["a"]}"#, r#"{"list":[true]}"#]),
        EditFault::NotAllowed { at: 3 },
    ),
    (Case::Move(&[], 3, 2, CARD, "note", 0), EditFault::Range),
    (
        Case::Insert(&[], 0, &[r#""a""#, r#""b""#]),
        EditFault::Limit(Limit {
            of: LimitOf::Commit,
            kept: 2046,
        }),
    ),
];

fn all_refused(alloc: Global, scene: &Scene, refusals: &[(Case, EditFault)]) -> Result<bool, Fail> {
    for refusal in refusals {
        if !is_refused(alloc, scene, refusal)? {
            return Ok(false);
        }
    }
    Ok(true)
}

// Edits that are made, and edits that are refused.
struct Edits {
    made: &'static [Made],
    refused: &'static [(Case, EditFault)],
}

impl Row for Edits {
    fn is_so(&self, alloc: Global, scene: &mut Scene) -> Result<bool, Fail> {
        scene.open(alloc, TREE)?;
        Ok(all_made(alloc, scene, self.made)? && all_refused(alloc, scene, self.refused)?)
    }

    fn message(&self) -> &'static str {
        if self.made.is_empty() {
            "refused"
        } else {
            "made"
        }
    }
}

const ROWS: [Edits; 2] = [
    Edits {
        made: &EDITS,
        refused: &[],
    },
    Edits {
        made: &[],
        refused: &REFUSALS,
    },
];

#[test]
fn edits_are_resolved(rt: HostRuntime) -> Result<(), Fail> {
    let wrong = wrong_row(rt.alloc(), &ROWS)?;
    assert!(rt; wrong.is_none(), "{wrong:?}");
    Ok(())
}
