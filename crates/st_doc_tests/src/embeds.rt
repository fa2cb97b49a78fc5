//! The change that lists an edit in the document that another edit left behind.
ghost use Rattle.st_marks.specs.Document.{IsSoundInForm};
ghost use Rattle.st_doc.specs.Doc.{document_of};

use crate::given::{Case, Row, Scene, wrong_row};
use st_doc::Doc;
use st_embed::{embed, mentioned_nodes};
use st_ids::{Atom, CellId, NodeId, OPENING, ROOT, Rev};
use st_marks::{Change, How, Intent, Loose, Mark, RegMark, RowMarks};
use std::alloc::Global;
use std::test::Fail;

const FIRST_REV: Rev = Rev { session: 1, num: 1 };

pub const REV: Rev = Rev { session: 2, num: 1 };

pub const NODE_1: NodeId = NodeId(Atom {
    rev: OPENING,
    at: 1,
});

const NODE_2: NodeId = NodeId(Atom {
    rev: OPENING,
    at: 2,
});

pub const NODE_3: NodeId = NodeId(Atom {
    rev: OPENING,
    at: 3,
});

pub const NEW: NodeId = NodeId(Atom { rev: REV, at: 0 });

pub const CELL_0: CellId = CellId(Atom {
    rev: OPENING,
    at: 0,
});

pub const CELL_1: CellId = CellId(Atom {
    rev: OPENING,
    at: 1,
});

const CELL_2: CellId = CellId(Atom {
    rev: OPENING,
    at: 2,
});

const MOVED: CellId = CellId(Atom {
    rev: FIRST_REV,
    at: 0,
});

pub const MADE: CellId = CellId(Atom { rev: REV, at: 0 });

/// A mark of a cell that is made for the new node.
pub const MAKE: Mark = Mark::Make {
    cell: MADE,
    node: NEW,
    full: true,
};

/// A mark of a node that is only mentioned.
pub const STAYS_1: Mark = Mark::Touch {
    cell: CELL_0,
    node: NODE_1,
    how: How::Stay,
};

// The same of others.
const STAYS_3: Mark = Mark::Touch {
    cell: CELL_2,
    node: NODE_3,
    how: How::Stay,
};

const STAYS_2_MOVED: Mark = Mark::Touch {
    cell: MOVED,
    node: NODE_2,
    how: How::Stay,
};

// What is listed of a register: who is there, what becomes of that node, whether it is cleared, and who comes in.
type Register = (Option<NodeId>, How, bool, Option<NodeId>);

// An edit that is made in the document of a tree, the edit that comes before it, and what its change lists after that:
// rows, registers and loose nodes; and how many nodes it mentions.
#[derive(Clone, Copy)]
struct Listed {
    tree: &'static str,
    earlier: Option<Case>,
    case: Case,
    mentioned: usize,
    rows: &'static [(NodeId, &'static [Mark])],
    regs: &'static [Register],
    loose: &'static [Loose],
}

fn is_row(row: &RowMarks, listed: (NodeId, &[Mark])) -> bool {
    row.node == listed.0 && row.marks.as_slice() == listed.1
}

/// Whether rows are those that are listed.
pub fn are_rows(rows: &[RowMarks], listed: &[(NodeId, &[Mark])]) -> bool {
    rows.len() == listed.len() && rows.iter().zip(listed).all(|(row, it)| is_row(row, *it))
}

fn is_register(reg: &RegMark, listed: Register) -> bool {
    reg.held == listed.0 && reg.how == listed.1 && reg.clear == listed.2 && reg.fill == listed.3
}

fn are_registers(regs: &[RegMark], listed: &[Register]) -> bool {
    regs.len() == listed.len()
        && regs
            .iter()
            .zip(listed)
            .all(|(reg, it)| is_register(reg, *it))
}

fn is_listed(change: &Change, listed: &Listed) -> bool {
    are_rows(change.rows.as_slice(), listed.rows)
        && are_registers(change.regs.as_slice(), listed.regs)
        && change.loose.as_slice() == listed.loose
        && change.base
}

// Whether the change of an intent is what is listed, and the intent mentions as many nodes.
fn is_change(alloc: Global, doc: &Doc, intent: &Intent, listed: &Listed) -> Result<bool, Fail>
    requires { IsSoundInForm (document_of doc.now) }
{
    if !doc.fits(intent) {
        return Err(Fail::from("does not fit"));
    }
    let mentioned = mentioned_nodes(alloc, doc, intent)?.len();
    let change = embed(alloc, doc, intent)?;
    Ok(is_listed(&change, listed) && mentioned == listed.mentioned)
}

impl Row for Listed {
    fn is_so(&self, alloc: Global, scene: &mut Scene) -> Result<bool, Fail> {
        scene.open(alloc, self.tree)?;
        scene.commit(alloc, 2, self.case)?;
        scene.carry_first(alloc, self.earlier)?;
        match scene.intents.get(0) {
            Some(intent) => is_change(alloc, &scene.doc, intent, self),
            None => Ok(false),
        }
    }

    fn message(&self) -> &'static str {
        self.tree
    }
}

const NESTED: &str = r#"{"list":[{"list":[{"list":[]}]},{"list":[]}]}"#;

static LISTED: [Listed; 5] = [
    Listed {
        tree: r#"{"list":["x"]}"#,
        earlier: Some(Case::Insert(&[], 1, &[r#""a""#])),
        case: Case::Insert(&[], 1, &[r#""b""#]),
        mentioned: 1,
        rows: &[(ROOT, &[Mark::Skip(1), MAKE, Mark::Skip(1)])],
        regs: &[],
        loose: &[],
    },
    Listed {
        tree: r#"{"list":["w","x","y"]}"#,
        earlier: Some(Case::Remove(&[], 1, 1)),
        case: Case::Insert(&[], 2, &[r#""b""#]),
        mentioned: 1,
        rows: &[(
            ROOT,
            &[Mark::Skip(1), Mark::Gap(CELL_1), MAKE, Mark::Skip(1)],
        )],
        regs: &[],
        loose: &[],
    },
    Listed {
        tree: r#"{"list":["a","b"]}"#,
        earlier: Some(Case::Remove(&[], 0, 1)),
        case: Case::Remove(&[], 0, 1),
        mentioned: 1,
        rows: &[],
        regs: &[],
        loose: &[Loose {
            node: NODE_1,
            how: How::Here,
        }],
    },
    Listed {
        tree: NESTED,
        earlier: Some(Case::Move(&[("", 0)], 0, 1, &[("", 1)], "", 0)),
        case: Case::Insert(&[("", 0), ("", 0)], 0, &[r#""b""#]),
        mentioned: 3,
        rows: &[
            (ROOT, &[Mark::Skip(1), STAYS_3]),
            (NODE_2, &[MAKE]),
            (NODE_3, &[STAYS_2_MOVED]),
        ],
        regs: &[],
        loose: &[],
    },
    Listed {
        tree: r#"{"list":[{"card":{"title":"p"}}]}"#,
        earlier: None,
        case: Case::Put(&[("", 0)], "title", r#""b""#),
        mentioned: 2,
        rows: &[(ROOT, &[STAYS_1])],
        regs: &[(Some(NODE_2), How::Stay, true, Some(NEW))],
        loose: &[],
    },
];

#[test]
fn edits_are_listed_where_they_stand(rt: HostRuntime) -> Result<(), Fail> {
    let wrong = wrong_row(rt.alloc(), &LISTED)?;
    assert!(rt; wrong.is_none(), "{wrong:?}");
    Ok(())
}
