//! The step over a commit, and back, where the document after it has nothing more.
ghost use Rattle.std.specs.Prelude.{IfOk};
ghost use Rattle.st_marks.specs.Document.{IsSoundInForm};
ghost use Rattle.st_doc.specs.Doc.{document_of};

use crate::embeds::{CELL_0, CELL_1, MADE, MAKE, NEW, NODE_1, NODE_3, REV, STAYS_1, are_rows};
use crate::given::{Case, Row, Scene, after, wrong_row};
use st_doc::Doc;
use st_ids::{List, NodeId, OPENING, Or, ROOT, Text};
use st_later::NotLater;
use st_marks::{How, Intent, Loose, Mark, RegStep, SchemaStep, Step};
use st_step::step_to;
use std::alloc::{AllocError, Global};
use std::test::Fail;

// Who is in a register before and after.
type Register = (Option<NodeId>, Option<NodeId>);

// A commit in the document of a tree, the edit that comes before it, and what the step over it lists: new nodes, rows,
// registers and nodes that were nowhere; and whether there is a step back, since nothing is made.
#[derive(Clone, Copy)]
struct Stepped {
    tree: &'static str,
    earlier: Option<Case>,
    case: Case,
    new: &'static [NodeId],
    rows: &'static [(NodeId, &'static [Mark])],
    regs: &'static [Register],
    loose: &'static [Loose],
    leads_back: bool,
}

fn are_registers(regs: &[RegStep], listed: &[Register]) -> bool {
    regs.len() == listed.len()
        && regs
            .iter()
            .zip(listed)
            .all(|(reg, it)| (reg.before, reg.after) == *it)
}

fn are_new(step: &Step, listed: &[NodeId]) -> bool {
    step.new.len() == listed.len()
        && step
            .new
            .as_slice()
            .iter()
            .zip(listed)
            .all(|(new, it)| new.node == *it)
}

fn is_listed(step: &Step, listed: &Stepped) -> bool {
    are_new(step, listed.new)
        && are_rows(step.rows.as_slice(), listed.rows)
        && are_registers(step.regs.as_slice(), listed.regs)
        && step.loose.as_slice() == listed.loose
        && step.schema.is_none()
}

/// The step between two documents, if the later one extends the earlier.
fn between(alloc: Global, before: &Doc, after: &Doc) -> Result<Option<Step>, Fail>
    requires before { IsSoundInForm (document_of before.now) }
    requires after { IsSoundInForm (document_of after.now) }
{
    match step_to(alloc, before, after) {
        Ok(step) => Ok(Some(step)),
        Err(Or::Fault(NotLater)) => Ok(None),
        Err(Or::NoMemory) => Err(Fail::from("no memory")),
    }
}

// Whether there is a step between two documents that lists this.
fn is_step(alloc: Global, before: &Doc, after: &Doc, listed: &Stepped) -> Result<bool, Fail>
    requires before { IsSoundInForm (document_of before.now) }
    requires after { IsSoundInForm (document_of after.now) }
{
    match between(alloc, before, after)? {
        Some(step) => Ok(is_listed(&step, listed)),
        None => Ok(false),
    }
}

// Whether the step is as a row says, and there is one back as the row says.
fn are_steps(alloc: Global, before: &Doc, after: &Doc, listed: &Stepped) -> Result<bool, Fail>
    requires before { IsSoundInForm (document_of before.now) }
    requires after { IsSoundInForm (document_of after.now) }
{
    let back = between(alloc, after, before)?.is_some();
    Ok(is_step(alloc, before, after, listed)? && back == listed.leads_back)
}

fn are_steps_over(alloc: Global, doc: &Doc, intent: &Intent, listed: &Stepped) -> Result<bool, Fail>
    requires { IsSoundInForm (document_of doc.now) }
{
    let after = after(alloc, doc, intent)?;
    are_steps(alloc, doc, &after, listed)
}

impl Row for Stepped {
    fn is_so(&self, alloc: Global, scene: &mut Scene) -> Result<bool, Fail> {
        scene.open(alloc, self.tree)?;
        scene.commit(alloc, 2, self.case)?;
        scene.carry_first(alloc, self.earlier)?;
        match scene.intents.get(0) {
            Some(intent) => are_steps_over(alloc, &scene.doc, intent, self),
            None => Ok(false),
        }
    }

    fn message(&self) -> &'static str {
        self.tree
    }
}

static STEPS: [Stepped; 4] = [
    Stepped {
        tree: r#"{"list":["w","x"]}"#,
        earlier: None,
        case: Case::Insert(&[], 1, &[r#""b""#]),
        new: &[NEW],
        rows: &[(ROOT, &[Mark::Skip(1), MAKE, Mark::Skip(1)])],
        regs: &[],
        loose: &[],
        leads_back: false,
    },
    Stepped {
        tree: r#"{"list":["w","x"]}"#,
        earlier: None,
        case: Case::Remove(&[], 0, 1),
        new: &[],
        rows: &[(
            ROOT,
            &[
                Mark::Touch {
                    cell: CELL_0,
                    node: NODE_1,
                    how: How::Leave,
                },
                Mark::Skip(1),
            ],
        )],
        regs: &[],
        loose: &[],
        leads_back: true,
    },
    // Into a field that was empty: the card is mentioned, and stays.
    Stepped {
        tree: r#"{"list":[{"card":{"title":"p"}},"x"]}"#,
        earlier: None,
        case: Case::Move(&[], 1, 1, &[("", 0)], "note", 0),
        new: &[],
        rows: &[(
            ROOT,
            &[
                STAYS_1,
                Mark::Touch {
                    cell: CELL_1,
                    node: NODE_3,
                    how: How::Leave,
                },
            ],
        )],
        regs: &[(None, Some(NODE_3))],
        loose: &[],
        leads_back: true,
    },
    // What was removed meanwhile comes back.
    Stepped {
        tree: r#"{"list":["a","b"]}"#,
        earlier: Some(Case::Remove(&[], 0, 1)),
        case: Case::Move(&[], 0, 1, &[], "", 2),
        new: &[],
        rows: &[(
            ROOT,
            &[
                Mark::Gap(CELL_0),
                Mark::Skip(1),
                Mark::Make {
                    cell: MADE,
                    node: NODE_1,
                    full: true,
                },
            ],
        )],
        regs: &[],
        loose: &[Loose {
            node: NODE_1,
            how: How::Leave,
        }],
        leads_back: false,
    },
];

#[test]
fn steps_list_what_differs(rt: HostRuntime) -> Result<(), Fail> {
    let wrong = wrong_row(rt.alloc(), &STEPS)?;
    assert!(rt; wrong.is_none(), "{wrong:?}");
    Ok(())
}

// The commit that brings another schema.
fn other_schema(alloc: Global) -> Result<Intent, AllocError> {
    let text = Text::from_str(alloc, "other")?;
    Ok(Intent {
        rev: REV,
        under: OPENING,
        new: List::new(alloc),
        groups: List::new(alloc),
        clear: List::new(alloc),
        put: List::new(alloc),
        need: List::new(alloc),
        schema: Some(text),
    })
}

// Whether so many entries go behind that of the opening, and so many come.
fn is_schema_step(step: Option<SchemaStep>, cut: usize, add: usize) -> bool {
    match step {
        Some(step) => step.on == OPENING && step.cut.len() == cut && step.add.len() == add,
        None => false,
    }
}

// Whether the step between two documents changes the schemas so.
fn schemas_change(
    alloc: Global,
    before: &Doc,
    after: &Doc,
    cut: usize,
    add: usize,
) -> Result<bool, Fail>
    requires before { IsSoundInForm (document_of before.now) }
    requires after { IsSoundInForm (document_of after.now) }
{
    match between(alloc, before, after)? {
        Some(step) => Ok(step.rows.len() == 0 && is_schema_step(step.schema, cut, add)),
        None => Ok(false),
    }
}

fn schema_comes_and_goes(alloc: Global, doc: &Doc, after: &Doc) -> Result<bool, Fail>
    requires before { IsSoundInForm (document_of doc.now) }
    requires after { IsSoundInForm (document_of after.now) }
{
    Ok(schemas_change(alloc, doc, after, 0, 1)? && schemas_change(alloc, after, doc, 1, 0)?)
}

// The document after the commit that brings another schema.
fn with_other_schema(alloc: Global, doc: &Doc) -> Result<Doc, Fail>
    requires { IsSoundInForm (document_of doc.now) }
    ensures { IfOk result (λ d. IsSoundInForm (document_of d)) }
{
    let intent = other_schema(alloc)?;
    after(alloc, doc, &intent)
}

// Another schema in the document of a tree.
#[derive(Drop)]
struct OtherSchema {
    tree: &'static str,
}

impl Row for OtherSchema {
    fn is_so(&self, alloc: Global, scene: &mut Scene) -> Result<bool, Fail> {
        scene.open(alloc, self.tree)?;
        let after = with_other_schema(alloc, &scene.doc)?;
        schema_comes_and_goes(alloc, &scene.doc, &after)
    }

    fn message(&self) -> &'static str {
        self.tree
    }
}

#[test]
fn steps_list_schemas(rt: HostRuntime) -> Result<(), Fail> {
    let tree = r#"{"list":["w"]}"#;
    let wrong = wrong_row(rt.alloc(), &[OtherSchema { tree }])?;
    assert!(rt; wrong.is_none(), "{wrong:?}");
    Ok(())
}
