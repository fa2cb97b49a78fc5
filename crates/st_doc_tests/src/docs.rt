//! What a document tells, and intents that no edit comes to.
ghost use Rattle.std.specs.Prelude.{OnOk};
ghost use Rattle.st_marks.specs.Document.{IsSoundInForm};
ghost use Rattle.st_doc.specs.Doc.{document_of};

use crate::given::{Case, Row, Scene, wrong_row};
use st_doc::Doc;
use st_ids::{Atom, CellId, FieldId, Key, List, NodeId, OPENING, Rev, Text};
use st_marks::{Group, Intent, Owned, Put, To, Verdict};
use std::alloc::{AllocError, Global};
use std::test::Fail;

const REV: Rev = Rev { session: 1, num: 1 };

fn node(at: u32) -> NodeId {
    NodeId(Atom { rev: OPENING, at })
}

fn cell(rev: Rev, at: u32) -> CellId {
    CellId(Atom { rev, at })
}

fn tells_row(alloc: Global, doc: &Doc) -> Result<bool, AllocError> {
    let slots = doc.live_slots(alloc, node(0))?;
    Ok(slots.len() == 2 && slots.get(1).map(|slot| slot.node) == Some(node(2)))
}

fn tells_register(alloc: Global, doc: &Doc) -> Result<bool, AllocError> {
    let key = Key(Text::from_str(alloc, "title")?);
    let field = FieldId { node: node(2), key };
    Ok(doc.held(&field) == Some(node(3)))
}

// The list of the row, its items and registers, as the document tells them.
fn tells(alloc: Global, doc: &Doc) -> Result<bool, AllocError> {
    let row = tells_row(alloc, doc)?;
    let register = tells_register(alloc, doc)?;
    Ok(
        row && register
            && doc.live_slot(node(0), 0).map(|slot| slot.cell) == Some(cell(OPENING, 0))
            && doc.type_of(node(2)).map(|ty| ty.as_str()) == Some("card")
            && doc.under() == Some(OPENING),
    )
}

const CARD: &str = r#"{"list":["x",{"card":{"title":"y\"\n"}}]}"#;

fn is_told(alloc: Global, scene: &mut Scene) -> Result<bool, Fail> {
    scene.open(alloc, CARD)?;
    let shown = scene.shows(alloc, CARD)?;
    Ok(shown && tells(alloc, &scene.doc)?)
}

fn nothing(alloc: Global, under: Rev) -> Intent {
    Intent {
        rev: REV,
        under,
        new: List::new(alloc),
        groups: List::new(alloc),
        clear: List::new(alloc),
        put: List::new(alloc),
        need: List::new(alloc),
        schema: None,
    }
}

// An intent that puts a node somewhere.
fn puts(alloc: Global, node: NodeId, to: To) -> Result<Intent, AllocError> {
    let mut intent = nothing(alloc, OPENING);
    intent.put.push(Put { node, to })?;
    Ok(intent)
}

fn add_group(
    alloc: Global,
    groups: &mut List<Group>,
    row: NodeId,
    owned: Owned,
) -> Result<(), AllocError> {
    let mut cells = List::new(alloc);
    cells.push(owned)?;
    groups.push(Group {
        node: row,
        after: None,
        cells,
    })?;
    Ok(())
}

fn add_move(alloc: Global, intent: &mut Intent, of: NodeId, row: NodeId) -> Result<(), AllocError> {
    let cell = cell(REV, 0);
    intent.put.push(Put {
        node: of,
        to: To::Cell(cell),
    })?;
    add_group(alloc, &mut intent.groups, row, Owned { cell, node: of })
}

// Puts a node into a new cell of a row.
fn moves(alloc: Global, of: NodeId, row: NodeId) -> Result<Intent, AllocError> {
    let mut intent = nothing(alloc, OPENING);
    add_move(alloc, &mut intent, of, row)?;
    Ok(intent)
}

fn add_need(alloc: Global, intent: &mut Intent, node: NodeId) -> Result<(), AllocError> {
    add_move(
        alloc,
        intent,
        node,
        NodeId(Atom {
            rev: OPENING,
            at: 0,
        }),
    )?;
    intent.need.push(node)?;
    Ok(())
}

// Moves a node into the root's row, and needs it, under a schema.
fn needs(alloc: Global, of: NodeId, under: Rev) -> Result<Intent, AllocError> {
    let mut intent = nothing(alloc, under);
    add_need(alloc, &mut intent, of)?;
    Ok(intent)
}

const LISTS: &str = r#"{"list":[{"list":[{"list":[]}]},"x"]}"#;

// A list can't stand in its own row, nor in that of one beneath it: the intent is void, and the tree stays.
fn ring_is_void(alloc: Global, scene: &mut Scene) -> Result<bool, Fail> {
    scene.open(alloc, LISTS)?;
    let intent = moves(alloc, node(1), node(2))?;
    let verdict = scene.carry_new(alloc, intent)?;
    let same = scene.shows(alloc, LISTS)?;
    Ok(same && verdict == Verdict::Cycle(node(1)))
}

// Whether one of the intents has a verdict.
fn has_verdict(
    alloc: Global,
    scene: &Scene,
    at: usize,
    verdict: Verdict,
) -> Result<bool, AllocError> {
    match scene.intents.get(at) {
        Some(intent) => Ok(scene.doc.fails(alloc, intent)? == verdict),
        None => Ok(false),
    }
}

// Whether an intent is void that needs a node which is gone, for that; and for its schema before that.
fn are_void(alloc: Global, scene: &Scene) -> Result<bool, AllocError> {
    let need = has_verdict(alloc, scene, 0, Verdict::Need(node(2)))?;
    let schema = has_verdict(alloc, scene, 1, Verdict::Schema(REV))?;
    Ok(need && schema && !scene.doc.is_live(alloc, node(2))?)
}

// What is needed has to be live, and the schema has to be the one in effect, which is judged first.
fn causes(alloc: Global, scene: &mut Scene) -> Result<bool, Fail> {
    scene.open(alloc, LISTS)?;
    scene.add(needs(alloc, node(2), OPENING)?)?;
    scene.add(needs(alloc, node(2), REV)?)?;
    let sound = has_verdict(alloc, scene, 0, Verdict::Sound)?;
    scene.carry_first(alloc, Some(Case::Remove(&[], 0, 1)))?;
    Ok(sound && are_void(alloc, scene)?)
}

fn fits(alloc: Global, doc: &Doc, at: u32, to: To) -> Result<bool, AllocError>
    requires { IsSoundInForm (document_of doc.now) }
{
    let intent = puts(alloc, node(at), to)?;
    Ok(doc.fits(&intent))
}

// A cell of the node fits, and nowhere; a cell of another node doesn't, nor does a node that is not there.
fn names(alloc: Global, scene: &mut Scene) -> Result<bool, Fail> {
    scene.open(alloc, LISTS)?;
    let own = fits(alloc, &scene.doc, 1, To::Cell(cell(OPENING, 0)))?;
    let out = fits(alloc, &scene.doc, 3, To::Nowhere)?;
    let other = fits(alloc, &scene.doc, 3, To::Cell(cell(OPENING, 0)))?;
    Ok(own && out && !other && !fits(alloc, &scene.doc, 4, To::Nowhere)?)
}

// Puts an item back into its cell.
fn put_back(alloc: Global, scene: &mut Scene, item: u32, at: u32) -> Result<(), Fail>
    requires { IsSoundInForm (document_of scene.old.doc) }
    ensures { OnOk result (IsSoundInForm (document_of scene.new.doc)) }
{
    let intent = puts(alloc, node(item), To::Cell(cell(OPENING, at)))?;
    scene.carry_new(alloc, intent)?;
    Ok(())
}

// Items that come back stand in their old order, and what came between them stays there.
fn back_in_order(alloc: Global, scene: &mut Scene) -> Result<bool, Fail> {
    scene.open(alloc, r#"{"list":["a","b","c"]}"#)?;
    scene.commit(alloc, 1, Case::Remove(&[], 0, 3))?;
    scene.commit(alloc, 2, Case::Insert(&[], 2, &[r#""n""#]))?;
    scene.carry(alloc, 0)?;
    scene.carry(alloc, 1)?;
    put_back(alloc, scene, 3, 2)?;
    put_back(alloc, scene, 1, 0)?;
    Ok(scene.shows(alloc, r#"{"list":["a","n","c"]}"#)?)
}

// What is looked at of a document.
#[derive(Clone, Copy)]
enum Look {
    Told,
    Ring,
    Causes,
    Names,
    Back,
}

impl Row for Look {
    fn is_so(&self, alloc: Global, scene: &mut Scene) -> Result<bool, Fail> {
        match self {
            Look::Told => is_told(alloc, scene),
            Look::Ring => ring_is_void(alloc, scene),
            Look::Causes => causes(alloc, scene),
            Look::Names => names(alloc, scene),
            Look::Back => back_in_order(alloc, scene),
        }
    }

    fn message(&self) -> &'static str {
        match self {
            Look::Told => "told",
            Look::Ring => "ring",
            Look::Causes => "causes",
            Look::Names => "names",
            Look::Back => "back",
        }
    }
}

const LOOKS: [Look; 5] = [
    Look::Told,
    Look::Ring,
    Look::Causes,
    Look::Names,
    Look::Back,
];

#[test]
fn calls(rt: HostRuntime) -> Result<(), Fail> {
    let wrong = wrong_row(rt.alloc(), &LOOKS)?;
    assert!(rt; wrong.is_none(), "{wrong:?}");
    Ok(())
}
