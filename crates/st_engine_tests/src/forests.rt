//! The forest of a list with one text, and with a title of its own.
use st_forest::Forest;
use st_forest_start::start;
use st_ids::{Atom, CellId, FieldId, Key, Leaf, List, NodeId, OPENING, ROOT, Text};
use st_marks::{How, Mark, RegStep, RowMarks, Spot, Step};
use st_tree::{Field, Tree, check};
use std::alloc::{AllocError, Global};
use std::test::Fail;

const SCHEMA: &str = "schema";

// A node of the opening.
pub fn node(at: u32) -> NodeId {
    NodeId(Atom { rev: OPENING, at })
}

fn key(alloc: Global, text: &str) -> Result<Key, AllocError> {
    Ok(Key(Text::from_str(alloc, text)?))
}

fn text(alloc: Global, words: &str) -> Result<Tree, AllocError> {
    let ty = Text::from_str(alloc, "text")?;
    let leaf = Some(Leaf::Words(Text::from_str(alloc, words)?));
    Ok(Tree {
        ty,
        leaf,
        fields: List::new(alloc),
    })
}

// A field with one text.
fn field(alloc: Global, name: &str, row: bool, words: &str) -> Result<Field, AllocError> {
    let key = key(alloc, name)?;
    let mut items = List::new(alloc);
    items.push(text(alloc, words)?)?;
    Ok(Field { key, row, items })
}

fn tree(alloc: Global) -> Result<Tree, AllocError> {
    let ty = Text::from_str(alloc, "list")?;
    let mut fields = List::new(alloc);
    fields.push(field(alloc, "", true, "bread")?)?;
    fields.push(field(alloc, "title", false, "shop")?)?;
    Ok(Tree {
        ty,
        leaf: None,
        fields,
    })
}

pub fn opened(alloc: Global) -> Result<Forest, Fail> {
    let tree = tree(alloc)?;
    if check(&tree) != Ok(()) {
        return Err(Fail::from("too large"));
    }
    Ok(start(alloc, Text::from_str(alloc, SCHEMA)?, &tree)?)
}

// The row of a node has so many slots, so many of them full.
fn has_slots(forest: &Forest, node: NodeId, slots: u64, full: u64) -> bool {
    match forest.slots(node) {
        None => slots == 0,
        Some(row) => row.len() == slots && row.full_len() == full,
    }
}

fn is_of(forest: &Forest, node: NodeId, ty: &str) -> bool {
    match forest.node(node) {
        None => false,
        Some(found) => found.node == node && found.ty.as_str() == ty,
    }
}

fn nodes_are_there(alloc: Global) -> Result<bool, Fail> {
    let forest = opened(alloc)?;
    Ok(
        is_of(&forest, ROOT, "list")
            && is_of(&forest, node(1), "text")
            && is_of(&forest, node(2), "text")
            && forest.node(node(3)).is_none()
            && has_slots(&forest, ROOT, 1, 1)
            && has_slots(&forest, node(1), 0, 0),
    )
}

fn nodes_stand(alloc: Global) -> Result<bool, Fail> {
    let forest = opened(alloc)?;
    let title = FieldId {
        node: ROOT,
        key: key(alloc, "title")?,
    };
    let cell = CellId(Atom {
        rev: OPENING,
        at: 0,
    });
    Ok(
        forest.place(ROOT) == Some(&Spot::Nowhere)
            && forest.place(node(1)) == Some(&Spot::Row { node: ROOT, cell })
            && forest.held(&title) == Some(node(2))
            && forest.place(node(3)).is_none(),
    )
}

fn schema_is_there(alloc: Global) -> Result<bool, Fail> {
    let forest = opened(alloc)?;
    let text = match forest.entry(0) {
        None => false,
        Some(entry) => entry.rev == OPENING && entry.text.as_str() == SCHEMA,
    };
    Ok(
        text && forest.under() == Some(OPENING)
            && forest.schemas() == 1
            && forest.entry(1).is_none(),
    )
}

fn copies(alloc: Global) -> Result<bool, Fail> {
    let copy = opened(alloc)?.copy(alloc)?;
    Ok(
        is_of(&copy, node(2), "text")
            && has_slots(&copy, ROOT, 1, 1)
            && copy.under() == Some(OPENING),
    )
}

// The text leaves the row and takes the place of the title.
pub fn promotion(alloc: Global) -> Result<Step, AllocError> {
    let mut step = Step {
        new: List::new(alloc),
        rows: List::new(alloc),
        regs: List::new(alloc),
        loose: List::new(alloc),
        schema: None,
    };
    let mut marks = List::new(alloc);
    marks.push(Mark::Touch {
        cell: CellId(Atom {
            rev: OPENING,
            at: 0,
        }),
        node: node(1),
        how: How::Leave,
    })?;
    step.rows.push(RowMarks { node: ROOT, marks })?;
    step.regs.push(RegStep {
        field: FieldId {
            node: ROOT,
            key: key(alloc, "title")?,
        },
        before: Some(node(2)),
        after: Some(node(1)),
    })?;
    Ok(step)
}

fn is_changed(alloc: Global) -> Result<bool, Fail> {
    let mut forest = opened(alloc)?;
    forest.apply(alloc, &promotion(alloc)?)?;
    let field = FieldId {
        node: ROOT,
        key: key(alloc, "title")?,
    };
    Ok(
        forest.held(&field) == Some(node(1))
            && forest.place(node(1)) == Some(&Spot::Register(field))
            && forest.place(node(2)) == Some(&Spot::Nowhere)
            && has_slots(&forest, ROOT, 1, 0),
    )
}

#[test]
fn forests_change(rt: HostRuntime) -> Result<(), Fail> {
    let changed = is_changed(rt.alloc())?;
    assert!(rt; changed);
    Ok(())
}

#[test]
fn forests_answer(rt: HostRuntime) -> Result<(), Fail> {
    let alloc = rt.alloc();
    let (a, b) = (nodes_are_there(alloc)?, nodes_stand(alloc)?);
    let (c, d) = (schema_is_there(alloc)?, copies(alloc)?);
    assert!(rt; a && b && c && d, "{a} {b} {c} {d}");
    Ok(())
}
