//! A document whose root has one empty cell, and a title; the title that was there before is nowhere.
use crate::steps::{add_register, add_row, add_schemas, no_step};
use st_forest::Forest;
use st_forest_start::start;
use st_ids::{Atom, CellId, Key, Leaf, List, NodeId, OPENING, ROOT, Rev, Text};
use st_marks::{How, Mark, Step};
use st_tree::{Field, Tree, check};
use std::alloc::{AllocError, Global};
use std::test::Fail;

/// The owner of the empty cell, who is the title.
pub const TITLE: NodeId = NodeId(Atom {
    rev: OPENING,
    at: 1,
});

/// Who was the title before, and is nowhere.
pub const NOWHERE: NodeId = NodeId(Atom {
    rev: OPENING,
    at: 2,
});

/// The empty cell.
pub const CELL: CellId = CellId(Atom {
    rev: OPENING,
    at: 0,
});

fn text(alloc: Global, words: &str) -> Result<Tree, AllocError> {
    let ty = Text::from_str(alloc, "text")?;
    let leaf = Some(Leaf::Words(Text::from_str(alloc, words)?));
    Ok(Tree {
        ty,
        leaf,
        fields: List::new(alloc),
    })
}

// A field with one text.
fn field(alloc: Global, name: &str, row: bool, words: &str) -> Result<Field, AllocError> {
    let key = Key(Text::from_str(alloc, name)?);
    let mut items = List::new(alloc);
    items.push(text(alloc, words)?)?;
    Ok(Field { key, row, items })
}

fn tree(alloc: Global) -> Result<Tree, AllocError> {
    let ty = Text::from_str(alloc, "list")?;
    let mut fields = List::new(alloc);
    fields.push(field(alloc, "", true, "bread")?)?;
    fields.push(field(alloc, "title", false, "shop")?)?;
    Ok(Tree {
        ty,
        leaf: None,
        fields,
    })
}

fn opened(alloc: Global) -> Result<Forest, Fail> {
    let tree = tree(alloc)?;
    if check(&tree) != Ok(()) {
        return Err(Fail::from("too large"));
    }
    Ok(start(alloc, Text::from_str(alloc, "schema")?, &tree)?)
}

// The text leaves the row and takes the place of the title; and two schemas come.
fn fill(alloc: Global, step: &mut Step, revs: &[Rev]) -> Result<(), AllocError> {
    let leaves = Mark::Touch {
        cell: CELL,
        node: TITLE,
        how: How::Leave,
    };
    add_row(alloc, step, ROOT, &[leaves])?;
    add_register(alloc, step, Some(NOWHERE), Some(TITLE))?;
    add_schemas(alloc, step, OPENING, &[], revs)
}

fn apply(alloc: Global, forest: &mut Forest, revs: &[Rev]) -> Result<(), AllocError> {
    let mut step = no_step(alloc);
    fill(alloc, &mut step, revs)?;
    forest.apply(alloc, &step)
}

/// The document, with schemas of some revisions behind the opening's.
pub fn document(alloc: Global, revs: &[Rev]) -> Result<Forest, Fail> {
    let mut forest = opened(alloc)?;
    apply(alloc, &mut forest, revs)?;
    Ok(forest)
}
