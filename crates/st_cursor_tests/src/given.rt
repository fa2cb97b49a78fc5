//! A schema, and a document that opens under it.

use st_cursor::Cursor;
use st_forest::Forest;
use st_forest_start::start;
use st_ids::{Atom, NodeId, OPENING, Text};
use st_json::read_line;
use st_schema::{Schema, read_tree};
use st_tree::{Tree, check};
use std::alloc::Global;
use std::test::Fail;

// Lists of texts and cards, and a card with an optional note and a title.
const SCHEMA: &str =
    r#"{"root":["list"],"types":[{"array":["text","card"],"name":"list"},{"name":"card","object":{"note":["opt",["text"]],"title":["req",["text"]]}}]}"#;

/// A text, which is node 1, and a card, which is node 2, whose title is node 3.
pub const TREE: &str = r#"{"list":["bread",{"card":{"title":"milk"}}]}"#;

/// The node of a number.
pub fn node(at: u32) -> NodeId {
    NodeId(Atom { rev: OPENING, at })
}

/// The schema.
pub fn schema(alloc: Global) -> Result<Schema, Fail> {
    let value = read_line(alloc, SCHEMA.as_bytes())?;
    Ok(Schema::read(alloc, &value)?)
}

fn tree(alloc: Global) -> Result<Tree, Fail> {
    let value = read_line(alloc, TREE.as_bytes())?;
    Ok(read_tree(alloc, &value)?)
}

/// The forest of the document.
pub fn forest(alloc: Global) -> Result<Forest, Fail> {
    let tree = tree(alloc)?;
    if check(&tree) != Ok(()) {
        return Err(Fail::from("too large"));
    }
    Ok(start(alloc, Text::from_str(alloc, SCHEMA)?, &tree)?)
}

/// Whether a cursor is at a node, or in a field of it, and at most so far down.
pub fn is_at(cursor: &Cursor<'_>, at: u32, depth: usize) -> bool {
    cursor.node() == node(at) && cursor.hops.len() == depth
}
