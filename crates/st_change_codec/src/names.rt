//! Names as JSON values.
ghost use Rattle.std.specs.Prelude.{◌≡◌, [], ◌∷◌, map, IfOk};
ghost use Rattle.serde_json.specs.Data.{string, array};
ghost use Rattle.serde_json.specs.View.{view, items_of};
ghost use Rattle.st_change_codec.specs.Changes.{rev_data, cell_data, node_data, node_or_null, list_data};

use serde_json::Value;
use st_ids::{CellId, List, NodeId, Rev};
use std::alloc::{AllocError, Global};

/// A text.
pub fn text_value(alloc: Global, text: &str) -> Result<Value, AllocError>
    ensures { IfOk result (λ v. view v ≡ string text.now) }
{
    Ok(Value::String(String::from_str(alloc, text)?))
}

/// The name of a revision.
pub fn rev_value(alloc: Global, rev: Rev) -> Result<Value, AllocError>
    ensures { IfOk result (λ v. view v ≡ rev_data rev) }
{
    let text = rev.text(alloc)?;
    text_value(alloc, text.as_str())
}

/// The name of a cell.
pub fn cell_value(alloc: Global, cell: CellId) -> Result<Value, AllocError>
    ensures { IfOk result (λ v. view v ≡ cell_data cell) }
{
    let text = cell.0.text(alloc)?;
    text_value(alloc, text.as_str())
}

/// The name of a node.
pub fn node_value(alloc: Global, node: NodeId) -> Result<Value, AllocError>
    ensures { IfOk result (λ v. view v ≡ node_data node) }
{
    let text = node.0.text(alloc)?;
    text_value(alloc, text.as_str())
}

/// The name of a node, or null.
pub fn node_or_null(alloc: Global, node: Option<NodeId>) -> Result<Value, AllocError>
    ensures { IfOk result (λ v. view v ≡ node_or_null node) }
{
    match node {
        None => Ok(Value::Null),
        Some(node) => node_value(alloc, node),
    }
}

/// The names of nodes.
pub fn nodes_value(alloc: Global, nodes: &List<NodeId>) -> Result<Value, AllocError>
    ensures { IfOk result (λ v. view v ≡ list_data (map node_data nodes.now)) }
{
    let mut items = Vec::new(alloc);
    for node in nodes.as_slice() {
        items.push(node_value(alloc, *node)?)?;
    }
    Ok(Value::Array(items))
}
