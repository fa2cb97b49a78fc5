//! What the lists of an intent say of a name.
ghost use Rattle.std.specs.Prelude.{◌≡◌, option_map, option_copied};
ghost use Rattle.std.specs.List.{list_any, find};
ghost use Rattle.st_ids.specs.Order.{same_node, same_cell, same_field};
ghost use Rattle.st_marks.specs.Intent.{clears, put_of, is_new, new_row_of};
ghost use Rattle.st_intent.specs.Rules.{makes, is_put};

use st_ids::{CellId, FieldId, NodeId, is_same_cell, is_same_field, is_same_node};
use st_marks::{Group, Intent, Owned, To};

/// Whether an intent clears a register.
pub fn is_cleared(intent: &Intent, field: &FieldId) -> bool
    ensures { result ≡ clears intent.now field.now }
{
    intent
        .clear
        .as_slice()
        .iter()
        .any(|g| is_same_field(g, field))
}

/// Whether an intent puts a node.
pub fn is_put(intent: &Intent, node: NodeId) -> bool
    ensures { result ≡ is_put intent.now node }
{
    intent
        .put
        .as_slice()
        .iter()
        .any(|p| is_same_node(p.node, node))
}

// Whether a node is listed as new.
fn is_listed(intent: &Intent, node: NodeId) -> bool
    ensures { result ≡ list_any (λ m. same_node m.node node) intent.now.new }
{
    intent
        .new
        .as_slice()
        .iter()
        .any(|m| is_same_node(m.node, node))
}

/// Whether an intent makes a node.
pub fn is_new(intent: &Intent, node: NodeId) -> bool
    ensures { result ≡ is_new intent.now node }
{
    is_listed(intent, node)
}

/// Where an intent puts a node first.
pub fn put_of(intent: &Intent, node: NodeId) -> Option<&To>
    ensures { option_copied result ≡ put_of intent.now node }
{
    for put in intent.put.as_slice() {
        if is_same_node(put.node, node) {
            return Some(&put.to);
        }
    }
    None
}

/// Whether one of some cells has that name.
pub fn has_cell(cells: &[Owned], cell: CellId) -> bool
    ensures { result ≡ list_any (λ o. same_cell o.cell cell) cells.now }
{
    cells.iter().any(|o| is_same_cell(o.cell, cell))
}

/// Whether one of some groups has a cell of that name.
pub fn is_made(groups: &[Group], cell: CellId) -> bool
    ensures { result ≡ makes groups.now cell }
{
    groups.iter().any(|g| has_cell(g.cells.as_slice(), cell))
}

/// In whose row an intent makes a cell.
pub fn new_row_of(intent: &Intent, cell: CellId) -> Option<NodeId>
    ensures { result ≡ new_row_of intent.now cell }
{
    for group in intent.groups.as_slice() {
        if has_cell(group.cells.as_slice(), cell) {
            return Some(group.node);
        }
    }
    None
}
