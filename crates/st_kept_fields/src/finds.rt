//! What an intent says of a name, beside a document.
ghost use Rattle.std.specs.Prelude.{◌≡◌, option_map};
ghost use Rattle.std.specs.Option.{option_copied};
ghost use Rattle.st_edits.specs.Paths.{field_at};
ghost use Rattle.st_marks.specs.CarryOut.{with_names};
ghost use Rattle.st_marks.specs.Intent.{new_node, put_in, is_register};
ghost use Rattle.st_doc.specs.Doc.{document_of};

use st_doc::Doc;
use st_ids::{CellId, FieldId, Key, NodeId, Text, is_same_node};
use st_intent::new_row_of;
use st_marks::{Intent, NewNode, To};

// Whether a put leads into a register.
#[tactic(auto, unfolding(st_ids::specs::Order::same_field))]
fn is_register(node: NodeId, key: &Key, to: &To) -> bool
    ensures { result ≡ is_register (field_at node key.now) to.now }
{
    match to {
        To::Register(field) => node.cmp(&field.node).then(key.cmp(&field.key)).is_eq(),
        _ => false,
    }
}

/// Which node an intent puts first into a node's register.
pub(crate) fn put_at(intent: &Intent, node: NodeId, key: &Key) -> Option<NodeId>
    ensures { result ≡ put_in intent.now (field_at node key.now) }
{
    for put in intent.put.as_slice() {
        if is_register(node, key, &put.to) {
            return Some(put.node);
        }
    }
    None
}

/// Which node an intent puts first into a register.
pub fn put_in(intent: &Intent, field: &FieldId) -> Option<NodeId>
    ensures { result ≡ put_in intent.now field.now }
{
    put_at(intent, field.node, &field.key)
}

/// The first new node of that name.
pub(crate) fn new_node(intent: &Intent, node: NodeId) -> Option<&NewNode>
    ensures { option_copied result ≡ new_node intent.now node }
{
    for new in intent.new.as_slice() {
        if is_same_node(new.node, node) {
            return Some(new);
        }
    }
    None
}

/// The type of a node, of the document or new.
pub(crate) fn type_of<'a>(doc: &'a Doc, intent: &'a Intent, node: NodeId) -> Option<&'a Text>
    ensures { option_copied result
        ≡ option_map (λ t. t.ty) ((with_names (document_of doc.now) intent.now).nodes node) }
{
    match doc.type_of(node) {
        Some(ty) => Some(ty),
        None => Some(&new_node(intent, node)?.ty),
    }
}

/// The node in whose row a cell is, of the document or new.
pub(crate) fn row_of(doc: &Doc, intent: &Intent, cell: CellId) -> Option<NodeId>
    ensures { result ≡ (with_names (document_of doc.now) intent.now).row_of cell }
{
    match doc.row_of(cell) {
        Some(node) => Some(node),
        None => new_row_of(intent, cell),
    }
}
