//! Whether one document extends another: it has all that the other has, in the same order.
ghost use Rattle.std.specs.Prelude.{◌≡◌, ◌↔◌, ◌&&◌, true, IfOk};
ghost use Rattle.std.specs.List.{list_all};
ghost use Rattle.std.specs.Option.{option_copied};
ghost use Rattle.st_marks.specs.Document.{IsSoundInForm, first_of};
ghost use Rattle.st_marks.specs.Extends.{IsExtendedBy};
ghost use Rattle.st_doc.specs.Doc.{document_of};
ghost use Rattle.st_later.specs.inside.Extending.{begin_alike, is_sublist, keeps_node, next_after};

use crate::same::{is_same_first, is_same_leaf, is_same_owned, is_same_type};
use st_doc::Doc;
use st_ids::NodeId;
use st_marks::{Owned, SchemaEntry};
use std::alloc::{AllocError, Global};

// The next cell to look for, after a cell of the longer row was looked at.
fn next_after(cells: &[Owned], next: usize, owned: &Owned) -> usize
    ensures { result ≡ next_after cells.now next owned.now }
{
    match cells.get(next) {
        Some(cell) if is_same_owned(cell, owned) => next + 1,
        _ => next,
    }
}

// Whether each cell of a row is in another, in the same order.
fn is_sublist(before: &[Owned], after: &[Owned]) -> bool
    ensures { result ≡ is_sublist before.now after.now }
{
    let mut next = 0;
    for owned in after {
        next = next_after(before, next, owned);
    }
    next == before.len()
}

// Whether a node is what it was, and its row has all the cells that it had, in the same order.
fn keeps_node(before: &Doc, after: &Doc, node: NodeId) -> bool
    ensures { result ≡ keeps_node (document_of before.now) (document_of after.now) node }
{
    is_same_type(before.type_of(node), after.type_of(node))
        && is_same_leaf(before.leaf_of(node), after.leaf_of(node))
        && is_sublist(before.cells(node), after.cells(node))
}

// Whether some nodes are what they were, and their rows have all the cells that they had.
fn keeps_nodes(before: &Doc, after: &Doc, nodes: &[NodeId]) -> bool
    ensures { result ≡ list_all (keeps_node (document_of before.now) (document_of after.now)) nodes.now }
{
    nodes.iter().all(|node| keeps_node(before, after, *node))
}

// The first schema entry in effect, if there is one.
fn first_entry(doc: &Doc) -> Option<&SchemaEntry>
    ensures { option_copied result ≡ first_of (document_of doc.now).schemas }
{
    doc.schemas().first()
}

// Whether both begin with the same schema entry.
fn begin_alike(before: &Doc, after: &Doc) -> bool
    ensures { result ≡ begin_alike (document_of before.now) (document_of after.now) }
{
    is_same_first(first_entry(before), first_entry(after))
}

// Whether some nodes are what they were, and their rows have all the cells that they had, and both documents begin with
// the same schema entry.
fn keeps_all(before: &Doc, after: &Doc, nodes: &[NodeId]) -> bool
    ensures { result ≡ (begin_alike (document_of before.now) (document_of after.now)
        && list_all (keeps_node (document_of before.now) (document_of after.now)) nodes.now) }
{
    begin_alike(before, after) && keeps_nodes(before, after, nodes)
}

/// Whether a document extends an earlier one: each node is there with its type and its value, each cell in the same row
/// with the same owner, the cells of each row in the same order, and both begin with the same schema entry. What stands
/// where may differ. Both have to be sound in form, as every document is that was opened and in which intents that fit
/// were carried out. It goes through all nodes and cells, in O(d log d) for d names in both.
pub fn is_extended_by(alloc: Global, before: &Doc, after: &Doc) -> Result<bool, AllocError>
    requires before { IsSoundInForm (document_of before.now) }
    requires after { IsSoundInForm (document_of after.now) }
    ensures { IfOk result (λ b. (b ≡ true) ↔ IsExtendedBy (document_of before.now) (document_of after.now)) }
{
    let nodes = before.nodes(alloc)?;
    Ok(keeps_all(before, after, nodes.as_slice()))
}
