//! What a place of a path leads to, found in a forest.
ghost use Rattle.std.specs.Prelude.{◌≡◌, ◌<◌, ◌^◌, ◌==◌, if◌then◌else◌, filter, option_map, slice_get, None, IfOk, IfSome};
ghost use Rattle.st_edits.specs.Paths.{child, field_at};
ghost use Rattle.st_forest.specs.Stands.{StandsFor};
ghost use Rattle.st_marks.specs.Document.{Document};
ghost use Rattle.st_marks.specs.LiveTree.{live_slots};
ghost use Rattle.st_marks.specs.declared.places.Slot.{Slot};

use st_chunks::ChunkRow;
use st_forest::Forest;
use st_ids::{Copied, FieldId, Key, NodeId, Place};
use std::alloc::{AllocError, Global};

// Who owns the cell at a place of a row.
fn owner_at(row: &ChunkRow, place: u64) -> Option<NodeId>
    ensures { result ≡ option_map (λ (s : Slot). s.node) (slice_get row.now place) }
{
    match row.get(place) {
        Ok(slot) => Some(slot.node),
        Err(_) => None,
    }
}

// The item of an index among those that a row shows; it has fewer than 2^32.
fn item_in(row: &ChunkRow, index: u64) -> Option<NodeId>
    ensures item { result ≡ option_map (λ (s : Slot). s.node) (slice_get (filter (λ (s : Slot). s.full) row.now) index) }
    ensures within { IfSome result (λ _. index < 2 ^ 32) }
{
    if index >= row.len() {
        return None;
    }
    match row.full_place(index) {
        Ok(place) => owner_at(row, place),
        Err(_) => None,
    }
}

// The item of an index in a node's row.
fn item(forest: &Forest, node: NodeId, index: u64) -> Option<NodeId>
    ensures item { (D : Document) → StandsFor forest.now D
        → result ≡ option_map (λ (s : Slot). s.node) (slice_get (live_slots D node) index) }
    ensures within { IfSome result (λ _. index < 2 ^ 32) }
{
    match forest.slots(node) {
        Some(row) => item_in(row, index),
        None => None,
    }
}

// The node in a register.
fn held_at(
    alloc: Global,
    forest: &Forest,
    node: NodeId,
    key: &Key,
) -> Result<Option<NodeId>, AllocError>
    ensures { IfOk result (λ n. (D : Document) → StandsFor forest.now D → n ≡ D.held (field_at node key.now)) }
{
    let key = key.copy(alloc)?;
    Ok(forest.held(&FieldId { node, key }))
}

// The node in a register of which an index, which has to be 0, says the item.
fn only_item(
    alloc: Global,
    forest: &Forest,
    node: NodeId,
    key: &Key,
    index: u64,
) -> Result<Option<NodeId>, AllocError>
    ensures item { IfOk result (λ n. (D : Document) → StandsFor forest.now D
        → n ≡ (if index == 0 then D.held (field_at node key.now) else None)) }
    ensures within { IfOk result (λ n. IfSome n (λ _. index < 2 ^ 32)) }
{
    if index != 0 {
        return Ok(None);
    }
    held_at(alloc, forest, node, key)
}

/// The item of an index in the field of a node under a key, the node's row if that is empty: a row has the items that it shows, and
/// any other field one, of the index 0, if a node is in it. It takes a search in the row, or a look-up. A row has fewer than 2^32.
pub fn item_at(
    alloc: Global,
    forest: &Forest,
    node: NodeId,
    key: &Key,
    index: u64,
) -> Result<Option<NodeId>, AllocError>
    ensures item { IfOk result (λ n. (D : Document) → StandsFor forest.now D
        → n ≡ child D node (record { key = key.now; index = index })) }
    ensures within { IfOk result (λ n. IfSome n (λ _. index < 2 ^ 32)) }
{
    if key.0.is_empty() {
        Ok(item(forest, node, index))
    } else {
        only_item(alloc, forest, node, key, index)
    }
}

/// The node to which a place of a path leads from a node.
pub fn child(
    alloc: Global,
    forest: &Forest,
    node: NodeId,
    place: &Place,
) -> Result<Option<NodeId>, AllocError>
    ensures { IfOk result (λ n. (D : Document) → StandsFor forest.now D → n ≡ child D node place.now) }
{
    item_at(alloc, forest, node, &place.key, place.index as u64)
}
