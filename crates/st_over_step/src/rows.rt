//! A row, and what marks say of it before.
ghost use Rattle.std.specs.Prelude.{◌≡◌, ◌<◌, ◌^◌, ◌↔◌, ◌∷◌, [], IfSome, IsTrue, option_copied, slice_get, unwrap_or};
ghost use Rattle.st_marks.specs.Listings.{cells_before};
ghost use Rattle.st_marks.specs.Row.{counted_cells, spread};
ghost use Rattle.st_puts.specs.Seen.{AreAsSeen, IfTold, IsAsSeen};
ghost use Rattle.st_over_step.specs.inside.Passing.{Passes};

use st_chunks::ChunkRow;
use st_ids::{CellId, NodeId, is_same_cell, is_same_node};
use st_marks::{Mark, Slot};

// The slot at a place, if there is one.
fn slot_in(row: &ChunkRow, place: u64) -> Option<Slot>
    ensures slot { result ≡ slice_get row.now place }
    ensures short { IfSome result (λ _. place < 2 ^ 32) }
{
    if place >= row.len() {
        return None;
    }
    row.get(place).ok()
}

// The slot at a place of a row, if there is one; a row that isn't there has none.
fn slot_at(row: Option<&ChunkRow>, place: u64) -> Option<Slot>
    ensures slot { result ≡ slice_get (unwrap_or (option_copied row.entry) []) place }
    ensures short { IfSome result (λ _. place < 2 ^ 32) }
{
    match row {
        None => None,
        Some(row) => slot_in(row, place),
    }
}

// Whether a cell is the one that is told, if one is.
fn is_told_cell(told: Option<CellId>, cell: CellId) -> bool
    ensures { IsTrue result ↔ IfTold told cell }
{
    match told {
        None => true,
        Some(other) => is_same_cell(other, cell),
    }
}

// Whether a node is the one that is told, if one is.
fn is_told_node(told: Option<NodeId>, node: NodeId) -> bool
    ensures { IsTrue result ↔ IfTold told node }
{
    match told {
        None => true,
        Some(other) => is_same_node(other, node),
    }
}

// Whether a slot is full or empty as it is seen, and has the names that are told of it.
fn is_as_seen(slot: Slot, cell: Option<CellId>, node: Option<NodeId>, full: bool) -> bool
    ensures { IsTrue result ↔ IsAsSeen slot (record { cell = cell; node = node; full = full }) }
{
    slot.full == full && is_told_cell(cell, slot.cell) && is_told_node(node, slot.node)
}

// The place behind a cell that is as it is seen; `None` says that none is there.
fn past_cell(
    row: Option<&ChunkRow>,
    place: u64,
    cell: Option<CellId>,
    node: Option<NodeId>,
    full: bool,
) -> Option<u64>
    ensures { Passes (unwrap_or (option_copied row.entry) []) place (record { cell = cell; node = node; full = full } ∷ []) result }
{
    let slot = slot_at(row, place)?;
    if is_as_seen(slot, cell, node, full) {
        Some(place + 1)
    } else {
        None
    }
}

// The place behind so many full cells.
fn past_full(row: Option<&ChunkRow>, place: u64, count: u32) -> Option<u64>
    ensures { Passes (unwrap_or (option_copied row.entry) []) place (cells_before (counted_cells count [])) result }
{
    let mut at = place;
    for _ in 0..count {
        at = past_cell(row, at, None, None, true)?;
    }
    Some(at)
}

// The place behind the cells that a mark finds.
fn past_mark(row: Option<&ChunkRow>, place: u64, mark: Mark) -> Option<u64>
    ensures { Passes (unwrap_or (option_copied row.entry) []) place (cells_before (spread (mark ∷ []))) result }
{
    match mark {
        Mark::Skip(count) => past_full(row, place, count),
        Mark::Gap(cell) => past_cell(row, place, Some(cell), None, false),
        Mark::Touch { cell, node, .. } => past_cell(row, place, Some(cell), Some(node), true),
        Mark::Make { .. } => Some(place),
        Mark::Fill { cell, node } => past_cell(row, place, Some(cell), Some(node), false),
    }
}

// The place behind all cells that marks find.
fn past_marks(row: Option<&ChunkRow>, marks: &[Mark]) -> Option<u64>
    ensures { Passes (unwrap_or (option_copied row.entry) []) 0 (cells_before (spread marks.now)) result }
{
    let mut place = 0;
    for mark in marks {
        place = past_mark(row, place, *mark)?;
    }
    Some(place)
}

/// Whether the cells of a row are as marks say of them before. Each cell is looked at once.
pub fn is_row_seen(row: Option<&ChunkRow>, marks: &[Mark]) -> bool
    ensures { IsTrue result ↔ AreAsSeen (unwrap_or (option_copied row.entry) []) (cells_before (spread marks.now)) }
{
    match past_marks(row, marks) {
        None => false,
        Some(place) => slot_at(row, place).is_none(),
    }
}
