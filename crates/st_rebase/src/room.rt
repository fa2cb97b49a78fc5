//! Whether what a change and a step list together fits rows.
ghost use Rattle.std.specs.Prelude.{◌≡◌, ◌↔◌, [], true, IfOk};
ghost use Rattle.std.specs.List.{list_all};
ghost use Rattle.st_ids.specs.Order.{node_cmp};
ghost use Rattle.st_marks.specs.declared.marks.RowMarks.{RowMarks as Row};
ghost use Rattle.st_marks.specs.Listings.{marks_of};
ghost use Rattle.st_marks.specs.Row.{spread};
ghost use Rattle.st_moves.specs.Index.{IsIndex};
ghost use Rattle.st_moves.specs.Room.{HasRoomInRows};
ghost use Rattle.st_rebase.specs.inside.Room.{has_room_at};

use crate::rows::has_room;
use st_ids::{List, NodeId};
use st_marks::{Change, Mark, RowMarks, Step};
use st_moves::{index_rows, row_in};
use std::alloc::{AllocError, Global};
use std::collections::BTreeMap;

// The marks that are listed of a node's row, or those of a row that isn't listed.
fn marks_in<'a>(
    rows: &'a List<RowMarks>,
    index: &BTreeMap<NodeId, usize>,
    none: &'a List<Mark>,
    node: NodeId,
) -> &'a List<Mark>
    requires index { IsIndex node_cmp (λ (r : Row). r.node) rows.now index.now }
    requires none { none.now ≡ [] }
    ensures { spread result.now ≡ marks_of rows.now node }
{
    match row_in(rows, index, node) {
        None => none,
        Some(row) => &row.marks,
    }
}

// Whether two rows have room for each other's cells.
fn have_room(change: &List<Mark>, step: &List<Mark>) -> bool
    ensures { result ≡ has_room_at (spread change.now) (spread step.now) }
{
    has_room(change, step) && has_room(step, change)
}

// Whether there is room in each row that is listed in a third list.
fn all_have_room(
    alloc: Global,
    listed: &List<RowMarks>,
    change: &List<RowMarks>,
    step: &List<RowMarks>,
) -> Result<bool, AllocError>
    ensures { IfOk result (λ b. b ≡ list_all (λ (r : Row). has_room_at (marks_of change.now r.node) (marks_of step.now r.node)) listed.now) }
{
    let none = List::new(alloc);
    let by_change = index_rows(alloc, change.as_slice())?;
    let by_step = index_rows(alloc, step.as_slice())?;
    Ok(
        listed.as_slice().iter().all(|row| {
            have_room(
                marks_in(change, &by_change, &none, row.node),
                marks_in(step, &by_step, &none, row.node),
            )
        }),
    )
}

/// Whether of each row, what a change and a step make and what either finds are fewer than 2^32 cells. It is so where the
/// change's intent leaves rows short in the document after the step (`documents_have_room` of `st_moves`). Takes O(n log n)
/// for n marks.
pub fn has_room_in_rows(alloc: Global, change: &Change, step: &Step) -> Result<bool, AllocError>
    ensures { IfOk result (λ b. (b ≡ true) ↔ HasRoomInRows change.now step.now) }
{
    let by_change = all_have_room(alloc, &change.rows, &change.rows, &step.rows)?;
    let by_step = all_have_room(alloc, &step.rows, &change.rows, &step.rows)?;
    Ok(by_change && by_step)
}
