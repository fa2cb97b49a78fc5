//! Whether the listings of a change and a step can be laid beside each other.
ghost use Rattle.std.specs.Prelude.{◌≡◌, ◌↔◌, ◌<◌, ◌^◌, ◌∷◌, [], length, min, true};
ghost use Rattle.st_ids.specs.Listing.{IsRising};
ghost use Rattle.st_ids.specs.Order.{node_cmp};
ghost use Rattle.st_marks.specs.declared.marks.RowMarks.{RowMarks as Row};
ghost use Rattle.st_marks.specs.Listings.{cells_made, marks_of};
ghost use Rattle.st_marks.specs.Row.{spread};
ghost use Rattle.st_rows.specs.Changes.{may_list};
ghost use Rattle.st_over.specs.Laid.{CanBeLaid};
ghost use Rattle.st_lean.specs.inside.Room.{HaveRisingRegisters, HaveRisingRows, cells_listed, has_room_at};
ghost use Rattle.st_moves.specs.Room.{HasRoomAt};
ghost use Rattle.std.specs.List.{list_all};
ghost use Rattle.st_ids.specs.declared.names.NodeId.{NodeId as Node};

use st_clash::rise;
use st_ids::{List, NodeId};
use st_marks::{Change, Mark, RowMarks, Step, after, before};
use st_over::item_at;
use std::alloc::Global;

/// More cells than this aren't counted.
const MOST: u64 = 4_294_967_296;

// How many cells a mark makes.
fn made_one(mark: &Mark) -> u64
    ensures { result ≡ length (cells_made (spread (mark.now ∷ []))) }
{
    match mark {
        Mark::Skip(_) => 0,
        Mark::Make { .. } => 1,
        _ => 0,
    }
}

// How many cells the marks make, and 2^32 where there are more.
fn made(marks: &List<Mark>) -> u64
    ensures { result ≡ min (length (cells_made (spread marks.now))) (2 ^ 32) }
{
    let mut count: u64 = 0;
    for mark in marks.as_slice() {
        count = MOST.min(count.saturating_add(made_one(mark)));
    }
    count
}

// Whether what one row makes and what another finds and makes are fewer than 2^32 cells.
fn has_room(first: &List<Mark>, then: &List<Mark>) -> bool
    ensures { (result ≡ true) ↔ (may_list (spread first.now) (spread then.now) < 2 ^ 32) }
{
    made(first) + made(then) + before(then) < MOST
}

// Whether two rows have room for each other's cells.
fn have_room(first: &List<Mark>, then: &List<Mark>) -> bool
    ensures { result ≡ has_room_at (spread first.now) (spread then.now) }
{
    has_room(first, then) && has_room(then, first)
}

// The marks that are listed of a node's row, or those of a row that isn't listed.
fn marks_in<'a>(rows: &'a List<RowMarks>, none: &'a List<Mark>, node: NodeId) -> &'a List<Mark>
    requires rising { IsRising node_cmp (λ (r : Row). r.node) rows.now }
    requires none { none.now ≡ [] }
    ensures { spread result.now ≡ marks_of rows.now node }
{
    match item_at(rows.as_slice(), &node) {
        None => none,
        Some(row) => &row.marks,
    }
}

// Whether there is room in each row that is listed in a third list.
fn all_have_room(
    alloc: Global,
    listed: &List<RowMarks>,
    change: &List<RowMarks>,
    step: &List<RowMarks>,
) -> bool
    requires change { IsRising node_cmp (λ (r : Row). r.node) change.now }
    requires step { IsRising node_cmp (λ (r : Row). r.node) step.now }
    ensures { result ≡ list_all (λ (r : Row). has_room_at (marks_of change.now r.node) (marks_of step.now r.node)) listed.now }
{
    let none = List::new(alloc);
    listed.as_slice().iter().all(|row| {
        have_room(
            marks_in(change, &none, row.node),
            marks_in(step, &none, row.node),
        )
    })
}

// Whether the rows of both rise by name.
fn have_rising_rows(change: &Change, step: &Step) -> bool
    ensures { (result ≡ true) ↔ HaveRisingRows change.now step.now }
{
    rise(change.rows.as_slice()) && rise(step.rows.as_slice())
}

// Whether the registers of both rise by name.
fn have_rising_registers(change: &Change, step: &Step) -> bool
    ensures { (result ≡ true) ↔ HaveRisingRegisters change.now step.now }
{
    rise(change.regs.as_slice()) && rise(step.regs.as_slice())
}

// How many cells rows list, and 2^32 where there are more.
fn listed(rows: &[RowMarks]) -> u64
    ensures { result ≡ min (cells_listed rows.now) (2 ^ 32) }
{
    let mut count: u64 = 0;
    for row in rows {
        count = MOST.min(count.saturating_add(after(&row.marks)));
    }
    count
}

// Whether both list few cells in all, so that there is room in each row.
fn are_few(change: &List<RowMarks>, step: &List<RowMarks>) -> bool
    ensures { result ≡ true → (n : Node) → HasRoomAt change.now step.now n }
{
    listed(change.as_slice()) + listed(step.as_slice()) < MOST
}

// Whether there is room in each row, asked row by row.
fn has_room_in_each(alloc: Global, change: &List<RowMarks>, step: &List<RowMarks>) -> bool
    requires change { IsRising node_cmp (λ (r : Row). r.node) change.now }
    requires step { IsRising node_cmp (λ (r : Row). r.node) step.now }
    ensures { (result ≡ true) ↔ ((n : Node) → HasRoomAt change.now step.now n) }
{
    let by_change = all_have_room(alloc, change, change, step);
    let by_step = all_have_room(alloc, step, change, step);
    by_change && by_step
}

// Whether there is room in each row that either lists.
fn has_room_in_rows(alloc: Global, change: &List<RowMarks>, step: &List<RowMarks>) -> bool
    requires change { IsRising node_cmp (λ (r : Row). r.node) change.now }
    requires step { IsRising node_cmp (λ (r : Row). r.node) step.now }
    ensures { (result ≡ true) ↔ ((n : Node) → HasRoomAt change.now step.now n) }
{
    are_few(change, step) || has_room_in_each(alloc, change, step)
}

/// Whether the listings of a change and a step can be laid beside each other, as those can that stand over documents with short
/// rows.
pub fn can_be_laid(alloc: Global, change: &Change, step: &Step) -> bool
    ensures { (result ≡ true) ↔ CanBeLaid change.now step.now }
{
    if !have_rising_rows(change, step) {
        return false;
    }
    have_rising_registers(change, step) && has_room_in_rows(alloc, &change.rows, &step.rows)
}
