//! A change and a step that pass each other, over each other: each counts the cells that the other makes.
ghost use Rattle.std.specs.Prelude.{◌≡◌, [], slice_get, slice_set, IfSome, MatchOption, OnOk, List as Seq};
ghost use Rattle.std.specs.List.{AllByRecursion};
ghost use Rattle.std.specs.Option.{option_copied};
ghost use Rattle.st_ids.specs.Listing.{IsRising};
ghost use Rattle.st_ids.specs.Order.{node_cmp};
ghost use Rattle.st_marks.specs.declared.marks.RowMarks.{RowMarks as Row};
ghost use Rattle.st_over.specs.Laid.{CanBeLaid};
ghost use Rattle.st_passing.specs.Whole.{raised_change, raised_step, row_in as row_of};
ghost use Rattle.st_fast_path.specs.Raising.{CanBeRaised};
ghost use Rattle.st_fast_path.specs.inside.Counted.{AreCounted, HasRoomFor, IsRowCounted};

use st_ids::{List, NodeId};
use st_marks::{Change, RowMarks, Step};
use st_over::item_at;
use st_passing::{raise_beside, raise_counts};
use std::alloc::AllocError;

// The row that a list has of a node.
fn row_in(rows: &List<RowMarks>, node: NodeId) -> Option<&RowMarks>
    requires { IsRising node_cmp (λ (r : Row). r.node) rows.now }
    ensures { option_copied result ≡ row_of rows.now node }
{
    item_at(rows.as_slice(), &node)
}

// Counts in a row the cells that another listing makes there: a step's before those that the change makes, or a change's that
// counts the step's already.
fn count_row(row: &mut RowMarks, beside: bool, other: &List<RowMarks>) -> Result<(), AllocError>
    requires rising { IsRising node_cmp (λ (r : Row). r.node) other.now }
    requires room { HasRoomFor other.now row.now }
    ensures { OnOk result (IsRowCounted beside other.now row.old row.new) }
{
    match row_in(other, row.node) {
        None => Ok(()),
        Some(there) => {
            if beside {
                raise_beside(&mut row.marks, there.marks.as_slice())
            } else {
                raise_counts(&mut row.marks, there.marks.as_slice())
            }
        }
    }
}

// In the row at a place.
fn count_at(
    rows: &mut List<RowMarks>,
    place: usize,
    beside: bool,
    other: &List<RowMarks>,
) -> Result<(), AllocError>
    requires rising { IsRising node_cmp (λ (r : Row). r.node) other.now }
    requires room { IfSome (slice_get rows.now place) (HasRoomFor other.now) }
    ensures { OnOk result (MatchOption (slice_get rows.old place) (rows.new ≡ rows.old)
        (λ r. (q : Row) × (rows.new ≡ slice_set rows.old place q) × IsRowCounted beside other.now r q)) }
{
    match rows.get_mut(place) {
        None => Ok(()),
        Some(row) => count_row(row, beside, other),
    }
}

// In all rows.
fn count_rows(
    rows: &mut List<RowMarks>,
    beside: bool,
    other: &List<RowMarks>,
) -> Result<(), AllocError>
    requires rising { IsRising node_cmp (λ (r : Row). r.node) other.now }
    requires room { AllByRecursion (HasRoomFor other.now) rows.now }
    ensures { OnOk result (AreCounted beside other.now rows.old rows.new) }
{
    for place in 0..rows.len() {
        count_at(rows, place, beside, other)?;
    }
    Ok(())
}

/// A change and a step over each other, in place, where they pass each other: each row that both list counts the cells that the other
/// makes there. No other row is touched. After an `Err` both are spent.
pub fn raise_both(change: &mut Change, step: &mut Step) -> Result<(), AllocError>
    requires { CanBeLaid change.now step.now }
    ensures change { OnOk result (CanBeRaised change.entry.now step.entry.now → change.exit.now ≡ raised_change change.entry.now step.entry.now) }
    ensures step { OnOk result (CanBeRaised change.entry.now step.entry.now → step.exit.now ≡ raised_step change.entry.now step.entry.now) }
{
    count_rows(&mut change.rows, false, &step.rows)?;
    count_rows(&mut step.rows, true, &change.rows)
}
