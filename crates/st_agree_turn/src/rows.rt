//! Rows that one step leaves and another finds.
ghost use Rattle.std.specs.Prelude.{◌≡◌, ◌++◌, OnOk};
ghost use Rattle.std.specs.BTreeSet.{contains};
ghost use Rattle.std.specs.List.{flat_map};
ghost use Rattle.std.specs.Option.{option_copied};
ghost use Rattle.st_ids.specs.Listing.{IsRising};
ghost use Rattle.st_ids.specs.Order.{node_cmp};
ghost use Rattle.st_marks.specs.declared.marks.RowMarks.{RowMarks as Row};
ghost use Rattle.st_marks.specs.Listings.{cells_before, listing_after_step, listing_before_step};
ghost use Rattle.st_marks.specs.Row.{spread};
ghost use Rattle.st_moves.specs.Index.{IsIndex};
ghost use Rattle.st_clash.specs.Adds.{Adds};
ghost use Rattle.st_agree_turn.specs.Rules.{RowsApart};
ghost use Rattle.st_agree_turn.specs.inside.Rows.{is_otherwise as otherwise, row_apart};

use crate::left::rows_left;
use st_clash::{row_field, shows_same};
use st_climb::new_names;
use st_ids::{FieldId, List, NodeId};
use st_marks::{RowMarks, Step};
use st_moves::{index_rows, row_in};
use std::alloc::{AllocError, Global};
use std::collections::{BTreeMap, BTreeSet};

// What a step leaves of rows, which are looked into by node, and the nodes that it makes.
#[derive(Clone, Copy)]
struct Left<'a> {
    rows: &'a List<RowMarks>,
    index: &'a BTreeMap<NodeId, usize>,
    made: &'a BTreeSet<NodeId>,
}

// Whether a row was left otherwise than it is found.
fn is_otherwise(left: Option<&RowMarks>, made: bool, row: &RowMarks) -> bool
    ensures { result ≡ otherwise (option_copied left.entry) made (cells_before (spread row.now.marks)) }
{
    match left {
        Some(left) => !shows_same(left.marks.as_slice(), row.marks.as_slice()),
        None => made && !shows_same(&[], row.marks.as_slice()),
    }
}

// Adds the field of a row that was left otherwise than it is found.
fn push_row(
    alloc: Global,
    found: &mut List<FieldId>,
    left: &Left<'_>,
    row: &RowMarks,
) -> Result<(), AllocError>
    requires { IsIndex node_cmp (λ (r : Row). r.node) left.now.rows.now left.now.index.now }
    ensures { OnOk result (found.new ≡ found.old ++ row_apart left.now.rows.now (contains node_cmp left.now.made.now) row.now) }
{
    let there = row_in(left.rows, left.index, row.node);
    if is_otherwise(there, left.made.contains(&row.node), row) {
        found.push(row_field(alloc, row.node))?;
    }
    Ok(())
}

// Adds the fields of the rows that were left otherwise than they are found.
fn push_all(
    alloc: Global,
    found: &mut List<FieldId>,
    left: &Left<'_>,
    rows: &[RowMarks],
) -> Result<(), AllocError>
    requires { IsIndex node_cmp (λ (r : Row). r.node) left.now.rows.now left.now.index.now }
    ensures { OnOk result (found.new ≡ found.old ++ flat_map (row_apart left.now.rows.now (contains node_cmp left.now.made.now)) rows.now) }
{
    for row in rows {
        push_row(alloc, found, left, row)?;
    }
    Ok(())
}

// The same, by rows that are left.
fn push_listed(
    alloc: Global,
    found: &mut List<FieldId>,
    lefts: &List<RowMarks>,
    made: &BTreeSet<NodeId>,
    rows: &[RowMarks],
) -> Result<(), AllocError>
    ensures { OnOk result (found.new ≡ found.old ++ flat_map (row_apart lefts.now (contains node_cmp made.now)) rows.now) }
{
    let index = index_rows(alloc, lefts.as_slice())?;
    let left = Left {
        rows: lefts,
        index: &index,
        made,
    };
    push_all(alloc, found, &left, rows)
}

/// Adds the fields of the rows that one step leaves otherwise than another finds them: where both list a row, or the second lists
/// one of a node that the first makes. Takes O(n log n) for n marks, whatever a Skip counts.
pub fn push_rows(
    alloc: Global,
    found: &mut List<FieldId>,
    first: &Step,
    then: &Step,
) -> Result<(), AllocError>
    requires { IsRising node_cmp (λ (r : Row). r.node) then.now.rows }
    ensures { OnOk result (Adds found.old found.new (RowsApart (listing_after_step first.now) (listing_before_step then.now)) (Unit {0})) }
{
    let lefts = rows_left(alloc, first.rows.as_slice())?;
    let made = new_names(alloc, first.new.as_slice())?;
    push_listed(alloc, found, &lefts, &made, then.rows.as_slice())
}
