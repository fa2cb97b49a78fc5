//! The cells that rows show by name, each with its place and, where it is told, its owner.
ghost use Rattle.std.specs.Prelude.{◌≡◌, ◌++◌, ◌<◌, ◌^◌, IfOk, OnOk};
ghost use Rattle.std.specs.List.{flat_map};
ghost use Rattle.st_marks.specs.Listings.{one_or_none};
ghost use Rattle.st_clash.specs.inside.Seen.{row_seen, seen_by, seen_from, shown_by};

use crate::push::push_if_some;
use st_ids::{CellId, List, NodeId};
use st_marks::{Mark, RowMarks};
use std::alloc::{AllocError, Global};

/// A cell that is shown at a place of a row, with its owner where that is told.
#[derive(Clone, Copy)]
pub struct Seen {
    pub cell: CellId,
    pub row: NodeId,
    pub place: u128,
    pub owner: Option<NodeId>,
}

// The cell that a mark shows by name, if any.
fn seen_in(row: NodeId, place: u128, mark: Mark) -> Option<Seen>
    ensures { one_or_none result ≡ seen_by row place mark }
{
    let (cell, owner) = match mark {
        Mark::Skip(_) | Mark::Make { .. } => return None,
        Mark::Gap(cell) => (cell, None),
        Mark::Touch { cell, node, .. } => (cell, Some(node)),
        Mark::Fill { cell, node } => (cell, Some(node)),
    };
    Some(Seen {
        cell,
        row,
        place,
        owner,
    })
}

// How many cells a mark shows.
fn shown_by(mark: Mark) -> u128
    ensures count { result ≡ shown_by mark }
    ensures few { result < 2 ^ 32 }
{
    match mark {
        Mark::Skip(count) => u128::from(count),
        Mark::Make { .. } => 0,
        _ => 1,
    }
}

// Adds the cells that marks of a row show by name.
fn add_seen(list: &mut List<Seen>, row: NodeId, marks: &[Mark]) -> Result<(), AllocError>
    ensures { OnOk result (list.new ≡ list.old ++ seen_from row 0 marks.now) }
{
    let mut place: u128 = 0;
    let mut rest = marks;
    'marks: while let [mark, more @ ..] = rest {
        push_if_some(list, seen_in(row, place, *mark))?;
        place += shown_by(*mark);
        rest = more;
    }
    Ok(())
}

/// The cells that rows show by name.
pub fn seen_cells(alloc: Global, rows: &[RowMarks]) -> Result<List<Seen>, AllocError>
    ensures { IfOk result (λ l. l ≡ flat_map row_seen rows.now) }
{
    let mut list = List::new(alloc);
    for row in rows {
        add_seen(&mut list, row.node, row.marks.as_slice())?;
    }
    Ok(list)
}
