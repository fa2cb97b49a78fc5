//! The rows that a step leaves, told as rows that are found.
ghost use Rattle.std.specs.Prelude.{◌≡◌, map, not, IfOk};
ghost use Rattle.st_marks.specs.How.{is_leave};
ghost use Rattle.st_agree_turn.specs.inside.Left.{left_cell, left_mark as left, row_left as of_row};

use st_ids::{CellId, List, NodeId};
use st_marks::{How, Mark, RowMarks};
use std::alloc::{AllocError, Global};

// A cell that is left with its node, or empty.
fn cell_left(cell: CellId, node: NodeId, full: bool) -> Mark
    ensures { result ≡ left_cell cell node full }
{
    if full {
        let how = How::Stay;
        Mark::Touch { cell, node, how }
    } else {
        Mark::Fill { cell, node }
    }
}

// Whether a node stays in its cell.
fn stays(how: How) -> bool
    ensures { result ≡ not (is_leave how) }
{
    match how {
        How::Leave => false,
        _ => true,
    }
}

// What a mark leaves, as a mark that finds it.
fn left_mark(mark: Mark) -> Mark
    ensures { result ≡ left mark }
{
    match mark {
        Mark::Skip(count) => Mark::Skip(count),
        Mark::Gap(cell) => Mark::Gap(cell),
        Mark::Touch { cell, node, how } => cell_left(cell, node, stays(how)),
        Mark::Make { cell, node, full } => cell_left(cell, node, full),
        Mark::Fill { cell, node } => cell_left(cell, node, true),
    }
}

// What marks leave.
fn marks_left(alloc: Global, marks: &[Mark]) -> Result<List<Mark>, AllocError>
    ensures { IfOk result (λ l. l ≡ map left marks.now) }
{
    let mut list = List::new(alloc);
    for mark in marks {
        list.push(left_mark(*mark))?;
    }
    Ok(list)
}

// What is left of a row.
fn row_left(alloc: Global, row: &RowMarks) -> Result<RowMarks, AllocError>
    ensures { IfOk result (λ r. r ≡ of_row row.now) }
{
    let marks = marks_left(alloc, row.marks.as_slice())?;
    Ok(RowMarks {
        node: row.node,
        marks,
    })
}

/// What is left of each row, as a row that is found.
pub fn rows_left(alloc: Global, rows: &[RowMarks]) -> Result<List<RowMarks>, AllocError>
    ensures { IfOk result (λ l. l ≡ map of_row rows.now) }
{
    let mut list = List::new(alloc);
    for row in rows {
        list.push(row_left(alloc, row)?)?;
    }
    Ok(list)
}
