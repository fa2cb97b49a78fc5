//! The rows of a change, carried out or void.
ghost use Rattle.std.specs.Prelude.{◌≡◌, ◌<◌, ◌^◌, length, map, IfOk};
ghost use Rattle.std.specs.List.{AllByRecursion};
ghost use Rattle.st_ids.specs.Listing.{IsRising};
ghost use Rattle.st_ids.specs.Order.{node_cmp};
ghost use Rattle.st_marks.specs.declared.marks.RowMarks.{RowMarks as Row};
ghost use Rattle.st_marks.specs.Embedding.{is_among as among};
ghost use Rattle.st_marks.specs.Row.{merge, spread};
ghost use Rattle.st_rows.specs.Changes.{placed_by};
ghost use Rattle.st_effect.specs.inside.Done.{cells_done, row_done as done_with};

use crate::names::is_among;
use st_ids::{List, NodeId};
use st_marks::{Mark, RowMarks};
use st_rows::{effect, void_effect};
use std::alloc::{AllocError, Global};

// The step's marks of a row, by the change's. The commit makes the nodes `new`.
fn marks_done(
    alloc: Global,
    node: NodeId,
    marks: &List<Mark>,
    void: bool,
    new: &List<NodeId>,
) -> Result<List<Mark>, AllocError>
    requires rising { IsRising node_cmp (λ n. n) new.now }
    requires short { length (spread marks.now) < 2 ^ 32 }
    ensures { IfOk result (λ t. t ≡ merge (cells_done void (placed_by (among new.now node) new.now) (spread marks.now))) }
{
    if void {
        let in_new = is_among(new, node);
        void_effect(alloc, marks, in_new, new)
    } else {
        effect(alloc, marks)
    }
}

// The step's row, by the change's.
fn row_done(
    alloc: Global,
    row: &RowMarks,
    void: bool,
    new: &List<NodeId>,
) -> Result<RowMarks, AllocError>
    requires rising { IsRising node_cmp (λ n. n) new.now }
    requires short { length (spread row.now.marks) < 2 ^ 32 }
    ensures { IfOk result (λ t. t ≡ done_with void new.now row.now) }
{
    let marks = marks_done(alloc, row.node, &row.marks, void, new)?;
    Ok(RowMarks {
        node: row.node,
        marks,
    })
}

/// The step's rows, by those of a change that is void or not. The commit makes the nodes `new`.
pub fn rows_done(
    alloc: Global,
    rows: &[RowMarks],
    void: bool,
    new: &List<NodeId>,
) -> Result<List<RowMarks>, AllocError>
    requires rising { IsRising node_cmp (λ n. n) new.now }
    requires short { AllByRecursion (λ (r : Row). length (spread r.marks) < 2 ^ 32) rows.now }
    ensures { IfOk result (λ done. done ≡ map (done_with void new.now) rows.now) }
{
    let mut done = List::new(alloc);
    for row in rows {
        done.push(row_done(alloc, row, void, new)?)?;
    }
    Ok(done)
}
