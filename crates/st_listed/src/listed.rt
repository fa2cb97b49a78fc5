//! Whole changes and steps.
ghost use Rattle.std.specs.Prelude.{◌≡◌, ◌^◌, [], length, map, nat_lt, unwrap_or, IfOk, OnOk};
ghost use Rattle.std.specs.BTreeMap.{get};
ghost use Rattle.st_ids.specs.Order.{node_cmp};
ghost use Rattle.st_marks.specs.declared.intents.Intent.{Intent};
ghost use Rattle.st_marks.specs.declared.marks.RowMarks.{RowMarks as Row};
ghost use Rattle.st_marks.specs.CarryOut.{full};
ghost use Rattle.st_marks.specs.Document.{Document, HasShortRows};
ghost use Rattle.st_marks.specs.Embedding.{IsEmbedding};
ghost use Rattle.st_marks.specs.Row.{spread};
ghost use Rattle.st_marks.specs.Step.{IsStep};
ghost use Rattle.st_forest.specs.Stands.{StandsFor};
ghost use Rattle.st_mention_laws.specs.Shown.{Shows, ShowsStep};
ghost use Rattle.st_listed.specs.inside.Rows.{change_row, step_row};

use crate::rows::{name_change, name_step};
use st_chunks::ChunkRow;
use st_forest::Forest;
use st_ids::{Copied, List, NodeId};
use st_marks::{Change, RowMarks, Step, after};
use std::alloc::{AllocError, Global};

/// So many cells are too many for a row.
const TOO_MANY: u64 = 4_294_967_296;

// The slots of a node's row.
fn slots_in<'a>(forest: &'a Forest, none: &'a ChunkRow, node: NodeId) -> &'a ChunkRow
    requires { none.now ≡ [] }
    ensures { result.now ≡ unwrap_or (get node_cmp forest.now.rows node) [] }
{
    match forest.rows.get(&node) {
        None => none,
        Some(slots) => slots,
    }
}

// Whether a row lists few enough cells.
fn is_short(row: &RowMarks) -> bool
    ensures { result ≡ nat_lt (length (spread row.now.marks)) (2 ^ 32) }
{
    after(&row.marks) < TOO_MANY
}

// A row of a change, with the empty cells named that the forest has there.
fn list_change_row(
    alloc: Global,
    forest: &Forest,
    none: &ChunkRow,
    row: &RowMarks,
) -> Result<RowMarks, AllocError>
    requires { none.now ≡ [] }
    ensures { IfOk result (λ r. r ≡ change_row (unwrap_or (get node_cmp forest.now.rows row.now.node) []) row.now) }
{
    if !is_short(row) {
        return row.copy(alloc);
    }
    let marks = name_change(alloc, slots_in(forest, none, row.node), &row.marks)?;
    Ok(RowMarks {
        node: row.node,
        marks,
    })
}

// A row of a step, with the empty cells named that the forest has there.
fn list_step_row(
    alloc: Global,
    forest: &Forest,
    none: &ChunkRow,
    row: &RowMarks,
) -> Result<RowMarks, AllocError>
    requires { none.now ≡ [] }
    ensures { IfOk result (λ r. r ≡ step_row (unwrap_or (get node_cmp forest.now.rows row.now.node) []) row.now) }
{
    let marks = name_step(alloc, slots_in(forest, none, row.node), &row.marks)?;
    Ok(RowMarks {
        node: row.node,
        marks,
    })
}

// The rows of a change.
fn change_rows(
    alloc: Global,
    forest: &Forest,
    rows: &[RowMarks],
) -> Result<List<RowMarks>, AllocError>
    ensures { IfOk result (λ l. l ≡ map (λ (r : Row). change_row (unwrap_or (get node_cmp forest.now.rows r.node) []) r) rows.now) }
{
    let none = ChunkRow::new(alloc);
    let mut listed = List::new(alloc);
    for row in rows {
        listed.push(list_change_row(alloc, forest, &none, row)?)?;
    }
    Ok(listed)
}

// The rows of a step.
fn step_rows(
    alloc: Global,
    forest: &Forest,
    rows: &[RowMarks],
) -> Result<List<RowMarks>, AllocError>
    ensures { IfOk result (λ l. l ≡ map (λ (r : Row). step_row (unwrap_or (get node_cmp forest.now.rows r.node) []) r) rows.now) }
{
    let none = ChunkRow::new(alloc);
    let mut listed = List::new(alloc);
    for row in rows {
        listed.push(list_step_row(alloc, forest, &none, row)?)?;
    }
    Ok(listed)
}

/// A change as its author tells it: each empty cell of a row that it lists is named, in place, by the forest of the document where the
/// change stands. It goes through these rows whole. After an `Err` the change is as it was.
pub fn list_change(alloc: Global, forest: &Forest, change: &mut Change) -> Result<(), AllocError>
    ensures { OnOk result ((D : Document) (N : Intent) → StandsFor forest.now D → HasShortRows (full D N)
        → Shows D N change.entry.now → IsEmbedding D N change.exit.now) }
{
    change.rows = change_rows(alloc, forest, change.rows.as_slice())?;
    Ok(())
}

/// A step with each empty cell named of a row that it lists, in place, by the forest of the document to which it leads. It goes
/// through these rows whole. After an `Err` the step is as it was.
pub fn list_step(alloc: Global, forest: &Forest, step: &mut Step) -> Result<(), AllocError>
    ensures { OnOk result ((D E : Document) → StandsFor forest.now E
        → ShowsStep D E step.entry.now → IsStep D E step.exit.now) }
{
    step.rows = step_rows(alloc, forest, step.rows.as_slice())?;
    Ok(())
}
