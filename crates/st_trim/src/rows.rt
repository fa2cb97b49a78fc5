//! Rows of which fewer nodes are named.
ghost use Rattle.std.specs.Prelude.{◌≡◌, ◌∷◌, [], ◌++◌, ◌+◌, ◌≤◌, ◌<◌, ◌^◌, length, map, IfOk, OnOk, List as Seq};
ghost use Rattle.std.specs.BTreeSet.{contains};
ghost use Rattle.std.specs.List.{filter_map, list_any};
ghost use Rattle.std.specs.Option.{option_to_list};
ghost use Rattle.st_ids.specs.Order.{node_cmp};
ghost use Rattle.st_marks.specs.Embedding.{row_marks};
ghost use Rattle.st_marks.specs.declared.marks.How.TheVariants.{Stay};
ghost use Rattle.st_marks.specs.Row.{CellMark, Touch as TouchCell, counted_cells, merge, spread};
ghost use Rattle.st_mention_laws.specs.Tells.{mark_tells};
ghost use Rattle.st_rows.specs.Merged.{count_in};
ghost use Rattle.st_trim.specs.Trimmed.{trim_mark};
ghost use Rattle.st_trim.specs.inside.Cut.{AreShort, cut_row, skips};

use st_ids::{CellId, List, NodeId};
use st_marks::{How, Mark, RowMarks};
use std::alloc::{AllocError, Global};
use std::collections::BTreeSet;

// What is said of a node that stays where some nodes alone are named.
fn trim_stay(named: &BTreeSet<NodeId>, cell: CellId, node: NodeId) -> Mark
    ensures { spread (result ∷ []) ≡ trim_mark (contains node_cmp named.now) (TouchCell cell node Stay) ∷ [] }
{
    if named.contains(&node) {
        Mark::Touch {
            cell,
            node,
            how: How::Stay,
        }
    } else {
        Mark::Skip(1)
    }
}

// What is said of a cell where some nodes alone are named.
fn trim_mark(named: &BTreeSet<NodeId>, mark: Mark) -> Mark
    ensures { spread (result ∷ []) ≡ map (trim_mark (contains node_cmp named.now)) (spread (mark ∷ [])) }
{
    match mark {
        Mark::Skip(count) => Mark::Skip(count),
        Mark::Gap(cell) => Mark::Gap(cell),
        Mark::Touch {
            cell,
            node,
            how: How::Stay,
        } => trim_stay(named, cell, node),
        Mark::Touch {
            cell,
            node,
            how: How::Here,
        } => Mark::Touch {
            cell,
            node,
            how: How::Here,
        },
        Mark::Touch {
            cell,
            node,
            how: How::Leave,
        } => Mark::Touch {
            cell,
            node,
            how: How::Leave,
        },
        Mark::Make { cell, node, full } => Mark::Make { cell, node, full },
        Mark::Fill { cell, node } => Mark::Fill { cell, node },
    }
}

// Adds counted cells, if there are some.
fn push_count(out: &mut List<Mark>, count: u32) -> Result<(), AllocError>
    ensures { OnOk result (out.new ≡ out.old ++ skips count) }
{
    if count > 0 {
        out.push(Mark::Skip(count))?;
    }
    Ok(())
}

// Adds counted cells and a mark behind them.
fn push_behind(out: &mut List<Mark>, count: u32, mark: Mark) -> Result<(), AllocError>
    ensures { OnOk result (out.new ≡ (out.old ++ skips count) ++ mark ∷ []) }
{
    push_count(out, count)?;
    out.push(mark)?;
    Ok(())
}

// How many cells a mark counts, if it counts cells.
fn count_of(mark: Mark) -> Option<u32>
    ensures { result ≡ count_in mark }
{
    match mark {
        Mark::Skip(count) => Some(count),
        _ => None,
    }
}

// Adds a mark behind others and some counted cells, unless it counts cells itself: then these are counted with it. The count
// of cells that aren't added yet.
fn push(out: &mut List<Mark>, count: u32, mark: Mark) -> Result<u32, AllocError>
    ensures fewer { IfOk result (λ left. left ≤ count + length (spread (mark ∷ []))) }
    ensures cells { IfOk result (λ left. (rest : Seq CellMark) → count + length (spread (mark ∷ [])) < 2 ^ 32
        → out.old ++ merge (counted_cells count (spread (mark ∷ []) ++ rest)) ≡ out.new ++ merge (counted_cells left rest)) }
{
    match count_of(mark) {
        Some(more) => Ok(count.saturating_add(more)),
        None => {
            push_behind(out, count, mark)?;
            Ok(0)
        }
    }
}

// The marks of a row where some nodes alone are named.
fn trim_marks(
    alloc: Global,
    named: &BTreeSet<NodeId>,
    marks: &[Mark],
) -> Result<List<Mark>, AllocError>
    ensures { length (spread marks.now) < 2 ^ 32
        → IfOk result (λ l. l ≡ merge (map (trim_mark (contains node_cmp named.now)) (spread marks.now))) }
{
    let mut out = List::new(alloc);
    let mut count = 0;
    for mark in marks {
        count = push(&mut out, count, trim_mark(named, *mark))?;
    }
    push_count(&mut out, count)?;
    Ok(out)
}

// Whether a mark tells something.
fn tells_mark(mark: Mark) -> bool
    ensures { result ≡ mark_tells mark }
{
    match mark {
        Mark::Skip(_) | Mark::Gap(_) => false,
        _ => true,
    }
}

// Whether one of some marks tells something.
fn any_tells(marks: &[Mark]) -> bool
    ensures { result ≡ list_any mark_tells marks.now }
{
    marks.iter().any(|mark| tells_mark(*mark))
}

// A row, if its marks tell something.
fn listed(node: NodeId, marks: List<Mark>) -> Option<RowMarks>
    ensures { (cells : Seq CellMark) → marks ≡ merge cells → result ≡ row_marks node cells }
{
    if any_tells(marks.as_slice()) {
        Some(RowMarks { node, marks })
    } else {
        None
    }
}

// A row where some nodes alone are named, if it still tells something.
fn trim_row(
    alloc: Global,
    named: &BTreeSet<NodeId>,
    row: &RowMarks,
) -> Result<Option<RowMarks>, AllocError>
    ensures { length (spread row.now.marks) < 2 ^ 32 → IfOk result (λ o. o ≡ cut_row (contains node_cmp named.now) row.now) }
{
    let marks = trim_marks(alloc, named, row.marks.as_slice())?;
    Ok(listed(row.node, marks))
}

// Puts a row behind others, if there is one.
fn push_row(rows: &mut List<RowMarks>, row: Option<RowMarks>) -> Result<(), AllocError>
    ensures { OnOk result (rows.new ≡ rows.old ++ option_to_list row) }
{
    match row {
        None => Ok(()),
        Some(row) => {
            rows.push(row)?;
            Ok(())
        }
    }
}

/// Rows where some nodes alone are named, without those that tell nothing more.
pub fn trim_rows(
    alloc: Global,
    named: &BTreeSet<NodeId>,
    rows: &[RowMarks],
) -> Result<List<RowMarks>, AllocError>
    ensures { AreShort rows.now → IfOk result (λ l. l ≡ filter_map (cut_row (contains node_cmp named.now)) rows.now) }
{
    let mut trimmed = List::new(alloc);
    for row in rows {
        push_row(&mut trimmed, trim_row(alloc, named, row)?)?;
    }
    Ok(trimmed)
}
