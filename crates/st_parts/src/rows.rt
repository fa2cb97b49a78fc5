//! Rows of a change of which fewer nodes are named.
ghost use Rattle.std.specs.Prelude.{◌≡◌, ◌∷◌, [], ◌++◌, ◌^◌, ◌<◌, length, map, IfOk, OnOk, List as Seq};
ghost use Rattle.std.specs.BTreeSet.{contains};
ghost use Rattle.std.specs.List.{AllByRecursion, filter_map, list_any};
ghost use Rattle.std.specs.Option.{option_to_list};
ghost use Rattle.st_ids.specs.Order.{node_cmp};
ghost use Rattle.st_marks.specs.declared.marks.How.TheVariants.{Stay};
ghost use Rattle.st_marks.specs.declared.marks.RowMarks.{RowMarks as Row};
ghost use Rattle.st_marks.specs.Embedding.{row_marks};
ghost use Rattle.st_marks.specs.Listings.{cells_before};
ghost use Rattle.st_marks.specs.Row.{CellMark, Touch as TouchCell, merge, spread};
ghost use Rattle.st_mention_laws.specs.Tells.{mark_tells};
ghost use Rattle.st_trim.specs.Trimmed.{trim_mark as trimmed};
ghost use Rattle.st_trim.specs.inside.Cut.{cut_row};

use st_ids::{CellId, List, NodeId};
use st_marks::{How, Mark, RowMarks, before};
use st_rows::{Piece, Table, lay_alike};
use std::alloc::{AllocError, Global};
use std::collections::BTreeSet;

// What is said of a node that stays where some nodes alone are named.
fn trim_stay(named: &BTreeSet<NodeId>, cell: CellId, node: NodeId) -> Mark
    ensures { spread (result ∷ []) ≡ trimmed (contains node_cmp named.now) (TouchCell cell node Stay) ∷ [] }
{
    if named.contains(&node) {
        Mark::Touch {
            cell,
            node,
            how: How::Stay,
        }
    } else {
        Mark::Skip(1)
    }
}

// What is said of a cell where some nodes alone are named.
fn trim_mark(named: &BTreeSet<NodeId>, mark: Mark) -> Mark
    ensures { spread (result ∷ []) ≡ map (trimmed (contains node_cmp named.now)) (spread (mark ∷ [])) }
{
    match mark {
        Mark::Skip(count) => Mark::Skip(count),
        Mark::Touch {
            cell,
            node,
            how: How::Stay,
        } => trim_stay(named, cell, node),
        _ => mark,
    }
}

// A row beside the count of its cells, where some nodes alone are named.
#[derive(Drop)]
struct Trim<'a> {
    named: &'a BTreeSet<NodeId>,
}

impl<'a> Table for Trim<'a> {
    ghost use Rattle.std.specs.BTreeSet.{contains};
    ghost use Rattle.st_ids.specs.Order.{node_cmp};
    ghost use Rattle.st_parts.specs.inside.Cut.{trimmed_piece};

    ghost cell = { λ t. trimmed_piece (contains node_cmp t.named.now) };

    #[inline(always)]
    fn mark(&self, piece: Piece) -> Mark {
        match piece {
            Piece::Counted(count) => Mark::Skip(count),
            Piece::Both(x, _) => trim_mark(self.named, x),
            Piece::First(x) => trim_mark(self.named, x),
            Piece::Then(y) => trim_mark(self.named, y),
        }
    }
}

// So many cells as marks find, of which there are fewer than 2^32.
fn count_of(marks: &List<Mark>) -> u32
    requires { length (spread marks.now) < 2 ^ 32 }
    ensures { result ≡ length (cells_before (spread marks.now)) }
{
    before(marks) as u32
}

// The marks of a row where some nodes alone are named.
fn trim_marks(
    alloc: Global,
    named: &BTreeSet<NodeId>,
    marks: &List<Mark>,
) -> Result<List<Mark>, AllocError>
    requires { length (spread marks.now) < 2 ^ 32 }
    ensures { IfOk result (λ l. l ≡ merge (map (trimmed (contains node_cmp named.now)) (spread marks.now))) }
{
    let cells = [Mark::Skip(count_of(marks))];
    lay_alike(alloc, &Trim { named }, marks.as_slice(), &cells)
}

// Whether a mark tells something.
fn tells_mark(mark: Mark) -> bool
    ensures { result ≡ mark_tells mark }
{
    match mark {
        Mark::Skip(_) | Mark::Gap(_) => false,
        _ => true,
    }
}

// Whether one of some marks tells something.
fn any_tells(marks: &[Mark]) -> bool
    ensures { result ≡ list_any mark_tells marks.now }
{
    marks.iter().any(|mark| tells_mark(*mark))
}

// A row, if its marks tell something.
fn listed(node: NodeId, marks: List<Mark>) -> Option<RowMarks>
    ensures { (cells : Seq CellMark) → marks ≡ merge cells → result ≡ row_marks node cells }
{
    if any_tells(marks.as_slice()) {
        Some(RowMarks { node, marks })
    } else {
        None
    }
}

// A row where some nodes alone are named, if it still tells something.
fn trim_row(
    alloc: Global,
    named: &BTreeSet<NodeId>,
    row: &RowMarks,
) -> Result<Option<RowMarks>, AllocError>
    requires { length (spread row.now.marks) < 2 ^ 32 }
    ensures { IfOk result (λ o. o ≡ cut_row (contains node_cmp named.now) row.now) }
{
    let marks = trim_marks(alloc, named, &row.marks)?;
    Ok(listed(row.node, marks))
}

// Puts a row behind others, if there is one.
fn push_row(rows: &mut List<RowMarks>, row: Option<RowMarks>) -> Result<(), AllocError>
    ensures { OnOk result (rows.new ≡ rows.old ++ option_to_list row) }
{
    match row {
        None => Ok(()),
        Some(row) => {
            rows.push(row)?;
            Ok(())
        }
    }
}

/// Rows where some nodes alone are named, without those that tell nothing more.
pub fn trim_rows(
    alloc: Global,
    named: &BTreeSet<NodeId>,
    rows: &[RowMarks],
) -> Result<List<RowMarks>, AllocError>
    requires { AllByRecursion (λ (r : Row). length (spread r.marks) < 2 ^ 32) rows.now }
    ensures { IfOk result (λ l. l ≡ filter_map (cut_row (contains node_cmp named.now)) rows.now) }
{
    let mut trimmed = List::new(alloc);
    for row in rows {
        push_row(&mut trimmed, trim_row(alloc, named, row)?)?;
    }
    Ok(trimmed)
}
