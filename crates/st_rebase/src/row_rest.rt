//! What is left of a step's row.
ghost use Rattle.std.specs.Prelude.{◌≡◌, IfOk, map};
ghost use Rattle.std.specs.BTreeSet.{contains};
ghost use Rattle.st_ids.specs.Order.{node_cmp};
ghost use Rattle.st_marks.specs.Row.{merge, spread};
ghost use Rattle.st_marks.specs.declared.marks.How.TheVariants.{Leave};
ghost use Rattle.st_marks.specs.declared.marks.Mark.{Mark as Step};
ghost use Rattle.st_rows.specs.Merged.{IsMerged};
ghost use Rattle.st_rebase.specs.Rest.{rest_row};
ghost use Rattle.st_rebase.specs.inside.Marks.{rest_of};

use st_ids::{CellId, List, NodeId};
use st_marks::{How, Mark};
use std::alloc::{AllocError, Global};
use std::collections::BTreeSet;

// A full cell that its node leaves, unless it stands elsewhere already.
fn left_of(named: &BTreeSet<NodeId>, cell: CellId, node: NodeId) -> Mark
    ensures { result ≡ rest_of (contains node_cmp named.now) (Step.Touch cell node Leave) }
{
    if named.contains(&node) {
        Mark::Gap(cell)
    } else {
        Mark::Touch {
            cell,
            node,
            how: How::Leave,
        }
    }
}

// A cell that its node comes into, unless it stands there already.
fn filled_by(named: &BTreeSet<NodeId>, cell: CellId, node: NodeId) -> Mark
    ensures { result ≡ rest_of (contains node_cmp named.now) (Step.Fill cell node) }
{
    if named.contains(&node) {
        Mark::Touch {
            cell,
            node,
            how: How::Stay,
        }
    } else {
        Mark::Fill { cell, node }
    }
}

// What is left of one mark.
fn rest_mark(named: &BTreeSet<NodeId>, mark: Mark) -> Mark
    ensures { result ≡ rest_of (contains node_cmp named.now) mark }
{
    match mark {
        Mark::Touch {
            cell,
            node,
            how: How::Here,
        } => Mark::Touch {
            cell,
            node,
            how: How::Stay,
        },
        Mark::Touch {
            cell,
            node,
            how: How::Leave,
        } => left_of(named, cell, node),
        Mark::Make { cell, node, full } => {
            if full {
                filled_by(named, cell, node)
            } else {
                Mark::Gap(cell)
            }
        }
        Mark::Fill { cell, node } => filled_by(named, cell, node),
        _ => mark,
    }
}

// The marks, one by one.
fn rest_each(
    alloc: Global,
    named: &BTreeSet<NodeId>,
    marks: &[Mark],
) -> Result<List<Mark>, AllocError>
    ensures { IfOk result (λ l. l ≡ map (rest_of (contains node_cmp named.now)) marks.now) }
{
    let mut rest = List::new(alloc);
    for mark in marks {
        rest.push(rest_mark(named, *mark))?;
    }
    Ok(rest)
}

/// What is left of a step's row where the nodes of `named` stand already as the step puts them. The marks are in their normal
/// form if the step's are.
pub fn rest_marks(
    alloc: Global,
    named: &BTreeSet<NodeId>,
    marks: &[Mark],
) -> Result<List<Mark>, AllocError>
    ensures { IsMerged marks.now → IfOk result (λ l. l ≡ merge (rest_row (contains node_cmp named.now) (spread marks.now))) }
{
    rest_each(alloc, named, marks)
}
