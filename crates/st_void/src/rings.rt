//! Nodes that a change puts and that are above themselves after it.
ghost use Rattle.std.specs.Prelude.{◌≡◌, ◌↔◌, ◌++◌, ◌||◌, true, List as Seq};
ghost use Rattle.std.specs.List.{flat_map, list_any};
ghost use Rattle.st_ids.specs.Listing.{Has};
ghost use Rattle.st_ids.specs.Order.{same_node};
ghost use Rattle.st_ids.specs.declared.names.NodeId.{NodeId as Node};
ghost use Rattle.st_marks.specs.declared.marks.RegMark.{RegMark as Register};
ghost use Rattle.st_marks.specs.declared.marks.RowMarks.{RowMarks as Row};
ghost use Rattle.st_marks.specs.Document.{Reaches};
ghost use Rattle.st_marks.specs.Row.{spread};
ghost use Rattle.st_rows.specs.Reading.{cell_of};
ghost use Rattle.st_doc.specs.inside.Ahead.{IsLeastOf, least_with};
ghost use Rattle.st_void.specs.declared.standing.When.{When as Time};
ghost use Rattle.st_void.specs.Standing.{above_shown};
ghost use Rattle.st_void.specs.inside.Puts.{IsLeastRing, put_by, put_here, put_into, puts_shown};

use crate::climb::is_above;
use crate::standing::When;
use st_ids::{NodeId, is_same_node};
use st_intent::is_before;
use st_marks::{Change, How, Mark, RegMark, RowMarks};

// Whether a row of a node is among some.
fn has_row(rows: &[RowMarks], node: NodeId) -> bool
    ensures { result ≡ list_any (λ (r : Row). same_node r.node node) rows.now }
{
    rows.iter().any(|row| is_same_node(row.node, node))
}

// Whether a register of a node is among some.
fn has_register(regs: &[RegMark], node: NodeId) -> bool
    ensures { result ≡ list_any (λ (r : Register). same_node r.field.node node) regs.now }
{
    regs.iter().any(|reg| is_same_node(reg.field.node, node))
}

// Whether a change lists a row or a register of a node.
fn has_listed(change: &Change, node: NodeId) -> bool
    ensures { result ≡ (list_any (λ (r : Row). same_node r.node node) change.now.rows || list_any (λ (r : Register). same_node r.field.node node) change.now.regs) }
{
    has_row(change.rows.as_slice(), node) || has_register(change.regs.as_slice(), node)
}

// Whether a node is above itself after a change. One of whom nothing is listed has nobody below it: no climb is needed.
fn is_in_ring(change: &Change, node: NodeId) -> bool
    ensures { (result ≡ true) ↔ Reaches (above_shown Time.After change.now) node node }
{
    has_listed(change, node) && is_above(change, When::After, node, node)
}

// The lesser of what was least so far and a node, if it counts.
pub(crate) fn least_with(least: Option<NodeId>, node: NodeId, counts: bool) -> Option<NodeId>
    ensures { result ≡ least_with least node counts }
{
    if !counts {
        return least;
    }
    match least {
        None => Some(node),
        Some(other) => Some(if is_before(node, other) { node } else { other }),
    }
}

// The least so far and one more node.
fn with_node(change: &Change, least: Option<NodeId>, node: Option<NodeId>) -> Option<NodeId>
    ensures { (seen : Seq Node) → IsLeastRing change.now seen least → IsLeastRing change.now (seen ++ put_here node) result }
{
    match node {
        None => least,
        Some(node) => least_with(least, node, is_in_ring(change, node)),
    }
}

// The node that a mark puts into its cell.
fn put_by(mark: Mark) -> Option<NodeId>
    ensures { put_here result ≡ put_by (cell_of mark) }
{
    match mark {
        Mark::Touch {
            node,
            how: How::Here,
            ..
        } => Some(node),
        Mark::Make {
            node,
            full: true,
            ..
        } => Some(node),
        Mark::Fill { node, .. } => Some(node),
        _ => None,
    }
}

// The least so far and the nodes that a row's marks put.
fn with_row(change: &Change, least: Option<NodeId>, row: &RowMarks) -> Option<NodeId>
    ensures { (seen : Seq Node) → IsLeastRing change.now seen least → IsLeastRing change.now (seen ++ flat_map put_by (spread row.now.marks)) result }
{
    let mut so_far = least;
    'marks: for mark in row.marks.as_slice() {
        so_far = with_node(change, so_far, put_by(*mark));
    }
    so_far
}

// The node that is put where it is.
fn put_again(mark: &RegMark) -> Option<NodeId>
    ensures { put_into mark.now ≡ put_here mark.now.fill ++ put_here result }
{
    match mark.how {
        How::Here => mark.held,
        _ => None,
    }
}

// The least so far and the nodes that a register's mark puts.
fn with_register(change: &Change, least: Option<NodeId>, mark: &RegMark) -> Option<NodeId>
    ensures { (seen : Seq Node) → IsLeastRing change.now seen least → IsLeastRing change.now (seen ++ put_into mark.now) result }
{
    let filled = with_node(change, least, mark.fill);
    with_node(change, filled, put_again(mark))
}

// The least of the nodes that rows put.
fn least_in_rows(change: &Change) -> Option<NodeId>
    ensures { IsLeastRing change.now (flat_map (λ (r : Row). flat_map put_by (spread r.marks)) change.now.rows) result }
{
    let mut least = None;
    'rows: for row in change.rows.as_slice() {
        least = with_row(change, least, row);
    }
    least
}

/// The least node that a change puts into a row or register and that is above itself after it.
pub fn least_ring(change: &Change) -> Option<NodeId>
    ensures { IsLeastRing change.now (puts_shown change.now) result }
{
    let mut least = least_in_rows(change);
    'regs: for mark in change.regs.as_slice() {
        least = with_register(change, least, mark);
    }
    least
}
