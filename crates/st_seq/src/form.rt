//! The rules that the change of a row keeps.
ghost use Rattle.std.specs.Prelude.{◌≡◌, ◌↔◌, ◌&&◌, ◌∷◌, [], None, MatchOption, IsTrue, not, true};
ghost use Rattle.std.specs.List.{list_all, list_any};
ghost use Rattle.st_ids.specs.Order.{same_cell, same_node, same_rev, node_cmp};
ghost use Rattle.st_ids.specs.Listing.{IsRising};
ghost use Rattle.st_ids.specs.Root.{root};
ghost use Rattle.st_marks.specs.Embedding.{is_among as among};
ghost use Rattle.st_marks.specs.Row.{spread};
ghost use Rattle.st_marks.specs.Listings.{cells_before};
ghost use Rattle.st_rows.specs.Views.{row_views};
ghost use Rattle.st_rows.specs.Differences.{first_difference};
ghost use Rattle.st_seq.specs.inside.NormalForm.{IsNormalRowChange, stands_before as stands_well, is_normal as normal, places as puts_into, makes_cell as makes_a_cell, puts_found as puts_one_found, has_cell as holds_cell, stands_in as holds_node, may_put as may_be_put, may_make as may_be_made, is_allowed as allowed, are_allowed as all_allowed};
ghost use Rattle.st_rows.specs.Merged.{begins_with_skip as counts_first};
ghost use Rattle.st_rows.specs.Reading.{cell_of};
ghost use Rattle.st_rows.specs.Pieces.{IsSingle};

use crate::new_nodes::is_rising;
use st_ids::{CellId, List, NodeId, ROOT, Rev, is_same_cell, is_same_node, is_same_rev};
use st_marks::{How, Mark, Slot};
use st_rows::{RowChange, SlotTurn, is_among, slot_turn};

/// The first mark, and those behind it.
fn first_mark<'a>(marks: &'a [Mark]) -> Option<(Mark, &'a [Mark])>
    ensures { MatchOption result (marks.now ≡ []) (λ p. marks.now ≡ p.0 ∷ p.1.now) }
{
    match marks {
        [mark, others @ ..] => Some((*mark, others)),
        _ => None,
    }
}

/// Whether marks begin with one that counts cells.
fn begins_with_skip(marks: &[Mark]) -> bool
    ensures { result ≡ counts_first marks.now }
{
    match marks {
        [Mark::Skip(_), ..] => true,
        _ => false,
    }
}

/// Whether a mark stands before others in the normal form.
fn stands_before(mark: Mark, others: &[Mark]) -> bool
    ensures { result ≡ stands_well mark others.now }
{
    match mark {
        Mark::Skip(0) => false,
        Mark::Skip(_) => !begins_with_skip(others),
        _ => true,
    }
}

/// Whether marks are in their normal form.
fn is_normal(marks: &[Mark]) -> bool
    ensures { result ≡ normal marks.now }
{
    let mut rest = marks;
    'marks: while let Some((mark, others)) = first_mark(rest) {
        if !stands_before(mark, others) {
            return false;
        }
        rest = others;
    }
    true
}

/// Whether marks list a row, place by place.
fn is_listed(row: &[Slot], marks: &[Mark]) -> bool
    ensures { IsTrue result ↔ (first_difference (row_views row.now) (cells_before (spread marks.now)) ≡ None) }
{
    let mut slots_left = row;
    let mut count_left = 0;
    let mut marks_left = marks;
    'cells: loop {
        match slot_turn(slots_left, count_left, marks_left) {
            SlotTurn::Done => return true,
            SlotTurn::Apart => return false,
            SlotTurn::Go {
                slots,
                count,
                marks,
                ..
            } => {
                slots_left = slots;
                count_left = count;
                marks_left = marks;
            }
        }
    }
}

/// Whether a mark puts a node into its cell.
fn places(mark: Mark, node: NodeId) -> bool
    ensures { result ≡ puts_into node (cell_of mark) }
{
    match mark {
        Mark::Touch {
            node: other,
            how: How::Here,
            ..
        } => is_same_node(other, node),
        Mark::Make {
            node: other,
            full,
            ..
        } => full && is_same_node(other, node),
        Mark::Fill { node: other, .. } => is_same_node(other, node),
        _ => false,
    }
}

/// Whether one of the marks puts a node into its cell.
fn any_places(marks: &[Mark], node: NodeId) -> bool
    ensures { result ≡ list_any (puts_into node) (spread marks.now) }
{
    some_places(marks, node)
}

/// The same, mark by mark.
fn some_places(marks: &[Mark], node: NodeId) -> bool
    ensures { result ≡ list_any (λ m. puts_into node (cell_of m)) marks.now }
{
    marks.iter().any(|mark| places(*mark, node))
}

/// Whether a mark makes a cell.
fn makes_cell(mark: Mark, cell: CellId) -> bool
    ensures { result ≡ makes_a_cell cell (cell_of mark) }
{
    match mark {
        Mark::Make { cell: other, .. } => is_same_cell(other, cell),
        _ => false,
    }
}

/// Whether one of the marks makes a cell.
fn any_makes(marks: &[Mark], cell: CellId) -> bool
    ensures { result ≡ list_any (makes_a_cell cell) (spread marks.now) }
{
    some_makes(marks, cell)
}

/// The same, mark by mark.
fn some_makes(marks: &[Mark], cell: CellId) -> bool
    ensures { result ≡ list_any (λ m. makes_a_cell cell (cell_of m)) marks.now }
{
    marks.iter().any(|mark| makes_cell(*mark, cell))
}

/// Whether a mark finds a node and puts it there or elsewhere.
fn puts_found(mark: Mark, node: NodeId) -> bool
    ensures { result ≡ puts_one_found node (cell_of mark) }
{
    match mark {
        Mark::Touch { how: How::Stay, .. } => false,
        Mark::Touch { node: other, .. } => is_same_node(other, node),
        _ => false,
    }
}

/// Whether one of the marks finds a node and puts it there or elsewhere.
fn any_puts(marks: &[Mark], node: NodeId) -> bool
    ensures { result ≡ list_any (puts_one_found node) (spread marks.now) }
{
    some_puts(marks, node)
}

/// The same, mark by mark.
fn some_puts(marks: &[Mark], node: NodeId) -> bool
    ensures { result ≡ list_any (λ m. puts_one_found node (cell_of m)) marks.now }
{
    marks.iter().any(|mark| puts_found(*mark, node))
}

/// Whether a cell is in a row.
fn has_cell(row: &[Slot], cell: CellId) -> bool
    ensures { result ≡ holds_cell row.now cell }
{
    row.iter().any(|slot| is_same_cell(slot.cell, cell))
}

/// Whether a node stands in a row.
fn stands_in(row: &[Slot], node: NodeId) -> bool
    ensures { result ≡ holds_node row.now node }
{
    row.iter()
        .any(|slot| slot.full && is_same_node(slot.node, node))
}

/// A change of a row: the commit's revision, the row, and the marks.
#[derive(Drop)]
struct Made<'a> {
    rev: Rev,
    row: &'a [Slot],
    marks: &'a [Mark],
}

impl<'a> Made<'a> {
    /// Whether a node may be put.
    fn may_put(&self, node: NodeId) -> bool
        ensures { result ≡ may_be_put self.now.row.now (spread self.now.marks.now) node }
    {
        !is_same_node(node, ROOT) && (!stands_in(self.row, node) || any_puts(self.marks, node))
    }

    /// Whether a cell may be made before the cells of other marks.
    fn may_make(&self, cell: CellId, others: &[Mark]) -> bool
        ensures { result ≡ may_be_made self.now.rev self.now.row.now cell (spread others.now) }
    {
        is_same_rev(cell.0.rev, self.rev) && !has_cell(self.row, cell) && !any_makes(others, cell)
    }

    /// Whether a mark of one cell may stand before others.
    fn is_allowed(&self, mark: Mark, others: &[Mark]) -> bool
        ensures { result ≡ allowed self.now.rev self.now.row.now (spread self.now.marks.now) (cell_of mark) (spread others.now) }
    {
        match mark {
            Mark::Make { cell, node, full } => {
                self.may_make(cell, others)
                    && self.may_put(node)
                    && !(full && any_places(others, node))
            }
            Mark::Fill { node, .. } => self.may_put(node) && !any_places(others, node),
            Mark::Touch {
                node,
                how: How::Here,
                ..
            } => !any_places(others, node),
            _ => true,
        }
    }

    /// Whether each mark may stand before those behind it.
    fn are_allowed(&self) -> bool
        ensures { result ≡ all_allowed self.now.rev self.now.row.now (spread self.now.marks.now) (spread self.now.marks.now) }
    {
        let mut rest = self.marks;
        'marks: while let Some((mark, others)) = first_mark(rest) {
            if !self.is_allowed(mark, others) {
                return false;
            }
            rest = others;
        }
        true
    }
}

/// Whether nodes have a revision, and the root is none of them.
fn are_new(nodes: &[NodeId], rev: Rev) -> bool
    ensures { result ≡ list_all (λ n. same_rev n.0.rev rev && not (same_node n root)) nodes.now }
{
    nodes.iter().all(|node| is_same_rev(node.0.rev, rev) && !is_same_node(*node, ROOT))
}

/// Whether no cell of a row has one of the nodes, which rise by name, as its owner.
fn are_old(nodes: &List<NodeId>, row: &[Slot]) -> bool
    requires { IsRising node_cmp (λ n. n) nodes.now }
    ensures { result ≡ list_all (λ s. not (among nodes.now s.node)) row.now }
{
    'slots: for slot in row {
        if is_among(nodes, slot.node) {
            return false;
        }
    }
    true
}

/// Whether the row of a new node has no cells.
fn is_empty_if_new(in_new: bool, row: &[Slot]) -> bool
    ensures { IsTrue result ↔ (in_new ≡ true → row.now ≡ []) }
{
    !in_new || row.is_empty()
}

/// Whether a change keeps all rules where a row holds this. Its time grows with the square of what the marks put and make.
pub fn is_of_form(change: &RowChange, row: &[Slot]) -> bool
    ensures { IsTrue result ↔ IsNormalRowChange change.now row.now }
{
    let marks = change.marks.as_slice();
    let made = Made {
        rev: change.rev,
        row,
        marks,
    };
    is_rising(&change.new)
        && are_new(change.new.as_slice(), change.rev)
        && are_old(&change.new, row)
        && is_empty_if_new(change.in_new, row)
        && is_normal(marks)
        && is_listed(row, marks)
        && made.are_allowed()
}
