//! The node above another, as a change shows it.
ghost use Rattle.std.specs.Prelude.{◌≡◌, not, option_map};
ghost use Rattle.std.specs.List.{find, list_any};
ghost use Rattle.st_ids.specs.Order.{same_node};
ghost use Rattle.st_marks.specs.declared.marks.RegMark.{RegMark as Register};
ghost use Rattle.st_marks.specs.declared.marks.RowMarks.{RowMarks as Row};
ghost use Rattle.st_marks.specs.How.{is_leave};
ghost use Rattle.st_marks.specs.Intent.{same_option};
ghost use Rattle.st_marks.specs.Listings.{held_after};
ghost use Rattle.st_void.specs.declared.standing.When.{When as Time};
ghost use Rattle.st_marks.specs.Row.{spread};
ghost use Rattle.st_rows.specs.Reading.{cell_of};
ghost use Rattle.st_void.specs.Standing.{above_shown, held_by, stands};

use st_ids::{NodeId, is_same_node};
use st_marks::{Change, How, Mark, RegMark, RowMarks};

/// Which document a change is asked about: the one where it stands, or the one after it, carried out whole.
#[derive(Clone, Copy)]
pub enum When {
    Before,
    After,
}

// Whether what becomes of a node leaves it where it is.
fn stays(how: How) -> bool
    ensures { result ≡ not (is_leave how) }
{
    match how {
        How::Leave => false,
        _ => true,
    }
}

// Whether a mark shows a node in its cell before.
fn stands_before(mark: Mark, node: NodeId) -> bool
    ensures { result ≡ stands Time.Before node (cell_of mark) }
{
    match mark {
        Mark::Touch { node: here, .. } => is_same_node(here, node),
        _ => false,
    }
}

// Whether a mark shows a node in its cell after.
fn stands_after(mark: Mark, node: NodeId) -> bool
    ensures { result ≡ stands Time.After node (cell_of mark) }
{
    match mark {
        Mark::Touch {
            node: here,
            how,
            ..
        } => is_same_node(here, node) && stays(how),
        Mark::Make {
            node: here,
            full,
            ..
        } => is_same_node(here, node) && full,
        Mark::Fill { node: here, .. } => is_same_node(here, node),
        _ => false,
    }
}

// Whether a mark shows a node in its cell.
fn stands_in(mark: Mark, when: When, node: NodeId) -> bool
    ensures { result ≡ stands when node (cell_of mark) }
{
    match when {
        When::Before => stands_before(mark, node),
        When::After => stands_after(mark, node),
    }
}

// Whether one of some marks shows a node in its cell.
fn some_stand(marks: &[Mark], when: When, node: NodeId) -> bool
    ensures { result ≡ list_any (λ m. stands when node (cell_of m)) marks.now }
{
    marks.iter().any(|mark| stands_in(*mark, when, node))
}

// Whether a row shows a node in one of its cells.
fn has_standing(row: &RowMarks, when: When, node: NodeId) -> bool
    ensures { result ≡ list_any (stands when node) (spread row.now.marks) }
{
    some_stand(row.marks.as_slice(), when, node)
}

// Who is in a register after a change.
fn occupant_after(mark: &RegMark) -> Option<NodeId>
    ensures { result ≡ held_after mark.now }
{
    if mark.fill.is_some() {
        return mark.fill;
    }
    match mark.how {
        How::Leave => None,
        How::Here => mark.held,
        How::Stay => { if mark.clear { None } else { mark.held } }
    }
}

// Who is in a register.
fn occupant(mark: &RegMark, when: When) -> Option<NodeId>
    ensures { result ≡ held_by when mark.now }
{
    match when {
        When::Before => mark.held,
        When::After => occupant_after(mark),
    }
}

// Whether a register holds a node.
fn holds(mark: &RegMark, when: When, node: NodeId) -> bool
    ensures { result ≡ same_option same_node (held_by when mark.now) (Some node) }
{
    match occupant(mark, when) {
        Some(here) => is_same_node(here, node),
        None => false,
    }
}

// The node in whose row a node is shown.
fn row_with(rows: &[RowMarks], when: When, node: NodeId) -> Option<NodeId>
    ensures { result ≡ option_map (λ (r : Row). r.node) (find (λ (r : Row). list_any (stands when node) (spread r.marks)) rows.now) }
{
    let row = rows.iter().find(|row| has_standing(row, when, node))?;
    Some(row.node)
}

// The node in whose register a node is shown.
fn register_with(regs: &[RegMark], when: When, node: NodeId) -> Option<NodeId>
    ensures { result ≡ option_map (λ (r : Register). r.field.node) (find (λ (r : Register). same_option same_node (held_by when r) (Some node)) regs.now) }
{
    let mark = regs.iter().find(|mark| holds(mark, when, node))?;
    Some(mark.field.node)
}

/// The node in whose row or register a change shows a node, before or after. It takes one look at each mark.
pub fn above(change: &Change, when: When, node: NodeId) -> Option<NodeId>
    ensures { result ≡ above_shown when change.now node }
{
    match row_with(change.rows.as_slice(), when, node) {
        Some(parent) => Some(parent),
        None => register_with(change.regs.as_slice(), when, node),
    }
}
