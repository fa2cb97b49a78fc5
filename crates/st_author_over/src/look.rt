//! What a step lists of a name. Each list is gone through.
ghost use Rattle.std.specs.Prelude.{◌≡◌, ◌||◌, ◌∷◌, List as Seq};
ghost use Rattle.std.specs.List.{flat_map};
ghost use Rattle.std.specs.Option.{option_copied};
ghost use Rattle.std.specs.Ordering.{is_eq};
ghost use Rattle.st_ids.specs.Listing.{item_of};
ghost use Rattle.st_ids.specs.Order.{field_cmp, node_cmp};
ghost use Rattle.st_marks.specs.declared.marks.Mark.{Mark as AnyMark};
ghost use Rattle.st_marks.specs.declared.marks.RegStep.{RegStep as Register};
ghost use Rattle.st_marks.specs.Embedding.{is_among};
ghost use Rattle.st_marks.specs.Listings.{cells_made, is_among_cells, marks_of, nodes_loose, nodes_new};
ghost use Rattle.st_marks.specs.Row.{spread};
ghost use Rattle.st_normal.specs.Rules.{in_rows};
ghost use Rattle.st_author_laws.specs.Back.{finds_node};
ghost use Rattle.st_author_over.specs.inside.Seen.{found_names, found_over_names};

use st_ids::{CellId, FieldId, NodeId, is_same_cell, is_same_node};
use st_marks::{Loose, Mark, NewNode, RegStep, RowMarks, Step};

// Whether two nodes tie.
fn nodes_tie(a: NodeId, b: NodeId) -> bool
    ensures { result ≡ is_eq (node_cmp a b) }
{
    a.cmp(&b).is_eq()
}

// Whether two fields tie.
fn fields_tie(a: &FieldId, b: &FieldId) -> bool
    ensures { result ≡ is_eq (field_cmp a.now b.now) }
{
    a.cmp(b).is_eq()
}

/// The marks of a node's row; none where it isn't listed.
pub fn marks_at(rows: &[RowMarks], node: NodeId) -> &[Mark]
    ensures { spread result.now ≡ marks_of rows.now node }
{
    for row in rows {
        if nodes_tie(node, row.node) {
            return row.marks.as_slice();
        }
    }
    &[]
}

/// What is listed for a register.
pub fn register_at<'a>(regs: &'a [RegStep], field: &FieldId) -> Option<&'a RegStep>
    ensures { option_copied result ≡ item_of field_cmp (λ (r : Register). r.field) regs.now field.now }
{
    for reg in regs {
        if fields_tie(field, &reg.field) {
            return Some(reg);
        }
    }
    None
}

/// Whether a node is new.
pub fn is_new(new: &[NewNode], node: NodeId) -> bool
    ensures { result ≡ is_among (nodes_new new.now) node }
{
    for one in new {
        if is_same_node(one.node, node) {
            return true;
        }
    }
    false
}

/// Whether a node is listed as nowhere.
pub fn is_loose(loose: &[Loose], node: NodeId) -> bool
    ensures { result ≡ is_among (nodes_loose loose.now) node }
{
    for one in loose {
        if is_same_node(one.node, node) {
            return true;
        }
    }
    false
}

// Whether a mark finds a node in a full cell.
#[tactic(auto, using(crate::proofs::Found::names_counted))]
fn finds(mark: Mark, node: NodeId) -> bool
    ensures { (rest : Seq AnyMark) → is_among (found_names (spread (mark ∷ rest))) node ≡ (result || is_among (found_names (spread rest)) node) }
{
    match mark {
        Mark::Touch { node: found, .. } => is_same_node(found, node),
        Mark::Skip(_) | Mark::Gap(_) | Mark::Make { .. } | Mark::Fill { .. } => false,
    }
}

// Whether marks find a node in a full cell.
fn finds_in_row(marks: &[Mark], node: NodeId) -> bool
    ensures { result ≡ is_among (found_names (spread marks.now)) node }
{
    for mark in marks {
        if finds(*mark, node) {
            return true;
        }
    }
    false
}

// Whether rows find a node in a full cell.
fn finds_in_rows(rows: &[RowMarks], node: NodeId) -> bool
    ensures { result ≡ is_among (in_rows found_names rows.now) node }
{
    for row in rows {
        if finds_in_row(row.marks.as_slice(), node) {
            return true;
        }
    }
    false
}

// Whether a register holds a node before.
fn holds_before(reg: &RegStep, node: NodeId) -> bool
    ensures { result ≡ is_among (found_over_names reg.now) node }
{
    match reg.before {
        Some(held) => is_same_node(held, node),
        None => false,
    }
}

// Whether registers hold a node before.
fn finds_in_registers(regs: &[RegStep], node: NodeId) -> bool
    ensures { result ≡ is_among (flat_map found_over_names regs.now) node }
{
    for reg in regs {
        if holds_before(reg, node) {
            return true;
        }
    }
    false
}

// Whether a step finds a node in a row or in a register.
fn finds_somewhere(step: &Step, node: NodeId) -> bool
    ensures { result ≡ (is_among (in_rows found_names step.now.rows) node || is_among (flat_map found_over_names step.now.regs) node) }
{
    finds_in_rows(step.rows.as_slice(), node) || finds_in_registers(step.regs.as_slice(), node)
}

/// Whether a step finds a node: in a row, in a register, or nowhere. It goes through all that the step lists.
pub fn finds_anywhere(step: &Step, node: NodeId) -> bool
    ensures { result ≡ finds_node step.now node }
{
    finds_somewhere(step, node) || is_loose(step.loose.as_slice(), node)
}

// Whether a mark makes a cell.
#[tactic(auto, using(crate::proofs::Found::made_counted))]
fn makes(mark: Mark, cell: CellId) -> bool
    ensures { (rest : Seq AnyMark) → is_among_cells (cells_made (spread (mark ∷ rest))) cell ≡ (result || is_among_cells (cells_made (spread rest)) cell) }
{
    match mark {
        Mark::Make { cell: made, .. } => is_same_cell(made, cell),
        Mark::Skip(_) | Mark::Gap(_) | Mark::Touch { .. } | Mark::Fill { .. } => false,
    }
}

// Whether marks make a cell.
fn makes_in_row(marks: &[Mark], cell: CellId) -> bool
    ensures { result ≡ is_among_cells (cells_made (spread marks.now)) cell }
{
    for mark in marks {
        if makes(*mark, cell) {
            return true;
        }
    }
    false
}

/// Whether rows make a cell.
pub fn makes_cell(rows: &[RowMarks], cell: CellId) -> bool
    ensures { result ≡ is_among_cells (in_rows cells_made rows.now) cell }
{
    for row in rows {
        if makes_in_row(row.marks.as_slice(), cell) {
            return true;
        }
    }
    false
}
