//! What a listing that rises by name has at a name.
ghost use Rattle.std.specs.Prelude.{◌≡◌};
ghost use Rattle.std.specs.Option.{option_copied};
ghost use Rattle.st_ids.specs.Listing.{IsRising, item_of};
ghost use Rattle.st_ids.specs.Order.{field_cmp, node_cmp};
ghost use Rattle.st_marks.specs.declared.marks.RegStep.{RegStep as Register};
ghost use Rattle.st_marks.specs.declared.marks.RowMarks.{RowMarks as Row};

use st_ids::{FieldId, NodeId};
use st_marks::{RegStep, RowMarks};
use std::cmp::Ordering;

/// The row that is listed for a node.
pub fn row_at(rows: &[RowMarks], node: NodeId) -> Option<&RowMarks>
    requires { IsRising node_cmp (λ (r : Row). r.node) rows.now }
    ensures { option_copied result ≡ item_of node_cmp (λ (r : Row). r.node) rows.now node }
{
    match rows.binary_search_by_key(&node, |row| row.node) {
        Ok(at) => rows.get(at),
        Err(_) => None,
    }
}

// How two fields are ordered.
fn field_order(a: &FieldId, b: &FieldId) -> Ordering
    ensures { result ≡ field_cmp a.now b.now }
{
    a.cmp(b)
}

/// What a step lists for a register.
pub fn register_at<'a>(regs: &'a [RegStep], field: &FieldId) -> Option<&'a RegStep>
    requires { IsRising field_cmp (λ (r : Register). r.field) regs.now }
    ensures { option_copied result ≡ item_of field_cmp (λ (r : Register). r.field) regs.now field.now }
{
    let mut low = 0;
    let mut high = regs.len();
    while low < high {
        let middle = low + (high - low) / 2;
        match field_order(&regs[middle].field, field) {
            Ordering::Equal => return regs.get(middle),
            Ordering::Less => low = middle + 1,
            Ordering::Greater => high = middle,
        }
    }
    None
}
