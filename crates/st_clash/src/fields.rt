//! Fields that rules name, and the least of them.
ghost use Rattle.std.specs.Prelude.{◌≡◌, false, MatchOption, []};
ghost use Rattle.std.specs.Ordering.{is_lt};
ghost use Rattle.st_ids.specs.Listing.{Has};
ghost use Rattle.st_ids.specs.Order.{field_cmp};
ghost use Rattle.st_ids.specs.declared.names.FieldId.{FieldId as Field};
ghost use Rattle.st_marks.specs.Agree.{row_field};

use st_ids::{FieldId, Key, NodeId, Text};
use std::alloc::Global;

/// The field of a node's row.
pub fn row_field(alloc: Global, node: NodeId) -> FieldId
    ensures { result ≡ row_field node }
{
    let key = Key(Text::new(alloc));
    FieldId { node, key }
}

/// Whether one field is less than another.
pub fn are_in_order(a: &FieldId, b: &FieldId) -> bool
    ensures { result ≡ is_lt (field_cmp a.now b.now) }
{
    a.cmp(b).is_lt()
}

/// The least of some fields, if there are any.
pub fn least_field(fields: &[FieldId]) -> Option<&FieldId>
    ensures among { MatchOption result (fields.now ≡ []) (λ f. Has fields.now f.now) }
    ensures least { MatchOption result (fields.now ≡ [])
        (λ f. (g : Field) → Has fields.now g → is_lt (field_cmp g f.now) ≡ false) }
{
    let mut least = fields.first()?;
    for field in fields {
        if are_in_order(field, least) {
            least = field;
        }
    }
    Some(least)
}
