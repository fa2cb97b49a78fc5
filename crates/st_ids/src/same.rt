//! Whether two names are one.
ghost use Rattle.std.specs.Prelude.{◌≡◌};
ghost use Rattle.st_ids.specs.Order.{same_node, same_cell, same_field, same_rev};

use crate::names::{CellId, FieldId, NodeId, Rev};

/// Whether two nodes have one name.
#[tactic(auto, unfolding(crate::specs::Order::same_node))]
pub fn is_same_node(a: NodeId, b: NodeId) -> bool
    ensures { result ≡ same_node a b }
{
    a.cmp(&b).is_eq()
}

/// Whether two cells have one name.
#[tactic(auto, unfolding(crate::specs::Order::same_cell))]
pub fn is_same_cell(a: CellId, b: CellId) -> bool
    ensures { result ≡ same_cell a b }
{
    a.cmp(&b).is_eq()
}

/// Whether two fields have one name.
#[tactic(auto, unfolding(crate::specs::Order::same_field))]
pub fn is_same_field(a: &FieldId, b: &FieldId) -> bool
    ensures { result ≡ same_field a.now b.now }
{
    a.cmp(b).is_eq()
}

/// Whether two revisions are one.
#[tactic(auto, unfolding(crate::specs::Order::same_rev))]
pub fn is_same_rev(a: Rev, b: Rev) -> bool
    ensures { result ≡ same_rev a b }
{
    a.cmp(&b).is_eq()
}
