//! Whether two names are one.
ghost use Rattle.std.specs.Prelude.{◌≡◌};
ghost use Rattle.std.specs.Ordering.{is_lt};
ghost use Rattle.st_ids.specs.Order.{node_cmp};
ghost use Rattle.st_marks.specs.Intent.{same_anchor};

use st_ids::{CellId, NodeId, is_same_cell};

/// Whether two groups stand after one cell, or both at the start; `None` is a row's start.
pub fn is_same_anchor(a: Option<CellId>, b: Option<CellId>) -> bool
    ensures { result ≡ same_anchor a b }
{
    match (a, b) {
        (None, None) => true,
        (Some(a), Some(b)) => is_same_cell(a, b),
        _ => false,
    }
}

/// Whether one node's name is before another's.
pub fn is_before(a: NodeId, b: NodeId) -> bool
    ensures { result ≡ is_lt (node_cmp a b) }
{
    a.cmp(&b).is_lt()
}
