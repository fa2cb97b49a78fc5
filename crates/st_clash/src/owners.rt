//! Owners of cells, which may be told or not.
ghost use Rattle.std.specs.Prelude.{◌≡◌};
ghost use Rattle.st_ids.specs.Order.{same_node};
ghost use Rattle.st_clash.specs.Owners.{same_if_told};

use st_ids::{NodeId, is_same_node};

/// Whether two owners are the same, where both are told.
pub fn is_same_owner(a: Option<NodeId>, b: Option<NodeId>) -> bool
    ensures { result ≡ same_if_told same_node a b }
{
    match (a, b) {
        (Some(a), Some(b)) => is_same_node(a, b),
        _ => true,
    }
}
