//! Maps by node that keep what came first.
ghost use Rattle.std.specs.Prelude.{◌≡◌, Some, None, cond, OnOk};
ghost use Rattle.std.specs.BTreeMap.{get};
ghost use Rattle.std.specs.Option.{option_or};
ghost use Rattle.std.specs.Ordering.{is_eq};
ghost use Rattle.st_ids.specs.Order.{node_cmp, same_node};
ghost use Rattle.st_ids.specs.declared.names.NodeId.{NodeId as Node};
ghost use Rattle.st_marks.specs.Listings.{one_or_none};
ghost use Rattle.st_puts.specs.inside.First.{first_at};

use st_ids::NodeId;
use std::alloc::AllocError;
use std::collections::BTreeMap;

// Keeps a value at a name that has none.
fn keep_at<K: Ord + Drop, V: Drop>(
    map: &mut BTreeMap<K, V>,
    key: K,
    value: V,
) -> Result<(), AllocError>
    ensures { OnOk result ((q : K) → get K.cmp map.new q
        ≡ option_or (get K.cmp map.old q) (cond (is_eq (K.cmp key q)) (Some value) None)) }
{
    map.entry(key)?.or_insert(value);
    Ok(())
}

/// Keeps a value at a node that has none.
pub fn keep<V: Drop>(
    map: &mut BTreeMap<NodeId, V>,
    node: NodeId,
    value: V,
) -> Result<(), AllocError>
    ensures { OnOk result ((n : Node) → get node_cmp map.new n
        ≡ option_or (get node_cmp map.old n) (cond (same_node node n) (Some value) None)) }
{
    keep_at(map, node, value)?;
    Ok(())
}

/// Keeps a value at a node that has none, if there is one.
pub fn keep_one<V: Drop>(
    map: &mut BTreeMap<NodeId, V>,
    one: Option<(NodeId, V)>,
) -> Result<(), AllocError>
    ensures { OnOk result ((n : Node) → get node_cmp map.new n
        ≡ option_or (get node_cmp map.old n) (first_at (one_or_none one) n)) }
{
    match one {
        None => Ok(()),
        Some((node, value)) => {
            keep(map, node, value)?;
            Ok(())
        }
    }
}
