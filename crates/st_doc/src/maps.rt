//! Maps.
ghost use Rattle.std.specs.Prelude.{◌≡◌, ◌++◌, ◌∷◌, [], cond, unwrap_or, Some, None, OnOk};
ghost use Rattle.std.specs.Ordering.{is_eq};
ghost use Rattle.std.specs.Option.{option_or};
ghost use Rattle.std.specs.BTreeMap.{get, insert_entry};
ghost use Rattle.st_ids.specs.declared.names.NodeId.{NodeId as Node};
ghost use Rattle.st_ids.specs.Order.{node_cmp, same_node};

use st_ids::{List, NodeId};
use std::alloc::{AllocError, Global};
use std::collections::BTreeMap;

/// Puts a value at a key.
pub fn set<K: Ord + Drop, V: Drop>(
    map: &mut BTreeMap<K, V>,
    key: K,
    value: V,
) -> Result<(), AllocError>
    ensures { OnOk result ((q : K) → get K.cmp map.new q ≡ cond (is_eq (K.cmp key q)) (Some value) (get K.cmp map.old q)) }
{
    map.insert(key, value)?;
    Ok(())
}

/// Puts a value at a key that has none.
pub fn add<K: Ord + Drop, V: Drop>(
    map: &mut BTreeMap<K, V>,
    key: K,
    value: V,
) -> Result<(), AllocError>
    ensures { OnOk result ((q : K) → get K.cmp map.new q ≡ option_or (get K.cmp map.old q) (cond (is_eq (K.cmp key q)) (Some value) None)) }
{
    if map.contains_key(&key) {
        return Ok(());
    }
    set(map, key, value)
}

/// Takes the value of a key away.
pub fn unset<K: Ord + Drop, V: Drop>(map: &mut BTreeMap<K, V>, key: &K)
    ensures { (q : K) → get K.cmp map.new q ≡ cond (is_eq (K.cmp key.now q)) None (get K.cmp map.old q) }
{
    map.remove(key);
}

/// Puts a value at a key, told by the entries.
pub fn put_entry<K: Ord + Drop, V: Drop>(
    map: &mut BTreeMap<K, V>,
    key: K,
    value: V,
) -> Result<(), AllocError>
    ensures { OnOk result (map.new.entries ≡ insert_entry K.cmp map.old.entries key value) }
{
    map.insert(key, value)?;
    Ok(())
}

/// Puts all values of one map into another.
pub fn put_all<K: Ord + Drop, V: Drop>(
    map: &mut BTreeMap<K, V>,
    mut values: BTreeMap<K, V>,
) -> Result<(), AllocError>
    ensures { OnOk result ((q : K) → get K.cmp map.new q ≡ option_or (get K.cmp values q) (get K.cmp map.old q)) }
{
    map.append(&mut values)?;
    Ok(())
}

/// Puts a value behind the others of a node.
pub fn push_at<V: Drop>(
    alloc: Global,
    map: &mut BTreeMap<NodeId, List<V>>,
    node: NodeId,
    value: V,
) -> Result<(), AllocError>
    ensures { OnOk result ((n : Node) → unwrap_or (get node_cmp map.new n) []
        ≡ unwrap_or (get node_cmp map.old n) [] ++ cond (same_node node n) (value ∷ []) []) }
{
    let mut list = match map.remove(&node) {
        None => List::new(alloc),
        Some(list) => list,
    };
    list.push(value)?;
    set(map, node, list)?;
    Ok(())
}
