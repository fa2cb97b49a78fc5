//! Maps.
ghost use Rattle.std.specs.Prelude.{◌≡◌, cond, Some, OnOk};
ghost use Rattle.std.specs.Ordering.{is_eq};
ghost use Rattle.std.specs.BTreeMap.{get};

use std::alloc::AllocError;
use std::collections::BTreeMap;

/// Puts a value at a key.
pub fn set<K: Ord + Drop, V: Drop>(
    map: &mut BTreeMap<K, V>,
    key: K,
    value: V,
) -> Result<(), AllocError>
    ensures { OnOk result ((q : K) → get K.cmp map.new q ≡ cond (is_eq (K.cmp key q)) (Some value) (get K.cmp map.old q)) }
{
    map.insert(key, value)?;
    Ok(())
}
