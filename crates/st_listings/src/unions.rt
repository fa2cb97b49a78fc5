//! Two listings as one.
ghost use Rattle.std.specs.Prelude.{◌≡◌, ◌++◌, ◌∷◌, [], Some, None, cond, IfOk, OnOk};
ghost use Rattle.std.specs.BTreeMap.{IsOrdered, get, values};
ghost use Rattle.std.specs.Option.{option_or};
ghost use Rattle.std.specs.Ordering.{is_eq};
ghost use Rattle.std.specs.declared.cmp.Ordering.TheVariants.{Equal};
ghost use Rattle.st_ids.specs.Listing.{IsListing, item_of};
ghost use Rattle.st_listings.specs.inside.Merging.{of_either};

use crate::merging::{merge, rise};
use st_ids::{Copied, FieldId, List, NodeId};
use st_marks::{Loose, NewNode, RegStep, RowMarks};
use std::alloc::{AllocError, Global};
use std::collections::BTreeMap;

/// An item that is listed under a name.
pub trait Named<K> {
    ghost key: { Self → K };

    fn name(&self) -> &K
        ensures { result.now ≡ key self.now };
}

impl Named<NodeId> for RowMarks {
    ghost key = { λ r. r.node };

    fn name(&self) -> &NodeId {
        &self.node
    }
}

impl Named<NodeId> for NewNode {
    ghost key = { λ m. m.node };

    fn name(&self) -> &NodeId {
        &self.node
    }
}

impl Named<NodeId> for Loose {
    ghost key = { λ l. l.node };

    fn name(&self) -> &NodeId {
        &self.node
    }
}

impl Named<FieldId> for RegStep {
    ghost key = { λ r. r.field };

    fn name(&self) -> &FieldId {
        &self.field
    }
}

// Puts an item under a name that has none.
fn keep<K: Ord + Drop, T: Drop>(
    map: &mut BTreeMap<K, T>,
    name: K,
    item: T,
) -> Result<(), AllocError>
    ensures { OnOk result ((q : K) → get K.cmp map.new q
        ≡ option_or (get K.cmp map.old q) (cond (is_eq (K.cmp name q)) (Some item) None)) }
{
    map.entry(name)?.or_insert(item);
    Ok(())
}

// Puts a copy of an item under its name, if that has none.
fn keep_copy<T: Named<K> + Copied + Drop, K: Ord + Copied + Drop>(
    alloc: Global,
    map: &mut BTreeMap<K, T>,
    item: &T,
) -> Result<(), AllocError>
    ensures { OnOk result ((q : K) → get K.cmp map.new q
        ≡ option_or (get K.cmp map.old q) (cond (is_eq (K.cmp (T.key item.now) q)) (Some item.now) None)) }
{
    let name = item.name().copy(alloc)?;
    let copy = item.copy(alloc)?;
    keep(map, name, copy)?;
    Ok(())
}

// Puts the items of a list under their names, but for names that have one.
fn keep_all<T: Named<K> + Copied + Drop, K: Ord + Copied + Drop>(
    alloc: Global,
    map: &mut BTreeMap<K, T>,
    items: &[T],
) -> Result<(), AllocError>
    ensures { OnOk result ((q : K) → get K.cmp map.new q
        ≡ option_or (get K.cmp map.old q) (item_of K.cmp T.key items.now q)) }
{
    for item in items {
        keep_copy(alloc, map, item)?;
    }
    Ok(())
}

/// Adds a copy of an item.
pub(crate) fn push_copy<T: Copied + Drop>(
    alloc: Global,
    list: &mut List<T>,
    item: &T,
) -> Result<(), AllocError>
    ensures { OnOk result (list.new ≡ list.old ++ item.now ∷ []) }
{
    let copy = item.copy(alloc)?;
    list.push(copy)?;
    Ok(())
}

// The items of a map, in the order of their names.
fn in_order<T: Copied + Drop, K: Ord + Drop>(
    alloc: Global,
    map: &BTreeMap<K, T>,
) -> Result<List<T>, AllocError>
    ensures items { IfOk result (λ l. l ≡ values map.now) }
    ensures ordered { OnOk result (IsOrdered K.cmp map.now) }
{
    let mut list = List::new(alloc);
    for item in map.values() {
        push_copy(alloc, &mut list, item)?;
    }
    Ok(list)
}

// The items of two lists in one that rises by name, by way of a map.
fn union_by_map<T: Named<K> + Copied + Drop, K: Ord + Copied + Drop>(
    alloc: Global,
    first: &[T],
    second: &[T],
) -> Result<List<T>, AllocError>
    requires { (a b : K) → K.cmp a b ≡ Equal → a ≡ b }
    ensures { IfOk result (λ l. IsListing K.cmp T.key l (of_either K.cmp T.key first.now second.now)) }
{
    let mut map = BTreeMap::new(alloc);
    keep_all(alloc, &mut map, first)?;
    keep_all(alloc, &mut map, second)?;
    in_order(alloc, &map)
}

/// The items of two listings in one: at a name that both have, the item of the first. Lists that rise by name are merged, which
/// needs no map.
pub fn union<T: Named<K> + Copied + Drop, K: Ord + Copied + Drop>(
    alloc: Global,
    first: &[T],
    second: &[T],
) -> Result<List<T>, AllocError>
    requires { (a b : K) → K.cmp a b ≡ Equal → a ≡ b }
    ensures { IfOk result (λ l. IsListing K.cmp T.key l
        (λ k. option_or (item_of K.cmp T.key first.now k) (item_of K.cmp T.key second.now k))) }
{
    if rise(first) && rise(second) {
        merge(alloc, first, second)
    } else {
        union_by_map(alloc, first, second)
    }
}
