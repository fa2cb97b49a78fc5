//! The names of what two listings have.
ghost use Rattle.std.specs.Prelude.{◌≡◌, ◌||◌, true, cond, IfOk, OnOk};
ghost use Rattle.std.specs.BTreeSet.{contains};
ghost use Rattle.std.specs.List.{list_any};
ghost use Rattle.std.specs.Ordering.{is_eq};

use st_clash::Named;
use st_ids::Copied;
use std::alloc::{AllocError, Global};
use std::collections::BTreeSet;

// Puts a name into a set.
fn add<K: Ord + Drop>(set: &mut BTreeSet<K>, key: K) -> Result<(), AllocError>
    ensures { OnOk result ((q : K) → contains K.cmp set.new q
        ≡ cond (is_eq (K.cmp key q)) true (contains K.cmp set.old q)) }
{
    set.insert(key)?;
    Ok(())
}

// Adds the names of items.
fn add_names<T: Named<K>, K: Ord + Copied + Drop>(
    alloc: Global,
    set: &mut BTreeSet<K>,
    items: &[T],
) -> Result<(), AllocError>
    ensures { OnOk result ((q : K) → contains K.cmp set.new q
        ≡ (contains K.cmp set.old q || list_any (λ (r : T). is_eq (K.cmp (T.key r) q)) items.now)) }
{
    for item in items {
        add(set, item.name().copy(alloc)?)?;
    }
    Ok(())
}

/// The names of the items of two listings.
pub fn names_of_both<A: Named<K>, B: Named<K>, K: Ord + Copied + Drop>(
    alloc: Global,
    first: &[A],
    then: &[B],
) -> Result<BTreeSet<K>, AllocError>
    ensures { IfOk result (λ s. (q : K) → contains K.cmp s q
        ≡ (list_any (λ (r : A). is_eq (K.cmp (A.key r) q)) first.now || list_any (λ (r : B). is_eq (K.cmp (B.key r) q)) then.now)) }
{
    let mut names = BTreeSet::new(alloc);
    add_names(alloc, &mut names, first)?;
    add_names(alloc, &mut names, then)?;
    Ok(names)
}
