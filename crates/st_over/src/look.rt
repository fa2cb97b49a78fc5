//! What a listing that rises by name has at a name, and sets of names.
ghost use Rattle.std.specs.Prelude.{◌≡◌, OnOk, true, cond};
ghost use Rattle.std.specs.BTreeSet.{contains};
ghost use Rattle.std.specs.Ordering.{is_eq};
ghost use Rattle.std.specs.Option.{option_copied};
ghost use Rattle.std.specs.declared.cmp.Ordering.TheVariants.{Equal};
ghost use Rattle.st_ids.specs.Listing.{IsRising, item_of};

use st_clash::Named;
use std::alloc::AllocError;
use std::cmp::Ordering;
use std::collections::BTreeSet;

// How two names are ordered.
fn order<K: Ord>(a: &K, b: &K) -> Ordering
    ensures { result ≡ K.cmp a.now b.now }
{
    a.cmp(b)
}

/// The item of a name, of a list whose names rise.
pub fn item_at<'a, T: Named<K>, K: Ord>(list: &'a [T], name: &K) -> Option<&'a T>
    requires rising { IsRising K.cmp T.key list.now }
    requires exact { (a b : K) → K.cmp a b ≡ Equal → a ≡ b }
    ensures { option_copied result ≡ item_of K.cmp T.key list.now name.now }
{
    let mut low = 0;
    let mut high = list.len();
    while low < high {
        let middle = low + (high - low) / 2;
        match order(list[middle].name(), name) {
            Ordering::Equal => return list.get(middle),
            Ordering::Less => low = middle + 1,
            Ordering::Greater => high = middle,
        }
    }
    None
}

/// Puts a name into a set.
pub fn add<K: Ord + Drop>(set: &mut BTreeSet<K>, key: K) -> Result<(), AllocError>
    ensures { OnOk result ((q : K) → contains K.cmp set.new q
        ≡ cond (is_eq (K.cmp key q)) true (contains K.cmp set.old q)) }
{
    set.insert(key)?;
    Ok(())
}
