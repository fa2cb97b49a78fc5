//! Two lists that rise by name, merged without a map.
ghost use Rattle.std.specs.Prelude.{◌≡◌, ◌↔◌, ◌∷◌, [], IfOk, IsTrue, MatchOption};
ghost use Rattle.std.specs.Ordering.{is_lt};
ghost use Rattle.std.specs.declared.cmp.Ordering.TheVariants.{Equal};
ghost use Rattle.st_ids.specs.Listing.{IsListing, IsRising};
ghost use Rattle.st_listings.specs.inside.Merging.{IsNext, of_either};

use crate::unions::{Named, push_copy};
use st_ids::{Copied, List};
use std::alloc::{AllocError, Global};
use std::cmp::Ordering;

// The item that comes next of two lists, and what is left of each.
struct Next<'a, T> {
    item: &'a T,
    first: &'a [T],
    second: &'a [T],
}

// How two names are ordered.
fn order<K: Ord>(a: &K, b: &K) -> Ordering
    ensures { result ≡ K.cmp a.now b.now }
{
    a.cmp(b)
}

// Whether an item's name is less than that of the first of others, if there are some.
fn rises_before<T: Named<K>, K: Ord>(item: &T, others: &[T]) -> bool
    ensures { IsRising K.cmp T.key (item.now ∷ others.now)
        ↔ (IsTrue result × IsRising K.cmp T.key others.now) }
{
    match others.split_first() {
        None => true,
        Some((other, _)) => order(item.name(), other.name()).is_lt(),
    }
}

/// Whether the names of a list rise.
pub(crate) fn rise<T: Named<K>, K: Ord>(list: &[T]) -> bool
    ensures { IsTrue result ↔ IsRising K.cmp T.key list.now }
{
    let mut rest = list;
    'items: while let Some((item, others)) = rest.split_first() {
        if !rises_before(item, others) {
            return false;
        }
        rest = others;
    }
    true
}

// The item that comes next of two lists that rise, if there is one: at a name that both have, the item of the first.
fn next_item<'a, T: Named<K>, K: Ord>(first: &'a [T], second: &'a [T]) -> Option<Next<'a, T>>
    requires exact { (a b : K) → K.cmp a b ≡ Equal → a ≡ b }
    requires first { IsRising K.cmp T.key first.now }
    requires second { IsRising K.cmp T.key second.now }
    ensures { MatchOption result ((first.now ≡ []) × (second.now ≡ []))
        (λ n. IsNext K.cmp T.key first.now second.now n.item.now n.first.now n.second.now) }
{
    match (first.split_first(), second.split_first()) {
        (None, None) => None,
        (Some((item, left)), None) => Some(Next {
            item,
            first: left,
            second,
        }),
        (None, Some((item, left))) => Some(Next {
            item,
            first,
            second: left,
        }),
        (Some((x, xs)), Some((y, ys))) => match order(x.name(), y.name()) {
            Ordering::Less => Some(Next {
                item: x,
                first: xs,
                second,
            }),
            Ordering::Equal => Some(Next {
                item: x,
                first: xs,
                second: ys,
            }),
            Ordering::Greater => Some(Next {
                item: y,
                first,
                second: ys,
            }),
        },
    }
}

/// The items of two lists that rise, in one that does: at a name that both have, the item of the first.
pub(crate) fn merge<T: Named<K> + Copied + Drop, K: Ord>(
    alloc: Global,
    first: &[T],
    second: &[T],
) -> Result<List<T>, AllocError>
    requires exact { (a b : K) → K.cmp a b ≡ Equal → a ≡ b }
    requires first { IsRising K.cmp T.key first.now }
    requires second { IsRising K.cmp T.key second.now }
    ensures { IfOk result (λ l. IsListing K.cmp T.key l (of_either K.cmp T.key first.now second.now)) }
{
    let mut list = List::new(alloc);
    let mut first_left = first;
    let mut second_left = second;
    'items: while let Some(
        Next {
            item,
            first,
            second,
        },
    ) = next_item(first_left, second_left)
    {
        push_copy(alloc, &mut list, item)?;
        first_left = first;
        second_left = second;
    }
    Ok(list)
}
