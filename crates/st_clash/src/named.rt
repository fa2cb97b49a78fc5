//! Lists of items that rise by a name of theirs.
ghost use Rattle.std.specs.Prelude.{◌≡◌, ◌↔◌, ◌<◌, true, length, slice_get, None, MatchResult};
ghost use Rattle.std.specs.Ordering.{is_eq, is_lt};
ghost use Rattle.std.specs.declared.cmp.Ordering.TheVariants.{Equal};
ghost use Rattle.st_ids.specs.Listing.{IsRising, item_of};

use st_ids::{FieldId, NodeId};
use st_marks::{NewNode, RegMark, RegStep, RowMarks};

/// An item that has a name by which lists of such items rise.
pub trait Named<K> {
    ghost key: { Self → K };

    fn name(&self) -> &K
        ensures { result.now ≡ key self.now };
}

impl Named<NodeId> for RowMarks {
    ghost key = { λ r. r.node };

    fn name(&self) -> &NodeId {
        &self.node
    }
}

impl Named<NodeId> for NewNode {
    ghost key = { λ m. m.node };

    fn name(&self) -> &NodeId {
        &self.node
    }
}

impl Named<FieldId> for RegMark {
    ghost key = { λ r. r.field };

    fn name(&self) -> &FieldId {
        &self.field
    }
}

impl Named<FieldId> for RegStep {
    ghost key = { λ r. r.field };

    fn name(&self) -> &FieldId {
        &self.field
    }
}

// Whether one name is less than another.
fn is_less<K: Ord>(a: &K, b: &K) -> bool
    ensures { result ≡ is_lt (K.cmp a.now b.now) }
{
    a.cmp(b).is_lt()
}

// Whether two names are one.
fn is_equal<K: Ord>(a: &K, b: &K) -> bool
    ensures { result ≡ is_eq (K.cmp a.now b.now) }
{
    a.cmp(b).is_eq()
}

/// Whether the names of a list rise.
pub fn rise<T: Named<K>, K: Ord>(list: &[T]) -> bool
    ensures { (result ≡ true) ↔ IsRising K.cmp T.key list.now }
{
    let mut at = 1;
    while at < list.len() {
        if !is_less(list[at - 1].name(), list[at].name()) {
            return false;
        }
        at += 1;
    }
    true
}

/// The place of a name in a list that rises, which is looked for at one place first.
pub fn place_of<T: Named<K>, K: Ord + Copy>(
    list: &[T],
    near: usize,
    name: &K,
) -> Result<usize, usize>
    requires rising { IsRising K.cmp T.key list.now }
    requires exact { (a b : K) → K.cmp a b ≡ Equal → a ≡ b }
    ensures { MatchResult result
        (λ i. (i < length list.now) × (slice_get list.now i ≡ item_of K.cmp T.key list.now name.now))
        (λ i. item_of K.cmp T.key list.now name.now ≡ None) }
{
    if near < list.len() && is_equal(list[near].name(), name) {
        return Ok(near);
    }
    list.binary_search_by_key(
        name,
        |item: &T| -> K
            ensures { result ≡ T.key item.now }
        { *item.name() },
    )
}
