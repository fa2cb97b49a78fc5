//! Whether a list rises by name.
ghost use Rattle.std.specs.Prelude.{◌≡◌, ◌↔◌, ◌&&◌, ◌∷◌, IsTrue};
ghost use Rattle.std.specs.Cmp.{IsTotalOrder};
ghost use Rattle.std.specs.FinMap.Entries.{is_sorted};
ghost use Rattle.std.specs.Ordering.{is_lt};
ghost use Rattle.std.specs.declared.cmp.Ordering.{Ordering};
ghost use Rattle.st_ids.specs.Listing.{IsRising, key_pairs};
ghost use Rattle.st_ids.specs.Order.{field_cmp, node_cmp};
ghost use Rattle.st_ids.specs.declared.names.NodeId.{NodeId as Node};
ghost use Rattle.st_marks.specs.declared.changes.NewNode.{NewNode as New};
ghost use Rattle.st_marks.specs.declared.marks.Loose.{Loose as LooseNode};
ghost use Rattle.st_marks.specs.declared.marks.RowMarks.{RowMarks as Row};
ghost use Rattle.st_ids.proofs.Orders.{node_cmp_total, field_cmp_total};

use crate::registers::Register;
use st_ids::{FieldId, NodeId, field_order, node_order};
use st_marks::{Loose, NewNode, RowMarks};

/// An order of things by their names.
pub trait Ordered<T> {
    type Key;

    ghost cmp: { Self.Key → Self.Key → Ordering };

    ghost key: { T → Self.Key };

    /// Whether one thing is before another.
    fn is_before(&self, a: &T, b: &T) -> bool
        ensures { result ≡ is_lt (cmp (key a.now) (key b.now)) };

    ghost total: { IsTotalOrder cmp };
}

// Whether a thing is before all behind it, if these rise.
fn leads<T, O: Ordered<T>>(first: &T, rest: &[T], order: &O) -> bool
    ensures { is_sorted O.cmp (key_pairs O.key (first.now ∷ rest.now)) ≡ (result && is_sorted O.cmp (key_pairs O.key rest.now)) }
{
    match rest {
        [] => true,
        [second, ..] => order.is_before(first, second),
    }
}

/// Whether the names of a list rise.
pub fn rises<T, O: Ordered<T>>(items: &[T], order: &O) -> bool
    ensures { IsTrue result ↔ IsRising O.cmp O.key items.now }
{
    let mut left = items;
    while let [first, rest @ ..] = left {
        if !leads(first, rest, order) {
            return false;
        }
        left = rest;
    }
    true
}

/// By node.
pub struct ByNode;

impl Ordered<NodeId> for ByNode {
    type Key = NodeId;

    ghost cmp = { node_cmp };

    ghost key = { λ (n : Node). n };

    ghost total = { node_cmp_total };

    fn is_before(&self, a: &NodeId, b: &NodeId) -> bool {
        node_order(a, b).is_lt()
    }
}

impl Ordered<NewNode> for ByNode {
    type Key = NodeId;

    ghost cmp = { node_cmp };

    ghost key = { λ (m : New). m.node };

    ghost total = { node_cmp_total };

    fn is_before(&self, a: &NewNode, b: &NewNode) -> bool {
        node_order(&a.node, &b.node).is_lt()
    }
}

impl Ordered<RowMarks> for ByNode {
    type Key = NodeId;

    ghost cmp = { node_cmp };

    ghost key = { λ (r : Row). r.node };

    ghost total = { node_cmp_total };

    fn is_before(&self, a: &RowMarks, b: &RowMarks) -> bool {
        node_order(&a.node, &b.node).is_lt()
    }
}

impl Ordered<Loose> for ByNode {
    type Key = NodeId;

    ghost cmp = { node_cmp };

    ghost key = { λ (l : LooseNode). l.node };

    ghost total = { node_cmp_total };

    fn is_before(&self, a: &Loose, b: &Loose) -> bool {
        node_order(&a.node, &b.node).is_lt()
    }
}

/// By field.
pub struct ByField;

impl<G: Register> Ordered<G> for ByField {
    type Key = FieldId;

    ghost cmp = { field_cmp };

    ghost key = { G.field };

    ghost total = { field_cmp_total };

    fn is_before(&self, a: &G, b: &G) -> bool {
        field_order(a.field(), b.field()).is_lt()
    }
}
