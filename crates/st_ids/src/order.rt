//! The orders of names: by session, then number, then place; a field by its node, then the bytes of its key.
ghost use Rattle.std.specs.Prelude.{◌≡◌};
ghost use Rattle.std.specs.declared.cmp.Ordering.{Ordering as Order};
ghost use Rattle.std.specs.Cmp.{IsTotalOrder};
ghost use Rattle.st_ids.specs.Order.{IsExact, rev_cmp, atom_cmp, node_cmp, cell_cmp, field_cmp};

use crate::names::{Atom, CellId, FieldId, NodeId, Rev};
use std::cmp::Ordering;

/// How two revisions are ordered.
pub fn rev_order(a: &Rev, b: &Rev) -> Ordering
    ensures { result ≡ rev_cmp a.now b.now }
{
    a.cmp(b)
}

/// How two atoms are ordered.
pub fn atom_order(a: &Atom, b: &Atom) -> Ordering
    ensures { result ≡ atom_cmp a.now b.now }
{
    a.cmp(b)
}

/// How two nodes are ordered.
pub fn node_order(a: &NodeId, b: &NodeId) -> Ordering
    ensures { result ≡ node_cmp a.now b.now }
{
    a.cmp(b)
}

/// How two cells are ordered.
pub fn cell_order(a: &CellId, b: &CellId) -> Ordering
    ensures { result ≡ cell_cmp a.now b.now }
{
    a.cmp(b)
}

/// How two fields are ordered.
pub fn field_order(a: &FieldId, b: &FieldId) -> Ordering
    ensures { result ≡ field_cmp a.now b.now }
{
    a.cmp(b)
}

/// The law that the orders of names are total.
pub fn orders_are_total()
    ensures revs { IsTotalOrder rev_cmp }
    ensures nodes { IsTotalOrder node_cmp }
    ensures cells { IsTotalOrder cell_cmp }
    ensures fields { IsTotalOrder field_cmp }
{}

/// The law that names which tie are one name.
pub fn orders_are_exact()
    ensures revs { IsExact rev_cmp }
    ensures nodes { IsExact node_cmp }
    ensures cells { IsExact cell_cmp }
    ensures fields { IsExact field_cmp }
{}
