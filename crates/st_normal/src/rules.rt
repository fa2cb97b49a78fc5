//! The rules of normal form that look up what is listed.
ghost use Rattle.std.specs.Prelude.{◌≡◌, ◌≢◌, ◌⊎◌, ◌↔◌, [], IsTrue, Some};
ghost use Rattle.st_ids.specs.Listing.{Has};
ghost use Rattle.st_ids.specs.declared.names.NodeId.{NodeId as Node};
ghost use Rattle.st_ids.specs.Root.{root};
ghost use Rattle.st_marks.specs.Row.{spread};
ghost use Rattle.st_normal.specs.Rules.{IsFound};
ghost use Rattle.st_normal.specs.inside.Rules.{how_found};
ghost use Rattle.st_marks.specs.Listings.{cells_before};
ghost use Rattle.st_marks.specs.declared.marks.How.TheVariants.{Here as HereMark, Leave as LeaveMark};

use crate::listing::HasEntries;
use crate::lookup::Look;
use crate::scan::Rule;
use st_ids::{NodeId, ROOT, Rev, is_same_node, rev_order};
use st_marks::{How, Loose, RowMarks, before};

/// Whether a node is the root.
#[tactic(auto, using(crate::proofs::Tells::node_same))]
pub fn is_root(node: NodeId) -> bool
    ensures { IsTrue result ↔ (node ≡ root) }
{
    is_same_node(node, ROOT)
}

// Whether a node leaves the place where it is found.
fn is_leaving<L: HasEntries>(look: &Look<L>, node: NodeId) -> bool
    ensures { IsTrue result ↔ (how_found (L.listed look.now.lists) node ≡ Some LeaveMark) }
{
    matches!(look.how(node), Some(How::Leave))
}

// Whether a node is set where it is found.
fn is_set<L: HasEntries>(look: &Look<L>, node: NodeId) -> bool
    ensures { IsTrue result ↔ (how_found (L.listed look.now.lists) node ≡ Some HereMark) }
{
    matches!(look.how(node), Some(How::Here))
}

/// A node is new, or leaves the place where it is found.
#[derive(Drop)]
pub struct ComesIn<'a, L: HasEntries>(pub &'a Look<L>);

impl<'a, L: HasEntries> Rule for ComesIn<'a, L> {
    type Item = NodeId;

    ghost Holds = { λ s n. Has (L.listed s.0.now.lists).new n ⊎ (how_found (L.listed s.0.now.lists) n ≡ Some LeaveMark) };

    fn holds(&self, node: &NodeId) -> bool {
        self.0.is_new(*node) || is_leaving(self.0, *node)
    }
}

/// A node is new, is set where it is found, or leaves there.
#[derive(Drop)]
pub struct Moves<'a, L: HasEntries>(pub &'a Look<L>);

impl<'a, L: HasEntries> Rule for Moves<'a, L> {
    type Item = NodeId;

    ghost Holds = { λ s n. Has (L.listed s.0.now.lists).new n ⊎ (how_found (L.listed s.0.now.lists) n ≡ Some HereMark) ⊎ (how_found (L.listed s.0.now.lists) n ≡ Some LeaveMark) };

    fn holds(&self, node: &NodeId) -> bool {
        self.0.is_new(*node) || is_set(self.0, *node) || is_leaving(self.0, *node)
    }
}

/// A node isn't the root and isn't found.
#[derive(Drop)]
pub struct IsUnknown<'a, L: HasEntries>(pub &'a Look<L>);

impl<'a, L: HasEntries> Rule for IsUnknown<'a, L> {
    type Item = NodeId;

    ghost Holds = { λ s n. (n ≢ root) × (IsFound (L.listed s.0.now.lists) n → ⊥) };

    fn holds(&self, node: &NodeId) -> bool {
        !is_root(*node) && !self.0.is_found(*node)
    }
}

/// A node isn't new.
#[derive(Drop)]
pub struct IsOld<'a, L: HasEntries>(pub &'a Look<L>);

impl<'a, L: HasEntries> Rule for IsOld<'a, L> {
    type Item = NodeId;

    ghost Holds = { λ s n. Has (L.listed s.0.now.lists).new n → ⊥ };

    fn holds(&self, node: &NodeId) -> bool {
        !self.0.is_new(*node)
    }
}

/// A node is the root, new or found.
#[derive(Drop)]
pub struct IsKnown<'a, L: HasEntries>(pub &'a Look<L>);

impl<'a, L: HasEntries> Rule for IsKnown<'a, L> {
    type Item = NodeId;

    ghost Holds = { λ s n. (n ≡ root) ⊎ Has (L.listed s.0.now.lists).new n ⊎ IsFound (L.listed s.0.now.lists) n };

    fn holds(&self, node: &NodeId) -> bool {
        is_root(*node) || self.0.is_new(*node) || self.0.is_found(*node)
    }
}

/// The row of a new node has no cells before.
#[derive(Drop)]
pub struct NewRow<'a, L: HasEntries>(pub &'a Look<L>);

#[tactic(auto, using(crate::proofs::Tells::no_cells))]
impl<'a, L: HasEntries> Rule for NewRow<'a, L> {
    type Item = RowMarks;

    ghost Holds = { λ s r. Has (L.listed s.0.now.lists).new r.node → cells_before (spread r.marks) ≡ [] };

    fn holds(&self, row: &RowMarks) -> bool {
        !self.0.is_new(row.node) || before(&row.marks) == 0
    }
}

/// A node that leaves from nowhere is put.
#[derive(Drop)]
pub struct LeavesFromNowhere<'a, L: HasEntries>(pub &'a Look<L>);

impl<'a, L: HasEntries> Rule for LeavesFromNowhere<'a, L> {
    type Item = Loose;

    ghost Holds = { λ s l. l.how ≡ LeaveMark → Has (L.listed s.0.now.lists).put l.node };

    fn holds(&self, loose: &Loose) -> bool {
        match loose.how {
            How::Leave => self.0.is_put(loose.node),
            How::Stay | How::Here => true,
        }
    }
}

/// Whether two revisions are one.
#[tactic(auto, using(crate::proofs::Tells::rev_same))]
pub fn is_rev(a: Rev, b: Rev) -> bool
    ensures { IsTrue result ↔ (a ≡ b) }
{
    rev_order(&a, &b).is_eq()
}
