//! Which nodes stand in the rows and registers of which, and whether they do in a ring.
ghost use Rattle.std.specs.Prelude.{◌≡◌, ◌↔◌, ◌++◌, IsTrue, map, refl};
ghost use Rattle.std.specs.List.{filter};
ghost use Rattle.st_normal.specs.inside.Links.{link, links_at, links_in, are_new, stands_after, stands_before, up_by};
ghost use Rattle.st_normal.specs.inside.Ring.{HasRing};
ghost use Rattle.st_marks.specs.Row.{spread};
ghost use Rattle.st_normal.specs.declared.entries.Link.{Link as Linked};

use crate::entries::Link;
use crate::index::{Index, Named};
use crate::listing::HasEntries;
use crate::lookup::Look;
use crate::registers::Register;
use crate::rings::{Hangs, has_ring};
use crate::scan::{Along, InRow, Part, Then, Walk, in_rows};
use st_ids::NodeId;
use st_marks::{How, Mark, RowMarks};
use std::alloc::Global;

/// The nodes that stand in cells before.
#[derive(Clone, Copy)]
pub struct StandsBefore;

#[tactic(auto, using(crate::proofs::Counted::before_counted))]
impl InRow for StandsBefore {
    type Item = Link;

    ghost of = { λ row ms. map (link row) (stands_before (spread ms)) };

    ghost none = { λ row. refl };

    fn pick(&self, row: NodeId, mark: Mark) -> Option<Link> {
        match mark {
            Mark::Touch { node, .. } => Some(Link { node, up: row }),
            _ => None,
        }
    }
}

/// The nodes that stand in cells after.
#[derive(Clone, Copy)]
pub struct StandsAfter;

#[tactic(auto, using(crate::proofs::Counted::after_counted))]
impl InRow for StandsAfter {
    type Item = Link;

    ghost of = { λ row ms. map (link row) (stands_after (spread ms)) };

    ghost none = { λ row. refl };

    fn pick(&self, row: NodeId, mark: Mark) -> Option<Link> {
        match mark {
            Mark::Touch {
                how: How::Leave,
                ..
            } => None,
            Mark::Touch { node, .. } => Some(Link { node, up: row }),
            Mark::Make { node, full, .. } if full => Some(Link { node, up: row }),
            Mark::Fill { node, .. } => Some(Link { node, up: row }),
            _ => None,
        }
    }
}

/// The nodes that are in registers before.
#[derive(Clone, Copy)]
pub struct HeldBefore;

impl<G: Register> Part<G> for HeldBefore {
    type Item = Link;

    ghost of = { links_at G.field G.before };

    ghost none = { refl };

    fn pick(&self, from: &G) -> Option<Link> {
        let node = from.before()?;
        Some(Link {
            node,
            up: from.field().node,
        })
    }
}

/// The nodes that are in registers after.
#[derive(Clone, Copy)]
pub struct HeldAfter;

impl<G: Register> Part<G> for HeldAfter {
    type Item = Link;

    ghost of = { links_at G.field G.after };

    ghost none = { refl };

    fn pick(&self, from: &G) -> Option<Link> {
        let node = from.after()?;
        Some(Link {
            node,
            up: from.field().node,
        })
    }
}

/// Nodes as they stand above one another.
#[derive(Drop)]
struct Links<W: Walk<Item = Link>> {
    index: Index<Link, W>,
}

impl<W: Walk<Item = Link>> Hangs for Links<W> {
    type Place = W;

    ghost up = { λ s. up_by (W.left s.index.walk) };

    ghost nodes = { λ s. map (λ (l : Linked). l.node) (W.left s.index.walk) };

    ghost rest = { λ s w. map (λ (l : Linked). l.node) (W.left w) };

    fn up(&self, node: NodeId) -> Option<NodeId> {
        let link = self.index.find(node.name())?;
        Some(link.up)
    }

    fn first(&self) -> W {
        self.index.walk
    }

    fn next(&self, place: W) -> Option<(NodeId, W)> {
        let mut walk = place;
        let link = walk.step()?;
        Some((link.node, walk))
    }
}

/// Whether nodes stand above one another in a ring.
pub fn stand_in_ring<W: Walk<Item = Link>>(alloc: Global, walk: W) -> bool
    ensures { IsTrue result ↔ HasRing (up_by (W.left walk)) }
{
    let links = Links {
        index: Index::of(alloc, walk),
    };
    has_ring(alloc, &links)
}

// Whether a node is new, and the one above it too.
fn is_new_in_new<L: HasEntries>(look: &Look<L>, link: Link) -> bool
    ensures { IsTrue result ↔ IsTrue (are_new (L.listed look.now.lists).new link) }
{
    look.is_new(link.node) && look.is_new(link.up)
}

/// New nodes as they stand in new nodes.
#[derive_where(Clone, Copy; W)]
struct NewInNew<'a, L: HasEntries, W> {
    walk: W,
    look: &'a Look<L>,
}

impl<'a, L: HasEntries, W: Walk<Item = Link>> Walk for NewInNew<'a, L, W> {
    type Item = Link;

    ghost left = { λ s. filter (are_new (L.listed s.look.now.lists).new) (W.left s.walk) };

    fn step(&mut self) -> Option<Link> {
        while let Some(link) = self.walk.step() {
            if is_new_in_new(self.look, link) {
                return Some(link);
            }
        }
        None
    }
}

/// Whether nodes stand above one another in a ring before.
pub fn ring_before<G: Register>(alloc: Global, rows: &[RowMarks], regs: &[G]) -> bool
    ensures { IsTrue result ↔ HasRing (up_by (links_in stands_before rows.now ++ links_at G.field G.before regs.now)) }
{
    let held = Along {
        items: regs,
        part: HeldBefore,
    };
    let walk = Then {
        first: in_rows(rows, StandsBefore),
        second: held,
    };
    stand_in_ring(alloc, walk)
}

/// Whether nodes stand above one another in a ring after.
pub fn ring_after<G: Register>(alloc: Global, rows: &[RowMarks], regs: &[G]) -> bool
    ensures { IsTrue result ↔ HasRing (up_by (links_in stands_after rows.now ++ links_at G.field G.after regs.now)) }
{
    let held = Along {
        items: regs,
        part: HeldAfter,
    };
    let walk = Then {
        first: in_rows(rows, StandsAfter),
        second: held,
    };
    stand_in_ring(alloc, walk)
}

/// Whether new nodes stand in new nodes in a ring.
pub fn ring_of_new<L: HasEntries, G: Register>(
    alloc: Global,
    look: &Look<L>,
    rows: &[RowMarks],
    regs: &[G],
) -> bool
    ensures { IsTrue result ↔ HasRing (up_by (filter (are_new (L.listed look.now.lists).new) (links_in stands_after rows.now ++ links_at G.field G.after regs.now))) }
{
    let held = Along {
        items: regs,
        part: HeldAfter,
    };
    let walk = Then {
        first: in_rows(rows, StandsAfter),
        second: held,
    };
    stand_in_ring(alloc, NewInNew { walk, look })
}
