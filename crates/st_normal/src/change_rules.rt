//! The rules of normal form of what a change alone says.
ghost use Rattle.std.specs.Prelude.{◌≡◌, ◌≢◌, ◌⊎◌, ◌↔◌, IsSome, IsTrue, None};
ghost use Rattle.st_ids.specs.Listing.{Has};
ghost use Rattle.st_ids.specs.declared.names.NodeId.{NodeId as Node};
ghost use Rattle.st_ids.specs.Root.{root};
ghost use Rattle.st_normal.specs.Rules.{HasListedField, IsFound};
ghost use Rattle.st_marks.specs.How.{is_stay};
ghost use Rattle.st_marks.specs.declared.marks.How.TheVariants.{Here as HereMark, Stay as StayMark};

use crate::entries::Found;
use crate::index::Index;
use crate::listing::HasEntries;
use crate::lookup::Look;
use crate::rules::{is_rev, is_root};
use crate::scan::{Rule, Walk};
use st_ids::{CellId, NodeId, Rev, is_same_node};
use st_marks::{How, NewNode, RegMark};

/// A new node has a revision.
#[derive(Drop)]
pub struct NewHasRevision(pub Rev);

impl Rule for NewHasRevision {
    type Item = NewNode;

    ghost Holds = { λ s m. m.node.0.rev ≡ s.0 };

    fn holds(&self, new: &NewNode) -> bool {
        is_rev(new.node.0.rev, self.0)
    }
}

/// A cell has a revision.
#[derive(Drop)]
pub struct CellHasRevision(pub Rev);

impl Rule for CellHasRevision {
    type Item = CellId;

    ghost Holds = { λ s c. c.0.rev ≡ s.0 };

    fn holds(&self, cell: &CellId) -> bool {
        is_rev(cell.0.rev, self.0)
    }
}

/// A register that is filled, or whose occupant is set there, is cleared.
#[derive(Drop)]
pub struct FilledIsCleared;

impl Rule for FilledIsCleared {
    type Item = RegMark;

    ghost Holds = { λ s r. IsSome r.fill ⊎ (r.how ≡ HereMark) → IsTrue r.clear };

    fn holds(&self, register: &RegMark) -> bool {
        register.clear || (register.fill.is_none() && !matches!(register.how, How::Here))
    }
}

// Whether nothing becomes of the occupant where there is none.
fn fits_occupant(register: &RegMark) -> bool
    ensures { IsTrue result ↔ (register.now.held ≡ None → register.now.how ≡ StayMark) }
{
    register.held.is_some() || matches!(register.how, How::Stay)
}

// Whether who comes in isn't the occupant.
#[tactic(auto, using(crate::proofs::Tells::node_same))]
fn brings_another(register: &RegMark) -> bool
    ensures { IsTrue result ↔ (IsSome register.now.fill → register.now.fill ≢ register.now.held) }
{
    match (register.fill, register.held) {
        (Some(fill), Some(held)) => !is_same_node(fill, held),
        _ => true,
    }
}

// Whether nobody comes in where the occupant is set there.
fn keeps_occupant(register: &RegMark) -> bool
    ensures { IsTrue result ↔ (register.now.how ≡ HereMark → register.now.fill ≡ None) }
{
    register.fill.is_none() || !matches!(register.how, How::Here)
}

/// What a mark says of its register's occupant and of who comes in goes together.
#[derive(Drop)]
pub struct MarkFits;

impl Rule for MarkFits {
    type Item = RegMark;

    ghost Holds = { λ s r. (r.held ≡ None → r.how ≡ StayMark) × (IsSome r.fill → r.fill ≢ r.held) × (r.how ≡ HereMark → r.fill ≡ None) };

    fn holds(&self, register: &RegMark) -> bool {
        fits_occupant(register) && brings_another(register) && keeps_occupant(register)
    }
}

/// A register is listed because it is cleared, or for its occupant.
#[derive(Drop)]
pub struct MarkTells;

impl Rule for MarkTells {
    type Item = RegMark;

    ghost Holds = { λ s r. IsTrue r.clear ⊎ IsSome r.held };

    fn holds(&self, register: &RegMark) -> bool {
        register.clear || register.held.is_some()
    }
}

/// A register of a new node holds nothing before.
#[derive(Drop)]
pub struct NewRegister<'a, L: HasEntries>(pub &'a Look<L>);

impl<'a, L: HasEntries> Rule for NewRegister<'a, L> {
    type Item = RegMark;

    ghost Holds = { λ s r. Has (L.listed s.0.now.lists).new r.field.node → r.held ≡ None };

    fn holds(&self, register: &RegMark) -> bool {
        register.held.is_none() || !self.0.is_new(register.field.node)
    }
}

/// A node is the root or found.
#[derive(Drop)]
pub struct IsThere<'a, L: HasEntries>(pub &'a Look<L>);

impl<'a, L: HasEntries> Rule for IsThere<'a, L> {
    type Item = NodeId;

    ghost Holds = { λ s n. (n ≡ root) ⊎ IsFound (L.listed s.0.now.lists) n };

    fn holds(&self, node: &NodeId) -> bool {
        is_root(*node) || self.0.is_found(*node)
    }
}

/// A node that stays is needed, or a field of it is listed.
#[derive(Drop)]
pub struct IsMentioned<'a, L: HasEntries, W: Walk<Item = NodeId>> {
    pub look: &'a Look<L>,
    pub need: &'a Index<NodeId, W>,
}

impl<'a, L: HasEntries, W: Walk<Item = NodeId>> Rule for IsMentioned<'a, L, W> {
    type Item = Found;

    ghost Holds = { λ s f. IsTrue (is_stay f.how) → Has (W.left s.need.now.walk) f.node ⊎ HasListedField (L.listed s.look.now.lists) f.node };

    fn holds(&self, found: &Found) -> bool {
        !matches!(found.how, How::Stay)
            || self.need.has(found.node)
            || self.look.has_field(found.node)
    }
}
