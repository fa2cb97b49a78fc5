//! What a change finds before a step, told by the step and a forest of the document to which it leads.
ghost use Rattle.std.specs.Prelude.{◌≡◌, ◌↔◌, IsTrue, [], false, true};
ghost use Rattle.std.specs.List.{AllByRecursion};
ghost use Rattle.st_marks.specs.Embedding.{is_nowhere};
ghost use Rattle.st_marks.specs.Listings.{cells_before};
ghost use Rattle.st_marks.specs.Row.{spread};
ghost use Rattle.st_puts.specs.Seen.{AreAsSeen};
ghost use Rattle.st_author_over.specs.inside.Seen.{has_node, held_seen, known_seen, nowhere_seen, place_in, row_seen};

use crate::look::{finds_anywhere, is_loose, is_new, marks_at, register_at};
use crate::side::is_over_back;
use st_forest::Forest;
use st_ids::{FieldId, List, NodeId};
use st_marks::{Loose, Mark, NewNode, RegMark, RowMarks, Spot, Step, before};

/// A forest, and a step that leads to its document.
#[derive(Clone, Copy)]
pub struct Before<'a> {
    pub forest: &'a Forest,
    pub step: &'a Step,
}

/// What may be asked of things that a change lists.
pub trait Finds<T> {
    ghost IsFound: { Self → T → Type 0 };

    /// Whether it holds of a thing.
    fn finds(&self, thing: &T) -> bool
        ensures { IsTrue result ↔ IsFound self.now thing.now };
}

/// Whether it holds of each thing.
pub fn finds_each<T, B: Finds<T>>(asked: &B, things: &[T]) -> bool
    ensures { IsTrue result ↔ AllByRecursion (B.IsFound asked.now) things.now }
{
    for thing in things {
        if !asked.finds(thing) {
            return false;
        }
    }
    true
}

// Whether marks find no cell.
#[tactic(auto, using(crate::proofs::Found::none_seen))]
fn finds_none(marks: &List<Mark>) -> bool
    ensures { IsTrue result ↔ AreAsSeen [] (cells_before (spread marks.now)) }
{
    before(marks) == 0
}

// The node in a register before.
fn held_before(of: &Before<'_>, field: &FieldId) -> Option<NodeId>
    ensures { result ≡ held_seen of.now.forest.now of.now.step.now field.now }
{
    match register_at(of.step.regs.as_slice(), field) {
        Some(reg) => reg.before,
        None => of.forest.held.get(field).copied(),
    }
}

// Whether a node is there.
fn is_there(forest: &Forest, node: NodeId) -> bool
    ensures { result ≡ has_node forest.now node }
{
    forest.nodes.get(&node).is_some()
}

// Whether a node is there before.
fn is_there_before(of: &Before<'_>, node: NodeId) -> bool
    ensures { result ≡ known_seen of.now.forest.now of.now.step.now node }
{
    is_there(of.forest, node) && !is_new(of.step.new.as_slice(), node)
}

// Whether a node stands nowhere.
fn stands_nowhere(forest: &Forest, node: NodeId) -> bool
    ensures { result ≡ is_nowhere (place_in forest.now node) }
{
    match forest.nodes.get(&node) {
        None => true,
        Some(seated) => matches!(seated.place, Spot::Nowhere),
    }
}

// Whether a node stands nowhere before.
#[tactic(auto, using(crate::proofs::Found::one_order))]
fn is_nowhere_before(of: &Before<'_>, node: NodeId) -> bool
    ensures { result ≡ nowhere_seen of.now.forest.now of.now.step.now node }
{
    is_loose(of.step.loose.as_slice(), node)
        || (stands_nowhere(of.forest, node) && !finds_anywhere(of.step, node))
}

impl Finds<RowMarks> for Before<'_> {
    ghost IsFound = { λ s r. AreAsSeen (row_seen s.forest.now s.step.now r.node) (cells_before (spread r.marks)) };

    fn finds(&self, row: &RowMarks) -> bool {
        match self.forest.rows.get(&row.node) {
            None => finds_none(&row.marks),
            Some(slots) => is_over_back(
                slots,
                marks_at(self.step.rows.as_slice(), row.node),
                row.marks.as_slice(),
            ),
        }
    }
}

impl Finds<RegMark> for Before<'_> {
    ghost IsFound = { λ s r. held_seen s.forest.now s.step.now r.field ≡ r.held };

    fn finds(&self, reg: &RegMark) -> bool {
        held_before(self, &reg.field) == reg.held
    }
}

impl Finds<Loose> for Before<'_> {
    ghost IsFound = { λ s l. (nowhere_seen s.forest.now s.step.now l.node ≡ true) × (known_seen s.forest.now s.step.now l.node ≡ true) };

    fn finds(&self, loose: &Loose) -> bool {
        is_there_before(self, loose.node) && is_nowhere_before(self, loose.node)
    }
}

impl Finds<NewNode> for Before<'_> {
    ghost IsFound = { λ s m. known_seen s.forest.now s.step.now m.node ≡ false };

    fn finds(&self, new: &NewNode) -> bool {
        !is_there_before(self, new.node)
    }
}
