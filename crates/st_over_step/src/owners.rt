//! Who owns an empty cell that a step makes.
ghost use Rattle.std.specs.Prelude.{◌↔◌, ◌∷◌, [], IsTrue};
ghost use Rattle.std.specs.List.{AllByRecursion};
ghost use Rattle.st_marks.specs.declared.marks.RowMarks.{RowMarks as Row};
ghost use Rattle.st_ids.specs.Listing.{Has};
ghost use Rattle.st_marks.specs.Listings.{nodes_new};
ghost use Rattle.st_over_step.specs.inside.Tables.{IsKnown, OwnersAreKnown};

use crate::each::{Rule, each_of};
use st_forest::Forest;
use st_ids::{NodeId, is_same_node};
use st_marks::{Mark, NewNode, RowMarks, Step};

// Whether a node is among some that are new.
fn is_new(new: &[NewNode], node: NodeId) -> bool
    ensures { IsTrue result ↔ Has (nodes_new new.now) node }
{
    for other in new {
        if is_same_node(other.node, node) {
            return true;
        }
    }
    false
}

// Whether a node is there or new.
fn is_known(forest: &Forest, new: &[NewNode], node: NodeId) -> bool
    ensures { IsTrue result ↔ IsKnown forest.now new.now node }
{
    forest.nodes.get(&node).is_some() || is_new(new, node)
}

/// The owner of the empty cell that a mark makes is there or new.
#[derive(Drop)]
struct HasKnownOwner<'a> {
    forest: &'a Forest,
    new: &'a [NewNode],
}

#[tactic(auto, using(crate::proofs::Counted::holes_counted))]
impl<'a> Rule for HasKnownOwner<'a> {
    type Item = Mark;

    ghost Holds = { λ s m. OwnersAreKnown s.forest.now s.new.now (m ∷ []) };

    fn holds(&self, mark: &Mark) -> bool {
        match *mark {
            Mark::Make { node, full, .. } => full || is_known(self.forest, self.new, node),
            Mark::Skip(_) | Mark::Gap(_) | Mark::Touch { .. } | Mark::Fill { .. } => true,
        }
    }
}

/// The owners of the empty cells that a row's marks make are.
#[derive(Drop)]
struct HasKnownOwners<'a> {
    forest: &'a Forest,
    new: &'a [NewNode],
}

impl<'a> Rule for HasKnownOwners<'a> {
    type Item = RowMarks;

    ghost Holds = { λ s r. OwnersAreKnown s.forest.now s.new.now r.marks };

    fn holds(&self, row: &RowMarks) -> bool {
        each_of(
            row.marks.as_slice(),
            &HasKnownOwner {
                forest: self.forest,
                new: self.new,
            },
        )
    }
}

/// Whether the owners of all empty cells that a step makes are there or new.
pub fn owners_are_known(forest: &Forest, step: &Step) -> bool
    ensures { IsTrue result ↔ AllByRecursion (λ (r : Row). OwnersAreKnown forest.now step.now.new r.marks) step.now.rows }
{
    each_of(
        step.rows.as_slice(),
        &HasKnownOwners {
            forest,
            new: step.new.as_slice(),
        },
    )
}
