//! What a step finds in the tables, and the nodes that it makes.
ghost use Rattle.std.specs.Prelude.{◌≡◌, ◌↔◌, IsTrue};
ghost use Rattle.std.specs.List.{AllByRecursion};
ghost use Rattle.st_over_step.specs.inside.Tables.{FindsWhatIsSo};

use crate::each::{Rule, each_of};
use crate::owners::owners_are_known;
use crate::rows::is_row_seen;
use st_forest::Forest;
use st_ids::{NodeId, is_same_node};
use st_marks::{Loose, NewNode, RegStep, RowMarks, Spot, Step};

/// A row is as its marks say of it before.
#[derive(Drop)]
struct IsSeen<'a>(&'a Forest);

impl<'a> Rule for IsSeen<'a> {
    ghost use Rattle.st_over_step.specs.inside.Tables.{RowIsSeen};

    type Item = RowMarks;

    ghost Holds = { λ s r. RowIsSeen s.0.now r };

    fn holds(&self, row: &RowMarks) -> bool {
        is_row_seen(self.0.rows.get(&row.node), row.marks.as_slice())
    }
}

// Whether two registers hold the same.
fn is_same_held(a: Option<NodeId>, b: Option<NodeId>) -> bool
    ensures { IsTrue result ↔ (a ≡ b) }
{
    match a {
        None => b.is_none(),
        Some(node) => match b {
            None => false,
            Some(other) => is_same_node(node, other),
        },
    }
}

/// A register holds whom the step finds there.
#[derive(Drop)]
struct IsHeldBy<'a>(&'a Forest);

impl<'a> Rule for IsHeldBy<'a> {
    ghost use Rattle.st_over_step.specs.inside.Tables.{IsHeld};

    type Item = RegStep;

    ghost Holds = { λ s r. IsHeld s.0.now r };

    fn holds(&self, register: &RegStep) -> bool {
        is_same_held(self.0.held.get(&register.field).copied(), register.before)
    }
}

/// A node is there, and nowhere.
#[derive(Drop)]
struct StandsNowhere<'a>(&'a Forest);

impl<'a> Rule for StandsNowhere<'a> {
    ghost use Rattle.st_over_step.specs.inside.Tables.{IsNowhere};

    type Item = Loose;

    ghost Holds = { λ s l. IsNowhere s.0.now l };

    fn holds(&self, loose: &Loose) -> bool {
        match self.0.nodes.get(&loose.node) {
            None => false,
            Some(seated) => matches!(&seated.place, Spot::Nowhere),
        }
    }
}

/// A node isn't there.
#[derive(Drop)]
struct IsNotThere<'a>(&'a Forest);

impl<'a> Rule for IsNotThere<'a> {
    ghost use Rattle.st_over_step.specs.inside.Tables.{IsUnknown};

    type Item = NewNode;

    ghost Holds = { λ s m. IsUnknown s.0.now m };

    fn holds(&self, new: &NewNode) -> bool {
        self.0.nodes.get(&new.node).is_none()
    }
}

/// Whether the rows, the registers and the nodes that a step lists are as it says, and the nodes that it makes aren't there.
pub fn finds_what_is_so(forest: &Forest, step: &Step) -> bool
    ensures { IsTrue result ↔ FindsWhatIsSo forest.now step.now }
{
    each_of(step.rows.as_slice(), &IsSeen(forest))
        && each_of(step.regs.as_slice(), &IsHeldBy(forest))
        && each_of(step.loose.as_slice(), &StandsNowhere(forest))
        && each_of(step.new.as_slice(), &IsNotThere(forest))
        && owners_are_known(forest, step)
}
