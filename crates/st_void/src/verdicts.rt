//! Whether a change is void where it stands, and why.
ghost use Rattle.st_ids.specs.Listing.{Has};
ghost use Rattle.st_marks.specs.declared.intents.Intent.{Intent};
ghost use Rattle.st_marks.specs.Document.{Document, IsSoundInForm};
ghost use Rattle.st_marks.specs.Intent.{Fits};
ghost use Rattle.st_marks.specs.Verdict.{IsVerdict};
ghost use Rattle.st_mention_laws.specs.Shown.{Shows};
ghost use Rattle.st_doc.specs.inside.Ahead.{IsLeastOf};
ghost use Rattle.st_void.specs.Standing.{IsShownLive};

use crate::climb::is_shown_live;
use crate::rings::{least_ring, least_with};
use st_ids::NodeId;
use st_marks::{Change, Verdict};

// The least needed node that isn't live.
fn least_unmet(change: &Change) -> Option<NodeId>
    ensures { IsLeastOf (λ n. Has change.now.need n × (IsShownLive change.now n → ⊥)) result }
{
    let mut least = None;
    'needs: for node in change.need.as_slice() {
        least = least_with(least, *node, !is_shown_live(change, *node));
    }
    least
}

/// The verdict of a change where it stands: the schema, a need that isn't met, or a ring, in this order, with the least
/// node. It asks for no memory. Each need, and each node that is put and has something listed below it, costs a look at
/// all marks for each node above it.
pub fn verdict(change: &Change) -> Verdict
    ensures { (D : Document) (N : Intent) → IsSoundInForm D → Fits D N → Shows D N change.now → IsVerdict D N result }
{
    if !change.base {
        return Verdict::Schema(change.under);
    }
    match least_unmet(change) {
        Some(node) => Verdict::Need(node),
        None => match least_ring(change) {
            Some(node) => Verdict::Cycle(node),
            None => Verdict::Sound,
        },
    }
}
