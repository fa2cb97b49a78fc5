//! Climbing as a change shows it.
ghost use Rattle.std.specs.Prelude.{◌≡◌, ◌⊎◌, ◌↔◌, true};
ghost use Rattle.st_ids.specs.Root.{root};
ghost use Rattle.st_marks.specs.declared.intents.Intent.{Intent};
ghost use Rattle.st_marks.specs.Document.{Document, IsLive, IsSoundInForm, Reaches};
ghost use Rattle.st_marks.specs.Embedding.{IsMentionedByIntent};
ghost use Rattle.st_marks.specs.Intent.{Fits};
ghost use Rattle.st_mention_laws.specs.Shown.{Shows};
ghost use Rattle.st_void.specs.Standing.{IsShownLive, above_shown};

use crate::standing::{When, above};
use st_ids::{NodeId, ROOT, is_same_node};
use st_marks::Change;

/// Whether some steps up, at least one, lead from one node to another.
pub fn is_above(change: &Change, when: When, to: NodeId, from: NodeId) -> bool
    ensures { (result ≡ true) ↔ Reaches (above_shown when change.now) from to }
{
    let most = change.rows.len() as u128 + change.regs.len() as u128;
    let mut here = from;
    let mut steps: u128 = 0;
    'climb: while steps < most {
        match above(change, when, here) {
            None => return false,
            Some(next) => {
                if is_same_node(next, to) {
                    return true;
                }
                here = next;
            }
        }
        steps += 1;
    }
    false
}

// Whether a node is the root or beneath it, as a change shows it.
pub(crate) fn is_shown_live(change: &Change, node: NodeId) -> bool
    ensures { (result ≡ true) ↔ IsShownLive change.now node }
{
    is_same_node(node, ROOT) || is_above(change, When::Before, ROOT, node)
}

/// Whether a node is the root or beneath it, where a change stands.
pub fn is_live(change: &Change, node: NodeId) -> bool
    ensures { (D : Document) (N : Intent) → IsSoundInForm D → Fits D N → Shows D N change.now
        → (node ≡ root) ⊎ IsMentionedByIntent D N node → ((result ≡ true) ↔ IsLive D node) }
{
    is_shown_live(change, node)
}
