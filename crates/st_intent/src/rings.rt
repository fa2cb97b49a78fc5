//! New nodes inside new nodes.
ghost use Rattle.std.specs.Prelude.{◌≡◌, ◌+◌, length};
ghost use Rattle.st_marks.specs.Intent.{put_under, above_new, put_of};
ghost use Rattle.st_intent.specs.inside.Rules.{ends_within, no_ring_holds};

use crate::finds::{is_new, new_row_of, put_of};
use st_ids::NodeId;
use st_marks::{Intent, To};

// In whose row of new cells or register a node is put.
fn put_under(intent: &Intent, node: NodeId) -> Option<NodeId>
    ensures { result ≡ put_under intent.now (put_of intent.now node) }
{
    match put_of(intent, node)? {
        To::Nowhere => None,
        To::Cell(cell) => new_row_of(intent, *cell),
        To::Register(field) => Some(field.node),
    }
}

// The new node above a new node.
fn above_new(intent: &Intent, node: NodeId) -> Option<NodeId>
    ensures { result ≡ above_new intent.now node }
{
    if !is_new(intent, node) {
        return None;
    }
    let above = put_under(intent, node)?;
    if is_new(intent, above) {
        Some(above)
    } else {
        None
    }
}

// Whether steps up from a new node come to an end before they can have met each new node.
fn ends(intent: &Intent, node: NodeId) -> bool
    ensures { result ≡ ends_within (above_new intent.now) (length intent.now.new + 1) node }
{
    let mut here = node;
    let mut left = intent.new.len();
    while left > 0 {
        left -= 1;
        match above_new(intent, here) {
            None => return true,
            Some(above) => here = above,
        }
    }
    above_new(intent, here).is_none()
}

/// Whether new nodes inside new nodes form no ring.
pub fn no_ring_holds(intent: &Intent) -> bool
    ensures { result ≡ no_ring_holds intent.now }
{
    intent.new.as_slice().iter().all(|m| ends(intent, m.node))
}
