//! The rules that the change of a register keeps.
ghost use Rattle.std.specs.Prelude.{◌≡◌, ◌≢◌, ◌↔◌, true, Option, IfSome, IsTrue};
ghost use Rattle.st_ids.specs.declared.names.NodeId.{NodeId as Node};
ghost use Rattle.st_ids.specs.Root.{root};
ghost use Rattle.st_register.specs.inside.NormalForm.{IsNormalRegChange};

use crate::values::RegChange;
use st_ids::{NodeId, ROOT, Rev};
use st_marks::How;

// Nobody stays.
fn is_nobody_staying(change: &RegChange) -> bool
    ensures { IsTrue result ↔ (change.now.held ≡ None → change.now.how ≡ How.Stay) }
{
    change.held.is_some() || change.how == How::Stay
}

// An occupant is put where it is only in a register that is cleared and that nobody else comes into.
fn is_put_alone(change: &RegChange) -> bool
    ensures { IsTrue result ↔ (change.now.how ≡ How.Here → (change.now.clear ≡ true) × (change.now.fill ≡ None)) }
{
    change.how != How::Here || (change.clear && change.fill.is_none())
}

// Who comes in isn't there yet, isn't the root, and comes into a register that is cleared.
fn is_filled_well(change: &RegChange) -> bool
    ensures { IsTrue result ↔ IfSome change.now.fill (λ n. (change.now.clear ≡ true) × (change.now.held ≢ Some n) × (n ≢ root)) }
{
    match change.fill {
        None => true,
        Some(node) => change.clear && change.held != Some(node) && node != ROOT,
    }
}

// A new node comes in, and has the commit's revision.
fn is_made_here(change: &RegChange) -> bool
    ensures { IsTrue result ↔ (change.now.fill_new ≡ true → (n : Node) × (change.now.fill ≡ Some n) × (n.0.rev ≡ change.now.rev)) }
{
    match change.fill {
        None => !change.fill_new,
        Some(node) => !change.fill_new || node.0.rev == change.rev,
    }
}

// The register of a new node is empty.
fn is_empty_if_new(change: &RegChange) -> bool
    ensures { IsTrue result ↔ (change.now.in_new ≡ true → change.now.held ≡ None) }
{
    !change.in_new || change.held.is_none()
}

// Whether the change keeps all of the rules.
pub(crate) fn is_of_form(change: &RegChange) -> bool
    ensures { IsTrue result ↔ IsNormalRegChange change.now }
{
    is_nobody_staying(change)
        && is_put_alone(change)
        && is_filled_well(change)
        && is_made_here(change)
        && is_empty_if_new(change)
}
