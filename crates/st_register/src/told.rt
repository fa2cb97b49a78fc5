//! What the change of a register tells.
ghost use Rattle.std.specs.Prelude.{◌≡◌, ◌↔◌, Bool, false, IsTrue, if◌then◌else◌};
ghost use Rattle.std.specs.Option.{option_map_or};
ghost use Rattle.st_ids.specs.Order.{same_node};
ghost use Rattle.st_marks.specs.Intent.{same_option};
ghost use Rattle.st_marks.specs.Register.{comes_in};
ghost use Rattle.st_kind.specs.Refused.{IsApartWhere};
ghost use Rattle.st_register.specs.Register.{RegPart, RegFits, RegKeeps, reg_change_of, held_void, DifferAt};
ghost use Rattle.st_register.specs.Readings.{left_by};
ghost use Rattle.st_register.specs.inside.Readings.{put_by, left_void_by, how_by, makes_by};

use crate::values::{RegChange, RegHeld};
use st_ids::{NodeId, Or};
use st_kind::Apart;
use st_marks::How;

// Whether the occupants are one.
fn is_one(a: Option<NodeId>, b: Option<NodeId>) -> bool
    ensures { IsTrue result ↔ (a ≡ b) }
{
    a == b
}

// The same, by the test of names.
pub(crate) fn is_same(a: Option<NodeId>, b: Option<NodeId>) -> bool
    ensures same { result ≡ same_option same_node a b }
    ensures one { IsTrue result ↔ (a ≡ b) }
{
    is_one(a, b)
}

// Refuses two occupants that differ.
pub(crate) fn agree(a: Option<NodeId>, b: Option<NodeId>) -> Result<(), Or<Apart>>
    ensures { IsApartWhere result (DifferAt a b) }
{
    if is_one(a, b) {
        Ok(())
    } else {
        Err(Or::Fault(Apart { place: 0 }))
    }
}

// Which node the change puts there.
pub(crate) fn put_there(change: &RegChange) -> Option<NodeId>
    ensures { result ≡ put_by change.now }
{
    match change.how {
        How::Here => change.held,
        _ => change.fill,
    }
}

// Who is there after the change, carried out whole.
pub(crate) fn left_whole(change: &RegChange) -> Option<NodeId>
    ensures { result ≡ left_by change.now }
{
    match (change.fill, change.how) {
        (Some(node), _) => Some(node),
        (None, How::Leave) => None,
        (None, How::Here) => change.held,
        (None, How::Stay) if change.clear => None,
        (None, How::Stay) => change.held,
    }
}

// Who is there after the change, void or whole.
pub(crate) fn occupant_left(change: &RegChange, void: bool) -> Option<NodeId>
    ensures { result ≡ (if void then left_void_by change.now else left_by change.now) }
{
    if !void {
        left_whole(change)
    } else if change.in_new && change.fill_new {
        change.fill
    } else {
        change.held
    }
}

// What becomes of an occupant.
fn how_of(change: &RegChange, held: Option<NodeId>) -> How
    ensures { result ≡ how_by change.now held }
{
    match held {
        None => How::Stay,
        Some(_) if is_same(put_there(change), held) => How::Here,
        Some(_) if is_same(change.held, held) => change.how,
        Some(_) => How::Stay,
    }
}

// The node that is put there, unless it is there already.
pub(crate) fn entering_node(held: Option<NodeId>, put: Option<NodeId>) -> Option<NodeId>
    ensures { result ≡ comes_in held put }
{
    if is_same(held, put) { None } else { put }
}

// Whether the change makes a node that comes in.
pub(crate) fn makes(change: &RegChange, node: NodeId) -> bool
    ensures { result ≡ makes_by change.now node }
{
    change.fill_new && is_same(change.fill, Some(node))
}

// Whether the change makes the node that comes in, if one does.
fn makes_any(change: &RegChange, fill: Option<NodeId>) -> bool
    ensures { result ≡ option_map_or (makes_by change.now) fill false }
{
    match fill {
        None => false,
        Some(node) => makes(change, node),
    }
}

// The change where someone else is there.
pub(crate) fn over_occupant(change: &RegChange, held: Option<NodeId>) -> RegChange
    ensures kept { (p : RegPart) (c d : RegHeld) → RegFits p c → RegFits p d → RegKeeps p c d → d.node ≡ held
        → change.now ≡ reg_change_of p c → result ≡ reg_change_of p d }
    ensures void { (p : RegPart) (c d : RegHeld) → RegFits p c → RegFits p d → d.node ≡ held → change.now ≡ reg_change_of p c
        → left_void_by result ≡ held_void p d.node }
{
    let fill = entering_node(held, put_there(change));
    RegChange {
        held,
        how: how_of(change, held),
        fill,
        fill_new: makes_any(change, fill),
        ..*change
    }
}
