//! Two changes of one register in turn.
ghost use Rattle.std.specs.Prelude.{◌≡◌, ◌||◌, false};
ghost use Rattle.std.specs.Option.{option_map_or};
ghost use Rattle.st_register.specs.Joined.{AreRegPartsJoined};
ghost use Rattle.st_register.specs.Register.{RegPart, RegFits, reg_carried, reg_change_of};
ghost use Rattle.st_register.specs.inside.Readings.{put_in_turn, stays_in_turn, how_in_turn, makes_by};

use crate::told::{entering_node, is_same, makes, put_there};
use crate::values::{RegChange, RegHeld};
use st_ids::NodeId;
use st_marks::How;

// Which node both put there.
fn put(first: &RegChange, then: &RegChange) -> Option<NodeId>
    ensures { result ≡ put_in_turn first.now then.now }
{
    match put_there(then) {
        Some(node) => Some(node),
        None if then.clear || then.how == How::Leave => None,
        None => put_there(first),
    }
}

// What becomes of the occupant that the first finds, unless it is put there at last.
fn stays(first: &RegChange, then: &RegChange) -> How
    ensures { result ≡ stays_in_turn first.now.clear then.now.how first.now.how }
{
    match first.how {
        How::Stay if first.clear => How::Stay,
        How::Stay => then.how,
        How::Here | How::Leave => How::Leave,
    }
}

// What becomes of the occupant that the first finds.
fn how(first: &RegChange, then: &RegChange) -> How
    ensures { result ≡ how_in_turn first.now then.now }
{
    match first.held {
        None => How::Stay,
        Some(_) if is_same(put(first, then), first.held) => How::Here,
        Some(_) => stays(first, then),
    }
}

// Whether one of them makes the node that comes in, if one does.
fn makes_any(first: &RegChange, then: &RegChange, fill: Option<NodeId>) -> bool
    ensures { result ≡ option_map_or (λ n. makes_by first.now n || makes_by then.now n) fill false }
{
    match fill {
        None => false,
        Some(node) => makes(first, node) || makes(then, node),
    }
}

// Whether one of the two holds.
fn either(first: bool, then: bool) -> bool
    ensures { result ≡ (first || then) }
{
    first || then
}

// The two as one.
pub(crate) fn join_changes(first: &RegChange, then: &RegChange) -> RegChange
    ensures { (p q j : RegPart) (c : RegHeld) → AreRegPartsJoined p q c j → RegFits p c → RegFits q (reg_carried p false c)
        → first.now ≡ reg_change_of p c → then.now ≡ reg_change_of q (reg_carried p false c) → result ≡ reg_change_of j c }
{
    let fill = entering_node(first.held, put(first, then));
    RegChange {
        rev: first.rev,
        in_new: either(first.in_new, then.in_new),
        held: first.held,
        how: how(first, then),
        clear: either(first.clear, then.clear),
        fill,
        fill_new: makes_any(first, then, fill),
    }
}
