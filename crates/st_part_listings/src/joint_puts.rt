//! Where two parts of one commit put nodes together.
ghost use Rattle.std.specs.Prelude.{◌≡◌, Some};
ghost use Rattle.std.specs.BTreeMap.{get};
ghost use Rattle.st_ids.specs.Order.{field_cmp};
ghost use Rattle.st_marks.specs.Join.{put_unless_new};
ghost use Rattle.st_marks.specs.Row.{how as how_at, same_to};
ghost use Rattle.st_part_listings.specs.Together.{cleared_by, clears_in, goes_of, how_it_goes as occupant_goes, if_it_goes as it_goes, known_by, unless_cleared_in};

use st_ids::{FieldId, NodeId, is_same_cell, is_same_field};
use st_marks::{How, RegMark, To};
use std::collections::{BTreeMap, BTreeSet};

/// What two parts tell of nodes: where each puts them, what the second says of registers, whom the first makes, and whom it finds
/// in registers.
#[derive(Drop)]
pub struct Tables {
    pub first: BTreeMap<NodeId, To>,
    pub second: BTreeMap<NodeId, To>,
    pub regs: BTreeMap<FieldId, RegMark>,
    pub new: BTreeSet<NodeId>,
    pub held: BTreeSet<NodeId>,
}

// Whether the second clears a register.
fn is_cleared(tables: &Tables, field: &FieldId) -> bool
    ensures { result ≡ clears_in (get field_cmp tables.now.regs field.now) }
{
    match tables.regs.get(field) {
        None => false,
        Some(reg) => reg.clear,
    }
}

// Whether two puts lead to one place.
fn is_same_to(a: &To, b: &To) -> bool
    ensures { result ≡ same_to a.now b.now }
{
    match a {
        To::Nowhere => match b {
            To::Nowhere => true,
            To::Cell(_) => false,
            To::Register(_) => false,
        },
        To::Cell(cell) => match b {
            To::Nowhere => false,
            To::Cell(other) => is_same_cell(*cell, *other),
            To::Register(_) => false,
        },
        To::Register(field) => match b {
            To::Nowhere => false,
            To::Cell(_) => false,
            To::Register(other) => is_same_field(field, other),
        },
    }
}

// What becomes of a node that is put, seen from a place.
fn how_put(to: &To, here: &To) -> How
    ensures { result ≡ how_at (Some to.now) here.now }
{
    if is_same_to(to, here) {
        How::Here
    } else {
        How::Leave
    }
}

// What becomes of a node that is put, but for a new one that is put nowhere.
fn how_unless_new(is_new: bool, to: &To, here: &To) -> How
    ensures { result ≡ how_at (put_unless_new is_new to.now) here.now }
{
    match to {
        To::Nowhere => { if is_new { How::Stay } else { how_put(to, here) } }
        To::Cell(_) => how_put(to, here),
        To::Register(_) => how_put(to, here),
    }
}

// What becomes of a node that the first alone puts.
fn how_first(tables: &Tables, is_new: bool, to: &To, here: &To) -> How
    ensures { result ≡ how_at (put_unless_new is_new (unless_cleared_in (cleared_by tables.now) to.now)) here.now }
{
    match to {
        To::Nowhere => how_unless_new(is_new, to, here),
        To::Cell(_) => how_put(to, here),
        To::Register(field) => {
            if is_cleared(tables, field) {
                how_unless_new(is_new, &To::Nowhere, here)
            } else {
                how_put(to, here)
            }
        }
    }
}

/// What becomes of a node by both parts, seen from a place.
pub fn how_goes(tables: &Tables, node: NodeId, here: &To) -> How
    ensures { result ≡ how_at (goes_of tables.now node) here.now }
{
    let is_new = tables.new.contains(&node);
    match tables.second.get(&node) {
        Some(to) => how_unless_new(is_new, to, here),
        None => match tables.first.get(&node) {
            None => How::Stay,
            Some(to) => how_first(tables, is_new, to, here),
        },
    }
}

/// What becomes of an occupant by both parts.
pub fn how_it_goes(tables: &Tables, held: Option<NodeId>, here: &To) -> How
    ensures { result ≡ occupant_goes (goes_of tables.now) here.now held }
{
    match held {
        None => How::Stay,
        Some(node) => how_goes(tables, node, here),
    }
}

/// The node, if both parts put it there.
pub fn if_it_goes(tables: &Tables, node: Option<NodeId>, here: &To) -> Option<NodeId>
    ensures { result ≡ it_goes (goes_of tables.now) here.now node }
{
    match node {
        None => None,
        Some(node) => match how_goes(tables, node, here) {
            How::Here => Some(node),
            How::Stay => None,
            How::Leave => None,
        },
    }
}

/// Whether the first makes a node, or finds it in a register, or puts it.
pub fn is_known(tables: &Tables, node: NodeId) -> bool
    ensures { result ≡ known_by tables.now node }
{
    tables.new.contains(&node) || (tables.first.contains_key(&node) || tables.held.contains(&node))
}
