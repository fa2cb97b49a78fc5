//! The registers of one node, which stand together in the table of all registers.
ghost use Rattle.std.specs.Prelude.{◌≡◌, ◌++◌, [], drop, length, map, IfOk, OnOk};
ghost use Rattle.std.specs.BTreeMap.{IsOrdered};
ghost use Rattle.serde_json.specs.Data.{put as put_member};
ghost use Rattle.serde_json.specs.View.{members_view, view};
ghost use Rattle.st_ids.specs.Order.{field_cmp};
ghost use Rattle.st_marks.specs.LiveTree.{register};
ghost use Rattle.st_doc.specs.declared.seats.Seat.{Seat as Held};
ghost use Rattle.st_doc.specs.inside.LiveText.{seats_of};
ghost use Rattle.st_export.specs.inside.Members.{members_with, put_first};

use serde_json::{Map, Value};
use st_ids::{FieldId, Key, NodeId, Text, is_same_node};
use std::alloc::{AllocError, Global};
use std::collections::BTreeMap;
use std::collections::btree_map::Range;

// The least name that a register of a node can have.
fn first_name(alloc: Global, node: NodeId) -> FieldId
    ensures { result ≡ register node [] }
{
    let key = Key(Text::new(alloc));
    FieldId { node, key }
}

/// Puts the occupants of a node's registers behind other nodes, in the order of the keys.
pub fn push_occupants(
    alloc: Global,
    held: &BTreeMap<FieldId, NodeId>,
    node: NodeId,
    nodes: &mut Vec<NodeId>,
) -> Result<(), AllocError>
    ensures occupants { OnOk result (nodes.new.items
        ≡ nodes.old.items ++ map (λ (s : Held). s.node) (seats_of node held.now.entries)) }
    ensures ordered { OnOk result (IsOrdered field_cmp held.now) }
{
    for (field, occupant) in held.range(first_name(alloc, node)..) {
        if !is_same_node(field.node, node) {
            break;
        }
        nodes.push(*occupant)?;
    }
    Ok(())
}

// Puts a value under a key.
fn put(
    alloc: Global,
    members: &mut Map<String, Value>,
    key: &Text,
    value: Value,
) -> Result<(), AllocError>
    ensures { OnOk result (members_view members.new.entries ≡ put_member key.now (view value) (members_view members.old.entries)) }
{
    let key = String::from_str(alloc, key.as_str())?;
    members.insert(key, value)?;
    Ok(())
}

// Puts a value under the key of the next register, if there is one.
fn put_next(
    alloc: Global,
    registers: &mut Range<'_, FieldId, NodeId>,
    members: &mut Map<String, Value>,
    value: Value,
) -> Result<(), AllocError>
    ensures members { OnOk result (members_view members.new.entries
        ≡ put_first registers.old (view value) (members_view members.old.entries)) }
    ensures rest { registers.new ≡ drop 1 registers.old }
{
    match registers.next() {
        None => Ok(()),
        Some((field, _)) => put(alloc, members, &field.key.0, value),
    }
}

/// An object's members: under the key of each register of a node a value, in order.
pub fn members_of(
    alloc: Global,
    held: &BTreeMap<FieldId, NodeId>,
    node: NodeId,
    values: Vec<Value>,
) -> Result<Map<String, Value>, AllocError>
    requires { length values.items ≡ length (seats_of node held.now.entries) }
    ensures members { IfOk result (λ ms. members_view ms.entries ≡ members_with (seats_of node held.now.entries) values.items) }
    ensures ordered { OnOk result (IsOrdered field_cmp held.now) }
{
    let mut members = Map::new(alloc);
    let mut registers = held.range(first_name(alloc, node)..);
    for value in values {
        put_next(alloc, &mut registers, &mut members, value)?;
    }
    Ok(members)
}
