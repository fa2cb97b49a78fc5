//! The text of the live tree.
ghost use Rattle.std.specs.Prelude.{◌≡◌, ◌≢◌, cond, map, IfOk, OnOk, IsSome, Some, None};
ghost use Rattle.std.specs.BTreeMap.{get};
ghost use Rattle.serde_json.specs.View.{view, members_view};
ghost use Rattle.st_ids.specs.Listing.{AreDistinct};
ghost use Rattle.st_ids.specs.declared.names.NodeId.{NodeId as Node};
ghost use Rattle.st_ids.specs.Order.{node_cmp, same_node};
ghost use Rattle.st_marks.specs.Document.{IsSoundInForm, above, content};
ghost use Rattle.st_ids.specs.Root.{root};
ghost use Rattle.st_marks.specs.LiveTree.{one_member, owners_shown, Shows, IsTreeText};
ghost use Rattle.st_ids.specs.LeafText.{leaf_data};
ghost use Rattle.st_doc.specs.Doc.{document_of};
ghost use Rattle.st_doc.specs.LiveText.{is_among};
ghost use Rattle.st_doc.specs.inside.LiveText.{AllShown, AreMade, AreMembers, AreSeats, AreValues, IsPart, KeepsOthers, KeysRise};
ghost use Rattle.st_doc.specs.declared.seats.Seat.{Seat as Held};

use crate::doc::Doc;
use crate::live::is_full;
use crate::maps::{put_entry, set};
use crate::opening::root_node;
use crate::order::top_down;
use crate::rows::cells_of;
use crate::seats::{Seat, seats_at, seats_of};
use serde_json::{Map, Value};
use st_ids::{Leaf, List, NodeId, Text};
use std::alloc::{AllocError, Global};
use std::collections::BTreeMap;

// Takes the value of a node out.
fn take(done: &mut BTreeMap<NodeId, Value>, node: NodeId) -> Value
    requires { IsSome (get node_cmp done.old node) }
    ensures value { get node_cmp done.old node ≡ Some result }
    ensures rest { (n : Node) → get node_cmp done.new n ≡ cond (same_node node n) None (get node_cmp done.old n) }
{
    match done.remove(&node) {
        Some(value) => value,
        None => unreachable!(),
    }
}

// The values of a row's items.
fn row_values(
    alloc: Global,
    doc: &Doc,
    node: NodeId,
    done: &mut BTreeMap<NodeId, Value>,
) -> Result<Vec<Value>, AllocError>
    requires sound { IsSoundInForm (document_of doc.now) }
    requires made { AreMade done.old (owners_shown (content (document_of doc.now) node)) }
    ensures part { OnOk result (IsPart done.new done.old) }
    ensures values { IfOk result (λ vs. AreValues done.old (owners_shown (content (document_of doc.now) node)) vs.items) }
    ensures rest { OnOk result (KeepsOthers (owners_shown (content (document_of doc.now) node)) done.new done.old) }
{
    let mut values = Vec::new(alloc);
    for owned in cells_of(&doc.rows, node) {
        if is_full(&doc.place, owned) {
            values.push(take(done, owned.node))?;
        }
    }
    Ok(values)
}

// The members for some registers.
fn members_of(
    alloc: Global,
    seats: &[Seat],
    done: &mut BTreeMap<NodeId, Value>,
) -> Result<Map<String, Value>, AllocError>
    requires rise { KeysRise seats.now }
    requires once { AreDistinct (λ (s : Held). s.node) seats.now }
    requires made { AreMade done.old (map (λ (s : Held). s.node) seats.now) }
    ensures part { OnOk result (IsPart done.new done.old) }
    ensures members { IfOk result (λ ms. AreMembers done.old seats.now (members_view ms.entries)) }
    ensures rest { OnOk result (KeepsOthers (map (λ (s : Held). s.node) seats.now) done.new done.old) }
{
    let mut members = Map::new(alloc);
    let mut left = seats.len();
    while left > 0 {
        left -= 1;
        let seat = &seats[left];
        let value = take(done, seat.node);
        let key = String::from_str(alloc, seat.key.as_str())?;
        put_entry(&mut members, key, value)?;
    }
    Ok(members)
}

// The value of a leaf.
fn leaf_value(alloc: Global, leaf: &Leaf) -> Result<Value, AllocError>
    ensures { IfOk result (λ v. view v ≡ leaf_data leaf.now) }
{
    match leaf {
        Leaf::Null => Ok(Value::Null),
        Leaf::Bool(truth) => Ok(Value::Bool(*truth)),
        Leaf::Int(number) => Ok(Value::from(*number)),
        Leaf::Words(text) => Ok(Value::String(String::from_str(alloc, text.as_str())?)),
    }
}

// An object with one member.
fn one_member(alloc: Global, key: &Text, value: Value) -> Result<Value, AllocError>
    ensures { IfOk result (λ v. view v ≡ one_member key.now (view value)) }
{
    let mut members = Map::new(alloc);
    members.insert(String::from_str(alloc, key.as_str())?, value)?;
    Ok(Value::Object(members))
}

// Whether a type is among some.
fn is_among(types: &[Text], ty: &Text) -> bool
    ensures { result ≡ is_among types.now ty.now }
{
    types.iter().any(|t| t.as_str() == ty.as_str())
}

// The value of a node, from those of the nodes directly beneath it.
fn value_of(
    alloc: Global,
    doc: &Doc,
    arrays: &[Text],
    seats: &BTreeMap<NodeId, List<Seat>>,
    node: NodeId,
    done: &mut BTreeMap<NodeId, Value>,
) -> Result<Value, AllocError>
    requires sound { IsSoundInForm (document_of doc.now) }
    requires seats { AreSeats doc.now.held seats.now }
    requires known { IsSome ((document_of doc.now).nodes node) }
    requires made { (m : Node) → above (document_of doc.now) m ≡ Some node → IsSome (get node_cmp done.old m) }
    ensures part { OnOk result (IsPart done.new done.old) }
    ensures shown { IfOk result (λ v. AllShown (is_among arrays.now) (document_of doc.now) done.old → Shows (is_among arrays.now) (document_of doc.now) node (view v)) }
    ensures rest { OnOk result ((m : Node) → above (document_of doc.now) m ≢ Some node → get node_cmp done.new m ≡ get node_cmp done.old m) }
{
    let Some(new) = doc.nodes.get(&node) else {
        unreachable!();
    };
    if let Some(leaf) = &new.leaf {
        return leaf_value(alloc, leaf);
    }
    if is_among(arrays, &new.ty) {
        let values = row_values(alloc, doc, node, done)?;
        return one_member(alloc, &new.ty, Value::Array(values));
    }
    let members = members_of(alloc, seats_at(seats, node), done)?;
    one_member(alloc, &new.ty, Value::Object(members))
}

// The value of the root, made from the bottom up.
fn root_value(alloc: Global, doc: &Doc, arrays: &[Text]) -> Result<Value, AllocError>
    requires { IsSoundInForm (document_of doc.now) }
    ensures { IfOk result (λ v. Shows (is_among arrays.now) (document_of doc.now) root (view v)) }
{
    let seats = seats_of(alloc, &doc.held)?;
    let order = top_down(alloc, doc, &seats)?;
    let mut done = BTreeMap::new(alloc);
    let mut left = order.len();
    while left > 0 {
        left -= 1;
        let node = order[left];
        let value = value_of(alloc, doc, arrays, &seats, node, &mut done)?;
        set(&mut done, node, value)?;
    }
    Ok(take(&mut done, root_node()))
}

impl Doc {
    /// The text of the live tree, in compact JSON; `arrays` are the types whose nodes have a row. It takes the time that
    /// the live tree and all registers ask for, and goes to any depth.
    pub fn whole(&self, alloc: Global, arrays: &[Text]) -> Result<Text, AllocError>
        requires { IsSoundInForm (document_of self.now) }
        ensures { IfOk result (IsTreeText (is_among arrays.now) (document_of self.now)) }
    {
        let root = root_value(alloc, self, arrays)?;
        Ok(Text::from_string(root.to_string(alloc)?))
    }
}
