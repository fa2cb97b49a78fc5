//! The values of nodes, each from those of the nodes beneath it.
ghost use Rattle.std.specs.Prelude.{◌≡◌, ◌++◌, ◌∷◌, ◌+◌, ◌↔◌, [], List as Seq, length, IfOk, IfSome, IsSome, OnOk, None};
ghost use Rattle.serde_json.specs.View.{view};
ghost use Rattle.st_ids.specs.LeafText.{leaf_data};
ghost use Rattle.st_ids.specs.declared.names.NodeId.{NodeId as Node};
ghost use Rattle.st_marks.specs.Document.{Document, IsSoundInForm};
ghost use Rattle.st_marks.specs.LiveTree.{one_member, Shows};
ghost use Rattle.st_doc.specs.LiveText.{is_among};
ghost use Rattle.st_forest.specs.Stands.{StandsFor};
ghost use Rattle.st_export.specs.inside.Beneath.{AreShown, beneath};

use crate::registers::members_of;
use crate::walk::{Visit, is_among, walk};
use serde_json::{Map, Value};
use st_forest::Forest;
use st_ids::{Leaf, NodeId, Text};
use std::alloc::{AllocError, Global};

// The value of a leaf.
fn leaf_value(alloc: Global, leaf: &Leaf) -> Result<Value, AllocError>
    ensures { IfOk result (λ v. view v ≡ leaf_data leaf.now) }
{
    match leaf {
        Leaf::Null => Ok(Value::Null),
        Leaf::Bool(truth) => Ok(Value::Bool(*truth)),
        Leaf::Int(number) => Ok(Value::from(*number)),
        Leaf::Words(text) => Ok(Value::String(String::from_str(alloc, text.as_str())?)),
    }
}

// An object with one member.
fn one_member(alloc: Global, key: &Text, value: Value) -> Result<Value, AllocError>
    ensures { IfOk result (λ v. view v ≡ one_member key.now (view value)) }
{
    let mut members = Map::new(alloc);
    members.insert(String::from_str(alloc, key.as_str())?, value)?;
    Ok(Value::Object(members))
}

// What a node shows, where the values are what those beneath it show.
fn value_of(
    alloc: Global,
    forest: &Forest,
    arrays: &[Text],
    node: NodeId,
    values: Vec<Value>,
) -> Result<Value, AllocError>
    requires { length values.items ≡ length (beneath (is_among arrays.now) forest.now node) }
    ensures { IfOk result (λ v. (D : Document) → StandsFor forest.now D → IsSome (D.nodes node)
        → AreShown (is_among arrays.now) D (beneath (is_among arrays.now) forest.now node) values.items
        → Shows (is_among arrays.now) D node (view v)) }
{
    let Some(seated) = forest.nodes.get(&node) else {
        return Ok(Value::Null);
    };
    let new = &seated.node;
    if let Some(leaf) = &new.leaf {
        return leaf_value(alloc, leaf);
    }
    if is_among(arrays, &new.ty) {
        return one_member(alloc, &new.ty, Value::Array(values));
    }
    let members = members_of(alloc, &forest.held, node, values)?;
    one_member(alloc, &new.ty, Value::Object(members))
}

// Puts the value of a node in the place of those of the nodes beneath it, which are the last.
fn fold(
    alloc: Global,
    forest: &Forest,
    arrays: &[Text],
    visit: Visit,
    values: &mut Vec<Value>,
) -> Result<(), AllocError>
    requires { length values.old.items ≡ visit.others + length (beneath (is_among arrays.now) forest.now visit.node) }
    ensures count { OnOk result (length values.new.items ≡ visit.others + 1) }
    ensures shown { OnOk result ((D : Document) (rest : Seq Node) → StandsFor forest.now D → IsSome (D.nodes visit.node)
        → visit.others ≡ length rest
        → AreShown (is_among arrays.now) D (rest ++ beneath (is_among arrays.now) forest.now visit.node) values.old.items
        → AreShown (is_among arrays.now) D (rest ++ visit.node ∷ []) values.new.items) }
{
    let beneath = values.split_off(visit.others)?;
    let value = value_of(alloc, forest, arrays, visit.node, beneath)?;
    values.push(value)?;
    Ok(())
}

/// What a node shows; `None` says that no tree is beneath it, as where nodes are above themselves.
pub fn value_at(
    alloc: Global,
    forest: &Forest,
    arrays: &[Text],
    node: NodeId,
) -> Result<Option<Value>, AllocError>
    ensures { IfOk result (λ o. (D : Document) → StandsFor forest.now D → IsSoundInForm D → IsSome (D.nodes node)
        → IsSome o × IfSome o (λ v. Shows (is_among arrays.now) D node (view v))) }
{
    let Some(order) = walk(alloc, forest, arrays, node)? else {
        return Ok(None);
    };
    let mut values = Vec::new(alloc);
    let mut left = order.len();
    while left > 0 {
        left -= 1;
        fold(alloc, forest, arrays, order[left], &mut values)?;
    }
    Ok(values.pop())
}
