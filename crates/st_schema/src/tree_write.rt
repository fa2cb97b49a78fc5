//! Trees written as a JSON value.
ghost use Rattle.std.specs.Prelude.{ℕ, List as Seq, ◌≡◌, ◌≤◌, None, Some, Ok, Err, true, false, [], IfOk, OnOk};
ghost use Rattle.serde_json.specs.Data.{Data, member, no_members, object, array, put, depth};
ghost use Rattle.serde_json.specs.Read.{read, max_depth};
ghost use Rattle.serde_json.specs.Written.{has_float};
ghost use Rattle.serde_json.specs.View.{view as value_view, members_view};
ghost use Rattle.st_ids.specs.Or.{IfRefused};
ghost use Rattle.st_tree.specs.Node.{Node, first, no_nodes, view};
ghost use Rattle.st_tree.specs.inside.Node.{field_view, fields_view};
ghost use Rattle.st_tree.specs.Form.{keys_rise, fields_fit_leaf, has_form, fields_have_form, all_have_form};
ghost use Rattle.st_tree.specs.Size.{check_of};
ghost use Rattle.st_schema.specs.Shape.{members_rise, fields_shaped, has_shape, fields_have_shape, all_have_shape};
ghost use Rattle.st_schema.specs.TreeText.{tree_data, body_data, members_data, trees_data, tree_of, is_typed};
ghost use Rattle.st_ids.specs.LeafText.{leaf_data};

use serde_json::{Map, Value};
use st_ids::{Leaf, List, Or};
use st_tree::{Field, Tree, TreeFault, check};
use std::alloc::{AllocError, Global};

// The value of a leaf.
fn leaf_value(alloc: Global, leaf: &Leaf) -> Result<Value, AllocError>
    ensures { IfOk result (λ v. value_view v ≡ leaf_data leaf.now) }
{
    match leaf {
        Leaf::Null => Ok(Value::Null),
        Leaf::Bool(truth) => Ok(Value::Bool(*truth)),
        Leaf::Int(number) => Ok(Value::from(*number)),
        Leaf::Words(words) => Ok(Value::String(String::from_str(alloc, words.as_str())?)),
    }
}

// An object of one member.
fn one_member(alloc: Global, name: &str, value: Value) -> Result<Value, AllocError>
    ensures { IfOk result (λ v. value_view v ≡ object (member name.now (value_view value) no_members)) }
{
    let mut members = Map::new(alloc);
    members.insert(String::from_str(alloc, name)?, value)?;
    Ok(Value::Object(members))
}

// The value of a tree.
#[cycle(writing)]
fn tree_value(alloc: Global, tree: &Tree) -> Result<Value, AllocError>
    ensures { IfOk result (λ v. has_shape (view tree.now) ≡ true → value_view v ≡ tree_data (view tree.now)) }
{
    match &tree.leaf {
        Some(leaf) => leaf_value(alloc, leaf),
        None => {
            let body = body_value(alloc, &tree.fields)?;
            one_member(alloc, tree.ty.as_str(), body)
        }
    }
}

// What stands under a type's name: an array for a row, and else an object.
#[cycle(writing)]
fn body_value(alloc: Global, fields: &List<Field>) -> Result<Value, AllocError>
    ensures { IfOk result (λ v. fields_shaped None (fields_view fields.now) ≡ true → fields_have_shape (fields_view fields.now) ≡ true → value_view v ≡ body_data (fields_view fields.now)) }
{
    match fields.as_slice() {
        [field, ..] => {
            if field.row {
                row_value(alloc, field)
            } else {
                members_value(alloc, fields)
            }
        }
        [] => members_value(alloc, fields),
    }
}

// The items of a row.
#[cycle(writing)]
fn row_value(alloc: Global, field: &Field) -> Result<Value, AllocError>
    ensures { IfOk result (λ v. all_have_shape (field_view field.now).items ≡ true → value_view v ≡ array (trees_data (field_view field.now).items)) }
{
    let mut items = Vec::new(alloc);
    for item in field.items.as_slice() {
        items.push(tree_value(alloc, item)?)?;
    }
    Ok(Value::Array(items))
}

// Each field of one item as a member. An empty field is left out.
#[cycle(writing)]
fn members_value(alloc: Global, fields: &List<Field>) -> Result<Value, AllocError>
    ensures { IfOk result (λ v. members_rise (fields_view fields.now) ≡ true → fields_have_shape (fields_view fields.now) ≡ true → value_view v ≡ object (members_data (fields_view fields.now))) }
{
    let mut members = Map::new(alloc);
    for field in fields.as_slice() {
        put_field(alloc, field, &mut members)?;
    }
    Ok(Value::Object(members))
}

// Puts the item of a field under its key.
#[cycle(writing)]
fn put_field(
    alloc: Global,
    field: &Field,
    members: &mut Map<String, Value>,
) -> Result<(), AllocError>
    ensures { OnOk result ((t : Node) → (field_view field.now).items ≡ first t no_nodes → has_shape t ≡ true → members_view members.new.entries ≡ put (field_view field.now).key (tree_data t) (members_view members.old.entries)) }
{
    match field.items.as_slice() {
        [item, ..] => {
            let value = tree_value(alloc, item)?;
            let key = String::from_str(alloc, field.key.0.as_str())?;
            members.insert(key, value)?;
            Ok(())
        }
        [] => Ok(()),
    }
}

/// The JSON form of a tree: a leaf is its value, another node an object of one member, its type's
/// name, over an array of its row's items or an object of its fields, with keys in byte order. It is
/// told of trees of the shape that values show, whatever their types, and is read back as the tree.
/// A tree that was read of a text is written as the value that it was read of. A tree beyond the
/// limits is refused, so writing goes down no further than 48 levels.
#[tactic(auto, using(crate::proofs::Shown::form_read, crate::proofs::PlainTrees::tree_plain, crate::proofs::PlainTrees::tree_shallow))]
pub fn write_tree(alloc: Global, tree: &Tree) -> Result<Value, Or<TreeFault>>
    ensures ok { IfOk result (λ v. has_shape (view tree.now) ≡ true → value_view v ≡ tree_data (view tree.now)) }
    ensures within { OnOk result (check_of (view tree.now) ≡ Ok tt) }
    ensures bad { IfRefused result (λ e. check_of (view tree.now) ≡ Err e) }
    ensures back { IfOk result (λ v. has_shape (view tree.now) ≡ true → is_typed (view tree.now) ≡ true → tree_of (value_view v) ≡ Some (view tree.now)) }
    ensures again { IfOk result (λ v. (text : Seq ℕ) (d : Data) → read text ≡ Some d → tree_of d ≡ Some (view tree.now) → value_view v ≡ d) }
    ensures plain { IfOk result (λ v. has_shape (view tree.now) ≡ true → has_float (value_view v) ≡ false) }
    ensures shallow { IfOk result (λ v. has_shape (view tree.now) ≡ true → depth (value_view v) ≤ max_depth) }
{
    match check(tree) {
        Err(fault) => Err(Or::Fault(fault)),
        Ok(()) => Ok(tree_value(alloc, tree)?),
    }
}
