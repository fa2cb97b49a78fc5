//! Trees read from a JSON value.
ghost use Rattle.std.specs.Prelude.{◌≡◌, Some, None, Ok, true, false, [], map, IfOk};
ghost use Rattle.serde_json.specs.Data.{Data};
ghost use Rattle.serde_json.specs.View.{view as value_view, items_view, members_view};
ghost use Rattle.st_ids.specs.Or.{IfRefused};
ghost use Rattle.st_tree.specs.Form.{has_form};
ghost use Rattle.st_tree.specs.Node.{Node, field, no_fields, first, no_nodes, view, trees_view};
ghost use Rattle.st_tree.specs.inside.Node.{field_view, fields_view};
ghost use Rattle.st_tree.specs.Size.{check_of};
ghost use Rattle.st_json.specs.Order.{NamesRise};
ghost use Rattle.st_schema.specs.Shape.{has_shape};
ghost use Rattle.st_schema.specs.TreeText.{leaf_of, leaf_node, leaf_in, tree_in, node_in, body_in, trees_in, fields_in, tree_of, tree_data, is_typed};

use crate::allows::leaf_type;
use serde_json::{Map, Value};
use st_ids::{Key, Leaf, List, Or, Text};
use st_json::Shape;
use st_tree::{Field, Tree, check};
use std::alloc::{AllocError, Global};

// The most levels of a tree, and the most bytes of a key.
const MOST_LEVELS: u32 = 48;

const MOST_KEY_BYTES: usize = 64;

// The value of a leaf.
#[tactic(auto, using(crate::proofs::Leaves::leaf_chain))]
fn read_leaf(alloc: Global, value: &Value) -> Result<Leaf, Or<Shape>>
    ensures ok { IfOk result (λ v. leaf_of (value_view value.now) ≡ Some v) }
    ensures bad { IfRefused result (λ _. leaf_of (value_view value.now) ≡ None) }
{
    if value.is_null() {
        Ok(Leaf::Null)
    } else if let Some(truth) = value.as_bool() {
        Ok(Leaf::Bool(truth))
    } else if let Some(number) = value.as_i64() {
        Ok(Leaf::Int(number))
    } else if let Some(words) = value.as_str() {
        Ok(Leaf::Words(Text::from_str(alloc, words)?))
    } else {
        Err(Or::Fault(Shape))
    }
}

// A leaf of this value.
fn leaf_tree(alloc: Global, leaf: Leaf) -> Result<Tree, AllocError>
    ensures { IfOk result (λ t. view t ≡ leaf_node leaf) }
{
    let ty = Text::from_str(alloc, leaf_type(&leaf))?;
    Ok(Tree {
        ty,
        leaf: Some(leaf),
        fields: List::new(alloc),
    })
}

// The one field of an array node.
fn row(alloc: Global, items: List<Tree>) -> Result<List<Field>, AllocError>
    ensures { IfOk result (λ fs. fields_view fs ≡ field [] true (trees_view items) no_fields) }
{
    let mut fields = List::new(alloc);
    fields.push(Field {
        key: Key(Text::new(alloc)),
        row: true,
        items,
    })?;
    Ok(fields)
}

// A field of one item.
fn single(alloc: Global, key: &str, item: Tree) -> Result<Field, AllocError>
    ensures { IfOk result (λ f. field_view f ≡ record { key = key.now; row = false; items = first (view item) no_nodes }) }
{
    let key = Key(Text::from_str(alloc, key)?);
    let mut items = List::new(alloc);
    items.push(item)?;
    Ok(Field {
        key,
        row: false,
        items,
    })
}

// The tree that a value shows, with at most so many levels.
#[tactic(auto, using(crate::proofs::Leaves::tree_at_none, crate::proofs::Leaves::tree_at_object, crate::proofs::Leaves::tree_at_leaf))]
#[cycle(reading)]
fn read_at(alloc: Global, value: &Value, levels: u32) -> Result<Tree, Or<Shape>>
    ensures ok { IfOk result (λ t. tree_in (value_view value.now) levels ≡ Some (view t)) }
    ensures bad { IfRefused result (λ _. tree_in (value_view value.now) levels ≡ None) }
{
    if levels == 0 {
        return Err(Or::Fault(Shape));
    }
    if let Some(members) = value.as_object() {
        return read_node(alloc, members, levels - 1);
    }
    let leaf = read_leaf(alloc, value)?;
    Ok(leaf_tree(alloc, leaf)?)
}

// The node of an object with one member.
#[cycle(reading)]
fn read_node(alloc: Global, members: &Map<String, Value>, levels: u32) -> Result<Tree, Or<Shape>>
    ensures ok { IfOk result (λ t. node_in (members_view members.now.entries) levels ≡ Some (view t)) }
    ensures bad { IfRefused result (λ _. node_in (members_view members.now.entries) levels ≡ None) }
{
    let mut members = members.iter();
    let Some((ty, value)) = members.next() else {
        return Err(Or::Fault(Shape));
    };
    if members.next().is_some() {
        return Err(Or::Fault(Shape));
    }
    let fields = read_body(alloc, value, levels)?;
    let ty = Text::from_str(alloc, ty.as_str())?;
    Ok(Tree {
        ty,
        leaf: None,
        fields,
    })
}

// The fields of a node.
#[cycle(reading)]
fn read_body(alloc: Global, value: &Value, levels: u32) -> Result<List<Field>, Or<Shape>>
    ensures ok { IfOk result (λ fs. body_in (value_view value.now) levels ≡ Some (fields_view fs)) }
    ensures bad { IfRefused result (λ _. body_in (value_view value.now) levels ≡ None) }
{
    if let Some(items) = value.as_array() {
        let items = read_items(alloc, items, levels)?;
        return Ok(row(alloc, items)?);
    }
    match value.as_object() {
        Some(members) => read_fields(alloc, members, levels),
        None => Err(Or::Fault(Shape)),
    }
}

// The items of a row.
#[cycle(reading)]
fn read_items(alloc: Global, values: &Vec<Value>, levels: u32) -> Result<List<Tree>, Or<Shape>>
    ensures ok { IfOk result (λ ts. trees_in (items_view values.now.items) levels ≡ Some (map view ts)) }
    ensures bad { IfRefused result (λ _. trees_in (items_view values.now.items) levels ≡ None) }
{
    let mut items = List::new(alloc);
    for value in values {
        items.push(read_at(alloc, value, levels)?)?;
    }
    Ok(items)
}

// The fields of an object's members.
#[cycle(reading)]
fn read_fields(
    alloc: Global,
    members: &Map<String, Value>,
    levels: u32,
) -> Result<List<Field>, Or<Shape>>
    ensures ok { IfOk result (λ fs. fields_in (members_view members.now.entries) levels ≡ Some (map field_view fs)) }
    ensures bad { IfRefused result (λ _. fields_in (members_view members.now.entries) levels ≡ None) }
{
    let mut fields = List::new(alloc);
    for (key, value) in members.iter() {
        if key.len() > MOST_KEY_BYTES {
            return Err(Or::Fault(Shape));
        }
        let item = read_at(alloc, value, levels)?;
        fields.push(single(alloc, key.as_str(), item)?)?;
    }
    Ok(fields)
}

/// The tree that a value shows: a leaf by its value, another node by an object of one member, its
/// type's name, over an array of trees or an object from keys to trees. `Shape` exactly where the
/// value shows none with at most 1,024 nodes, 48 levels and keys of 64 bytes.
#[tactic(auto, using(crate::proofs::Shaped::shaped_at))]
pub fn read_tree(alloc: Global, value: &Value) -> Result<Tree, Or<Shape>>
    ensures ok { IfOk result (λ t. tree_of (value_view value.now) ≡ Some (view t)) }
    ensures bad { IfRefused result (λ _. tree_of (value_view value.now) ≡ None) }
    ensures shape { IfOk result (λ t. NamesRise (value_view value.now) → has_shape (view t) ≡ true) }
{
    let tree = read_at(alloc, value, MOST_LEVELS)?;
    match check(&tree) {
        Ok(()) => Ok(tree),
        Err(_) => Err(Or::Fault(Shape)),
    }
}

/// The JSON form of a tree is read as that tree: of each tree within the limits that has the shape
/// of trees that values show, whose leaves have the types of their values and whose keys have at
/// most 64 bytes.
#[tactic(none)]
pub fn form_is_read()
    ensures { (t : Node) → check_of t ≡ Ok tt → has_shape t ≡ true → is_typed t ≡ true → tree_of (tree_data t) ≡ Some t }
{}

/// A tree that a value shows has the shape, where the names rise in each of the value's objects, as
/// they do in each value that is read.
#[tactic(none)]
pub fn read_trees_have_shape()
    ensures { (d : Data) (t : Node) → NamesRise d → tree_of d ≡ Some t → has_shape t ≡ true }
{}

/// A tree of the form of trees has the shape.
#[tactic(none)]
pub fn formed_trees_have_shape()
    ensures { (t : Node) → has_form t ≡ true → has_shape t ≡ true }
{}
