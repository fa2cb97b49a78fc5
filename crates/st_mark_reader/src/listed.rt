//! Nodes read from values: those that are nowhere, new ones and needed ones.
ghost use Rattle.std.specs.Prelude.{◌≡◌, IfOk, option_and_then};
ghost use Rattle.serde_json.specs.Find.{as_str};
ghost use Rattle.serde_json.specs.View.{view, items_view};
ghost use Rattle.st_schema.specs.Conforms.{leaf_type};
ghost use Rattle.st_schema.specs.TreeText.{leaf_of};
ghost use Rattle.st_mark_reader.specs.Reading.{loose_in, loose_of, if_no_leaf_type, if_of_type, typed_leaf, branch_node_of, leaf_node_of, new_in, new_of, node_of};

use crate::items::{three_in, two_in, two_items};
use crate::marks::how;
use crate::names::{ReadNames, node};
use crate::values::{ReadItem, leaf, text};
use serde_json::Value;
use st_ids::{Leaf, NodeId, Text};
use st_marks::{Loose, NewNode};
use std::alloc::{AllocError, Global};

fn loose_in<N: ReadNames>(names: &N, who: &Value, word: &Value) -> Option<Loose>
    ensures { result ≡ loose_in (N.form names.now) (view who.now, view word.now) }
{
    let node = node(names, who)?;
    let how = how(word)?;
    Some(Loose { node, how })
}

/// A mentioned node that is nowhere.
pub fn loose<N: ReadNames>(names: &N, value: &Value) -> Option<Loose>
    ensures { result ≡ loose_of (N.form names.now) (view value.now) }
{
    let (who, word) = two_items(value)?;
    loose_in(names, who, word)
}

/// How mentioned nodes are read that are nowhere.
#[derive(Clone, Copy)]
pub struct Nowhere<'a, N>(pub &'a N);

impl<N: ReadNames> ReadItem for Nowhere<'_, N> {
    type Item = Loose;

    ghost of = { λ s. loose_of (N.form s.0.now) };

    fn read(&self, _alloc: Global, value: &Value) -> Result<Option<Loose>, AllocError> {
        Ok(loose(self.0, value))
    }
}

/// How nodes are read.
#[derive(Clone, Copy)]
pub struct Nodes<'a, N>(pub &'a N);

impl<N: ReadNames> ReadItem for Nodes<'_, N> {
    type Item = NodeId;

    ghost of = { λ s. node_of (N.form s.0.now) };

    fn read(&self, _alloc: Global, value: &Value) -> Result<Option<NodeId>, AllocError> {
        Ok(node(self.0, value))
    }
}

// A type that isn't a leaf's.
fn if_no_leaf_type(ty: Text) -> Option<Text>
    ensures { result ≡ if_no_leaf_type ty }
{
    match ty.as_str() {
        "null" | "bool" | "int" | "text" => None,
        _ => Some(ty),
    }
}

// The type of a value, if it isn't a leaf's.
fn branch_type(alloc: Global, value: &Value) -> Result<Option<Text>, AllocError>
    ensures { IfOk result (λ t. t ≡ option_and_then if_no_leaf_type (as_str (view value.now))) }
{
    match text(alloc, value)? {
        None => Ok(None),
        Some(ty) => Ok(if_no_leaf_type(ty)),
    }
}

// A new node that isn't a leaf.
fn branch_node<N: ReadNames>(
    alloc: Global,
    names: &N,
    who: &Value,
    ty: &Value,
) -> Result<Option<NewNode>, AllocError>
    ensures { IfOk result (λ o. o ≡ branch_node_of (N.form names.now) (view who.now) (view ty.now)) }
{
    let Some(node) = node(names, who) else {
        return Ok(None);
    };
    match branch_type(alloc, ty)? {
        None => Ok(None),
        Some(ty) => Ok(Some(NewNode {
            node,
            ty,
            leaf: None,
        })),
    }
}

// The type of the value of a leaf.
fn type_of(leaf: &Leaf) -> &'static str
    ensures { result.now ≡ leaf_type leaf.now }
{
    match leaf {
        Leaf::Null => "null",
        Leaf::Bool(_) => "bool",
        Leaf::Int(_) => "int",
        Leaf::Words(_) => "text",
    }
}

// The value of a leaf, if it is of the type.
fn if_of_type(ty: &str, leaf: Leaf) -> Option<Leaf>
    ensures { result ≡ if_of_type ty.now leaf }
{
    if ty == type_of(&leaf) {
        Some(leaf)
    } else {
        None
    }
}

// The value of a leaf of a type.
fn leaf_of_type(alloc: Global, ty: &str, value: &Value) -> Result<Option<Leaf>, AllocError>
    ensures { IfOk result (λ v. v ≡ option_and_then (if_of_type ty.now) (leaf_of (view value.now))) }
{
    match leaf(alloc, value)? {
        None => Ok(None),
        Some(leaf) => Ok(if_of_type(ty, leaf)),
    }
}

// A new leaf of a node and a type.
fn typed_leaf(
    alloc: Global,
    node: NodeId,
    ty: &str,
    value: &Value,
) -> Result<Option<NewNode>, AllocError>
    ensures { IfOk result (λ o. o ≡ typed_leaf node ty.now (view value.now)) }
{
    match leaf_of_type(alloc, ty, value)? {
        None => Ok(None),
        Some(leaf) => Ok(Some(NewNode {
            node,
            ty: Text::from_str(alloc, ty)?,
            leaf: Some(leaf),
        })),
    }
}

// A new leaf.
fn leaf_node<N: ReadNames>(
    alloc: Global,
    names: &N,
    who: &Value,
    ty: &Value,
    value: &Value,
) -> Result<Option<NewNode>, AllocError>
    ensures { IfOk result (λ o. o ≡ leaf_node_of (N.form names.now) (view who.now) (view ty.now) (view value.now)) }
{
    let Some(node) = node(names, who) else {
        return Ok(None);
    };
    match ty.as_str() {
        None => Ok(None),
        Some(ty) => typed_leaf(alloc, node, ty, value),
    }
}

// The new node of some values.
fn new_in<N: ReadNames>(
    alloc: Global,
    names: &N,
    items: &[Value],
) -> Result<Option<NewNode>, AllocError>
    ensures { IfOk result (λ o. o ≡ new_in (N.form names.now) (items_view items.now)) }
{
    if let Some((who, ty)) = two_in(items) {
        branch_node(alloc, names, who, ty)
    } else if let Some((who, ty, value)) = three_in(items) {
        leaf_node(alloc, names, who, ty, value)
    } else {
        Ok(None)
    }
}

/// How new nodes are read.
#[derive(Clone, Copy)]
pub struct NewNodes<'a, N>(pub &'a N);

impl<N: ReadNames> ReadItem for NewNodes<'_, N> {
    type Item = NewNode;

    ghost of = { λ s. new_of (N.form s.0.now) };

    fn read(&self, alloc: Global, value: &Value) -> Result<Option<NewNode>, AllocError> {
        match value.as_array() {
            None => Ok(None),
            Some(items) => new_in(alloc, self.0, items.as_slice()),
        }
    }
}
