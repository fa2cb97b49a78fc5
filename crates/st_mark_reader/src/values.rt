//! Lists, members, numbers, keys and leaves of values.
ghost use Rattle.std.specs.Prelude.{◌≡◌, map, IfOk, Option};
ghost use Rattle.serde_json.specs.Data.{Data};
ghost use Rattle.serde_json.specs.Find.{as_str};
ghost use Rattle.serde_json.specs.View.{view, items_view, members_view};
ghost use Rattle.st_schema.specs.TreeText.{leaf_of};
ghost use Rattle.st_mark_reader.specs.Reading.{each_of, list_of, member_of, has_names, is_named, small_number, key_of, key_within};

use serde_json::{Map, Value};
use st_ids::{Key, Leaf, List, Text};
use std::alloc::{AllocError, Global};

/// What values are read as.
pub trait ReadItem {
    type Item: Drop;

    ghost of: { Self → Data → Option Self.Item };

    /// What a value is, if it is of the form.
    fn read(&self, alloc: Global, value: &Value) -> Result<Option<Self::Item>, AllocError>
        ensures { IfOk result (λ o. o ≡ of self.now (view value.now)) };
}

// What each of the values is.
fn read_each<R: ReadItem>(
    alloc: Global,
    values: &[Value],
    reader: &R,
) -> Result<Option<List<R::Item>>, AllocError>
    ensures { IfOk result (λ o. o ≡ each_of (R.of reader.now) (items_view values.now)) }
{
    let mut items = List::new(alloc);
    for value in values {
        let Some(item) = reader.read(alloc, value)? else {
            return Ok(None);
        };
        items.push(item)?;
    }
    Ok(Some(items))
}

/// What the items of an array are.
pub fn read_list<R: ReadItem>(
    alloc: Global,
    value: &Value,
    reader: &R,
) -> Result<Option<List<R::Item>>, AllocError>
    ensures { IfOk result (λ o. o ≡ list_of (R.of reader.now) (view value.now)) }
{
    match value.as_array() {
        None => Ok(None),
        Some(items) => read_each(alloc, items.as_slice(), reader),
    }
}

/// What the items of a member are, which is an array.
pub fn list_member<R: ReadItem>(
    alloc: Global,
    value: &Value,
    name: &str,
    reader: &R,
) -> Result<Option<List<R::Item>>, AllocError>
    ensures { IfOk result (λ o. o ≡ member_of (list_of (R.of reader.now)) name.now (view value.now)) }
{
    match value.get(name) {
        None => Ok(None),
        Some(member) => read_list(alloc, member, reader),
    }
}

// Whether an object has the members of these names, in their order, and no others.
fn has_names(members: &Map<String, Value>, names: &[&str]) -> bool
    ensures { result ≡ has_names (map (λ n. n.now) names.now) (members_view members.now.entries) }
{
    let mut left = names;
    for (key, _) in members.iter() {
        let [name, rest @ ..] = left else {
            return false;
        };
        if key.as_str() != *name {
            return false;
        }
        left = rest;
    }
    left.is_empty()
}

/// Whether a value is an object that has the members of these names, in their order, and no others.
pub fn is_named(value: &Value, names: &[&str]) -> bool
    ensures { result ≡ is_named (map (λ n. n.now) names.now) (view value.now) }
{
    match value.as_object() {
        None => false,
        Some(members) => has_names(members, names),
    }
}

/// A number below 2^32.
pub fn small_number(value: &Value) -> Option<u32>
    ensures { result ≡ small_number (view value.now) }
{
    let number = value.as_u64()?;
    if number < 1 << 32 {
        Some(number as u32)
    } else {
        None
    }
}

// The key of a text, which has at most 64 bytes.
fn key_within(alloc: Global, text: &str) -> Result<Option<Key>, AllocError>
    ensures { IfOk result (λ k. k ≡ key_within text.now) }
{
    if text.len() <= 64 {
        Ok(Some(Key(Text::from_str(alloc, text)?)))
    } else {
        Ok(None)
    }
}

/// The key that a value is.
pub fn key(alloc: Global, value: &Value) -> Result<Option<Key>, AllocError>
    ensures { IfOk result (λ k. k ≡ key_of (view value.now)) }
{
    match value.as_str() {
        None => Ok(None),
        Some(text) => key_within(alloc, text),
    }
}

/// The text that a value is.
pub fn text(alloc: Global, value: &Value) -> Result<Option<Text>, AllocError>
    ensures { IfOk result (λ t. t ≡ as_str (view value.now)) }
{
    match value.as_str() {
        None => Ok(None),
        Some(text) => Ok(Some(Text::from_str(alloc, text)?)),
    }
}

/// The value of a leaf.
pub fn leaf(alloc: Global, value: &Value) -> Result<Option<Leaf>, AllocError>
    ensures { IfOk result (λ v. v ≡ leaf_of (view value.now)) }
{
    if value.is_null() {
        Ok(Some(Leaf::Null))
    } else if let Some(truth) = value.as_bool() {
        Ok(Some(Leaf::Bool(truth)))
    } else if let Some(number) = value.as_i64() {
        Ok(Some(Leaf::Int(number)))
    } else {
        match value.as_str() {
            None => Ok(None),
            Some(words) => Ok(Some(Leaf::Words(Text::from_str(alloc, words)?))),
        }
    }
}
