//! The members of a step: names, numbers, keys, paths, trees and schemas.
ghost use Rattle.std.specs.Prelude.{◌≡◌, Some, None, IfOk, map, option_map, option_and_then};
ghost use Rattle.serde_json.specs.View.{view as value_view, items_view};
ghost use Rattle.serde_json.specs.Find.{get};
ghost use Rattle.st_json.specs.Look.{has_only};
ghost use Rattle.st_schema.specs.TreeText.{tree_of};
ghost use Rattle.st_tree.specs.Node.{view};
ghost use Rattle.st_script.specs.Members.{as_small, number_in, number_or, at_least_one, count_of, client_in, key_within, key_of, key_or_empty, as_place, places_in, short_path, path_in, rev_in, trees_in, few, items_in, item_in, sound_schema, schema_in, as_uuid, uuid_in};

use serde_json::Value;
use st_idcodec::read_uuid;
use st_ids::{Key, List, Or, Path, Place, Rev, Text};
use st_json::only;
use st_schema::{Schema, read_tree};
use st_tree::{Tree, check_trees};
use std::alloc::{AllocError, Global};

/// Whether a value is an object whose members all have one of the names, which spaces divide.
pub(crate) fn has_only(value: &Value, names: &str) -> bool
    ensures { result ≡ has_only names.now (value_view value.now) }
{
    only(value, names).is_ok()
}

// The name of the client, which has 1 to 64 bytes.
fn client_name(value: &Value) -> Option<&str>
    ensures { option_map (λ t. t.now) result ≡ client_in (value_view value.now) }
{
    let name = value.get("client")?.as_str()?;
    if 1 <= name.len() && name.len() <= 64 {
        Some(name)
    } else {
        None
    }
}

/// The client of a step.
pub(crate) fn client(alloc: Global, value: &Value) -> Result<Option<Text>, AllocError>
    ensures { IfOk result (λ t. t ≡ client_in (value_view value.now)) }
{
    match client_name(value) {
        None => Ok(None),
        Some(name) => Ok(Some(Text::from_str(alloc, name)?)),
    }
}

// A number below 2^32.
pub(crate) fn small_number(value: &Value) -> Option<u32>
    ensures { result ≡ as_small (value_view value.now) }
{
    let number = value.as_u64()?;
    if number < 1 << 32 {
        Some(number as u32)
    } else {
        None
    }
}

/// The number of a member that has to be there.
pub(crate) fn number_member(value: &Value, name: &str) -> Option<u32>
    ensures { result ≡ number_in name.now (value_view value.now) }
{
    small_number(value.get(name)?)
}

/// The number of a member, which is 0 where nothing is said.
pub(crate) fn number_or_zero(value: &Value, name: &str) -> Option<u32>
    ensures { result ≡ number_or 0 (get name.now (value_view value.now)) }
{
    match value.get(name) {
        None => Some(0),
        Some(number) => small_number(number),
    }
}

fn at_least_one(value: &Value) -> Option<u32>
    ensures { result ≡ option_and_then at_least_one (as_small (value_view value.now)) }
{
    let count = small_number(value)?;
    if count >= 1 { Some(count) } else { None }
}

/// How many items are meant, which is 1 where nothing is said.
pub(crate) fn count(value: &Value) -> Option<u32>
    ensures { result ≡ count_of (value_view value.now) }
{
    match value.get("count") {
        None => Some(1),
        Some(count) => at_least_one(count),
    }
}

// The key of a text, which has at most 64 bytes.
fn key_within(alloc: Global, text: &str) -> Result<Option<Key>, AllocError>
    ensures { IfOk result (λ k. k ≡ key_within text.now) }
{
    if text.len() <= 64 {
        Ok(Some(Key(Text::from_str(alloc, text)?)))
    } else {
        Ok(None)
    }
}

// The key that a value is.
fn key_of(alloc: Global, value: &Value) -> Result<Option<Key>, AllocError>
    ensures { IfOk result (λ k. k ≡ key_of (value_view value.now)) }
{
    match value.as_str() {
        None => Ok(None),
        Some(text) => key_within(alloc, text),
    }
}

/// The key of a member, which is empty where nothing is said.
pub(crate) fn key_member(
    alloc: Global,
    value: &Value,
    name: &str,
) -> Result<Option<Key>, AllocError>
    ensures { IfOk result (λ k. k ≡ key_or_empty (get name.now (value_view value.now))) }
{
    match value.get(name) {
        None => Ok(Some(Key(Text::new(alloc)))),
        Some(key) => key_of(alloc, key),
    }
}

// The place of a key and an index.
fn place(alloc: Global, key: &Value, index: &Value) -> Result<Option<Place>, AllocError>
    ensures { IfOk result (λ p. p ≡ as_place (value_view key.now) (value_view index.now)) }
{
    let Some(index) = small_number(index) else {
        return Ok(None);
    };
    match key_of(alloc, key)? {
        None => Ok(None),
        Some(key) => Ok(Some(Place { key, index })),
    }
}

// The path of keys and indexes in turn.
fn places(alloc: Global, items: &[Value]) -> Result<Option<Path>, AllocError>
    ensures { IfOk result (λ p. p ≡ places_in (items_view items.now)) }
{
    let mut path = Path::new(alloc);
    let mut rest = items;
    while let [key, index, after @ ..] = rest {
        let Some(place) = place(alloc, key, index)? else {
            return Ok(None);
        };
        path.push(place)?;
        rest = after;
    }
    match rest {
        [] => Ok(Some(path)),
        _ => Ok(None),
    }
}

// A path of fewer than 2^32 places.
fn short_path(path: Path) -> Option<Path>
    ensures { result ≡ short_path path }
{
    if path.len() < 1 << 32 {
        Some(path)
    } else {
        None
    }
}

// The path that a value is.
fn path_of(alloc: Global, items: &[Value]) -> Result<Option<Path>, AllocError>
    ensures { IfOk result (λ p. p ≡ option_and_then short_path (places_in (items_view items.now))) }
{
    match places(alloc, items)? {
        None => Ok(None),
        Some(path) => Ok(short_path(path)),
    }
}

/// The path of a member.
pub(crate) fn path_member(
    alloc: Global,
    value: &Value,
    name: &str,
) -> Result<Option<Path>, AllocError>
    ensures { IfOk result (λ p. p ≡ path_in name.now (value_view value.now)) }
{
    let Some(path) = value.get(name) else {
        return Ok(None);
    };
    match path.as_array() {
        None => Ok(None),
        Some(items) => path_of(alloc, items.as_slice()),
    }
}

/// The revision that a member names.
pub(crate) fn rev_member(value: &Value, name: &str) -> Option<Rev>
    ensures { result ≡ rev_in name.now (value_view value.now) }
{
    Rev::read(value.get(name)?.as_str()?)
}

// The UUID that a value is.
fn uuid_of(value: &Value) -> Option<u128>
    ensures { result ≡ as_uuid (value_view value.now) }
{
    read_uuid(value.as_str()?)
}

/// The UUID of a join, if one is told.
pub(crate) fn uuid_member(value: &Value) -> Option<Option<u128>>
    ensures { result ≡ uuid_in (value_view value.now) }
{
    match value.get("uuid") {
        None => Some(None),
        Some(uuid) => Some(Some(uuid_of(uuid)?)),
    }
}

// The tree that a value shows.
pub(crate) fn tree(alloc: Global, value: &Value) -> Result<Option<Tree>, AllocError>
    ensures { IfOk result (λ t. option_map view t ≡ tree_of (value_view value.now)) }
{
    match read_tree(alloc, value) {
        Ok(tree) => Ok(Some(tree)),
        Err(Or::NoMemory) => Err(AllocError),
        Err(Or::Fault(_)) => Ok(None),
    }
}

// The trees that values show.
fn trees(alloc: Global, values: &[Value]) -> Result<Option<List<Tree>>, AllocError>
    ensures { IfOk result (λ ts. option_map (map view) ts ≡ trees_in (items_view values.now)) }
{
    let mut trees = List::new(alloc);
    for value in values {
        let Some(tree) = tree(alloc, value)? else {
            return Ok(None);
        };
        trees.push(tree)?;
    }
    Ok(Some(trees))
}

// Trees of which there is one at least, and which are within the limits of trees together.
fn few(trees: List<Tree>) -> Option<List<Tree>>
    ensures { option_map (map view) result ≡ few (map view trees) }
{
    if !trees.is_empty() && check_trees(&trees).is_ok() {
        Some(trees)
    } else {
        None
    }
}

// The trees of an array, which are items of an insert.
fn items_of(alloc: Global, values: &[Value]) -> Result<Option<List<Tree>>, AllocError>
    ensures { IfOk result (λ ts. option_map (map view) ts ≡ option_and_then few (trees_in (items_view values.now))) }
{
    match trees(alloc, values)? {
        None => Ok(None),
        Some(trees) => Ok(few(trees)),
    }
}

/// The items of an insert.
pub(crate) fn items(alloc: Global, value: &Value) -> Result<Option<List<Tree>>, AllocError>
    ensures { IfOk result (λ ts. option_map (map view) ts ≡ items_in (value_view value.now)) }
{
    let Some(items) = value.get("items") else {
        return Ok(None);
    };
    match items.as_array() {
        None => Ok(None),
        Some(items) => items_of(alloc, items.as_slice()),
    }
}

/// The item of a set.
pub(crate) fn item(alloc: Global, value: &Value) -> Result<Option<Tree>, AllocError>
    ensures { IfOk result (λ t. option_map view t ≡ item_in (value_view value.now)) }
{
    match value.get("item") {
        None => Ok(None),
        Some(item) => tree(alloc, item),
    }
}

// The schema that a value is, if it is one.
#[tactic(auto, using(crate::proofs::Schemas::schema_seen, crate::proofs::Schemas::schema_unseen))]
fn schema_of(alloc: Global, value: &Value) -> Result<Option<Schema>, AllocError>
    ensures { IfOk result (λ s. s ≡ sound_schema (value_view value.now)) }
{
    match Schema::read(alloc, value) {
        Ok(schema) => Ok(Some(schema)),
        Err(Or::NoMemory) => Err(AllocError),
        Err(Or::Fault(_)) => Ok(None),
    }
}

/// The schema of an upgrade or a header.
pub(crate) fn schema_member(alloc: Global, value: &Value) -> Result<Option<Schema>, AllocError>
    ensures { IfOk result (λ s. s ≡ schema_in (value_view value.now)) }
{
    match value.get("schema") {
        None => Ok(None),
        Some(schema) => schema_of(alloc, schema),
    }
}
