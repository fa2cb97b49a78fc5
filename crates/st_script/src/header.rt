//! The header of a trace.
ghost use Rattle.std.specs.Prelude.{◌≡◌, ◌++◌, Some, Ok, Err, codes, IfOk, option_map, option_and_then};
ghost use Rattle.std.specs.Option.{ok_or};
ghost use Rattle.serde_json.specs.View.{view as value_view};
ghost use Rattle.serde_json.specs.Find.{get};
ghost use Rattle.st_ids.specs.Or.{IfRefused};
ghost use Rattle.st_tree.specs.Node.{view};
ghost use Rattle.st_script.specs.Members.{as_small};
ghost use Rattle.st_script.specs.Header.{kept_history, history_or_64, tree_in, is_begun, may_open, header_that_opens, header_view, parts_of, header_of, header_line};

use crate::member::{has_only, number_member, schema_member, small_number, tree};
use serde_json::Value;
use st_ids::{Or, Text};
use st_json::{BadCause, read_line};
use st_schema::{Header, Schema};
use st_tree::{Tree, check};
use std::alloc::{AllocError, Global};

fn kept_history(value: &Value) -> Option<u32>
    ensures { result ≡ option_and_then kept_history (as_small (value_view value.now)) }
{
    let history = small_number(value)?;
    if history <= 1024 { Some(history) } else { None }
}

// How many entries of the log below the minimum can still be undone, which is 64 where nothing is
// said.
fn history(value: &Value) -> Option<u32>
    ensures { result ≡ history_or_64 (get (codes "history") (value_view value.now)) }
{
    match value.get("history") {
        None => Some(64),
        Some(history) => kept_history(history),
    }
}

fn tree_member(alloc: Global, value: &Value) -> Result<Option<Tree>, AllocError>
    ensures { IfOk result (λ t. option_map view t ≡ tree_in (value_view value.now)) }
{
    match value.get("tree") {
        None => Ok(None),
        Some(opening) => tree(alloc, opening),
    }
}

// Whether a value has no members but those of a header, and the version 1 under the word.
fn is_begun(alloc: Global, value: &Value, word: &str) -> Result<bool, AllocError>
    ensures { IfOk result (λ b. b ≡ is_begun word.now (value_view value.now)) }
{
    let mut names = Text::from_str(alloc, "history schema tree ")?;
    names.push_str(word)?;
    Ok(has_only(value, names.as_str()) && number_member(value, word) == Some(1))
}

// Whether a document may open with the tree.
fn may_open(schema: &Schema, tree: &Tree) -> bool
    ensures { result ≡ may_open schema.now (view tree.now) }
{
    match check(tree) {
        Ok(()) => schema.allows(schema.root(), tree).is_ok(),
        Err(_) => false,
    }
}

fn header_that_opens(header: Header) -> Option<Header>
    ensures { option_map header_view result ≡ header_that_opens (header_view header) }
{
    if may_open(&header.schema, &header.tree) {
        Some(header)
    } else {
        None
    }
}

fn parts(alloc: Global, value: &Value) -> Result<Option<Header>, AllocError>
    ensures { IfOk result (λ h. option_map header_view h ≡ parts_of (value_view value.now)) }
{
    let Some(history) = history(value) else {
        return Ok(None);
    };
    let Some(schema) = schema_member(alloc, value)? else {
        return Ok(None);
    };
    let Some(tree) = tree_member(alloc, value)? else {
        return Ok(None);
    };
    Ok(Some(Header {
        history,
        schema,
        tree,
    }))
}

// The header that a value is, if it is one.
fn header_of(alloc: Global, value: &Value, word: &str) -> Result<Option<Header>, AllocError>
    ensures { IfOk result (λ h. option_map header_view h ≡ header_of word.now (value_view value.now)) }
{
    if !is_begun(alloc, value, word)? {
        return Ok(None);
    }
    match parts(alloc, value)? {
        None => Ok(None),
        Some(header) => Ok(header_that_opens(header)),
    }
}

fn header_or_cause(alloc: Global, value: &Value, word: &str) -> Result<Header, Or<BadCause>>
    ensures ok { IfOk result (λ h. ok_or (header_of word.now (value_view value.now)) BadCause.Header ≡ Ok (header_view h)) }
    ensures bad { IfRefused result (λ c. ok_or (header_of word.now (value_view value.now)) BadCause.Header ≡ Err c) }
{
    match header_of(alloc, value, word)? {
        Some(header) => Ok(header),
        None => Err(Or::Fault(BadCause::Header)),
    }
}

/// The header that a line is, given without its line feed; `word` is the name of the member that
/// holds the version, as `trace`. `Json` where the bytes have no reading, `Header` where the value
/// is no header: also where the schema or the tree is none, or the schema does not allow the tree
/// as its root.
pub fn read_header(alloc: Global, bytes: &[u8], word: &str) -> Result<Header, Or<BadCause>>
    ensures ok { IfOk result (λ h. header_line word.now bytes.now ≡ Ok (header_view h)) }
    ensures bad { IfRefused result (λ c. header_line word.now bytes.now ≡ Err c) }
{
    match read_line(alloc, bytes) {
        Ok(value) => header_or_cause(alloc, &value, word),
        Err(Or::NoMemory) => Err(Or::NoMemory),
        Err(Or::Fault(_)) => Err(Or::Fault(BadCause::Json)),
    }
}
