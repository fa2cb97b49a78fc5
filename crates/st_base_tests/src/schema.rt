//! Each public call once, and the edges of the formats.
use serde_json::Value;
use st_ids::{Copied, Key, Text};
use st_json::read_line;
use st_schema::{
    Header, NotWider, Schema, allowed_has_form, form_is_read, formed_trees_have_shape, read_tree,
    read_trees_have_shape, wider, wider_allows_more, write_tree,
};
use st_tree::Tree;
use std::alloc::{AllocError, Global};
use std::test::Fail;

fn value_of(alloc: Global, line: &str) -> Option<Value> {
    read_line(alloc, line.as_bytes()).ok()
}

fn schema_of(alloc: Global, line: &str) -> Option<Schema> {
    let value = value_of(alloc, line)?;
    Schema::read(alloc, &value).ok()
}

fn tree_of(alloc: Global, line: &str) -> Option<Tree> {
    let value = value_of(alloc, line)?;
    read_tree(alloc, &value).ok()
}

const BOARD: &str =
    r#"{"root":["board"],"types":[{"array":["card"],"name":"board"},{"name":"card","object":{"note":["opt",["text","null"]],"title":["req",["text"]]}},{"map":["int"],"name":"tally"}]}"#;

const WIDER_BOARD: &str =
    r#"{"root":["tally","board"],"types":[{"array":["tally","card"],"name":"board"},{"name":"card","object":{"note":["opt",["null","text"]],"size":["opt",["int"]],"title":["opt",["text"]]}},{"map":["int"],"name":"tally"},{"array":[],"name":"list"}]}"#;

// Trees, each with the number of the first node that the board does not allow.
const BAD_TREES: [(&str, u32); 9] = [
    (r#""a""#, 0),
    (r#"{"card":{"title":"a"}}"#, 0),
    (r#"{"board":{}}"#, 0),
    (r#"{"board":[{"card":{"title":"a"}},{"card":{}}]}"#, 3),
    (r#"{"board":[{"card":{"title":"a","xyz":"b"}}]}"#, 1),
    (r#"{"board":[{"card":{"":"b","title":"a"}}]}"#, 1),
    (r#"{"board":[{"card":{"note":1,"title":2}}]}"#, 2),
    (r#"{"board":[{"card":[]}]}"#, 1),
    (r#"{"board":["a"]}"#, 1),
];

const NO_SCHEMAS: [&str; 12] = [
    "[]",
    r#"{"root":[]}"#,
    r#"{"root":[],"types":[],"x":1}"#,
    r#"{"root":["a"],"types":[]}"#,
    r#"{"root":["int","int"],"types":[]}"#,
    r#"{"root":[],"types":[{"array":[],"name":"int"}]}"#,
    r#"{"root":[],"types":[{"array":[],"name":""}]}"#,
    r#"{"root":[],"types":[{"array":[],"name":"a"},{"map":[],"name":"a"}]}"#,
    r#"{"root":[],"types":[{"array":["b"],"name":"a"}]}"#,
    r#"{"root":[],"types":[{"name":"a","object":{"":["req",[]]}}]}"#,
    r#"{"root":[],"types":[{"name":"a","object":{"k":["seq",[]]}}]}"#,
    r#"{"root":[],"types":[{"name":"a","object":{"k":["req"]}}]}"#,
];

const NARROW_BEFORE: &str =
    r#"{"root":["int","a"],"types":[{"array":["int"],"name":"a"},{"name":"b","object":{"k":["opt",["int"]]}}]}"#;

// Schemas, each with the number of the first type that is not wider.
const NARROWER_SCHEMAS: [(&str, u32); 5] = [
    (
        r#"{"root":["int"],"types":[{"array":["int"],"name":"a"},{"name":"b","object":{"k":["opt",["int"]]}}]}"#,
        2,
    ),
    (
        r#"{"root":["a","int"],"types":[{"map":["int"],"name":"a"},{"name":"b","object":{"k":["opt",["int"]]}}]}"#,
        0,
    ),
    (
        r#"{"root":["a","int"],"types":[{"array":["int"],"name":"a"},{"name":"b","object":{"k":["req",["int"]]}}]}"#,
        1,
    ),
    (
        r#"{"root":["a","int"],"types":[{"array":["int"],"name":"a"},{"name":"b","object":{"j":["req",["int"]],"k":["opt",["int"]]}}]}"#,
        1,
    ),
    (
        r#"{"root":["a","int"],"types":[{"array":["int"],"name":"a"}]}"#,
        1,
    ),
];

const NO_TREES: [&str; 7] = [
    "1.5",
    "-0",
    "9223372036854775808",
    "[]",
    "{}",
    r#"{"a":1}"#,
    r#"{"a":[],"b":[]}"#,
];

// Lists that have a most: the text before the list, that of an item before its number and behind
// it, the text behind the list, and the most items that are read.
const LISTS: [(&str, &str, &str, &str, u32); 3] = [
    (
        r#"{"root":[],"types":["#,
        r#"{"array":[],"name":"t"#,
        r#""}"#,
        "]}",
        256,
    ),
    (
        r#"{"root":[],"types":[{"name":"a","object":{"#,
        r#""k"#,
        r#"":["opt",[]]"#,
        "}}]}",
        64,
    ),
    (r#"{"a":["#, "", "", "]}", 1023),
];

// Texts of at most 64 bytes: what stands before and behind the text, and whether it may be empty.
const TEXTS: [(&str, &str, bool); 3] = [
    (
        r#"{"root":[],"types":[{"array":[],"name":""#,
        r#""}]}"#,
        false,
    ),
    (
        r#"{"root":[],"types":[{"name":"a","object":{""#,
        r#"":["opt",[]]}}]}"#,
        false,
    ),
    (r#"{"a":{""#, r#"":1}}"#, true),
];

const ROW_OPENED: &str = r#"{"a":["#;

// A list of so many items.
fn list_line(
    alloc: Global,
    (before, item_before, item_behind, behind): (&str, &str, &str, &str),
    count: u32,
) -> Result<String, AllocError> {
    let mut line = String::from_str(alloc, before)?;
    for i in 0..count {
        let comma = if i == 0 { "" } else { "," };
        let item = format!(in alloc; "{comma}{item_before}{i}{item_behind}")?;
        line.push_str(item.as_str())?;
    }
    line.push_str(behind)?;
    Ok(line)
}

// A text so many times between two others.
fn text_between(
    alloc: Global,
    before: &str,
    text: &str,
    count: u32,
    behind: &str,
) -> Result<String, AllocError> {
    let mut line = String::from_str(alloc, before)?;
    for _ in 0..count {
        line.push_str(text)?;
    }
    line.push_str(behind)?;
    Ok(line)
}

// A leaf below so many rows.
fn deep_line(alloc: Global, rows: u32) -> Result<String, AllocError> {
    let opened = text_between(alloc, "", ROW_OPENED, rows, "1")?;
    text_between(alloc, opened.as_str(), "]}", rows, "")
}

// Whether a value is read, as a schema where it has types and else as a tree.
fn is_value_read(alloc: Global, value: &Value) -> bool {
    if value.get("types").is_some() {
        Schema::read(alloc, value).is_ok()
    } else {
        read_tree(alloc, value).is_ok()
    }
}

fn is_read(alloc: Global, line: &str) -> bool {
    match value_of(alloc, line) {
        Some(value) => is_value_read(alloc, &value),
        None => false,
    }
}

fn is_board(alloc: Global, schema: &Schema) -> Result<bool, AllocError> {
    Ok(schema.text(alloc)?.as_str() == BOARD)
}

fn copy_is_board(alloc: Global, schema: &Schema) -> Result<bool, AllocError> {
    let copy = schema.copy(alloc)?;
    is_board(alloc, &copy)
}

fn board_is_written(alloc: Global, board: &Schema) -> Result<bool, AllocError> {
    board.is_kept();
    Ok(is_board(alloc, board)? && copy_is_board(alloc, board)?)
}

// How many types a field of a card takes.
fn type_count(alloc: Global, schema: &Schema, card: &Text) -> Result<Option<usize>, AllocError> {
    let key = Key(Text::from_str(alloc, "note")?);
    let rule = schema.field(alloc, card, &key)?;
    Ok(rule.map(|rule| rule.types.len()))
}

fn board_is_looked_up(alloc: Global, board: &Schema) -> Result<bool, AllocError> {
    let card = Text::from_str(alloc, "card")?;
    let names = board.root().len() == 1 && board.name_at(3).is_none();
    let formed = names && board.form(&card).is_some();
    Ok(type_count(alloc, board, &card)? == Some(2) && formed)
}

// Whether the board is written, and looked up.
fn board_is_used(alloc: Global) -> Result<(bool, bool), AllocError> {
    let Some(board) = schema_of(alloc, BOARD) else {
        return Ok((false, false));
    };
    let found = board_is_looked_up(alloc, &board)?;
    Ok((board_is_written(alloc, &board)?, found))
}

fn header(alloc: Global) -> Option<Header> {
    let schema = schema_of(alloc, BOARD)?;
    let tree = tree_of(alloc, "1")?;
    Some(Header {
        history: 64,
        schema,
        tree,
    })
}

fn copy_has_history(alloc: Global, header: &Header) -> Result<bool, AllocError> {
    Ok(header.copy(alloc)?.history == 64)
}

fn header_is_copied(alloc: Global) -> Result<bool, AllocError> {
    match header(alloc) {
        Some(header) => copy_has_history(alloc, &header),
        None => Ok(false),
    }
}

#[test]
fn first_use(rt: HostRuntime) -> Result<(), Fail> {
    let alloc = rt.alloc();
    let (written, found) = board_is_used(alloc)?;
    let copied = header_is_copied(alloc)?;
    assert!(rt; written && found && copied, "{written} {found} {copied}");
    wider_allows_more();
    allowed_has_form();
    form_is_read();
    formed_trees_have_shape();
    read_trees_have_shape();
    Ok(())
}

// The first node of a tree that a schema doesn't allow.
fn not_allowed_by(schema: &Schema, tree: &Tree) -> Option<u32> {
    if st_tree::check(tree).is_err() {
        return None;
    }
    schema
        .allows(schema.root(), tree)
        .err()
        .map(|fault| fault.at)
}

fn not_allowed(alloc: Global, line: &str) -> Option<u32> {
    let schema = schema_of(alloc, BOARD)?;
    let tree = tree_of(alloc, line)?;
    not_allowed_by(&schema, &tree)
}

#[test]
fn trees_that_a_schema_allows(rt: HostRuntime) {
    let alloc = rt.alloc();
    let other = BAD_TREES
        .iter()
        .position(|(line, at)| not_allowed(alloc, line) != Some(*at));
    let fits = not_allowed(alloc, r#"{"board":[]}"#).is_none();
    assert!(rt; other.is_none() && fits, "{other:?}");
}

#[test]
fn schemas_that_are_refused(rt: HostRuntime) {
    let alloc = rt.alloc();
    let read = NO_SCHEMAS
        .iter()
        .position(|line| schema_of(alloc, line).is_some());
    assert!(rt; read.is_none(), "{read:?}");
}

fn is_wider_than(alloc: Global, old: &Schema, new: &str) -> Option<Result<(), NotWider>> {
    let new = schema_of(alloc, new)?;
    Some(wider(old, &new))
}

fn is_wider(alloc: Global, old: &str, new: &str) -> Option<Result<(), NotWider>> {
    let old = schema_of(alloc, old)?;
    is_wider_than(alloc, &old, new)
}

#[test]
fn schemas_that_are_narrower(rt: HostRuntime) {
    let alloc = rt.alloc();
    let other = NARROWER_SCHEMAS.iter().position(|(line, at)| is_wider(alloc, NARROW_BEFORE, line)
        != Some(Err(NotWider { at: *at })));
    let wide = is_wider(alloc, BOARD, WIDER_BOARD) == Some(Ok(()));
    assert!(rt; other.is_none() && wide, "{other:?}");
}

#[test]
fn trees_that_are_refused(rt: HostRuntime) {
    let alloc = rt.alloc();
    let read = NO_TREES.iter().position(|line| is_read(alloc, line));
    assert!(rt; read.is_none(), "{read:?}");
}

// Trees as they are written.
const WRITTEN_TREES: [&str; 8] = [
    "null",
    "true",
    "-9223372036854775808",
    "9223372036854775807",
    r#""a""#,
    r#"{"a":[]}"#,
    r#"{"a":{}}"#,
    r#"{"a":[1,{"b":{"k":null,"l":{"c":["x"]}}},"y"]}"#,
];

fn is_text_of(alloc: Global, line: &str, value: &Value) -> bool {
    value
        .to_string(alloc)
        .is_ok_and(|text| text.as_str() == line)
}

fn is_written_so(alloc: Global, tree: &Tree, line: &str) -> bool {
    match write_tree(alloc, tree) {
        Ok(value) => is_text_of(alloc, line, &value),
        Err(_) => false,
    }
}

fn is_written(alloc: Global, line: &str) -> bool {
    match tree_of(alloc, line) {
        Some(tree) => is_written_so(alloc, &tree, line),
        None => false,
    }
}

#[test]
fn trees_that_are_written(rt: HostRuntime) {
    let alloc = rt.alloc();
    let other = WRITTEN_TREES
        .iter()
        .position(|line| !is_written(alloc, line));
    assert!(rt; other.is_none(), "{other:?}");
}

fn list_is_limited(
    alloc: Global,
    parts: (&str, &str, &str, &str),
    most: u32,
) -> Result<bool, AllocError> {
    let line = list_line(alloc, parts, most)?;
    let longer = list_line(alloc, parts, most.saturating_add(1))?;
    Ok(is_read(alloc, line.as_str()) && !is_read(alloc, longer.as_str()))
}

#[test]
fn limits_of_lists(rt: HostRuntime) -> Result<(), Fail> {
    let alloc = rt.alloc();
    for (before, item_before, item_behind, behind, most) in &LISTS {
        let parts = (*before, *item_before, *item_behind, *behind);
        let limited = list_is_limited(alloc, parts, *most)?;
        assert!(rt; limited, "{before}");
    }
    Ok(())
}

// The lengths of a text, and whether it may have so many bytes.
const LENGTHS: [(u32, bool); 3] = [(1, true), (64, true), (65, false)];

fn text_is_limited(
    alloc: Global,
    before: &str,
    behind: &str,
    count: u32,
    fits: bool,
) -> Result<bool, AllocError> {
    let line = text_between(alloc, before, "k", count, behind)?;
    Ok(is_read(alloc, line.as_str()) == fits)
}

fn lengths_are_limited(
    alloc: Global,
    before: &str,
    behind: &str,
    empty: bool,
) -> Result<bool, AllocError> {
    let mut holds = text_is_limited(alloc, before, behind, 0, empty)?;
    for (count, fits) in &LENGTHS {
        holds &= text_is_limited(alloc, before, behind, *count, *fits)?;
    }
    Ok(holds)
}

#[test]
fn limits_of_texts(rt: HostRuntime) -> Result<(), Fail> {
    let alloc = rt.alloc();
    for (before, behind, empty) in &TEXTS {
        let limited = lengths_are_limited(alloc, before, behind, *empty)?;
        assert!(rt; limited, "{before}");
    }
    Ok(())
}

fn depth_is_limited(alloc: Global) -> Result<bool, AllocError> {
    let deepest = deep_line(alloc, 47)?;
    let deeper = deep_line(alloc, 48)?;
    Ok(is_read(alloc, deepest.as_str()) && !is_read(alloc, deeper.as_str()))
}

#[test]
fn limit_of_depth(rt: HostRuntime) -> Result<(), Fail> {
    assert!(rt; depth_is_limited(rt.alloc())?);
    Ok(())
}
