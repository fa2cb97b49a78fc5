//! Each public call once, and pairs of schemas with their answers.
use st_compat::{
    BadSchema, compare_lines, compat, each_pair_is_related, each_two_lines_are_compared,
    equal_reads, further_cause, read_schema_line, reads, reads_allows, related_reads,
    relation_line, wider_reads,
};
use st_ids::{Or, Text};
use st_json::BadCause;
use st_schema::Schema;
use std::alloc::Global;

const TEXTS: &str = r#"{"root":["list"],"types":[{"array":["text"],"name":"list"}]}"#;

const TEXTS_AND_NUMBERS: &str =
    r#"{"root":["list"],"types":[{"array":["text","int"],"name":"list"}]}"#;

// A type that no document may hold stands beside the list.
const MORE_THAN_TEXTS: &str =
    r#"{"root":["list"],"types":[{"array":["text"],"name":"list"},{"map":["int"],"name":"tally"}]}"#;

const FORMS: &str =
    r#"{"root":["o","text"],"types":[{"name":"o","object":{"a":["opt",["p"]],"b":["req",["int"]]}},{"array":["text"],"name":"p"}]}"#;

const OTHER_FORMS: &str =
    r#"{"root":["o"],"types":[{"map":["text"],"name":"p"},{"name":"o","object":{"a":["req",["p"]],"b":["req",["int"]]}}]}"#;

// A stored schema, a view, and the line of their relation.
const PAIRS: [(&str, &str, &str); 9] = [
    (
        TEXTS,
        TEXTS_AND_NUMBERS,
        "{\"ok\":\"compat\",\"view\":\"Upgrade\"}\n",
    ),
    (
        TEXTS_AND_NUMBERS,
        TEXTS,
        "{\"causes\":[[\"list\",\"allow\"]],\"ok\":\"compat\",\"view\":\"Refuse\"}\n",
    ),
    (TEXTS, TEXTS, "{\"ok\":\"compat\",\"view\":\"Equal\"}\n"),
    (
        r#"{"root":["text","int"],"types":[]}"#,
        r#"{"root":["int","text"],"types":[]}"#,
        "{\"ok\":\"compat\",\"view\":\"Equal\"}\n",
    ),
    (
        r#"{"root":[],"types":[{"array":[],"name":"a"},{"map":[],"name":"b"}]}"#,
        r#"{"root":[],"types":[{"map":[],"name":"b"},{"array":[],"name":"a"}]}"#,
        "{\"ok\":\"compat\",\"view\":\"Equal\"}\n",
    ),
    (
        MORE_THAN_TEXTS,
        TEXTS,
        "{\"ok\":\"compat\",\"view\":\"Viewable\"}\n",
    ),
    (
        FORMS,
        OTHER_FORMS,
        "{\"causes\":[[\"o\",\"fields\"],[\"p\",\"shape\"],[\"\",\"root\"]],\"ok\":\"compat\",\"view\":\"Refuse\"}\n",
    ),
    (
        TEXTS,
        r#"{"root":["list","text"],"types":[{"array":[],"name":"other"},{"array":["text"],"name":"list"}]}"#,
        "{\"ok\":\"compat\",\"view\":\"Viewable\"}\n",
    ),
    (
        TEXTS,
        r#"{"root":["text"],"types":[]}"#,
        "{\"causes\":[[\"list\",\"absent\"],[\"\",\"root\"]],\"ok\":\"compat\",\"view\":\"Refuse\"}\n",
    ),
];

fn schema_of(alloc: Global, line: &str) -> Option<Schema> {
    read_schema_line(alloc, line.as_bytes()).ok()
}

// The line of the relation of two schemas.
fn line_of(alloc: Global, stored: &str, view: &str) -> Option<Text> {
    let (stored, view) = (schema_of(alloc, stored)?, schema_of(alloc, view)?);
    let relation = compat(alloc, &stored, &view).ok()?;
    relation_line(alloc, &relation).ok()
}

fn is_told(alloc: Global, stored: &str, view: &str, line: &str) -> bool {
    line_of(alloc, stored, view).is_some_and(|text| text.as_str() == line)
}

fn is_compared(alloc: Global, stored: &str, view: &str, line: &str) -> bool {
    compare_lines(alloc, Some(stored.as_bytes()), Some(view.as_bytes())).is_ok_and(
        |text| text.as_str() == line,
    )
}

#[test]
fn pairs_of_schemas(rt: HostRuntime) {
    let alloc = rt.alloc();
    let other = PAIRS.iter().position(|(stored, view, line)| !is_told(alloc, stored, view, line)
        || !is_compared(alloc, stored, view, line));
    assert!(rt; other.is_none(), "{other:?}");
}

fn is_read(alloc: Global, stored: &str, view: &str) -> bool {
    match (schema_of(alloc, stored), schema_of(alloc, view)) {
        (Some(stored), Some(view)) => reads(&stored, &view),
        _ => false,
    }
}

#[test]
fn views_that_read(rt: HostRuntime) {
    let alloc = rt.alloc();
    let (wider, narrower) = (
        is_read(alloc, TEXTS, TEXTS_AND_NUMBERS),
        is_read(alloc, TEXTS_AND_NUMBERS, TEXTS),
    );
    let unreached = is_read(alloc, MORE_THAN_TEXTS, TEXTS);
    assert!(rt;
        wider && !narrower && unreached,
        "{wider} {narrower} {unreached}"
    );
    equal_reads();
    wider_reads();
    related_reads();
    reads_allows();
    each_pair_is_related();
    each_two_lines_are_compared();
}

fn is_bad(alloc: Global, line: &str, cause: BadCause) -> bool {
    further_cause(alloc, line.as_bytes()).is_ok_and(|found| found == cause)
        && read_schema_line(alloc, line.as_bytes()).is_err()
}

#[test]
fn lines_that_are_refused(rt: HostRuntime) {
    let alloc = rt.alloc();
    let (json, empty) = (
        is_bad(alloc, "{", BadCause::Json),
        is_bad(alloc, "", BadCause::Json),
    );
    let shape = is_bad(alloc, "{}", BadCause::Shape);
    assert!(rt; json && empty && shape, "{json} {empty} {shape}");
}

// Which of two lines is no schema.
fn bad_of(alloc: Global, stored: Option<&[u8]>, view: Option<&[u8]>) -> Option<BadSchema> {
    match compare_lines(alloc, stored, view) {
        Err(Or::Fault(bad)) => Some(bad),
        _ => None,
    }
}

#[test]
fn lines_that_are_missing_or_bad(rt: HostRuntime) {
    let alloc = rt.alloc();
    let texts = Some(TEXTS.as_bytes());
    let none = bad_of(alloc, None, None) == Some(BadSchema::Stored(BadCause::Shape));
    let first = bad_of(alloc, Some(b"{".as_slice()), None)
        == Some(BadSchema::Stored(BadCause::Json));
    let second = bad_of(alloc, texts, None) == Some(BadSchema::View(BadCause::Shape));
    let last = bad_of(alloc, texts, Some(b"".as_slice())) == Some(BadSchema::View(BadCause::Json));
    assert!(rt;
        none && first && second && last,
        "{none} {first} {second} {last}"
    );
}
