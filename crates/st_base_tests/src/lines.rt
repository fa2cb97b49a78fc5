//! Each public call once, and the edges of each form.
ghost use Rattle.std.specs.Prelude.{◌≡◌, false, IfOk};
ghost use Rattle.serde_json.specs.View.{view};
ghost use Rattle.serde_json.specs.Written.{has_float};

use serde_json::{Value, json};
use st_ids::Or;
use st_json::{NotJson, Shape, int, item, member, number, only, read_line, text, write_line};
use std::alloc::{AllocError, Global};
use std::test::Fail;

fn sample(alloc: Global) -> Result<Value, AllocError>
    ensures { IfOk result (λ v. has_float (view v) ≡ false) }
{
    json!(in alloc; {"b": [7, -7], "a": "x"})
}

// The value of a line that is one.
fn value_of(alloc: Global, line: &str) -> Option<Value> {
    read_line(alloc, line.as_bytes()).ok()
}

fn is_only(alloc: Global, line: &str, names: &str) -> bool {
    value_of(alloc, line).is_some_and(|value| only(&value, names) == Ok(()))
}

// The items of the member `b`, a whole number and a signed one.
fn items_are_read(value: &Value) -> Result<bool, Shape> {
    let Some(list) = member(value, "b")? else {
        return Ok(false);
    };
    let (Some(first), Some(second)) = (item(list, 0)?, item(list, 1)?) else {
        return Ok(false);
    };
    Ok(number(first) == Ok(7) && int(second) == Ok(-7))
}

fn text_is_read(alloc: Global, value: &Value) -> bool {
    let Ok(Some(found)) = member(value, "a") else {
        return false;
    };
    text(alloc, found).is_ok_and(|words| words.as_str() == "x")
}

fn is_line_of(alloc: Global, line: &str, value: &Value) -> bool {
    let Some(back) = value_of(alloc, line) else {
        return false;
    };
    back == *value && line == "{\"a\":\"x\",\"b\":[7,-7]}\n"
}

fn value_is_written(alloc: Global, value: &Value) -> Result<bool, AllocError>
    requires { has_float (view value.now) ≡ false }
{
    let line = write_line(alloc, value)?;
    Ok(is_line_of(alloc, line.as_str(), value))
}

// Whether the sample's members are read, its text, and whether it is written.
fn sample_is_used(alloc: Global) -> Result<[bool; 3], AllocError> {
    let value = sample(alloc)?;
    let members = only(&value, "a b") == Ok(()) && items_are_read(&value) == Ok(true);
    let words = text_is_read(alloc, &value);
    Ok([members, words, value_is_written(alloc, &value)?])
}

#[test]
fn first_use(rt: HostRuntime) -> Result<(), Fail> {
    let so = sample_is_used(rt.alloc())?;
    assert!(rt; so == [true; 3], "{so:?}");
    Ok(())
}

const NO_LINES: [&[u8]; 5] = [b"\xff", b"", b"1 2", b"{", b"1e400"];

#[test]
fn other_bytes_are_no_lines(rt: HostRuntime) {
    let alloc = rt.alloc();
    let read = NO_LINES.iter().position(|line| read_line(alloc, line).err()
        != Some(Or::Fault(NotJson)));
    assert!(rt; read.is_none(), "{read:?}");
}

// Texts, and what they are as a whole number and as a signed one.
const NUMBERS: [(&str, Result<u64, Shape>, Result<i64, Shape>); 10] = [
    ("18446744073709551615", Ok(u64::MAX), Err(Shape)),
    ("18446744073709551616", Err(Shape), Err(Shape)),
    ("9223372036854775807", Ok(9223372036854775807), Ok(i64::MAX)),
    ("-9223372036854775808", Err(Shape), Ok(i64::MIN)),
    ("-9223372036854775809", Err(Shape), Err(Shape)),
    ("0", Ok(0), Ok(0)),
    ("-0", Err(Shape), Err(Shape)),
    ("1.0", Err(Shape), Err(Shape)),
    ("1e0", Err(Shape), Err(Shape)),
    ("\"1\"", Err(Shape), Err(Shape)),
];

fn is_number(
    alloc: Global,
    line: &str,
    whole: Result<u64, Shape>,
    signed: Result<i64, Shape>,
) -> bool {
    value_of(alloc, line).is_some_and(|value| number(&value) == whole && int(&value) == signed)
}

#[test]
fn numbers(rt: HostRuntime) {
    let alloc = rt.alloc();
    let other = NUMBERS.iter().position(|(line, whole, signed)| !is_number(
        alloc, line, *whole, *signed,
    ));
    assert!(rt; other.is_none(), "{other:?}");
}

const TWICE: &str = r#"{"a":1,"":2,"a":3}"#;

// Of a name that stands twice the later member counts; an empty name is one.
fn later_member_counts(value: &Value) -> bool {
    let later = matches!(member(value, "a"), Ok(Some(found)) if number(found) == Ok(3));
    later && member(value, "b") == Ok(None) && item(value, 0).is_err()
}

#[test]
fn names_of_members(rt: HostRuntime) {
    let alloc = rt.alloc();
    let later = value_of(alloc, TWICE).is_some_and(|value| later_member_counts(&value));
    let other = is_only(alloc, TWICE, "a")
        || is_only(alloc, TWICE, " a")
        || is_only(alloc, "[]", "");
    assert!(rt;
        later && !other && is_only(alloc, "{}", ""),
        "{later} {other}"
    );
}
