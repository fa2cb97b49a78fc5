//! Lines that are requests, lines that are none, and lines that answer.

use st_ids::{FieldId, Key, NodeId, Or, ROOT, Rev, Text};
use st_json::BadCause;
use st_marks::Verdict;
use st_requests::{Request, apart_line, change_line, effect_line, read_request, step_line};
use std::alloc::{AllocError, Global};
use std::test::Fail;

// Each line with what it is read as: the word of a request, or the cause of a refusal.
const LINES: [(&str, &str); 17] = [
    (
        r#"{"do":"compose","first":{"loose":[],"new":[],"regs":[],"rows":[],"schema":null},"then":{"loose":[],"new":[],"regs":[],"rows":[],"schema":null}}"#,
        "compose",
    ),
    (
        r#"{"do":"join","first":{"base":true,"loose":[],"need":[],"new":[],"regs":[],"rev":"1.1","rows":[],"under":"0.0"},"then":{"base":true,"loose":[],"need":[],"new":[],"regs":[],"rev":"1.1","rows":[],"under":"0.0"}}"#,
        "join",
    ),
    (
        r#"{"do":"invert","step":{"loose":[],"new":[],"regs":[],"rows":[["0.0.0",[2,["out","0.0.3","0.0.3"]]]],"schema":null}}"#,
        "invert",
    ),
    (
        r#"{"do":"invert","step":{"loose":[["0.0.3","at"]],"new":[],"regs":[],"rows":[],"schema":null}}"#,
        "NotNormal",
    ),
    (
        r#"{"step":{"loose":[],"new":[],"regs":[],"rows":[],"schema":null},"do":"invert"}"#,
        "invert",
    ),
    (
        r#"{"change":{"base":true,"rev":"1.1","schema":{"root":["text"],"types":[]},"under":"0.0"},"do":"rebase","over":{"loose":[],"new":[],"regs":[],"rows":[],"schema":null}}"#,
        "rebase",
    ),
    (
        r#"{"change":{"base":true,"rev":"1.1","schema":{"root":["text"],"types":[]},"under":"0.0"},"do":"bridge","step":{"loose":[],"new":[],"regs":[],"rows":[],"schema":null}}"#,
        "bridge",
    ),
    (
        r#"{"change":{"base":true,"loose":[],"need":[],"new":[["1.1.0","text","a"]],"regs":[],"rev":"1.1","rows":[["0.0.0",[2147483646,["make","1.1.0","1.1.0"]]]],"under":"0.0"},"do":"effect"}"#,
        "effect",
    ),
    (
        r#"{"change":{"base":true,"loose":[],"need":[],"new":[["1.1.0","text","a"]],"regs":[],"rev":"1.1","rows":[["0.0.0",[2147483647,["make","1.1.0","1.1.0"]]]],"under":"0.0"},"do":"effect"}"#,
        "NotNormal",
    ),
    (
        r#"{"change":{"base":true,"loose":[],"need":[],"new":[["1.1.0","text","a"]],"regs":[],"rev":"1.1","rows":[["0.0.0",[1,1,["make","1.1.0","1.1.0"]]]],"under":"0.0"},"do":"effect"}"#,
        "NotNormal",
    ),
    (
        r#"{"do":"revert","rev":"2.1","step":{"loose":[],"new":[],"regs":[],"rows":[],"schema":null},"under":"0.0"}"#,
        "revert",
    ),
    (
        r#"{"do":"revert","rev":"2.1","step":{"loose":[],"new":[],"regs":[],"rows":[],"schema":null}}"#,
        "Shape",
    ),
    (
        r#"{"do":"invert","step":{"loose":[["0.0.3","set"]],"new":[],"regs":[],"rows":[],"schema":null}}"#,
        "Shape",
    ),
    (
        r#"{"do":"invert","over":{"loose":[],"new":[],"regs":[],"rows":[],"schema":null}}"#,
        "Shape",
    ),
    (r#"{"do":"undo"}"#, "Shape"),
    ("[]", "Shape"),
    ("{", "Json"),
];

fn word_of(request: &Request) -> &'static str {
    match request {
        Request::Compose { .. } => "compose",
        Request::Join { .. } => "join",
        Request::Invert { .. } => "invert",
        Request::Rebase { .. } => "rebase",
        Request::Bridge { .. } => "bridge",
        Request::Effect { .. } => "effect",
        Request::Revert { .. } => "revert",
    }
}

fn cause_of(cause: BadCause) -> &'static str {
    match cause {
        BadCause::Json => "Json",
        BadCause::Header => "Header",
        BadCause::Shape => "Shape",
        BadCause::NotNormal => "NotNormal",
    }
}

// What a line is read as.
fn read_as(alloc: Global, line: &str) -> Result<&'static str, AllocError> {
    match read_request(alloc, line.as_bytes()) {
        Ok(request) => Ok(word_of(&request)),
        Err(Or::Fault(cause)) => Ok(cause_of(cause)),
        Err(Or::NoMemory) => Err(AllocError),
    }
}

// How many of the lines are read as they should be.
fn read(alloc: Global) -> Result<u32, AllocError> {
    let mut count: u32 = 0;
    for (line, word) in LINES.iter() {
        if read_as(alloc, line)? == *word {
            count = count.saturating_add(1);
        }
    }
    Ok(count)
}

// The lines that answer a request to rebase, or to say what a change does.
fn answered(alloc: Global, line: &str) -> Result<Option<Text>, AllocError> {
    match read_request(alloc, line.as_bytes()) {
        Ok(Request::Rebase { change, over }) => both_lines(alloc, &change, &over),
        Ok(_) | Err(Or::Fault(_)) => Ok(None),
        Err(Or::NoMemory) => Err(AllocError),
    }
}

// A line with the change, one with the step, and one with the step and why the change is void.
fn both_lines(
    alloc: Global,
    change: &st_marks::Change,
    step: &st_marks::Step,
) -> Result<Option<Text>, AllocError> {
    let mut lines = change_line(alloc, "rebase", change)?;
    let whole = step_line(alloc, "invert", step)?;
    lines.push_str(whole.as_str())?;
    let void = effect_line(alloc, "effect", step, Verdict::Need(ROOT))?;
    lines.push_str(void.as_str())?;
    Ok(Some(lines))
}

const ANSWERS: &str =
    r#"{"change":{"base":true,"rev":"1.1","schema":{"root":["text"],"types":[]},"under":"0.0"},"ok":"rebase"}
{"ok":"invert","step":{"loose":[],"new":[],"regs":[],"rows":[],"schema":null}}
{"ok":"effect","step":{"loose":[],"new":[],"regs":[],"rows":[],"schema":null},"verdict":{"need":"0.0.0"}}
"#;

fn is_answered(alloc: Global) -> Result<bool, AllocError> {
    let lines = answered(alloc, LINES[5].0)?;
    Ok(lines.is_some_and(|text| text.as_str() == ANSWERS))
}

fn is_apart(alloc: Global) -> Result<bool, AllocError> {
    let node = NodeId(st_ids::Atom {
        rev: Rev { session: 2, num: 1 },
        at: 3,
    });
    let key = Key(Text::from_str(alloc, "a\"b")?);
    let line = apart_line(alloc, &FieldId { node, key })?;
    Ok(line.as_str() == "{\"field\":[\"2.1.3\",\"a\\\"b\"],\"no\":\"Apart\"}\n")
}

#[test]
fn requests_are_read_and_answered(rt: HostRuntime) -> Result<(), Fail> {
    let (count, lines) = (read(rt.alloc())?, is_answered(rt.alloc())?);
    let apart = is_apart(rt.alloc())?;
    assert!(rt; count == 17 && lines && apart, "{count} {lines} {apart}");
    Ok(())
}
