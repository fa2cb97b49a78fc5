//! Changes in op space, read with their refusals and written back.

use serde_json::Value;
use st_change_writer::push_change;
use st_clusters::{At, Compressor};
use st_idcodec::CodecFault;
use st_ids::{List, Or, Text};
use st_mark_reader::OpNames;
use st_op_changes::read_op_change;
use std::alloc::{AllocError, Global};
use std::test::Fail;

// Each text with what it is read as at a table of no finalised ids by a session of one id: a change, or the cause of a refusal.
const TEXTS: [(&str, &str); 7] = [
    (
        r#"{"base":true,"loose":[],"need":[[0,0]],"new":[[[-1,0],"text","a"]],"regs":[],"rev":-1,"rows":[[[0,0],[1,["make",[-1,0],[-1,0]]]]],"under":0}"#,
        "read",
    ),
    (
        r#"{"base":false,"rev":-1,"schema":{"root":["text"],"types":[]},"under":0}"#,
        "read",
    ),
    (
        r#"{"base":true,"loose":[],"need":[],"new":[],"regs":[],"rev":"1.1","rows":[],"under":0}"#,
        "Shape",
    ),
    (
        r#"{"base":true,"loose":[],"need":[[99,0]],"new":[],"regs":[["k",[0,0]]],"rev":-1,"rows":[],"under":0}"#,
        "Shape",
    ),
    (
        r#"{"base":true,"loose":[],"need":[[99,0]],"new":[],"regs":[],"rev":-1,"rows":[[[0,0],[1,1]]],"under":0}"#,
        "Unknown",
    ),
    (
        r#"{"base":true,"loose":[],"need":[],"new":[],"regs":[],"rev":-2,"rows":[],"under":0}"#,
        "Unknown",
    ),
    (
        r#"{"base":true,"loose":[],"need":[],"new":[],"regs":[],"rev":-1,"rows":[[[0,0],[1,1]]],"under":0}"#,
        "NotNormal",
    ),
];

// Whether the change of a value is written back as that text.
fn is_written(
    alloc: Global,
    at: &At,
    change: &st_marks::Change,
    text: &str,
) -> Result<bool, AllocError> {
    let mut out = Text::from_str(alloc, "")?;
    push_change(alloc, &mut out, change, &OpNames(*at))?;
    Ok(out.as_str() == text)
}

fn cause_of(fault: CodecFault) -> &'static str {
    match fault {
        CodecFault::Shape => "Shape",
        CodecFault::NotNormal => "NotNormal",
        CodecFault::Unknown => "Unknown",
    }
}

fn read_as(alloc: Global, at: &At, value: &Value, text: &str) -> Result<&'static str, AllocError> {
    match read_op_change(alloc, at, value) {
        Ok(change) => {
            if is_written(alloc, at, &change, text)? {
                Ok("read")
            } else {
                Ok("written otherwise")
            }
        }
        Err(Or::Fault(fault)) => Ok(cause_of(fault)),
        Err(Or::NoMemory) => Err(AllocError),
    }
}

fn value_of(alloc: Global, text: &str) -> Result<Value, AllocError> {
    match Value::from_str(alloc, text) {
        Ok(value) => Ok(value),
        Err(_) => Err(AllocError),
    }
}

// How many of the texts are read as they should be.
fn read(alloc: Global) -> Result<u32, AllocError> {
    let ids = Compressor::new(alloc);
    let later = List::new(alloc);
    let at = At {
        ids: &ids,
        own: 1,
        have: 1,
        later: &later,
    };
    let mut count: u32 = 0;
    for (text, word) in TEXTS.iter() {
        let value = value_of(alloc, text)?;
        if read_as(alloc, &at, &value, text)? == *word {
            count = count.saturating_add(1);
        }
    }
    Ok(count)
}

#[test]
fn changes_are_read_in_op_space(rt: HostRuntime) -> Result<(), Fail> {
    let count = read(rt.alloc())?;
    assert!(rt; count == 7, "{count}");
    Ok(())
}
