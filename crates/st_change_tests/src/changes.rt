//! Changes of each kind, and values that are none.

use serde_json::Value;
use st_change_codec::change_text;
use st_change_reader::read_change;
use st_mark_reader::Plain;
use st_marks::Change;
use std::alloc::{AllocError, Global};
use std::test::Fail;

/// Written as they are, they are read.
pub const CHANGES: [&str; 8] = [
    r#"{"base":true,"loose":[],"need":[],"new":[],"regs":[],"rev":"1.1","rows":[],"under":"0.0"}"#,
    r#"{"base":true,"loose":[],"need":["0.0.0"],"new":[["2.1.0","text","b"]],"regs":[],"rev":"2.1","rows":[["0.0.0",[1,["make","2.1.0","2.1.0"],["gap","1.1.0"]]]],"under":"0.0"}"#,
    r#"{"base":false,"loose":[["1.1.0","at"],["1.2.0","out"]],"need":[],"new":[],"regs":[["1.1.0","k",null,"at",true,"1.2.0"],["1.1.0","l","1.3.0","out",false,null]],"rev":"4294967295.4294967295","rows":[],"under":"7.0"}"#,
    r#"{"base":true,"loose":[],"need":[],"new":[["1.1.0","card"],["1.1.1","null",null],["1.1.2","bool",false],["1.1.3","int",-9223372036854775808],["1.1.4","int",9223372036854775807],["1.1.5","text",""],["1.1.6",""]],"regs":[],"rev":"1.1","rows":[],"under":"0.0"}"#,
    r#"{"base":true,"loose":[],"need":[],"new":[],"regs":[],"rev":"1.1","rows":[["0.0.0",[["at","0.0.1","0.0.1"],["set","0.0.2","0.0.2"],["out","0.0.3","0.0.3"],["fill","0.0.4","0.0.4"],["hole","1.1.0","0.0.5"]]]],"under":"0.0"}"#,
    r#"{"base":true,"rev":"1.1","schema":{"root":["text"],"types":[]},"under":"0.0"}"#,
    r#"{"base":false,"rev":"1.1","schema":{"root":["list"],"types":[{"array":["text"],"name":"list"}]},"under":"1.9"}"#,
    r#"{"base":true,"loose":[],"need":[],"new":[],"regs":[],"rev":"0.0","rows":[["0.0.0",[0,1,1,4294967295]]],"under":"0.0"}"#,
];

// Values of no change's form.
const OTHERS: [&str; 24] = [
    "null",
    "[]",
    "{}",
    r#"{"base":true,"loose":[],"need":[],"new":[],"regs":[],"rev":"1.1","rows":[]}"#,
    r#"{"base":true,"loose":[],"need":[],"new":[],"regs":[],"rev":"1.1","rows":[],"under":"0.0","v":1}"#,
    r#"{"base":true,"hold":[],"loose":[],"need":[],"new":[],"regs":[],"rev":"1.1","rows":[],"under":"0.0"}"#,
    r#"{"base":1,"loose":[],"need":[],"new":[],"regs":[],"rev":"1.1","rows":[],"under":"0.0"}"#,
    r#"{"base":true,"loose":[],"need":[],"new":[],"regs":[],"rev":"1.01","rows":[],"under":"0.0"}"#,
    r#"{"base":true,"loose":[],"need":[],"new":[],"regs":[],"rev":"1.4294967296","rows":[],"under":"0.0"}"#,
    r#"{"base":true,"loose":[],"need":["0.0"],"new":[],"regs":[],"rev":"1.1","rows":[],"under":"0.0"}"#,
    r#"{"base":true,"loose":[["1.1.0","in"]],"need":[],"new":[],"regs":[],"rev":"1.1","rows":[],"under":"0.0"}"#,
    r#"{"base":true,"loose":[],"need":[],"new":[["1.1.0","text"]],"regs":[],"rev":"1.1","rows":[],"under":"0.0"}"#,
    r#"{"base":true,"loose":[],"need":[],"new":[["1.1.0","text",1]],"regs":[],"rev":"1.1","rows":[],"under":"0.0"}"#,
    r#"{"base":true,"loose":[],"need":[],"new":[["1.1.0","int",9223372036854775808]],"regs":[],"rev":"1.1","rows":[],"under":"0.0"}"#,
    r#"{"base":true,"loose":[],"need":[],"new":[["1.1.0","card",null]],"regs":[],"rev":"1.1","rows":[],"under":"0.0"}"#,
    r#"{"base":true,"loose":[],"need":[],"new":[],"regs":[["1.1.0","k",null,"at",true]],"rev":"1.1","rows":[],"under":"0.0"}"#,
    r#"{"base":true,"loose":[],"need":[],"new":[],"regs":[["1.1.0","12345678901234567890123456789012345678901234567890123456789012345",null,"at",true,null]],"rev":"1.1","rows":[],"under":"0.0"}"#,
    r#"{"base":true,"loose":[],"need":[],"new":[],"regs":[],"rev":"1.1","rows":[["0.0.0",[4294967296]]],"under":"0.0"}"#,
    r#"{"base":true,"loose":[],"need":[],"new":[],"regs":[],"rev":"1.1","rows":[["0.0.0",[-1]]],"under":"0.0"}"#,
    r#"{"base":true,"loose":[],"need":[],"new":[],"regs":[],"rev":"1.1","rows":[["0.0.0",[1.0]]],"under":"0.0"}"#,
    r#"{"base":true,"loose":[],"need":[],"new":[],"regs":[],"rev":"1.1","rows":[["0.0.0",[["gap","1.1.0","1.1.0"]]]],"under":"0.0"}"#,
    r#"{"base":true,"loose":[],"need":[],"new":[],"regs":[],"rev":"1.1","rows":[["0.0.0",[["make","1.1.0"]]]],"under":"0.0"}"#,
    r#"{"base":true,"rev":"1.1","schema":null,"under":"0.0"}"#,
    r#"{"base":true,"rev":"1.1","schema":{"root":["list"],"types":[]},"under":"0.0"}"#,
];

/// The value of a text, if it has one.
pub fn value_of(alloc: Global, text: &str) -> Result<Option<Value>, AllocError> {
    match Value::from_str(alloc, text) {
        Ok(value) => Ok(Some(value)),
        Err(error) => {
            if error.is_memory() {
                Err(AllocError)
            } else {
                Ok(None)
            }
        }
    }
}

pub fn change_of(alloc: Global, text: &str) -> Result<Option<Change>, AllocError> {
    match value_of(alloc, text)? {
        None => Ok(None),
        Some(value) => read_change(alloc, &Plain, &value),
    }
}

// Whether a text is that of the change that is read of it.
fn is_written_back(alloc: Global, text: &str) -> Result<bool, AllocError> {
    match change_of(alloc, text)? {
        None => Ok(false),
        Some(change) => Ok(change_text(alloc, &change)?.as_str() == text),
    }
}

// How many of the changes are written as they were read.
fn written_back(alloc: Global) -> Result<u32, AllocError> {
    let mut count: u32 = 0;
    for text in CHANGES.iter() {
        if is_written_back(alloc, text)? {
            count = count.saturating_add(1);
        }
    }
    Ok(count)
}

fn is_refused(alloc: Global, text: &str) -> Result<bool, AllocError> {
    Ok(value_of(alloc, text)?.is_some() && change_of(alloc, text)?.is_none())
}

// How many of the other values are no changes.
fn refused(alloc: Global) -> Result<u32, AllocError> {
    let mut count: u32 = 0;
    for text in OTHERS.iter() {
        if is_refused(alloc, text)? {
            count = count.saturating_add(1);
        }
    }
    Ok(count)
}

#[test]
fn changes_are_written_back(rt: HostRuntime) -> Result<(), Fail> {
    let (back, none) = (written_back(rt.alloc())?, refused(rt.alloc())?);
    assert!(rt; back == 8 && none == 24, "{back} {none}");
    Ok(())
}
