//! Steps of each kind, read and written back, and values that are none.

use crate::changes::value_of;
use st_change_reader::read_step;
use st_change_writer::push_step;
use st_ids::Text;
use st_mark_reader::Plain;
use st_marks::Step;
use std::alloc::{AllocError, Global};
use std::test::Fail;

// Of each, how many new nodes, rows, registers, loose nodes, and schema entries that come it has.
const STEPS: [(&str, [usize; 5]); 4] = [
    (
        r#"{"loose":[],"new":[],"regs":[],"rows":[],"schema":null}"#,
        [0, 0, 0, 0, 0],
    ),
    (
        r#"{"loose":[["1.1.0","at"],["1.2.0","out"]],"new":[["3.1.0","text","a"]],"regs":[["1.1.0","k",null,"3.1.0"]],"rows":[["0.0.0",[2,["out","1.4.0","1.4.0"]]]],"schema":null}"#,
        [1, 1, 1, 2, 0],
    ),
    (
        r#"{"loose":[],"new":[],"regs":[["1.1.0","k","1.2.0",null],["1.1.0","l",null,null]],"rows":[],"schema":{"add":[["2.1",{"root":["text"],"types":[]}]],"cut":[],"on":"0.0"}}"#,
        [0, 0, 2, 0, 1],
    ),
    (
        r#"{"loose":[],"new":[],"regs":[],"rows":[],"schema":{"add":[],"cut":[["2.1",{"root":["int"],"types":[]}]],"on":"1.1"}}"#,
        [0, 0, 0, 0, 0],
    ),
];

const OTHERS: [&str; 6] = [
    r#"{"loose":[],"new":[],"regs":[],"rows":[]}"#,
    r#"{"loose":[["1.1.0","set"]],"new":[],"regs":[],"rows":[],"schema":null}"#,
    r#"{"loose":[],"new":[],"regs":[],"rows":[["0.0.0",[["set","0.0.1","0.0.1"]]]],"schema":null}"#,
    r#"{"loose":[],"new":[],"regs":[["1.1.0","k",null]],"rows":[],"schema":null}"#,
    r#"{"loose":[],"new":[],"regs":[],"rows":[],"schema":{"add":[],"cut":[]}}"#,
    r#"{"loose":[],"new":[],"regs":[],"rows":[],"schema":{"add":[["2.1","text"]],"cut":[],"on":"0.0"}}"#,
];

fn step_of(alloc: Global, text: &str) -> Result<Option<Step>, AllocError> {
    match value_of(alloc, text)? {
        None => Ok(None),
        Some(value) => read_step(alloc, &Plain, &value),
    }
}

fn added(step: &Step) -> usize {
    match &step.schema {
        None => 0,
        Some(schema) => schema.add.len(),
    }
}

fn has_counts(step: &Step, counts: &[usize; 5]) -> bool {
    let lists = step.new.len() == counts[0] && step.rows.len() == counts[1];
    let fields = step.regs.len() == counts[2] && step.loose.len() == counts[3];
    lists && fields && added(step) == counts[4]
}

// Whether a step is written straight as that text.
fn is_written(alloc: Global, step: &Step, text: &str) -> Result<bool, AllocError> {
    let mut out = Text::from_str(alloc, "")?;
    push_step(alloc, &mut out, step, &st_change_writer::Plain)?;
    Ok(out.as_str() == text)
}

fn is_read(alloc: Global, text: &str, counts: &[usize; 5]) -> Result<bool, AllocError> {
    match step_of(alloc, text)? {
        None => Ok(false),
        Some(step) => Ok(has_counts(&step, counts) && is_written(alloc, &step, text)?),
    }
}

fn read(alloc: Global) -> Result<u32, AllocError> {
    let mut count: u32 = 0;
    for (text, counts) in STEPS.iter() {
        if is_read(alloc, text, counts)? {
            count = count.saturating_add(1);
        }
    }
    Ok(count)
}

fn is_refused(alloc: Global, text: &str) -> Result<bool, AllocError> {
    Ok(value_of(alloc, text)?.is_some() && step_of(alloc, text)?.is_none())
}

fn refused(alloc: Global) -> Result<u32, AllocError> {
    let mut count: u32 = 0;
    for text in OTHERS.iter() {
        if is_refused(alloc, text)? {
            count = count.saturating_add(1);
        }
    }
    Ok(count)
}

#[test]
fn steps_are_read(rt: HostRuntime) -> Result<(), Fail> {
    let (some, none) = (read(rt.alloc())?, refused(rt.alloc())?);
    assert!(rt; some == 4 && none == 6, "{some} {none}");
    Ok(())
}
