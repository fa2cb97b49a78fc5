//! Changes, written straight as they were read.

use crate::changes::{CHANGES, change_of};
use st_change_writer::{Plain, push_change, push_op_atom, push_op_rev};
use st_ids::Text;
use st_marks::Change;
use std::alloc::{AllocError, Global};
use std::test::Fail;

fn text_of(alloc: Global, change: &Change) -> Result<Text, AllocError> {
    let mut out = Text::from_str(alloc, "")?;
    push_change(alloc, &mut out, change, &Plain)?;
    Ok(out)
}

// Whether a text is that of the change that is read of it.
fn is_written(alloc: Global, text: &str) -> Result<bool, AllocError> {
    match change_of(alloc, text)? {
        None => Ok(false),
        Some(change) => Ok(text_of(alloc, &change)?.as_str() == text),
    }
}

// How many of the changes are written straight as they were read.
fn written(alloc: Global) -> Result<u32, AllocError> {
    let mut count: u32 = 0;
    for text in CHANGES.iter() {
        if is_written(alloc, text)? {
            count = count.saturating_add(1);
        }
    }
    Ok(count)
}

// Names in op space, one behind the other.
fn op_names(alloc: Global) -> Result<Text, AllocError> {
    let mut out = Text::from_str(alloc, "")?;
    push_op_rev(&mut out, -1)?;
    push_op_atom(&mut out, 7, 2)?;
    Ok(out)
}

#[test]
fn changes_are_written_straight(rt: HostRuntime) -> Result<(), Fail> {
    let (count, names) = (written(rt.alloc())?, op_names(rt.alloc())?);
    assert!(rt; count == 8 && names.as_str() == "-1[7,2]", "{count}");
    Ok(())
}
