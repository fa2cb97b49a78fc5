//! Moves one after the other.

use crate::given::{forest, is_at, schema};
use st_cursor::{AtRoot, Cursor};
use st_ids::{Key, Or, Text};
use std::alloc::{AllocError, Global};
use std::test::Fail;

/// A move of a cursor.
#[derive(Clone, Copy)]
enum Go {
    Field(&'static str),
    Item(u32),
    Next,
    Exit,
}

/// A move, whether it is made, the node where the cursor is then, and how far down that is.
#[derive(Clone, Copy)]
struct Row(Go, bool, u32, usize);

const ROWS: [Row; 22] = [
    Row(Go::Field(""), true, 0, 0),
    Row(Go::Field(""), false, 0, 0),
    Row(Go::Next, false, 0, 0),
    Row(Go::Item(2), false, 0, 0),
    Row(Go::Item(0), true, 1, 1),
    Row(Go::Item(0), false, 1, 1),
    Row(Go::Field(""), false, 1, 1),
    Row(Go::Next, true, 2, 1),
    Row(Go::Next, false, 2, 1),
    Row(Go::Field("title"), true, 2, 1),
    Row(Go::Item(1), false, 2, 1),
    Row(Go::Item(0), true, 3, 2),
    Row(Go::Next, false, 3, 2),
    Row(Go::Exit, true, 2, 1),
    Row(Go::Exit, true, 2, 1),
    Row(Go::Field("note"), true, 2, 1),
    Row(Go::Item(0), false, 2, 1),
    Row(Go::Exit, true, 2, 1),
    Row(Go::Field("other"), false, 2, 1),
    Row(Go::Exit, true, 0, 0),
    Row(Go::Exit, true, 0, 0),
    Row(Go::Exit, false, 0, 0),
];

// Whether a move was made.
fn is_made<F: Drop>(answer: Result<(), Or<F>>) -> Result<bool, AllocError> {
    match answer {
        Ok(()) => Ok(true),
        Err(Or::Fault(_)) => Ok(false),
        Err(Or::NoMemory) => Err(AllocError),
    }
}

fn enters(alloc: Global, cursor: &mut Cursor<'_>, key: &str) -> Result<bool, AllocError> {
    let key = Key(Text::from_str(alloc, key)?);
    is_made(cursor.enter_field(alloc, &key))
}

fn goes_out(answer: Result<(), AtRoot>) -> bool {
    answer.is_ok()
}

// Makes a move, and tells whether it was made.
fn goes(alloc: Global, cursor: &mut Cursor<'_>, go: Go) -> Result<bool, AllocError> {
    match go {
        Go::Field(key) => enters(alloc, cursor, key),
        Go::Item(index) => is_made(cursor.enter_node(alloc, index)),
        Go::Next => is_made(cursor.next(alloc)),
        Go::Exit => Ok(goes_out(cursor.exit())),
    }
}

// Whether a move comes out as its row says.
fn row_is_right(alloc: Global, cursor: &mut Cursor<'_>, row: &Row) -> Result<bool, AllocError> {
    let made = goes(alloc, cursor, row.0)?;
    Ok(made == row.1 && is_at(cursor, row.2, row.3))
}

// How many rows come out right, one after the other.
fn rows_right(alloc: Global, cursor: &mut Cursor<'_>) -> Result<usize, AllocError> {
    let mut right: usize = 0;
    for row in &ROWS {
        if row_is_right(alloc, cursor, row)? {
            right = right.saturating_add(1);
        }
    }
    Ok(right)
}

fn all_right(alloc: Global) -> Result<usize, Fail> {
    let forest = forest(alloc)?;
    let schema = schema(alloc)?;
    let mut cursor = Cursor::new(alloc, &forest, &schema);
    Ok(rows_right(alloc, &mut cursor)?)
}

#[test]
fn cursors_move(rt: HostRuntime) -> Result<(), Fail> {
    let alloc = rt.alloc();
    let right = all_right(alloc)?;
    assert!(rt; right == ROWS.len(), "{right}");
    Ok(())
}
