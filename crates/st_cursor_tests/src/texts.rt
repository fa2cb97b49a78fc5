//! What is shown, as text.

use crate::given::{TREE, forest, node};
use st_export::{NoNode, export, export_at};
use st_forest::Forest;
use st_ids::{List, Or, Text};
use std::alloc::{AllocError, Global};
use std::test::Fail;

/// A node, and its text.
#[derive(Clone, Copy)]
struct Row(u32, &'static str);

const ROWS: [Row; 4] = [
    Row(0, TREE),
    Row(1, r#""bread""#),
    Row(2, r#"{"card":{"title":"milk"}}"#),
    Row(3, r#""milk""#),
];

fn arrays(alloc: Global) -> Result<List<Text>, AllocError> {
    let mut arrays = List::new(alloc);
    arrays.push(Text::from_str(alloc, "list")?)?;
    Ok(arrays)
}

// Whether a text is this one.
fn is_text(answer: Result<Text, Or<NoNode>>, words: &str) -> Result<bool, AllocError> {
    match answer {
        Ok(text) => Ok(text.as_str() == words),
        Err(Or::Fault(_)) => Ok(false),
        Err(Or::NoMemory) => Err(AllocError),
    }
}

// How many nodes have the text of their row.
fn rows_right(alloc: Global, forest: &Forest, arrays: &[Text]) -> Result<usize, AllocError> {
    let mut right: usize = 0;
    for row in &ROWS {
        if is_text(export_at(alloc, forest, arrays, node(row.0)), row.1)? {
            right = right.saturating_add(1);
        }
    }
    Ok(right)
}

// Whether the live tree is the one that was opened, and a node that isn't there is refused.
fn whole_is_right(alloc: Global, forest: &Forest, arrays: &[Text]) -> Result<bool, AllocError> {
    let text = export(alloc, forest, arrays)?;
    let none = export_at(alloc, forest, arrays, node(4)).is_err();
    Ok(text.as_str() == TREE && none)
}

fn all_right(alloc: Global) -> Result<(usize, bool), Fail> {
    let forest = forest(alloc)?;
    let arrays = arrays(alloc)?;
    let right = rows_right(alloc, &forest, arrays.as_slice())?;
    Ok((right, whole_is_right(alloc, &forest, arrays.as_slice())?))
}

#[test]
fn texts_are_right(rt: HostRuntime) -> Result<(), Fail> {
    let alloc = rt.alloc();
    let (right, whole) = all_right(alloc)?;
    assert!(rt; right == ROWS.len() && whole, "{right} {whole}");
    Ok(())
}
