//! Paths, and where they lead.
ghost use Rattle.std.specs.Prelude.{◌<◌, ◌^◌, length, IfOk};

use crate::given::{forest, is_at, node, schema};
use st_cursor::{Cursor, NoNode, child, item_at, walk};
use st_forest::Forest;
use st_ids::{Key, Or, Path, Place, Text};
use std::alloc::{AllocError, Global};
use std::test::Fail;

fn place(alloc: Global, key: &str, index: u32) -> Result<Place, AllocError> {
    let key = Key(Text::from_str(alloc, key)?);
    Ok(Place { key, index })
}

// A path of two places, of which the first is in the root's row.
fn path(alloc: Global, item: u32, key: &str) -> Result<Path, AllocError>
    ensures { IfOk result (λ p. length p < 2 ^ 32) }
{
    let mut path = Path::new(alloc);
    path.push(place(alloc, "", item)?)?;
    path.push(place(alloc, key, 0)?)?;
    Ok(path)
}

// Whether a path leads to no node at a depth.
fn stops_at<T: Drop>(answer: Result<T, Or<NoNode>>, depth: u32) -> bool {
    match answer {
        Err(Or::Fault(no)) => no.depth == depth,
        _ => false,
    }
}

fn seeks(alloc: Global, cursor: &mut Cursor<'_>) -> Result<bool, AllocError> {
    let title = path(alloc, 1, "title")?;
    let there = cursor.seek(alloc, &title).is_ok();
    let back = cursor.path(alloc)?;
    Ok(there && is_at(cursor, 3, 2) && back.len() == 2)
}

// Of paths that lead to no node, the cursor stays.
fn stays(alloc: Global, cursor: &mut Cursor<'_>) -> Result<bool, AllocError> {
    let note = path(alloc, 1, "note")?;
    let far = path(alloc, 5, "title")?;
    let first = stops_at(cursor.seek(alloc, &note), 1);
    let second = stops_at(cursor.seek(alloc, &far), 0);
    Ok(first && second && is_at(cursor, 3, 2))
}

fn cursor_is_right(alloc: Global) -> Result<bool, Fail> {
    let forest = forest(alloc)?;
    let schema = schema(alloc)?;
    let mut cursor = Cursor::new(alloc, &forest, &schema);
    Ok(seeks(alloc, &mut cursor)? && stays(alloc, &mut cursor)?)
}

fn walks(alloc: Global, forest: &Forest) -> Result<bool, AllocError> {
    let title = path(alloc, 1, "title")?;
    let note = path(alloc, 1, "note")?;
    let there = walk(alloc, forest, &title) == Ok(node(3));
    Ok(there && stops_at(walk(alloc, forest, &note), 1))
}

fn finds(alloc: Global, forest: &Forest) -> Result<bool, AllocError> {
    let card = place(alloc, "", 1)?;
    let first = child(alloc, forest, node(0), &card)? == Some(node(2));
    let none = item_at(alloc, forest, node(0), &card.key, 2)?.is_none();
    Ok(first && none)
}

fn forest_is_right(alloc: Global) -> Result<bool, Fail> {
    let forest = forest(alloc)?;
    Ok(walks(alloc, &forest)? && finds(alloc, &forest)?)
}

#[test]
fn paths_lead(rt: HostRuntime) -> Result<(), Fail> {
    let alloc = rt.alloc();
    let (cursor, forest) = (cursor_is_right(alloc)?, forest_is_right(alloc)?);
    assert!(rt; cursor && forest, "{cursor} {forest}");
    Ok(())
}
