ghost use Rattle.std.specs.Prelude.{◌≤◌, length};

use st_ids::{
    Atom, CellId, Copied, FieldId, Key, Leaf, List, NodeId, Or, Path, Place, Rev, Text, atom_order,
    cell_order, field_order, node_order, rev_order,
};
use std::alloc::{AllocError, Global};
use std::cmp::Ordering;
use std::test::Fail;

const REV: Rev = Rev {
    session: 2,
    num: 10,
};

const ATOM: Atom = Atom { rev: REV, at: 7 };

fn is_key(alloc: Global, text: &str) -> bool {
    Key::read(alloc, text).is_ok()
}

fn rev_is_written(alloc: Global) -> Result<bool, AllocError> {
    let text = REV.text(alloc)?;
    Ok(text.as_str() == "2.10" && text.len() == 4 && !text.is_empty())
}

fn atom_is_written(alloc: Global) -> Result<bool, AllocError> {
    Ok(ATOM.text(alloc)?.as_str() == "2.10.7")
}

fn names_are_read() -> bool {
    Rev::read("2.10") == Some(REV) && Atom::read("2.10.7") == Some(ATOM)
}

fn text_is_copied(alloc: Global) -> Result<bool, AllocError> {
    let text = Text::from_str(alloc, "ab")?;
    Ok(text.copy(alloc)? == text)
}

fn leaf_is_copied(alloc: Global) -> Result<bool, AllocError> {
    let leaf = Leaf::Words(Text::from_str(alloc, "ab")?);
    Ok(leaf.copy(alloc)? == leaf)
}

fn field(alloc: Global, atom: Atom, text: &str) -> Result<Option<FieldId>, AllocError> {
    let Ok(key) = Key::read(alloc, text) else {
        return Ok(None);
    };
    Ok(Some(FieldId {
        node: NodeId(atom),
        key,
    }))
}

fn field_is_copied(alloc: Global) -> Result<bool, AllocError> {
    let Some(field) = field(alloc, ATOM, "k")? else {
        return Ok(false);
    };
    Ok(field.copy(alloc)? == field)
}

fn add_place(alloc: Global, path: &mut Path) -> Result<(), AllocError> {
    let key = Key(Text::from_str(alloc, "k")?);
    path.push(Place { key, index: 7 })
}

fn copy_has_place(alloc: Global, path: &Path) -> Result<bool, AllocError> {
    let copy = path.copy(alloc)?;
    let first = copy.get(0).is_some_and(|place| place.index == 7);
    Ok(copy.len() == 1 && first && copy.get(1).is_none())
}

fn path_is_copied(alloc: Global) -> Result<bool, AllocError> {
    let mut path = Path::new(alloc);
    add_place(alloc, &mut path)?;
    copy_has_place(alloc, &path)
}

fn names_are_used(alloc: Global) -> Result<[bool; 3], AllocError> {
    let names = rev_is_written(alloc)? && atom_is_written(alloc)? && names_are_read();
    let copies = text_is_copied(alloc)? && leaf_is_copied(alloc)?;
    let paths = field_is_copied(alloc)? && path_is_copied(alloc)?;
    Ok([names, copies, paths])
}

#[test]
fn first_use(rt: HostRuntime) -> Result<(), Fail> {
    let so = names_are_used(rt.alloc())?;
    assert!(rt; so == [true; 3], "{so:?}");
    Ok(())
}

fn add_items(list: &mut List<u32>) -> Result<(), AllocError>
    requires { 1 ≤ length list.old }
{
    list.insert(1, 2)?;
    list.push(4)?;
    Ok(())
}

fn list_takes(alloc: Global) -> Result<bool, AllocError> {
    let mut list = List::from_vec(vec![in alloc; 1u32, 3]?);
    add_items(&mut list)?;
    if let Some(item) = list.get_mut(3) {
        *item = 5;
    }
    Ok(list.as_slice() == [1, 2, 3, 5].as_slice() && list.len() == 4)
}

fn copy_is_same(alloc: Global, list: &List<u32>) -> Result<bool, AllocError> {
    Ok(list.copy(alloc)? == *list)
}

fn list_gives(alloc: Global) -> Result<bool, AllocError> {
    let mut list = List::from_vec(vec![in alloc; 1u32, 2, 3, 4]?);
    let ends = list.remove(0) == 1 && list.pop() == Some(4);
    let left = list.get(1).copied() == Some(3) && list.get(2).is_none();
    Ok(copy_is_same(alloc, &list)? && ends && left)
}

fn lists_are_used(alloc: Global) -> Result<[bool; 2], AllocError> {
    let takes = list_takes(alloc)?;
    Ok([takes, list_gives(alloc)?])
}

#[test]
fn lists(rt: HostRuntime) -> Result<(), Fail> {
    let so = lists_are_used(rt.alloc())?;
    assert!(rt; so == [true; 2], "{so:?}");
    Ok(())
}

const NO_REVS: [&str; 10] = [
    "",
    "2",
    "2.",
    ".1",
    "02.1",
    "2.1.0",
    "+2.1",
    "2.1 ",
    "4294967296.0",
    "2.x",
];

const NO_ATOMS: [&str; 6] = ["2.1", "2.1.", "2.1.00", "2.1.0.0", "2..0", "0.0.4294967296"];

const LARGEST: Rev = Rev {
    session: u32::MAX,
    num: u32::MAX,
};

#[test]
fn other_texts_are_no_names(rt: HostRuntime) -> Result<(), Fail> {
    let revs = NO_REVS.iter().position(|text| Rev::read(text).is_some());
    let atoms = NO_ATOMS.iter().position(|text| Atom::read(text).is_some());
    let largest = Rev::read("4294967295.4294967295") == Some(LARGEST);
    assert!(rt; revs.is_none() && atoms.is_none() && largest, "{largest}");
    Ok(())
}

fn long_keys(alloc: Global) -> Result<bool, AllocError> {
    let longest = "0123456789012345678901234567890123456789012345678901234567890123";
    let mut longer = Text::from_str(alloc, longest)?;
    longer.push_str("4")?;
    Ok(
        is_key(alloc, longest)
            && is_key(alloc, "")
            && matches!(Key::read(alloc, longer.as_str()), Err(Or::Fault(_))),
    )
}

#[test]
fn keys_have_at_most_64_bytes(rt: HostRuntime) -> Result<(), Fail> {
    assert!(rt; long_keys(rt.alloc())?);
    Ok(())
}

const LOW: Rev = Rev { session: 1, num: 9 };

const HIGH: Rev = Rev { session: 2, num: 1 };

const FIRST: Atom = Atom { rev: LOW, at: 9 };

const SECOND: Atom = Atom { rev: HIGH, at: 0 };

fn names_in_order() -> bool {
    rev_order(&LOW, &HIGH) == Ordering::Less
        && atom_order(&SECOND, &FIRST) == Ordering::Greater
        && node_order(&NodeId(FIRST), &NodeId(FIRST)) == Ordering::Equal
        && cell_order(&CellId(FIRST), &CellId(SECOND)) == Ordering::Less
}

fn is_before(alloc: Global, first: &FieldId, key: &str) -> Result<bool, AllocError> {
    let second = field(alloc, FIRST, key)?;
    Ok(second.is_some_and(|second| field_order(first, &second) == Ordering::Less))
}

fn fields_in_order(alloc: Global) -> Result<bool, AllocError> {
    match field(alloc, FIRST, "b")? {
        Some(first) => is_before(alloc, &first, "ba"),
        None => Ok(false),
    }
}

#[test]
fn orders(rt: HostRuntime) -> Result<(), Fail> {
    let fields = fields_in_order(rt.alloc())?;
    assert!(rt; names_in_order() && fields);
    Ok(())
}
