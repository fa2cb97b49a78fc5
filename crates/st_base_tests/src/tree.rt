//! Each public call once, and the edges of the limits.
use st_ids::{Copied, Key, Leaf, List, Or, Path, Rev, Text};
use st_tree::{
    Edit, Field, Flat, FlatAt, FlatNode, Tree, TreeFault, check, flatten, opening, unflatten,
};
use std::alloc::{AllocError, Global};
use std::test::Fail;

fn words(alloc: Global, text: &str) -> Result<Tree, AllocError> {
    Ok(Tree {
        ty: Text::from_str(alloc, "text")?,
        leaf: Some(Leaf::Words(Text::from_str(alloc, text)?)),
        fields: List::new(alloc),
    })
}

fn field(
    alloc: Global,
    key: &str,
    row: bool,
    items: List<Tree>,
) -> Result<List<Field>, AllocError> {
    let mut fields = List::new(alloc);
    let key = Key(Text::from_str(alloc, key)?);
    fields.push(Field { key, row, items })?;
    Ok(fields)
}

fn branch(alloc: Global, ty: &str, fields: List<Field>) -> Result<Tree, AllocError> {
    let leaf = None;
    Ok(Tree {
        ty: Text::from_str(alloc, ty)?,
        leaf,
        fields,
    })
}

fn list(alloc: Global, items: List<Tree>) -> Result<Tree, AllocError> {
    let fields = field(alloc, "", true, items)?;
    branch(alloc, "list", fields)
}

fn one(alloc: Global, tree: Tree) -> Result<List<Tree>, AllocError> {
    let mut trees = List::new(alloc);
    trees.push(tree)?;
    Ok(trees)
}

fn two(alloc: Global, first: Tree, second: Tree) -> Result<List<Tree>, AllocError> {
    let mut trees = one(alloc, first)?;
    trees.push(second)?;
    Ok(trees)
}

fn texts(alloc: Global, first: &str, second: &str) -> Result<List<Tree>, AllocError> {
    let mut trees = one(alloc, words(alloc, first)?)?;
    trees.push(words(alloc, second)?)?;
    Ok(trees)
}

// A card that has a list of two texts.
fn card(alloc: Global) -> Result<Tree, AllocError> {
    let inner = list(alloc, texts(alloc, "a", "b")?)?;
    let fields = field(alloc, "k", false, one(alloc, inner)?)?;
    branch(alloc, "card", fields)
}

// A list of such a card and of a text.
fn sample(alloc: Global) -> Result<Tree, AllocError> {
    let card = card(alloc)?;
    let text = words(alloc, "c")?;
    list(alloc, two(alloc, card, text)?)
}

// The number, the type and whether it has a row, of the sample's nodes in preorder.
const NODES: [(u32, &str, bool); 6] = [
    (0, "list", true),
    (1, "card", false),
    (2, "list", true),
    (3, "text", false),
    (4, "text", false),
    (5, "text", false),
];

fn are_named(nodes: &[FlatNode], rows: &[(u32, &str, bool)]) -> bool {
    nodes.len() == rows.len()
        && nodes.iter().zip(rows).all(|(node, row)| (node.node.0.at, node.ty.as_str(), node.row)
            == *row)
}

// Whether the nodes are those of one tree.
fn are_of_tree(alloc: Global, flat: &Flat, tree: &Tree) -> Result<bool, AllocError> {
    let back = unflatten(alloc, flat)?;
    Ok(back.len() == 1 && back.get(0) == Some(tree))
}

fn tree_is_opened(alloc: Global, tree: &Tree) -> Result<bool, Or<TreeFault>> {
    let flat = opening(alloc, tree)?;
    Ok(are_of_tree(alloc, &flat, tree)? && are_named(flat.nodes.as_slice(), &NODES))
}

fn sample_is_opened(alloc: Global) -> Result<bool, Or<TreeFault>> {
    let tree = sample(alloc)?;
    tree_is_opened(alloc, &tree)
}

// The cells of a text and of the sample, in preorder.
const CELLS: [Option<u32>; 7] = [
    Some(20),
    Some(21),
    Some(22),
    None,
    Some(23),
    Some(24),
    Some(25),
];

fn cell_of(node: &FlatNode) -> Option<u32> {
    match &node.at {
        FlatAt::Top(cell) => Some(cell.0.at),
        FlatAt::Row { cell, .. } => Some(cell.0.at),
        _ => None,
    }
}

const REV: Rev = Rev { session: 2, num: 7 };

fn have_cells(nodes: &[FlatNode]) -> bool {
    nodes
        .iter()
        .zip(&CELLS)
        .all(|(node, cell)| cell_of(node) == *cell)
}

// Whether the nodes, copied, are those of some trees.
fn copies_are_of_trees(alloc: Global, flat: &Flat, trees: &List<Tree>) -> Result<bool, AllocError> {
    let copy = flat.copy(alloc)?;
    Ok(unflatten(alloc, &copy)? == *trees)
}

fn are_flattened(alloc: Global, trees: &List<Tree>) -> Result<bool, Or<TreeFault>> {
    let flat = flatten(alloc, trees, REV, 10, 20)?;
    Ok(copies_are_of_trees(alloc, &flat, trees)? && have_cells(flat.nodes.as_slice()))
}

fn text_and_sample(alloc: Global) -> Result<List<Tree>, AllocError> {
    let text = words(alloc, "d")?;
    two(alloc, text, sample(alloc)?)
}

fn trees_are_named(alloc: Global) -> Result<bool, Or<TreeFault>> {
    let trees = text_and_sample(alloc)?;
    are_flattened(alloc, &trees)
}

#[test]
fn first_use(rt: HostRuntime) {
    let alloc = rt.alloc();
    let opened = matches!(sample_is_opened(alloc), Ok(true));
    let named = matches!(trees_are_named(alloc), Ok(true));
    assert!(rt; opened && named, "{opened} {named}");
}

fn insert_of(alloc: Global, items: List<Tree>) -> Edit {
    Edit::Insert {
        at: Path::new(alloc),
        key: Key(Text::new(alloc)),
        index: 3,
        items,
    }
}

fn is_insert_of_one(edit: &Edit) -> bool {
    match edit {
        Edit::Insert { index, items, .. } => *index == 3 && items.len() == 1,
        _ => false,
    }
}

fn copy_is_insert(alloc: Global, edit: &Edit) -> Result<bool, AllocError> {
    match edit.copy(alloc) {
        Ok(copy) => Ok(is_insert_of_one(&copy)),
        Err(error) => Err(error),
    }
}

fn insert_is_copied(alloc: Global, items: List<Tree>) -> Result<bool, AllocError> {
    copy_is_insert(alloc, &insert_of(alloc, items))
}

fn edit_is_copied(alloc: Global) -> Result<bool, AllocError> {
    let items = one(alloc, words(alloc, "x")?)?;
    insert_is_copied(alloc, items)
}

#[test]
fn edits(rt: HostRuntime) -> Result<(), Fail> {
    assert!(rt; edit_is_copied(rt.alloc())?);
    Ok(())
}

// A list of so many nodes.
fn wide(alloc: Global, count: u32) -> Result<Tree, AllocError> {
    let mut items = List::new(alloc);
    for _ in 1..count {
        items.push(words(alloc, "x")?)?;
    }
    list(alloc, items)
}

// A text below so many lists, but one.
fn deep(alloc: Global, levels: u32) -> Result<Tree, AllocError> {
    let mut tree = words(alloc, "x")?;
    for _ in 1..levels {
        tree = list(alloc, one(alloc, tree)?)?;
    }
    Ok(tree)
}

fn width_is_limited(alloc: Global) -> Result<bool, AllocError> {
    let most = check(&wide(alloc, 1024)?) == Ok(());
    Ok(most && check(&wide(alloc, 1025)?) == Err(TreeFault::TooMany))
}

fn depth_is_limited(alloc: Global) -> Result<bool, AllocError> {
    let most = check(&deep(alloc, 48)?) == Ok(());
    Ok(most && check(&deep(alloc, 49)?) == Err(TreeFault::TooDeep))
}

// Of a tree that is too deep and has too many nodes, the number is judged first.
fn width_is_judged_first(alloc: Global) -> Result<bool, AllocError> {
    let few = check(&deep(alloc, 1024)?) == Err(TreeFault::TooDeep);
    Ok(few && check(&deep(alloc, 1025)?) == Err(TreeFault::TooMany))
}

#[test]
fn limits_of_a_tree(rt: HostRuntime) -> Result<(), Fail> {
    let alloc = rt.alloc();
    let (wide, deep) = (width_is_limited(alloc)?, depth_is_limited(alloc)?);
    let first = width_is_judged_first(alloc)?;
    assert!(rt; wide && deep && first, "{wide} {deep} {first}");
    Ok(())
}

fn trees_count_together(alloc: Global) -> Result<bool, AllocError> {
    let first = wide(alloc, 1000)?;
    let second = wide(alloc, 25)?;
    let trees = two(alloc, first, second)?;
    Ok(flatten(alloc, &trees, REV, 0, 0).err() == Some(Or::Fault(TreeFault::TooMany)))
}

fn deep_tree_opens_nothing(alloc: Global) -> Result<bool, AllocError> {
    let tree = deep(alloc, 49)?;
    Ok(opening(alloc, &tree).err() == Some(Or::Fault(TreeFault::TooDeep)))
}

#[test]
fn limits_of_trees(rt: HostRuntime) -> Result<(), Fail> {
    let alloc = rt.alloc();
    let (count, depth) = (
        trees_count_together(alloc)?,
        deep_tree_opens_nothing(alloc)?,
    );
    assert!(rt; count && depth, "{count} {depth}");
    Ok(())
}
