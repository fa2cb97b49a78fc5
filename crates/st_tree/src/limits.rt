//! The limits of trees.
ghost use Rattle.std.specs.Prelude.{◌≡◌, ◌+◌, ◌≤◌, min, nat_le};
ghost use Rattle.st_tree.specs.Node.{view, trees_view};
ghost use Rattle.st_tree.specs.inside.Node.{field_view};
ghost use Rattle.st_tree.specs.Size.{node_count, height, item_count, items_height, check_of, check_items};

use crate::tree::{Field, Tree};
use st_ids::List;

/// Why a tree is refused.
#[derive(Clone, Copy, Debug, PartialEq, Eq)]
pub enum TreeFault {
    /// A node stands deeper than 48, the top node standing at 1.
    TooDeep,
    /// There are more than 1,024 nodes. This is judged first.
    TooMany,
}

// The most nodes of a tree, and how deep they may stand.
const MOST_NODES: u32 = 1024;

const MOST_LEVELS: u32 = 48;

// Counts the nodes of a tree onto a count, which stops one above the limit. Each level down has
// one node more, so it goes down no further than the limit either.
#[cycle(counting)]
pub(crate) fn count_tree(tree: &Tree, before: u32) -> u32
    requires { before ≤ 1025 }
    ensures { result ≡ min (before + node_count (view tree.now)) 1025 }
{
    if before > MOST_NODES {
        return before;
    }
    let mut count = before + 1;
    for field in tree.fields.as_slice() {
        count = count_field(field, count);
    }
    count
}

#[cycle(counting)]
fn count_field(field: &Field, before: u32) -> u32
    requires { before ≤ 1025 }
    ensures { result ≡ min (before + item_count (field_view field.now).items) 1025 }
{
    let mut count = before;
    for item in field.items.as_slice() {
        count = count_tree(item, count);
    }
    count
}

// Whether a tree has at most this many levels, counted down on the way.
#[cycle(measuring)]
fn tree_is_within(tree: &Tree, levels: u32) -> bool
    ensures { result ≡ nat_le (height (view tree.now)) levels }
{
    if levels == 0 {
        return false;
    }
    for field in tree.fields.as_slice() {
        if !field_is_within(field, levels - 1) {
            return false;
        }
    }
    true
}

#[cycle(measuring)]
fn field_is_within(field: &Field, levels: u32) -> bool
    ensures { result ≡ nat_le (items_height (field_view field.now).items) levels }
{
    for item in field.items.as_slice() {
        if !tree_is_within(item, levels) {
            return false;
        }
    }
    true
}

/// Nothing, where a tree keeps the limits.
pub fn check(tree: &Tree) -> Result<(), TreeFault>
    ensures { result ≡ check_of (view tree.now) }
{
    if count_tree(tree, 0) > MOST_NODES {
        Err(TreeFault::TooMany)
    } else if tree_is_within(tree, MOST_LEVELS) {
        Ok(())
    } else {
        Err(TreeFault::TooDeep)
    }
}

// Counts the nodes of several trees, up to one above the limit.
fn count_trees(trees: &List<Tree>) -> u32
    ensures { result ≡ min (item_count (trees_view trees.now)) 1025 }
{
    let mut count = 0;
    for tree in trees.as_slice() {
        count = count_tree(tree, count);
    }
    count
}

// Whether each of several trees has at most this many levels.
fn trees_are_within(trees: &List<Tree>, levels: u32) -> bool
    ensures { result ≡ nat_le (items_height (trees_view trees.now)) levels }
{
    for tree in trees.as_slice() {
        if !tree_is_within(tree, levels) {
            return false;
        }
    }
    true
}

/// Nothing, where several trees together have at most 1,024 nodes and each is at most 48 deep.
pub fn check_trees(trees: &List<Tree>) -> Result<(), TreeFault>
    ensures { result ≡ check_items (trees_view trees.now) }
{
    if count_trees(trees) > MOST_NODES {
        Err(TreeFault::TooMany)
    } else if trees_are_within(trees, MOST_LEVELS) {
        Ok(())
    } else {
        Err(TreeFault::TooDeep)
    }
}
