//! Trees built back from the list of their nodes.
ghost use Rattle.std.specs.Prelude.{◌≡◌, ◌∷◌, [], true, false, map, IfOk, OnOk, MatchOption, ℕ, List as Seq};
ghost use Rattle.st_ids.specs.declared.names.Rev.{Rev as RevNames};
ghost use Rattle.st_tree.specs.declared.tree.Tree.{Tree as TreeValue};
ghost use Rattle.st_tree.specs.Form.{has_form, all_have_form};
ghost use Rattle.st_tree.specs.Preorder.{tops_listed, opening_listed};
ghost use Rattle.st_tree.specs.Node.{node as node_of, field, no_fields, view, trees_view, nodes_of, fields_of};
ghost use Rattle.st_tree.specs.inside.Node.{field_view, fields_view};
ghost use Rattle.st_tree.specs.inside.Rebuilt.{is_below, first_is_below, fields_of_node, fields_of_others, named_field, fields_above, with_parent, trees_rebuilt, waiting_view};

use crate::flat::{Flat, FlatAt, FlatNode};
use crate::tree::{Field, Tree};
use st_ids::{Copied, Key, List, NodeId, Text, node_order};
use std::alloc::{AllocError, Global};

// A tree that waits for the node above it.
#[derive(Drop)]
struct Placed {
    at: FlatAt,
    tree: Tree,
}

// Whether a place is directly below a node.
fn is_below(node: NodeId, at: &FlatAt) -> bool
    ensures { result ≡ is_below node at.now }
{
    match at {
        FlatAt::Root | FlatAt::Top(_) => false,
        FlatAt::Row { node: above, .. } => node_order(above, &node).is_eq(),
        FlatAt::Register(field) => node_order(&field.node, &node).is_eq(),
    }
}

// Whether the last tree waits for a node.
#[tactic(auto, using(crate::proofs::Waits::waiting_last))]
fn last_is_below(waiting: &List<Placed>, node: NodeId) -> bool
    ensures { result ≡ first_is_below node (waiting_view waiting.now) }
{
    match waiting.as_slice() {
        [.., last] => is_below(node, &last.at),
        [] => false,
    }
}

// Takes the last tree, where it waits for the node.
#[tactic(auto, using(crate::proofs::Waits::waiting_last))]
fn next_below(waiting: &mut List<Placed>, node: NodeId) -> Option<Placed>
    ensures { MatchOption result
        ((first_is_below node (waiting_view waiting.old) ≡ false) × (waiting.new ≡ waiting.old))
        (λ p. (waiting_view waiting.old ≡ (p.at, view p.tree) ∷ waiting_view waiting.new) × (is_below node p.at ≡ true)) }
{
    if last_is_below(waiting, node) {
        waiting.pop()
    } else {
        None
    }
}

// Takes the trees that wait for an array node, as the items of its row.
#[tactic(auto, using(crate::proofs::Waits::mine_none, crate::proofs::Waits::others_none))]
fn row_below(
    alloc: Global,
    waiting: &mut List<Placed>,
    node: NodeId,
) -> Result<List<Tree>, AllocError>
    ensures items { IfOk result (λ ts. map view ts ≡ map (λ w. w.1) (fields_of_node node (waiting_view waiting.old))) }
    ensures rest { OnOk result (waiting_view waiting.new ≡ fields_of_others node (waiting_view waiting.old)) }
{
    let mut items = List::new(alloc);
    while let Some(placed) = next_below(waiting, node) {
        items.push(placed.tree)?;
    }
    Ok(items)
}

// The field of a tree under its key.
fn keyed_field(alloc: Global, placed: Placed) -> Result<Field, AllocError>
    ensures { IfOk result (λ f. field_view f ≡ named_field (placed.at, view placed.tree)) }
{
    let Placed { at, tree } = placed;
    let mut items = List::new(alloc);
    items.push(tree)?;
    let key = match at {
        FlatAt::Register(field) => field.key,
        _ => Key(Text::new(alloc)),
    };
    Ok(Field {
        key,
        row: false,
        items,
    })
}

// Takes the trees that wait for a node, each as the field under its key.
#[tactic(auto, using(crate::proofs::Waits::mine_none, crate::proofs::Waits::others_none))]
fn fields_below(
    alloc: Global,
    waiting: &mut List<Placed>,
    node: NodeId,
) -> Result<List<Field>, AllocError>
    ensures fields { IfOk result (λ fs. map field_view fs ≡ map named_field (fields_of_node node (waiting_view waiting.old))) }
    ensures rest { OnOk result (waiting_view waiting.new ≡ fields_of_others node (waiting_view waiting.old)) }
{
    let mut fields = List::new(alloc);
    while let Some(placed) = next_below(waiting, node) {
        fields.push(keyed_field(alloc, placed)?)?;
    }
    Ok(fields)
}

// The one field of an array node.
fn row_field(alloc: Global, items: List<Tree>) -> Result<List<Field>, AllocError>
    ensures { IfOk result (λ fs. fields_view fs ≡ field [] true (trees_view items) no_fields) }
{
    let mut fields = List::new(alloc);
    fields.push(Field {
        key: Key(Text::new(alloc)),
        row: true,
        items,
    })?;
    Ok(fields)
}

// The fields of a node, of the trees that wait for it.
fn all_below(
    alloc: Global,
    row: bool,
    waiting: &mut List<Placed>,
    node: NodeId,
) -> Result<List<Field>, AllocError>
    ensures fields { IfOk result (λ fs. fields_view fs ≡ fields_above row (fields_of_node node (waiting_view waiting.old))) }
    ensures rest { OnOk result (waiting_view waiting.new ≡ fields_of_others node (waiting_view waiting.old)) }
{
    if row {
        let items = row_below(alloc, waiting, node)?;
        row_field(alloc, items)
    } else {
        fields_below(alloc, waiting, node)
    }
}

// The tree of a node with its fields.
fn tree_of(alloc: Global, node: &FlatNode, fields: List<Field>) -> Result<Tree, AllocError>
    ensures { IfOk result (λ t. view t ≡ node_of node.now.ty node.now.leaf (fields_view fields)) }
{
    let ty = node.ty.copy(alloc)?;
    let leaf = node.leaf.copy(alloc)?;
    Ok(Tree { ty, leaf, fields })
}

// Puts a node above the trees that wait for it.
#[tactic(auto, using(crate::proofs::Waits::waiting_last))]
fn hang(alloc: Global, node: &FlatNode, waiting: &mut List<Placed>) -> Result<(), AllocError>
    ensures { OnOk result (waiting_view waiting.new ≡ with_parent node.now (waiting_view waiting.old)) }
{
    let fields = all_below(alloc, node.row, waiting, node.node)?;
    let tree = tree_of(alloc, node, fields)?;
    let at = node.at.copy(alloc)?;
    waiting.push(Placed { at, tree })?;
    Ok(())
}

// Builds up all nodes of a list, the last first.
fn build_up(alloc: Global, nodes: &List<FlatNode>) -> Result<List<Placed>, AllocError>
    ensures { IfOk result (λ ps. waiting_view ps ≡ trees_rebuilt nodes.now) }
{
    let mut waiting = List::new(alloc);
    let mut left = nodes.len();
    while left > 0 {
        left -= 1;
        hang(alloc, &nodes.as_slice()[left], &mut waiting)?;
    }
    Ok(waiting)
}

// The trees that wait, the first first.
fn in_order(alloc: Global, waiting: List<Placed>) -> Result<List<Tree>, AllocError>
    ensures { IfOk result (λ ts. map view ts ≡ map (λ w. w.1) (waiting_view waiting)) }
{
    let mut waiting = waiting;
    let mut trees = List::new(alloc);
    while let Some(placed) = waiting.pop() {
        trees.push(placed.tree)?;
    }
    Ok(trees)
}

/// The trees of a list that `flatten` or `opening` gave.
#[tactic(auto, using(crate::proofs::Inverse::tops_back, crate::proofs::Inverse::opening_back))]
pub fn unflatten(alloc: Global, flat: &Flat) -> Result<List<Tree>, AllocError>
    ensures tops { IfOk result (λ ts. (us : Seq TreeValue) (rev : RevNames) (n c : ℕ) → all_have_form (trees_view us) ≡ true → flat.now.nodes ≡ tops_listed rev n c (trees_view us) → ts ≡ us) }
    ensures opened { IfOk result (λ ts. (u : TreeValue) → has_form (view u) ≡ true → flat.now.nodes ≡ opening_listed (view u) → ts ≡ u ∷ []) }
{
    let waiting = build_up(alloc, &flat.nodes)?;
    in_order(alloc, waiting)
}
