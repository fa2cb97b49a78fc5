//! The list of a tree's nodes under given names.
ghost use Rattle.std.specs.Prelude.{◌≡◌, ◌+◌, ◌<◌, ◌++◌, ◌^◌, true, IfOk, OnOk, Ok, Err};
ghost use Rattle.st_ids.specs.Or.{IfRefused};
ghost use Rattle.st_tree.specs.Node.{view, trees_view};
ghost use Rattle.st_tree.specs.inside.Node.{field_view, fields_view};
ghost use Rattle.st_tree.specs.Size.{node_count, item_count, check_of, check_items};
ghost use Rattle.st_tree.specs.declared.tree.Tree.{out-Tree};
ghost use Rattle.st_tree.specs.Preorder.{cell_count, item_cells, cells_taken, is_array, at_of, tree_listed, items_listed, tops_listed, opening_listed};

use crate::flat::{Flat, FlatAt, FlatNode};
use crate::limits::{TreeFault, check, check_trees};
use crate::tree::{Field, Tree};
use st_ids::{Atom, CellId, Copied, FieldId, List, NodeId, Or, Rev};
use std::alloc::{AllocError, Global};

// The next names to give.
#[derive(Drop)]
struct Naming {
    rev: Rev,
    node: u32,
    cell: u32,
}

impl Naming {
    ghost use Rattle.st_tree.specs.declared.preorder.Naming.{Naming as NextNames};

    // The next node's name.
    fn next_node(&mut self) -> NodeId
        requires { self.old.node + 1 < 2 ^ 32 }
        ensures given { result ≡ record { 0 = record { rev = self.old.rev; at = self.old.node } } }
        ensures after { self.new ≡ record { rev = self.old.rev; node = self.old.node + 1; cell = self.old.cell } }
    {
        let at = self.node;
        self.node += 1;
        NodeId(Atom { rev: self.rev, at })
    }

    // The next cell's name.
    fn next_cell(&mut self) -> CellId
        requires { self.old.cell + 1 < 2 ^ 32 }
        ensures given { result ≡ record { 0 = record { rev = self.old.rev; at = self.old.cell } } }
        ensures after { self.new ≡ record { rev = self.old.rev; node = self.old.node; cell = self.old.cell + 1 } }
    {
        let at = self.cell;
        self.cell += 1;
        CellId(Atom { rev: self.rev, at })
    }
}

// Whether a node is an array node.
fn is_array(fields: &List<Field>) -> bool
    ensures { result ≡ is_array (fields_view fields.now) }
{
    match fields.as_slice() {
        [first, ..] => first.row,
        [] => false,
    }
}

// Where an item of a field stands. An item of a row takes a cell.
fn place_of(
    alloc: Global,
    field: &Field,
    owner: NodeId,
    naming: &mut Naming,
) -> Result<FlatAt, AllocError>
    requires cells { naming.old.cell + 1 < 2 ^ 32 }
    requires own { owner.0.rev ≡ naming.old.rev }
    ensures at { IfOk result (λ at. at ≡ at_of naming.old.rev owner.0.at (field_view field.now).key (field_view field.now).row naming.old.cell) }
    ensures after { OnOk result (naming.new ≡ record { rev = naming.old.rev; node = naming.old.node; cell = naming.old.cell + cells_taken (field_view field.now).row }) }
{
    if field.row {
        let cell = naming.next_cell();
        Ok(FlatAt::Row { node: owner, cell })
    } else {
        let key = field.key.copy(alloc)?;
        Ok(FlatAt::Register(FieldId { node: owner, key }))
    }
}

// The root of a tree, under its name and at its place.
fn flat_node(alloc: Global, tree: &Tree, node: NodeId, at: FlatAt) -> Result<FlatNode, AllocError>
    ensures { IfOk result (λ n. n ≡ record { node = node; ty = (out-Tree tree.now).ty; leaf = (out-Tree tree.now).leaf; row = is_array (fields_view (out-Tree tree.now).fields); at = at }) }
{
    let row = is_array(&tree.fields);
    let ty = tree.ty.copy(alloc)?;
    let leaf = tree.leaf.copy(alloc)?;
    Ok(FlatNode {
        node,
        ty,
        leaf,
        row,
        at,
    })
}

// Puts the nodes of a tree at the end of a list.
#[cycle(flattening)]
fn flatten_tree(
    alloc: Global,
    tree: &Tree,
    at: FlatAt,
    naming: &mut Naming,
    nodes: &mut List<FlatNode>,
) -> Result<(), AllocError>
    requires nodes_fit { naming.old.node + node_count (view tree.now) < 2 ^ 32 }
    requires cells_fit { naming.old.cell + cell_count (view tree.now) + 1 < 2 ^ 32 }
    ensures nodes { OnOk result (nodes.new ≡ nodes.old ++ tree_listed naming.old.rev at naming.old.node naming.old.cell (view tree.now)) }
    ensures after { OnOk result (naming.new ≡ record { rev = naming.old.rev; node = naming.old.node + node_count (view tree.now); cell = naming.old.cell + cell_count (view tree.now) }) }
{
    let node = naming.next_node();
    nodes.push(flat_node(alloc, tree, node, at)?)?;
    for field in tree.fields.as_slice() {
        flatten_field(alloc, field, node, naming, nodes)?;
    }
    Ok(())
}

// Puts the nodes below a field at the end of a list.
#[cycle(flattening)]
fn flatten_field(
    alloc: Global,
    field: &Field,
    owner: NodeId,
    naming: &mut Naming,
    nodes: &mut List<FlatNode>,
) -> Result<(), AllocError>
    requires own { owner.0.rev ≡ naming.old.rev }
    requires nodes_fit { naming.old.node + item_count (field_view field.now).items < 2 ^ 32 }
    requires cells_fit { naming.old.cell + item_cells (field_view field.now).row (field_view field.now).items + 1 < 2 ^ 32 }
    ensures nodes { OnOk result (nodes.new ≡ nodes.old
        ++ items_listed naming.old.rev owner.0.at (field_view field.now).key (field_view field.now).row naming.old.node naming.old.cell (field_view field.now).items) }
    ensures after { OnOk result (naming.new ≡ record { rev = naming.old.rev; node = naming.old.node + item_count (field_view field.now).items; cell = naming.old.cell + item_cells (field_view field.now).row (field_view field.now).items }) }
{
    for item in field.items.as_slice() {
        let at = place_of(alloc, field, owner, naming)?;
        flatten_tree(alloc, item, at, naming, nodes)?;
    }
    Ok(())
}

// The nodes of top items, in preorder.
fn flatten_tops(
    alloc: Global,
    trees: &List<Tree>,
    naming: Naming,
) -> Result<List<FlatNode>, AllocError>
    requires nodes_fit { naming.node + item_count (trees_view trees.now) < 2 ^ 32 }
    requires cells_fit { naming.cell + item_cells true (trees_view trees.now) + 1 < 2 ^ 32 }
    ensures { IfOk result (λ ns. ns ≡ tops_listed naming.rev naming.node naming.cell (trees_view trees.now)) }
{
    let mut naming = naming;
    let mut nodes = List::new(alloc);
    for tree in trees.as_slice() {
        let cell = naming.next_cell();
        flatten_tree(alloc, tree, FlatAt::Top(cell), &mut naming, &mut nodes)?;
    }
    Ok(nodes)
}

/// The nodes of new top items in preorder: a node takes the next number from `node`, and where it
/// stands in a row or is a top item it takes the next cell number from `cell`. Refused where the
/// trees together pass a limit.
#[tactic(auto, using(crate::proofs::Cells::item_cells_fit))]
pub fn flatten(
    alloc: Global,
    trees: &List<Tree>,
    rev: Rev,
    node: u32,
    cell: u32,
) -> Result<Flat, Or<TreeFault>>
    requires node { node < 2 ^ 31 }
    requires cell { cell < 2 ^ 31 }
    ensures ok { IfOk result (λ f. f.nodes ≡ tops_listed rev node cell (trees_view trees.now)) }
    ensures within { OnOk result (check_items (trees_view trees.now) ≡ Ok tt) }
    ensures bad { IfRefused result (λ e. check_items (trees_view trees.now) ≡ Err e) }
{
    match check_trees(trees) {
        Err(fault) => Err(Or::Fault(fault)),
        Ok(()) => Ok(Flat {
            nodes: flatten_tops(alloc, trees, Naming { rev, node, cell })?,
        }),
    }
}

/// The nodes of the opening tree in preorder, named by revision 0.0 from the numbers 0; its root
/// takes no cell. Refused where the tree passes a limit.
#[tactic(auto, using(crate::proofs::Cells::cells_fit))]
pub fn opening(alloc: Global, tree: &Tree) -> Result<Flat, Or<TreeFault>>
    ensures ok { IfOk result (λ f. f.nodes ≡ opening_listed (view tree.now)) }
    ensures within { OnOk result (check_of (view tree.now) ≡ Ok tt) }
    ensures bad { IfRefused result (λ e. check_of (view tree.now) ≡ Err e) }
{
    match check(tree) {
        Err(fault) => Err(Or::Fault(fault)),
        Ok(()) => Ok(Flat {
            nodes: opening_nodes(alloc, tree)?,
        }),
    }
}

// The nodes of the opening tree, in preorder.
fn opening_nodes(alloc: Global, tree: &Tree) -> Result<List<FlatNode>, AllocError>
    requires nodes_fit { node_count (view tree.now) < 2 ^ 31 }
    requires cells_fit { cell_count (view tree.now) < 2 ^ 31 }
    ensures { IfOk result (λ ns. ns ≡ opening_listed (view tree.now)) }
{
    let mut naming = Naming {
        rev: Rev { session: 0, num: 0 },
        node: 0,
        cell: 0,
    };
    let mut nodes = List::new(alloc);
    flatten_tree(alloc, tree, FlatAt::Root, &mut naming, &mut nodes)?;
    Ok(nodes)
}
