//! The opening document of a tree.
ghost use Rattle.std.specs.Prelude.{◌≡◌, ◌++◌, ◌∷◌, ◌<◌, ◌+◌, ◌^◌, [], true, length, option_map, unwrap_or, IfOk, OnOk, Ok};
ghost use Rattle.std.specs.BTreeMap.{get};
ghost use Rattle.std.specs.Option.{option_or, option_to_list};
ghost use Rattle.st_ids.specs.declared.names.FieldId.{FieldId as Register};
ghost use Rattle.st_ids.specs.declared.names.NodeId.{NodeId as Node};
ghost use Rattle.st_ids.specs.Order.{node_cmp, field_cmp};
ghost use Rattle.st_ids.specs.Root.{opening as opening_name};
ghost use Rattle.st_marks.specs.Document.{is_cell};
ghost use Rattle.st_marks.specs.declared.places.Spot.{Spot as Standing};
ghost use Rattle.st_tree.specs.Form.{has_form};
ghost use Rattle.st_tree.specs.Node.{view};
ghost use Rattle.st_tree.specs.Preorder.{opening_listed};
ghost use Rattle.st_tree.specs.Size.{check_of};
ghost use Rattle.st_opening.specs.Start.{first_said, type_at, spot_at, place_at, held_at, start_of};
ghost use Rattle.st_forest.specs.Stands.{StandsFor, named};
ghost use Rattle.st_forest.specs.declared.forest.Seated.{Seated as Entry};
ghost use Rattle.st_forest_start.specs.inside.Opening.{slot_at, slots_of};

use crate::maps::add;
use crate::rows::push_slot;
use st_chunks::ChunkRow;
use st_forest::{Forest, Seated};
use st_ids::{CellId, Copied, FieldId, List, NodeId, OPENING, Or, Text, is_same_cell};
use st_marks::{NewNode, SchemaEntry, Slot, Spot};
use st_tree::{FlatAt, FlatNode, Tree, opening};
use std::alloc::{AllocError, Global};
use std::collections::BTreeMap;

// A place of the list as one of the document.
fn spot_at(alloc: Global, at: &FlatAt) -> Result<Spot, AllocError>
    ensures { IfOk result (λ s. s ≡ spot_at at.now) }
{
    match at {
        FlatAt::Root => Ok(Spot::Nowhere),
        FlatAt::Top(_) => Ok(Spot::Nowhere),
        FlatAt::Row { node, cell } => Ok(Spot::Row {
            node: *node,
            cell: *cell,
        }),
        FlatAt::Register(field) => Ok(Spot::Register(field.copy(alloc)?)),
    }
}

// A node of the list.
fn node_of(alloc: Global, flat: &FlatNode) -> Result<NewNode, AllocError>
    ensures { IfOk result (λ m. m ≡ record { node = flat.now.node; ty = flat.now.ty; leaf = flat.now.leaf }) }
{
    let node = flat.node;
    let ty = flat.ty.copy(alloc)?;
    let leaf = flat.leaf.copy(alloc)?;
    Ok(NewNode { node, ty, leaf })
}

// Adds a node of the list, where it stands.
fn add_node(
    alloc: Global,
    nodes: &mut BTreeMap<NodeId, Seated>,
    flat: &FlatNode,
) -> Result<(), AllocError>
    ensures node { OnOk result ((n : Node) → option_map (λ (s : Entry). s.node) (get node_cmp nodes.new n)
        ≡ option_or (option_map (λ (s : Entry). s.node) (get node_cmp nodes.old n)) (option_map (named n) (type_at n flat.now))) }
    ensures place { OnOk result ((n : Node) → option_map (λ (s : Entry). s.place) (get node_cmp nodes.new n)
        ≡ option_or (option_map (λ (s : Entry). s.place) (get node_cmp nodes.old n)) (place_at n flat.now)) }
{
    let node = node_of(alloc, flat)?;
    let place = spot_at(alloc, &flat.at)?;
    add(nodes, flat.node, Seated { node, place })?;
    Ok(())
}

// The nodes of the list, each where it stands.
fn start_nodes(alloc: Global, flat: &[FlatNode]) -> Result<BTreeMap<NodeId, Seated>, AllocError>
    ensures node { IfOk result (λ m. (n : Node) → option_map (λ (s : Entry). s.node) (get node_cmp m n)
        ≡ option_map (named n) (first_said (type_at n) flat.now)) }
    ensures place { IfOk result (λ m. (n : Node) → option_map (λ (s : Entry). s.place) (get node_cmp m n)
        ≡ first_said (place_at n) flat.now) }
{
    let mut nodes = BTreeMap::new(alloc);
    for x in flat {
        add_node(alloc, &mut nodes, x)?;
    }
    Ok(nodes)
}

// Adds who stands in a register.
fn add_held(
    alloc: Global,
    held: &mut BTreeMap<FieldId, NodeId>,
    node: NodeId,
    at: &FlatAt,
) -> Result<(), AllocError>
    ensures { OnOk result ((f : Register) → get field_cmp held.new f
        ≡ option_or (get field_cmp held.old f) (held_at f node at.now)) }
{
    if let FlatAt::Register(field) = at {
        add(held, field.copy(alloc)?, node)?;
        return Ok(());
    }
    Ok(())
}

// Who stands in each register.
fn start_held(alloc: Global, flat: &[FlatNode]) -> Result<BTreeMap<FieldId, NodeId>, AllocError>
    ensures { IfOk result (λ m. (f : Register) → get field_cmp m f ≡ first_said (λ x. held_at f x.node x.at) flat.now) }
{
    let mut held = BTreeMap::new(alloc);
    for x in flat {
        add_held(alloc, &mut held, x.node, &x.at)?;
    }
    Ok(held)
}

// Whether a place is that cell.
fn is_in(place: &Spot, cell: CellId) -> bool
    ensures { result ≡ is_cell cell place.now }
{
    match place {
        Spot::Row { cell: other, .. } => is_same_cell(cell, *other),
        _ => false,
    }
}

// Whether a node stands in a cell.
fn stands_in(nodes: &BTreeMap<NodeId, Seated>, node: NodeId, cell: CellId) -> bool
    ensures { result ≡ is_cell cell
        (unwrap_or (option_map (λ (s : Entry). s.place) (get node_cmp nodes.now node)) Standing.Nowhere) }
{
    match nodes.get(&node) {
        None => false,
        Some(seated) => is_in(&seated.place, cell),
    }
}

// Puts the slot in which a node of the list stands behind the others of its row.
fn add_slot(
    alloc: Global,
    nodes: &BTreeMap<NodeId, Seated>,
    rows: &mut BTreeMap<NodeId, ChunkRow>,
    flat: &FlatNode,
) -> Result<(), AllocError>
    requires { (n : Node) → length (unwrap_or (get node_cmp rows.old n) []) + 1 < 2 ^ 32 }
    ensures { OnOk result ((n : Node) → unwrap_or (get node_cmp rows.new n) [] ≡ unwrap_or (get node_cmp rows.old n) []
        ++ option_to_list (slot_at (λ m. unwrap_or (option_map (λ (s : Entry). s.place) (get node_cmp nodes.now m)) Standing.Nowhere) n flat.now)) }
{
    if let FlatAt::Row { node: row, cell } = &flat.at {
        let cell = *cell;
        let node = flat.node;
        let full = stands_in(nodes, node, cell);
        push_slot(alloc, rows, *row, Slot { cell, node, full })?;
        return Ok(());
    }
    Ok(())
}

// The slots of each row in which nodes of the list stand, in the order of the list.
fn start_rows(
    alloc: Global,
    nodes: &BTreeMap<NodeId, Seated>,
    flat: &[FlatNode],
) -> Result<BTreeMap<NodeId, ChunkRow>, AllocError>
    requires { length flat.now < 2 ^ 32 }
    ensures { IfOk result (λ m. (n : Node) → unwrap_or (get node_cmp m n) []
        ≡ slots_of (λ m. unwrap_or (option_map (λ (s : Entry). s.place) (get node_cmp nodes.now m)) Standing.Nowhere) n flat.now) }
{
    let mut rows = BTreeMap::new(alloc);
    for x in flat {
        add_slot(alloc, nodes, &mut rows, x)?;
    }
    Ok(rows)
}

// The entry of the schema under which a document opens.
fn first_entry(alloc: Global, schema: Text) -> Result<List<SchemaEntry>, AllocError>
    ensures { IfOk result (λ es. es ≡ record { rev = opening_name; text = schema } ∷ []) }
{
    let mut entries = List::new(alloc);
    entries.push(SchemaEntry {
        rev: OPENING,
        text: schema,
    })?;
    Ok(entries)
}

// Fills a forest with a list of nodes, and with the schema.
fn fill(
    alloc: Global,
    forest: &mut Forest,
    flat: &[FlatNode],
    schema: Text,
) -> Result<(), AllocError>
    requires { length flat.now < 2 ^ 32 }
    ensures { OnOk result (StandsFor forest.new (start_of flat.now schema)) }
{
    forest.nodes = start_nodes(alloc, flat)?;
    forest.rows = start_rows(alloc, &forest.nodes, flat)?;
    forest.held = start_held(alloc, flat)?;
    forest.schemas = first_entry(alloc, schema)?;
    Ok(())
}

// A forest without nodes.
fn no_nodes(alloc: Global) -> Forest {
    Forest {
        nodes: BTreeMap::new(alloc),
        rows: BTreeMap::new(alloc),
        held: BTreeMap::new(alloc),
        schemas: List::new(alloc),
    }
}

// The forest of a list of nodes.
fn of_nodes(alloc: Global, flat: &[FlatNode], schema: Text) -> Result<Forest, AllocError>
    requires { length flat.now < 2 ^ 32 }
    ensures { IfOk result (λ f. StandsFor f (start_of flat.now schema)) }
{
    let mut forest = no_nodes(alloc);
    fill(alloc, &mut forest, flat, schema)?;
    Ok(forest)
}

/// The forest of the opening document of a tree: its nodes are named in preorder under revision 0.0, and each stands where it
/// stands in the tree. `schema` is the text of the schema under which it opens. Takes O(n log n) for a tree of n nodes.
pub fn start(alloc: Global, schema: Text, tree: &Tree) -> Result<Forest, AllocError>
    requires within { check_of (view tree.now) ≡ Ok tt }
    ensures { IfOk result (λ f. StandsFor f (start_of (opening_listed (view tree.now)) schema)) }
{
    match opening(alloc, tree) {
        Ok(flat) => of_nodes(alloc, flat.nodes.as_slice(), schema),
        Err(Or::NoMemory) => Err(AllocError),
        Err(Or::Fault(_)) => unreachable!(),
    }
}
