//! The opening document of a tree.
ghost use Rattle.std.specs.Prelude.{◌≡◌, ◌++◌, ◌∷◌, [], true, IfOk, OnOk, Ok, unwrap_or};
ghost use Rattle.std.specs.BTreeMap.{get};
ghost use Rattle.std.specs.List.{filter_map};
ghost use Rattle.std.specs.Option.{option_or, option_to_list};
ghost use Rattle.st_ids.specs.declared.names.CellId.{CellId as Cell};
ghost use Rattle.st_ids.specs.declared.names.FieldId.{FieldId as Register};
ghost use Rattle.st_ids.specs.declared.names.NodeId.{NodeId as Node};
ghost use Rattle.st_ids.specs.Order.{node_cmp, cell_cmp, field_cmp};
ghost use Rattle.st_marks.specs.Document.{IsSoundInForm};
ghost use Rattle.st_ids.specs.Root.{opening as opening_name};
ghost use Rattle.st_tree.specs.Form.{has_form};
ghost use Rattle.st_tree.specs.Node.{view};
ghost use Rattle.st_tree.specs.Preorder.{opening_listed};
ghost use Rattle.st_tree.specs.Size.{check_of};
ghost use Rattle.st_doc.specs.Doc.{document_of};
ghost use Rattle.st_doc.specs.Nodes.{type_of};
ghost use Rattle.st_opening.specs.Start.{first_said, type_at, spot_at, place_at, row_at, cell_at, held_at, start_of};

use crate::doc::Doc;
use crate::maps::{add, push_at};
use crate::opening::opening_rev;
use st_ids::{CellId, Copied, FieldId, List, NodeId, Or, Text};
use st_marks::{NewNode, Owned, SchemaEntry, Spot};
use st_tree::{FlatAt, FlatNode, Tree, opening};
use std::alloc::{AllocError, Global};
use std::collections::BTreeMap;

// Adds what a node of the list is.
fn add_node(
    alloc: Global,
    nodes: &mut BTreeMap<NodeId, NewNode>,
    flat: &FlatNode,
) -> Result<(), AllocError>
    ensures { OnOk result ((n : Node) → type_of (get node_cmp nodes.new n) ≡ option_or (type_of (get node_cmp nodes.old n)) (type_at n flat.now)) }
{
    let node = flat.node;
    let ty = flat.ty.copy(alloc)?;
    let leaf = flat.leaf.copy(alloc)?;
    add(nodes, node, NewNode { node, ty, leaf })?;
    Ok(())
}

// What each node of the list is.
fn start_nodes(alloc: Global, flat: &[FlatNode]) -> Result<BTreeMap<NodeId, NewNode>, AllocError>
    ensures { IfOk result (λ m. (n : Node) → type_of (get node_cmp m n) ≡ first_said (type_at n) flat.now) }
{
    let mut nodes = BTreeMap::new(alloc);
    for x in flat {
        add_node(alloc, &mut nodes, x)?;
    }
    Ok(nodes)
}

// A place of the list as one of the document.
fn spot_at(alloc: Global, at: &FlatAt) -> Result<Spot, AllocError>
    ensures { IfOk result (λ s. s ≡ spot_at at.now) }
{
    match at {
        FlatAt::Root => Ok(Spot::Nowhere),
        FlatAt::Top(_) => Ok(Spot::Nowhere),
        FlatAt::Row { node, cell } => Ok(Spot::Row {
            node: *node,
            cell: *cell,
        }),
        FlatAt::Register(field) => Ok(Spot::Register(field.copy(alloc)?)),
    }
}

// Adds where a node of the list stands.
fn add_place(
    alloc: Global,
    place: &mut BTreeMap<NodeId, Spot>,
    flat: &FlatNode,
) -> Result<(), AllocError>
    ensures { OnOk result ((n : Node) → get node_cmp place.new n ≡ option_or (get node_cmp place.old n) (place_at n flat.now)) }
{
    let spot = spot_at(alloc, &flat.at)?;
    add(place, flat.node, spot)?;
    Ok(())
}

// Where each node of the list stands.
fn start_places(alloc: Global, flat: &[FlatNode]) -> Result<BTreeMap<NodeId, Spot>, AllocError>
    ensures { IfOk result (λ m. (n : Node) → get node_cmp m n ≡ first_said (place_at n) flat.now) }
{
    let mut place = BTreeMap::new(alloc);
    for x in flat {
        add_place(alloc, &mut place, x)?;
    }
    Ok(place)
}

// Adds in whose row the cell is in which a node of the list stands.
fn add_row_of(row_of: &mut BTreeMap<CellId, NodeId>, at: &FlatAt) -> Result<(), AllocError>
    ensures { OnOk result ((c : Cell) → get cell_cmp row_of.new c ≡ option_or (get cell_cmp row_of.old c) (row_at c at.now)) }
{
    if let FlatAt::Row { node, cell } = at {
        add(row_of, *cell, *node)?;
        return Ok(());
    }
    Ok(())
}

// In whose row each cell is.
fn start_row_of(alloc: Global, flat: &[FlatNode]) -> Result<BTreeMap<CellId, NodeId>, AllocError>
    ensures { IfOk result (λ m. (c : Cell) → get cell_cmp m c ≡ first_said (λ x. row_at c x.at) flat.now) }
{
    let mut row_of = BTreeMap::new(alloc);
    for x in flat {
        add_row_of(&mut row_of, &x.at)?;
    }
    Ok(row_of)
}

// Adds who stands in a register.
fn add_held(
    alloc: Global,
    held: &mut BTreeMap<FieldId, NodeId>,
    node: NodeId,
    at: &FlatAt,
) -> Result<(), AllocError>
    ensures { OnOk result ((f : Register) → get field_cmp held.new f ≡ option_or (get field_cmp held.old f) (held_at f node at.now)) }
{
    if let FlatAt::Register(field) = at {
        add(held, field.copy(alloc)?, node)?;
        return Ok(());
    }
    Ok(())
}

// Who stands in each register.
fn start_held(alloc: Global, flat: &[FlatNode]) -> Result<BTreeMap<FieldId, NodeId>, AllocError>
    ensures { IfOk result (λ m. (f : Register) → get field_cmp m f ≡ first_said (λ x. held_at f x.node x.at) flat.now) }
{
    let mut held = BTreeMap::new(alloc);
    for x in flat {
        add_held(alloc, &mut held, x.node, &x.at)?;
    }
    Ok(held)
}

// Puts the cell in which a node of the list stands behind the others of its row.
fn add_cell(
    alloc: Global,
    rows: &mut BTreeMap<NodeId, List<Owned>>,
    node: NodeId,
    at: &FlatAt,
) -> Result<(), AllocError>
    ensures { OnOk result ((n : Node) → unwrap_or (get node_cmp rows.new n) []
        ≡ unwrap_or (get node_cmp rows.old n) [] ++ option_to_list (cell_at n node at.now)) }
{
    if let FlatAt::Row { node: row, cell } = at {
        let cell = *cell;
        push_at(alloc, rows, *row, Owned { cell, node })?;
        return Ok(());
    }
    Ok(())
}

/// The cells of each row in which nodes of a list stand, in the order of the list. The list is gone through once.
pub fn rows_of(
    alloc: Global,
    flat: &[FlatNode],
) -> Result<BTreeMap<NodeId, List<Owned>>, AllocError>
    ensures { IfOk result (λ m. (n : Node) → unwrap_or (get node_cmp m n) [] ≡ filter_map (λ x. cell_at n x.node x.at) flat.now) }
{
    let mut rows = BTreeMap::new(alloc);
    for x in flat {
        add_cell(alloc, &mut rows, x.node, &x.at)?;
    }
    Ok(rows)
}

// The entry of the schema under which a document opens.
fn first_entry(alloc: Global, schema: Text) -> Result<List<SchemaEntry>, AllocError>
    ensures { IfOk result (λ es. es ≡ record { rev = opening_name; text = schema } ∷ []) }
{
    let rev = opening_rev();
    let mut entries = List::new(alloc);
    entries.push(SchemaEntry { rev, text: schema })?;
    Ok(entries)
}

// A document without nodes.
fn no_nodes(alloc: Global) -> Doc {
    Doc {
        nodes: BTreeMap::new(alloc),
        rows: BTreeMap::new(alloc),
        row_of: BTreeMap::new(alloc),
        place: BTreeMap::new(alloc),
        held: BTreeMap::new(alloc),
        schemas: List::new(alloc),
    }
}

// Fills rows with the cells in which nodes of a list stand.
fn fill_rows(
    alloc: Global,
    rows: &mut BTreeMap<NodeId, List<Owned>>,
    row_of: &mut BTreeMap<CellId, NodeId>,
    flat: &[FlatNode],
) -> Result<(), AllocError>
    ensures rows { OnOk result ((n : Node) → unwrap_or (get node_cmp rows.new n) [] ≡ filter_map (λ x. cell_at n x.node x.at) flat.now) }
    ensures row_of { OnOk result ((c : Cell) → get cell_cmp row_of.new c ≡ first_said (λ x. row_at c x.at) flat.now) }
{
    *rows = rows_of(alloc, flat)?;
    *row_of = start_row_of(alloc, flat)?;
    Ok(())
}

// Fills a document with a list of nodes, and with the schema.
fn fill(alloc: Global, doc: &mut Doc, flat: &[FlatNode], schema: Text) -> Result<(), AllocError>
    ensures { OnOk result (document_of doc.new ≡ start_of flat.now schema) }
{
    doc.nodes = start_nodes(alloc, flat)?;
    fill_rows(alloc, &mut doc.rows, &mut doc.row_of, flat)?;
    doc.place = start_places(alloc, flat)?;
    doc.held = start_held(alloc, flat)?;
    doc.schemas = first_entry(alloc, schema)?;
    Ok(())
}

// The document of a list of nodes.
fn of_nodes(alloc: Global, flat: &[FlatNode], schema: Text) -> Result<Doc, AllocError>
    ensures { IfOk result (λ d. document_of d ≡ start_of flat.now schema) }
{
    let mut doc = no_nodes(alloc);
    fill(alloc, &mut doc, flat, schema)?;
    Ok(doc)
}

impl Doc {
    /// The opening document of a tree: its nodes are named in preorder under revision 0.0, and each stands where it
    /// stands in the tree. `schema` is the text of the schema under which it opens.
    pub fn start(alloc: Global, schema: Text, tree: &Tree) -> Result<Doc, AllocError>
        requires within { check_of (view tree.now) ≡ Ok tt }
        requires form { has_form (view tree.now) ≡ true }
        ensures document { IfOk result (λ d. document_of d ≡ start_of (opening_listed (view tree.now)) schema) }
        ensures sound { IfOk result (λ d. IsSoundInForm (document_of d)) }
    {
        match opening(alloc, tree) {
            Ok(flat) => of_nodes(alloc, flat.nodes.as_slice(), schema),
            Err(Or::NoMemory) => Err(AllocError),
            Err(Or::Fault(_)) => unreachable!(),
        }
    }
}
