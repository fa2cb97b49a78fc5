//! Intents that are drawn at random over a document.

use st_doc::Doc;
use st_ids::{Atom, CellId, FieldId, Key, List, NodeId, OPENING, ROOT, Rev, Text};
use st_marks::{Group, Intent, NewNode, Owned, Put, To};
use std::alloc::{AllocError, Global};

/// Numbers that follow from a first one.
#[derive(Drop)]
pub struct Draw {
    pub state: u64,
}

/// The next number: below a bound, or 0 where that is 0.
fn below(draw: &mut Draw, bound: usize) -> usize {
    draw.state = draw
        .state
        .wrapping_mul(6_364_136_223_846_793_005)
        .wrapping_add(1_442_695_040_888_963_407);
    (draw.state >> 33) as usize % bound.max(1)
}

fn nothing(alloc: Global, rev: Rev, under: Rev) -> Intent {
    Intent {
        rev,
        under,
        new: List::new(alloc),
        groups: List::new(alloc),
        clear: List::new(alloc),
        put: List::new(alloc),
        need: List::new(alloc),
        schema: None,
    }
}

// A place in a list of that length, an early one more often.
fn early(draw: &mut Draw, len: usize) -> usize {
    let last = below(draw, len);
    below(draw, last.saturating_add(1))
}

// One of some nodes, of which the root is the first; the root where there are no more.
fn node_of(draw: &mut Draw, nodes: &[NodeId]) -> NodeId {
    let at = early(draw, nodes.len());
    nodes.get(at).copied().unwrap_or(ROOT)
}

// The same, but not the root where there are more.
fn node_below(draw: &mut Draw, nodes: &[NodeId]) -> NodeId {
    let at = early(draw, nodes.len()).max(1);
    nodes.get(at).copied().unwrap_or(ROOT)
}

// One of the cells of a row, if it has any.
fn cell_of(draw: &mut Draw, row: &[Owned]) -> Option<Owned> {
    let at = below(draw, row.len());
    row.get(at).copied()
}

// The next name of a commit that gave so many.
fn name(rev: Rev, given: usize) -> Atom {
    let at = u32::try_from(given).unwrap_or(0);
    Atom { rev, at }
}

fn put(intent: &mut Intent, node: NodeId, to: To) -> Result<(), AllocError> {
    intent.put.push(Put { node, to })?;
    Ok(())
}

// The owner of a cell comes into it, wherever it is.
fn put_into(intent: &mut Intent, owned: Owned) -> Result<(), AllocError> {
    put(intent, owned.node, To::Cell(owned.cell))
}

fn need(intent: &mut Intent, node: NodeId) -> Result<(), AllocError> {
    intent.need.push(node)?;
    Ok(())
}

fn field(alloc: Global, node: NodeId, key: &str) -> Result<FieldId, AllocError> {
    let key = Key(Text::from_str(alloc, key)?);
    Ok(FieldId { node, key })
}

fn clear(alloc: Global, intent: &mut Intent, owner: NodeId, key: &str) -> Result<(), AllocError> {
    intent.clear.push(field(alloc, owner, key)?)?;
    Ok(())
}

fn new_node(alloc: Global, intent: &mut Intent) -> Result<NodeId, AllocError> {
    let node = NodeId(name(intent.rev, intent.new.len()));
    let ty = Text::from_str(alloc, "list")?;
    intent.new.push(NewNode {
        node,
        ty,
        leaf: None,
    })?;
    Ok(node)
}

// A new cell for a node, the first or the second of the next group.
fn new_cell(intent: &Intent, node: NodeId, at: usize) -> Owned {
    let given = intent.groups.len().saturating_mul(2).saturating_add(at);
    let cell = CellId(name(intent.rev, given));
    Owned { cell, node }
}

// New cells, behind one of the cells of their row or at the row's start.
fn add_cells(
    alloc: Global,
    intent: &mut Intent,
    row: NodeId,
    after: Option<Owned>,
    cells: &[Owned],
) -> Result<(), AllocError> {
    let cells = List::from_vec(cells.to_vec(alloc)?);
    intent.groups.push(Group {
        node: row,
        after: after.map(|it| it.cell),
        cells,
    })?;
    Ok(())
}

// A node comes into a row.
fn come_in(
    alloc: Global,
    draw: &mut Draw,
    intent: &mut Intent,
    doc: &Doc,
    row: NodeId,
    node: NodeId,
) -> Result<(), AllocError> {
    let owned = new_cell(intent, node, 0);
    let after = cell_of(draw, doc.cells(row));
    add_cells(alloc, intent, row, after, &[owned])?;
    put_into(intent, owned)
}

// A new node comes into a row.
fn insert(
    alloc: Global,
    draw: &mut Draw,
    intent: &mut Intent,
    doc: &Doc,
    row: NodeId,
) -> Result<(), AllocError> {
    let node = new_node(alloc, intent)?;
    come_in(alloc, draw, intent, doc, row, node)
}

// Two new nodes come into a row, one behind the other.
fn insert_two(
    alloc: Global,
    draw: &mut Draw,
    intent: &mut Intent,
    doc: &Doc,
    row: NodeId,
) -> Result<(), AllocError> {
    let first = new_node(alloc, intent)?;
    let second = new_node(alloc, intent)?;
    let (first, second) = (new_cell(intent, first, 0), new_cell(intent, second, 1));
    let after = cell_of(draw, doc.cells(row));
    add_cells(alloc, intent, row, after, &[first, second])?;
    put_into(intent, first)?;
    put_into(intent, second)
}

// A node comes into a register, whose occupant is evicted.
fn occupy(
    alloc: Global,
    intent: &mut Intent,
    owner: NodeId,
    key: &str,
    node: NodeId,
) -> Result<(), AllocError> {
    clear(alloc, intent, owner, key)?;
    let field = field(alloc, owner, key)?;
    put(intent, node, To::Register(field))
}

// A new node comes into a register.
fn fill(alloc: Global, intent: &mut Intent, owner: NodeId, key: &str) -> Result<(), AllocError> {
    let node = new_node(alloc, intent)?;
    occupy(alloc, intent, owner, key, node)
}

// The owner of a cell comes into it, if there is one.
fn put_back(intent: &mut Intent, cell: Option<Owned>) -> Result<(), AllocError> {
    match cell {
        Some(owned) => put_into(intent, owned),
        None => Ok(()),
    }
}

// One of two keys, of which one comes more often.
fn key_of(draw: &mut Draw) -> &'static str {
    if below(draw, 4) == 0 { "j" } else { "k" }
}

// One thing that an intent wants.
fn want(
    alloc: Global,
    draw: &mut Draw,
    intent: &mut Intent,
    doc: &Doc,
    nodes: &[NodeId],
) -> Result<(), AllocError> {
    let owner = node_of(draw, nodes);
    let node = node_below(draw, nodes);
    let key = key_of(draw);
    match below(draw, 12) {
        0 => insert(alloc, draw, intent, doc, owner),
        1 => insert_two(alloc, draw, intent, doc, owner),
        2 | 3 | 4 => come_in(alloc, draw, intent, doc, owner, node),
        5 => put(intent, node, To::Nowhere),
        6 => put_back(intent, cell_of(draw, doc.cells(owner))),
        7 => fill(alloc, intent, owner, key),
        8 | 9 => occupy(alloc, intent, owner, key, node),
        10 => clear(alloc, intent, owner, key),
        _ => need(intent, node),
    }
}

fn wants(
    alloc: Global,
    draw: &mut Draw,
    intent: &mut Intent,
    doc: &Doc,
    nodes: &[NodeId],
) -> Result<(), AllocError> {
    for _ in 0..below(draw, 4).saturating_add(1) {
        want(alloc, draw, intent, doc, nodes)?;
    }
    Ok(())
}

fn new_schema(alloc: Global, intent: &mut Intent) -> Result<(), AllocError> {
    intent.schema = Some(Text::from_str(alloc, "{}")?);
    Ok(())
}

// The schema that is in effect, or now and then that which the first of others in the round brings, if it is one.
fn under(draw: &mut Draw, doc: &Doc, rev: Rev) -> Rev {
    if below(draw, 12) == 0 {
        return Rev {
            session: 3,
            num: rev.num,
        };
    }
    doc.under().unwrap_or(OPENING)
}

// Another schema now and then, else one to four wants.
fn draw_wants(
    alloc: Global,
    draw: &mut Draw,
    intent: &mut Intent,
    doc: &Doc,
) -> Result<(), AllocError> {
    if below(draw, 8) == 0 {
        return new_schema(alloc, intent);
    }
    let nodes = doc.nodes(alloc)?;
    wants(alloc, draw, intent, doc, nodes.as_slice())
}

/// An intent over a document. It need not fit.
pub fn intent_over(
    alloc: Global,
    draw: &mut Draw,
    doc: &Doc,
    rev: Rev,
) -> Result<Intent, AllocError> {
    let mut intent = nothing(alloc, rev, under(draw, doc, rev));
    draw_wants(alloc, draw, &mut intent, doc)?;
    Ok(intent)
}
