//! The row of a node, as a change lists it.
ghost use Rattle.std.specs.Prelude.{◌≡◌, ◌++◌, [], Bool, false, map, if◌then◌else◌, IfOk, OnOk, Some};
ghost use Rattle.std.specs.BTreeMap.{get};
ghost use Rattle.std.specs.BTreeSet.{contains};
ghost use Rattle.st_ids.specs.Order.{node_cmp};
ghost use Rattle.st_ids.specs.declared.names.NodeId.{NodeId as Node};
ghost use Rattle.st_marks.specs.declared.intents.To.{To as Target};
ghost use Rattle.st_marks.specs.declared.marks.How.TheVariants.{Here, Leave};
ghost use Rattle.st_marks.specs.Document.{IsSoundInForm, content, is_cell};
ghost use Rattle.st_marks.specs.Embedding.{row_marks};
ghost use Rattle.st_marks.specs.How.{is_here};
ghost use Rattle.st_marks.specs.Row.{embed_cell, embed_row, how, merge, same_to};
ghost use Rattle.st_doc.specs.Doc.{document_of};
ghost use Rattle.st_embed.specs.inside.Marks.{HasRoom, found_cell, made_mark, mark_of, with_cell};
ghost use Rattle.st_embed.specs.inside.Places.{cells_at as made_at};
ghost use Rattle.st_embed.specs.inside.Wants.{part_in_row, row_in};

use crate::marks::{push_cell, tells};
use crate::wants::{Wants, cells_at, target_of};
use st_doc::Doc;
use st_ids::{CellId, List, NodeId, is_same_cell};
use st_marks::{How, Mark, Owned, RowMarks, Spot, To};
use std::alloc::{AllocError, Global};
use std::collections::BTreeSet;

/// Whether a cell is full: its owner stands in it.
pub fn is_full(doc: &Doc, owned: Owned) -> bool
    ensures { result ≡ is_cell owned.cell ((document_of doc.now).place owned.node) }
{
    match doc.place(owned.node) {
        Some(Spot::Row { cell, .. }) => is_same_cell(owned.cell, *cell),
        _ => false,
    }
}

// Whether a put leads to a cell.
fn leads_to_cell(to: &To, cell: CellId) -> bool
    ensures { result ≡ same_to to.now (Target.Cell cell) }
{
    match to {
        To::Cell(other) => is_same_cell(*other, cell),
        _ => false,
    }
}

/// What becomes of a node that is put: it is set where it stands, or leaves.
pub fn here_or_leave(here: bool) -> How
    ensures { result ≡ (if here then Here else Leave) }
{
    if here { How::Here } else { How::Leave }
}

// What becomes of a node that stands in a cell.
fn how_in_cell(wants: &Wants, node: NodeId, cell: CellId) -> How
    ensures { result ≡ how (get node_cmp wants.now.targets node) (Target.Cell cell) }
{
    match target_of(wants, node) {
        None => How::Stay,
        Some(to) => here_or_leave(leads_to_cell(to, cell)),
    }
}

// Whether a node is put where it stands.
fn is_here(how: How) -> bool
    ensures { result ≡ is_here how }
{
    match how {
        How::Here => true,
        _ => false,
    }
}

// The mark of a cell that is found empty: its owner is put there, or it stays empty.
fn empty_mark(wants: &Wants, owned: Owned) -> Mark
    ensures { (m : Node → Bool) (n : Node) → Some result ≡ mark_of (embed_cell (part_in_row wants.now m n) owned.cell owned.node false) }
{
    let Owned { cell, node } = owned;
    if is_here(how_in_cell(wants, node, cell)) {
        Mark::Fill { cell, node }
    } else {
        Mark::Gap(cell)
    }
}

// The mark of a cell that is found, unless it is counted. Where a node leads is looked up only where a mark tells it.
fn found_mark(wants: &Wants, mentioned: &BTreeSet<NodeId>, owned: Owned, full: bool) -> Option<Mark>
    ensures { (n : Node) → result ≡ mark_of (embed_cell (part_in_row wants.now
        (contains node_cmp mentioned.now) n) owned.cell owned.node full) }
{
    if !full {
        return Some(empty_mark(wants, owned));
    }
    let Owned { cell, node } = owned;
    if mentioned.contains(&node) {
        let how = how_in_cell(wants, node, cell);
        Some(Mark::Touch { cell, node, how })
    } else {
        None
    }
}

// The mark of a cell that is made.
fn made_mark(wants: &Wants, owned: Owned) -> Mark
    ensures { result ≡ made_mark (get node_cmp wants.now.targets) owned }
{
    Mark::Make {
        cell: owned.cell,
        node: owned.node,
        full: is_here(how_in_cell(wants, owned.node, owned.cell)),
    }
}

// Adds the cells that are made in one place.
fn push_made(marks: &mut List<Mark>, wants: &Wants, cells: &[Owned]) -> Result<(), AllocError>
    ensures { OnOk result (marks.new ≡ marks.old ++ map (made_mark (get node_cmp wants.now.targets)) cells.now) }
{
    for owned in cells {
        marks.push(made_mark(wants, *owned))?;
    }
    Ok(())
}

// Adds a cell that is found, and those that are made behind it.
fn push_found(
    marks: &mut List<Mark>,
    doc: &Doc,
    wants: &Wants,
    mentioned: &BTreeSet<NodeId>,
    node: NodeId,
    owned: Owned,
) -> Result<(), AllocError>
    requires { HasRoom marks.old }
    ensures { OnOk result (marks.new
        ≡ with_cell marks.old (mark_of (found_cell (part_in_row wants.now (contains node_cmp mentioned.now) node) (document_of doc.now) owned))
        ++ map (made_mark (get node_cmp wants.now.targets)) (made_at wants.now.cells node (Some owned.cell))) }
{
    let mark = found_mark(wants, mentioned, owned, is_full(doc, owned));
    push_cell(marks, mark)?;
    push_made(marks, wants, cells_at(wants, node, Some(owned.cell)))?;
    Ok(())
}

// Adds the whole row of a node.
fn push_row(
    marks: &mut List<Mark>,
    doc: &Doc,
    wants: &Wants,
    mentioned: &BTreeSet<NodeId>,
    node: NodeId,
) -> Result<(), AllocError>
    requires sound { IsSoundInForm (document_of doc.now) }
    requires none { marks.old ≡ [] }
    ensures { OnOk result (marks.new
        ≡ merge (embed_row (part_in_row wants.now (contains node_cmp mentioned.now) node) (content (document_of doc.now) node))) }
{
    push_made(marks, wants, cells_at(wants, node, None))?;
    for owned in doc.cells(node) {
        push_found(marks, doc, wants, mentioned, node, *owned)?;
    }
    Ok(())
}

/// The row of a node, if it is listed.
pub fn listed_row(
    alloc: Global,
    doc: &Doc,
    wants: &Wants,
    mentioned: &BTreeSet<NodeId>,
    node: NodeId,
) -> Result<Option<RowMarks>, AllocError>
    requires { IsSoundInForm (document_of doc.now) }
    ensures { IfOk result (λ r. r ≡ row_in wants.now
        (contains node_cmp mentioned.now) (document_of doc.now) node) }
{
    let mut marks = List::new(alloc);
    push_row(&mut marks, doc, wants, mentioned, node)?;
    if tells(marks.as_slice()) {
        return Ok(Some(RowMarks { node, marks }));
    }
    Ok(None)
}
