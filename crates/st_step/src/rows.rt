//! The rows of a step.
ghost use Rattle.std.specs.Prelude.{◌≡◌, [], map, IfOk, OnOk};
ghost use Rattle.std.specs.BTreeMap.{get};
ghost use Rattle.std.specs.BTreeSet.{contains, IsOrdered};
ghost use Rattle.std.specs.List.{filter_map};
ghost use Rattle.st_ids.specs.Listing.{IsListing};
ghost use Rattle.st_ids.specs.Order.{cell_cmp, node_cmp};
ghost use Rattle.st_ids.specs.declared.names.CellId.{CellId as Cell};
ghost use Rattle.st_marks.specs.declared.marks.RowMarks.{RowMarks as Row};
ghost use Rattle.st_marks.specs.Document.{IsSoundInForm};
ghost use Rattle.st_marks.specs.Row.{merge};
ghost use Rattle.st_doc.specs.Doc.{document_of};
ghost use Rattle.st_step.specs.inside.Marks.{row_in, step_mark};

use crate::marks::step_mark;
use crate::new::nodes_of;
use st_doc::Doc;
use st_embed::{push_cell, push_if_some, tells};
use st_ids::{CellId, List, NodeId};
use st_marks::{Mark, RowMarks};
use std::alloc::{AllocError, Global};
use std::collections::{BTreeMap, BTreeSet};

// Adds the whole row of a node.
fn push_row(
    marks: &mut List<Mark>,
    cells: &BTreeMap<CellId, NodeId>,
    doc: &Doc,
    later: &Doc,
    mentioned: &BTreeSet<NodeId>,
    node: NodeId,
) -> Result<(), AllocError>
    requires sound { IsSoundInForm (document_of later.now) }
    requires cells { (c : Cell) → get cell_cmp cells.now c ≡ (document_of doc.now).row_of c }
    requires none { marks.old ≡ [] }
    ensures { OnOk result (marks.new ≡ merge (map (step_mark (contains node_cmp mentioned.now)
        (document_of doc.now) (document_of later.now)) ((document_of later.now).rows node))) }
{
    for owned in later.cells(node) {
        push_cell(marks, step_mark(cells, doc, later, mentioned, *owned))?;
    }
    Ok(())
}

// The row of a node, if it is listed.
fn listed_row(
    alloc: Global,
    cells: &BTreeMap<CellId, NodeId>,
    doc: &Doc,
    later: &Doc,
    mentioned: &BTreeSet<NodeId>,
    node: NodeId,
) -> Result<Option<RowMarks>, AllocError>
    requires sound { IsSoundInForm (document_of later.now) }
    requires cells { (c : Cell) → get cell_cmp cells.now c ≡ (document_of doc.now).row_of c }
    ensures { IfOk result (λ r. r ≡ row_in (contains node_cmp mentioned.now)
        (document_of doc.now) (document_of later.now) node) }
{
    let mut marks = List::new(alloc);
    push_row(&mut marks, cells, doc, later, mentioned, node)?;
    if tells(marks.as_slice()) {
        return Ok(Some(RowMarks { node, marks }));
    }
    Ok(None)
}

// The rows of some nodes that are listed.
fn listed_rows(
    alloc: Global,
    cells: &BTreeMap<CellId, NodeId>,
    doc: &Doc,
    later: &Doc,
    mentioned: &BTreeSet<NodeId>,
    nodes: &BTreeSet<NodeId>,
) -> Result<List<RowMarks>, AllocError>
    requires sound { IsSoundInForm (document_of later.now) }
    requires cells { (c : Cell) → get cell_cmp cells.now c ≡ (document_of doc.now).row_of c }
    ensures rows { IfOk result (λ l. l ≡ filter_map (row_in (contains node_cmp mentioned.now)
        (document_of doc.now) (document_of later.now)) nodes.now.keys) }
    ensures ordered { IfOk result (λ l. IsOrdered node_cmp nodes.now) }
{
    let mut list = List::new(alloc);
    for node in nodes.iter() {
        let row = listed_row(alloc, cells, doc, later, mentioned, *node)?;
        push_if_some(&mut list, row)?;
    }
    Ok(list)
}

/// The rows. All cells of the later document are gone through.
pub fn rows_of(
    alloc: Global,
    cells: &BTreeMap<CellId, NodeId>,
    doc: &Doc,
    later: &Doc,
    mentioned: &BTreeSet<NodeId>,
) -> Result<List<RowMarks>, AllocError>
    requires sound { IsSoundInForm (document_of later.now) }
    requires cells { (c : Cell) → get cell_cmp cells.now c ≡ (document_of doc.now).row_of c }
    ensures { IfOk result (λ l. IsListing node_cmp (λ (r : Row). r.node) l
        (row_in (contains node_cmp mentioned.now) (document_of doc.now) (document_of later.now))) }
{
    let nodes = nodes_of(alloc, later)?;
    let list = listed_rows(alloc, cells, doc, later, mentioned, &nodes)?;
    Ok(list)
}
