//! In whose rows the cells are that an intent puts nodes into.
ghost use Rattle.std.specs.Prelude.{◌≡◌, ◌++◌, ◌||◌, Some, None, cond, IfOk, OnOk, option_and_then};
ghost use Rattle.std.specs.BTreeMap.{get};
ghost use Rattle.std.specs.BTreeSet.{contains};
ghost use Rattle.std.specs.List.{filter_map, list_any};
ghost use Rattle.std.specs.Option.{option_or, option_to_list};
ghost use Rattle.st_ids.specs.Order.{cell_cmp, same_cell};
ghost use Rattle.st_ids.specs.declared.names.CellId.{CellId as Cell};
ghost use Rattle.st_marks.specs.declared.intents.Put.{Put as PutOf};
ghost use Rattle.st_marks.specs.Document.{IsSoundInForm};
ghost use Rattle.st_marks.specs.Intent.{Fits, cell_of};
ghost use Rattle.st_doc.specs.Doc.{document_of};
ghost use Rattle.st_embed.specs.inside.Rows.{leads_to_old, makes, row_among, targets_in};

use crate::sets::add;
use crate::wants::keep;
use st_doc::Doc;
use st_ids::{CellId, List, NodeId};
use st_marks::{Intent, Owned, Put, To};
use std::alloc::{AllocError, Global};
use std::collections::{BTreeMap, BTreeSet};

// Adds the names of cells.
fn add_cells(set: &mut BTreeSet<CellId>, cells: &[Owned]) -> Result<(), AllocError>
    ensures { OnOk result ((c : Cell) → contains cell_cmp set.new c
        ≡ (contains cell_cmp set.old c || list_any (λ o. same_cell o.cell c) cells.now)) }
{
    for owned in cells {
        add(set, owned.cell)?;
    }
    Ok(())
}

// The cells that an intent makes.
fn made_cells(alloc: Global, intent: &Intent) -> Result<BTreeSet<CellId>, AllocError>
    ensures { IfOk result (λ s. (c : Cell) → contains cell_cmp s c ≡ makes intent.now.groups c) }
{
    let mut set = BTreeSet::new(alloc);
    for group in intent.groups.as_slice() {
        add_cells(&mut set, group.cells.as_slice())?;
    }
    Ok(set)
}

// Whether a put leads to a cell that isn't made.
fn leads_to_old(made: &BTreeSet<CellId>, to: &To) -> bool
    ensures { result ≡ leads_to_old (contains cell_cmp made.now) to.now }
{
    match to {
        To::Cell(cell) => !made.contains(cell),
        _ => false,
    }
}

// Whether one of some puts leads to a cell that isn't made.
fn any_leads_to_old(made: &BTreeSet<CellId>, puts: &[Put]) -> bool
    ensures { result ≡ list_any (λ (p : PutOf). leads_to_old
        (contains cell_cmp made.now) p.to) puts.now }
{
    puts.iter().any(|put| leads_to_old(made, &put.to))
}

// Keeps of some cells in whose row they are.
fn keep_cells(
    rows: &mut BTreeMap<CellId, NodeId>,
    node: NodeId,
    cells: &[Owned],
) -> Result<(), AllocError>
    ensures { OnOk result ((c : Cell) → get cell_cmp rows.new c
        ≡ option_or (get cell_cmp rows.old c) (cond (list_any (λ o. same_cell o.cell c) cells.now) (Some node) None)) }
{
    for owned in cells {
        keep(rows, owned.cell, node)?;
    }
    Ok(())
}

// In which of some nodes' rows each cell is.
fn rows_by_cell(
    alloc: Global,
    doc: &Doc,
    nodes: &[NodeId],
) -> Result<BTreeMap<CellId, NodeId>, AllocError>
    ensures { IfOk result (λ m. (c : Cell) → get cell_cmp m c
        ≡ row_among (document_of doc.now) nodes.now c) }
{
    let mut rows = BTreeMap::new(alloc);
    for node in nodes {
        keep_cells(&mut rows, *node, doc.cells(*node))?;
    }
    Ok(rows)
}

// In whose row the cell is that a put leads to.
fn row_of_target(rows: &BTreeMap<CellId, NodeId>, to: &To) -> Option<NodeId>
    ensures { result ≡ option_and_then (get cell_cmp rows.now) (cell_of to.now) }
{
    match to {
        To::Cell(cell) => rows.get(cell).copied(),
        _ => None,
    }
}

// Adds a node, if there is one.
fn push_if_some(names: &mut List<NodeId>, node: Option<NodeId>) -> Result<(), AllocError>
    ensures { OnOk result (names.new ≡ names.old ++ option_to_list node) }
{
    match node {
        None => Ok(()),
        Some(node) => {
            names.push(node)?;
            Ok(())
        }
    }
}

// Adds the nodes in whose rows the cells are that puts lead to.
fn push_target_rows(
    names: &mut List<NodeId>,
    rows: &BTreeMap<CellId, NodeId>,
    puts: &[Put],
) -> Result<(), AllocError>
    ensures { OnOk result (names.new ≡ names.old ++ filter_map (λ (p : PutOf). option_and_then (get cell_cmp rows.now) (cell_of p.to)) puts.now) }
{
    for put in puts {
        push_if_some(names, row_of_target(rows, &put.to))?;
    }
    Ok(())
}

/// The row of each cell of a document.
pub fn rows_of_cells(alloc: Global, doc: &Doc) -> Result<BTreeMap<CellId, NodeId>, AllocError>
    requires { IsSoundInForm (document_of doc.now) }
    ensures { IfOk result (λ m. (c : Cell) → get cell_cmp m c ≡ (document_of doc.now).row_of c) }
{
    let nodes = doc.nodes(alloc)?;
    let rows = rows_by_cell(alloc, doc, nodes.as_slice())?;
    Ok(rows)
}

// The same as `target_rows`, where the rows of all cells are gone through.
fn searched_rows(alloc: Global, doc: &Doc, intent: &Intent) -> Result<List<NodeId>, AllocError>
    requires { IsSoundInForm (document_of doc.now) }
    ensures { IfOk result (λ names. names ≡ targets_in (document_of doc.now) intent.now) }
{
    let rows = rows_of_cells(alloc, doc)?;
    let mut names = List::new(alloc);
    push_target_rows(&mut names, &rows, intent.put.as_slice())?;
    Ok(names)
}

/// The nodes that a document has in whose rows the cells are that an intent's puts lead to. Where one of these cells is
/// old, all rows are gone through.
pub fn target_rows(alloc: Global, doc: &Doc, intent: &Intent) -> Result<List<NodeId>, AllocError>
    requires sound { IsSoundInForm (document_of doc.now) }
    requires fits { Fits (document_of doc.now) intent.now }
    ensures { IfOk result (λ names. names ≡ targets_in (document_of doc.now) intent.now) }
{
    let made = made_cells(alloc, intent)?;
    if any_leads_to_old(&made, intent.put.as_slice()) {
        return searched_rows(alloc, doc, intent);
    }
    Ok(List::new(alloc))
}
