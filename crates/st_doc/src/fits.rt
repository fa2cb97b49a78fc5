//! Whether an intent fits a document.
ghost use Rattle.std.specs.Prelude.{◌≡◌, ◌↔◌, true, not, is_some};
ghost use Rattle.std.specs.List.{list_any, list_all};
ghost use Rattle.st_ids.specs.Order.{same_rev};
ghost use Rattle.st_marks.specs.Document.{IsSoundInForm};
ghost use Rattle.st_marks.specs.Intent.{Fits};
ghost use Rattle.st_doc.specs.Doc.{document_of};
ghost use Rattle.st_doc.specs.inside.Fitting.{nodes_fresh, cells_fresh, schema_fresh, is_known as is_known_in, anchor_known, group_known as group_known_in, owners_known, has_owned, owns_old, owns_new, owns as owns_in, target_known, put_known as put_known_in, names_fresh, names_known, names_fit};

use crate::doc::Doc;
use crate::rows::cells_of;
use st_ids::{CellId, NodeId, Rev, is_same_cell, is_same_node, is_same_rev};
use st_intent::{is_intent, is_new};
use st_marks::{Group, Intent, Owned, Put, SchemaEntry, To};

// Whether a document has a node.
fn has_node(doc: &Doc, node: NodeId) -> bool
    ensures { result ≡ is_some ((document_of doc.now).nodes node) }
{
    doc.nodes.contains_key(&node)
}

// Whether a document has none of the nodes that an intent makes.
fn nodes_fresh(doc: &Doc, intent: &Intent) -> bool
    ensures { result ≡ nodes_fresh (document_of doc.now) intent.now }
{
    intent.new.as_slice().iter().all(|m| !has_node(doc, m.node))
}

// In whose row a cell is.
fn row_of(doc: &Doc, cell: CellId) -> Option<NodeId>
    ensures { result ≡ (document_of doc.now).row_of cell }
{
    doc.row_of.get(&cell).copied()
}

// Whether none of some cells is in a row.
fn has_none(doc: &Doc, cells: &[Owned]) -> bool
    ensures { result ≡ list_all (λ o. not (is_some ((document_of doc.now).row_of o.cell))) cells.now }
{
    cells.iter().all(|o| row_of(doc, o.cell).is_none())
}

// Whether none of the cells that an intent makes is in a row.
fn cells_fresh(doc: &Doc, intent: &Intent) -> bool
    ensures { result ≡ cells_fresh (document_of doc.now) intent.now }
{
    let groups = intent.groups.as_slice();
    groups.iter().all(|g| has_none(doc, g.cells.as_slice()))
}

// Whether no entry has a revision.
fn rev_fresh(entries: &[SchemaEntry], rev: Rev) -> bool
    ensures { result ≡ list_all (λ e. not (same_rev e.rev rev)) entries.now }
{
    entries.iter().all(|e| !is_same_rev(e.rev, rev))
}

// Whether the entry of a change of schema would have a new revision.
fn schema_fresh(doc: &Doc, intent: &Intent) -> bool
    ensures { result ≡ schema_fresh (document_of doc.now) intent.now intent.now.schema }
{
    match &intent.schema {
        None => true,
        Some(_) => rev_fresh(doc.schemas.as_slice(), intent.rev),
    }
}

// Whether an intent makes a node or a document has it.
fn is_known(doc: &Doc, intent: &Intent, node: NodeId) -> bool
    ensures { result ≡ is_known_in (document_of doc.now) intent.now node }
{
    is_new(intent, node) || has_node(doc, node)
}

// Whether the cell after which a group stands is in the group's row.
fn anchor_known(doc: &Doc, group: &Group) -> bool
    ensures { result ≡ anchor_known (document_of doc.now) group.now.node group.now.after }
{
    let Some(cell) = group.after else {
        return true;
    };
    match row_of(doc, cell) {
        None => false,
        Some(row) => is_same_node(row, group.node),
    }
}

// Whether the row of a group is there, and its anchor in it.
fn group_known(doc: &Doc, intent: &Intent, group: &Group) -> bool
    ensures { result ≡ group_known_in (document_of doc.now) intent.now group.now }
{
    is_known(doc, intent, group.node) && anchor_known(doc, group)
}

// Whether the owners of some cells are there.
fn each_known(doc: &Doc, intent: &Intent, cells: &[Owned]) -> bool
    ensures { result ≡ list_all (λ o. is_known_in (document_of doc.now) intent.now o.node) cells.now }
{
    cells.iter().all(|o| is_known(doc, intent, o.node))
}

// Whether the owners of new cells are there.
fn owners_known(doc: &Doc, intent: &Intent) -> bool
    ensures { result ≡ owners_known (document_of doc.now) intent.now }
{
    let groups = intent.groups.as_slice();
    groups
        .iter()
        .all(|g| each_known(doc, intent, g.cells.as_slice()))
}

// Whether there is a cell among some, with that owner.
fn has_owned(cells: &[Owned], cell: CellId, node: NodeId) -> bool
    ensures { result ≡ has_owned cell node cells.now }
{
    cells.iter().any(|o| is_same_cell(o.cell, cell) && is_same_node(o.node, node))
}

// Whether a node owns a cell of a document.
fn owns_old(doc: &Doc, node: NodeId, cell: CellId) -> bool
    ensures { result ≡ owns_old (document_of doc.now) node cell ((document_of doc.now).row_of cell) }
{
    match row_of(doc, cell) {
        None => false,
        Some(row) => has_owned(cells_of(&doc.rows, row), cell, node),
    }
}

// Whether a node owns a cell that an intent makes.
fn owns_new(intent: &Intent, node: NodeId, cell: CellId) -> bool
    ensures { result ≡ owns_new intent.now node cell }
{
    let groups = intent.groups.as_slice();
    groups
        .iter()
        .any(|g| has_owned(g.cells.as_slice(), cell, node))
}

// Whether a node owns a cell.
fn owns(doc: &Doc, intent: &Intent, node: NodeId, cell: CellId) -> bool
    ensures { result ≡ owns_in (document_of doc.now) intent.now node cell }
{
    owns_old(doc, node, cell) || owns_new(intent, node, cell)
}

// Whether the place of a put is there: a cell that the node owns, or a register of a node.
fn target_known(doc: &Doc, intent: &Intent, put: &Put) -> bool
    ensures { result ≡ target_known (document_of doc.now) intent.now put.now.node put.now.to }
{
    match &put.to {
        To::Nowhere => true,
        To::Cell(cell) => owns(doc, intent, put.node, *cell),
        To::Register(field) => is_known(doc, intent, field.node),
    }
}

// Whether the node of a put is there, and its place.
fn put_known(doc: &Doc, intent: &Intent, put: &Put) -> bool
    ensures { result ≡ put_known_in (document_of doc.now) intent.now put.now }
{
    is_known(doc, intent, put.node) && target_known(doc, intent, put)
}

// Whether the names that an intent makes are new.
fn names_fresh(doc: &Doc, intent: &Intent) -> bool
    ensures { result ≡ names_fresh (document_of doc.now) intent.now }
{
    nodes_fresh(doc, intent) && cells_fresh(doc, intent) && schema_fresh(doc, intent)
}

// Whether the rows and anchors of all groups are there.
fn groups_known(doc: &Doc, intent: &Intent) -> bool
    ensures { result ≡ list_all (group_known_in (document_of doc.now) intent.now) intent.now.groups }
{
    let groups = intent.groups.as_slice();
    groups.iter().all(|g| group_known(doc, intent, g))
}

// Whether the nodes of all puts are there, and their places.
fn puts_known(doc: &Doc, intent: &Intent) -> bool
    ensures { result ≡ list_all (put_known_in (document_of doc.now) intent.now) intent.now.put }
{
    let puts = intent.put.as_slice();
    puts.iter().all(|p| put_known(doc, intent, p))
}

// Whether the nodes of all cleared registers are there.
fn clears_known(doc: &Doc, intent: &Intent) -> bool
    ensures { result ≡ list_all (λ f. is_known_in (document_of doc.now) intent.now f.node) intent.now.clear }
{
    let clear = intent.clear.as_slice();
    clear.iter().all(|f| is_known(doc, intent, f.node))
}

// Whether all needed nodes are there.
fn needs_known(doc: &Doc, intent: &Intent) -> bool
    ensures { result ≡ list_all (λ n. is_some ((document_of doc.now).nodes n)) intent.now.need }
{
    let need = intent.need.as_slice();
    need.iter().all(|n| has_node(doc, *n))
}

// Whether the names that an intent does not make are there.
fn names_known(doc: &Doc, intent: &Intent) -> bool
    ensures { result ≡ names_known (document_of doc.now) intent.now }
{
    groups_known(doc, intent)
        && owners_known(doc, intent)
        && puts_known(doc, intent)
        && clears_known(doc, intent)
        && needs_known(doc, intent)
}

// Whether all names fit.
fn names_fit(doc: &Doc, intent: &Intent) -> bool
    ensures { result ≡ names_fit (document_of doc.now) intent.now }
{
    names_fresh(doc, intent) && names_known(doc, intent)
}

impl Doc {
    /// Whether an intent obeys its own rules and fits the document. It goes through the rows of the cells that the
    /// intent names.
    pub fn fits(&self, intent: &Intent) -> bool
        requires { IsSoundInForm (document_of self.now) }
        ensures { (result ≡ true) ↔ Fits (document_of self.now) intent.now }
    {
        is_intent(intent) && names_fit(self, intent)
    }
}
