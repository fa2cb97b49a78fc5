//! The intents of edits.
ghost use Rattle.std.specs.Prelude.{◌≡◌, ℕ, ◌∷◌, ◌++◌, ◌<◌, ◌^◌, ◌+◌, [], length, map, IfOk, OnOk, None, Some, unwrap_or};
ghost use Rattle.st_marks.specs.declared.intents.To.{To as Target};
ghost use Rattle.st_marks.specs.Document.{last_of, revs};
ghost use Rattle.st_ids.specs.Root.{opening};
ghost use Rattle.st_doc.specs.Doc.{document_of};
ghost use Rattle.st_opening.specs.Start.{registers};
ghost use Rattle.st_edits.specs.New.{new_nodes, group_of, groups_under, puts, top_cells};
ghost use Rattle.st_edits.specs.Paths.{left_of};
ghost use Rattle.st_edits.specs.Resolve.{empty_intent, with_group, intent_to_insert, intent_to_place, intent_to_remove, cells_for, in_cells, moved_to_row, moved_to_field};

use crate::new_trees::{add_groups, add_registers, group_of, new_nodes, puts, top_cells};
use crate::paths::left_of;
use st_doc::Doc;
use st_edits::NameCounters;
use st_ids::{Atom, CellId, Copied, FieldId, List, NodeId, Rev};
use st_marks::{Group, Intent, Owned, Put, To};
use st_tree::FlatNode;
use std::alloc::{AllocError, Global};

// The revision of the last schema entry in effect.
fn under(doc: &Doc) -> Rev
    ensures { result ≡ unwrap_or (last_of (revs (document_of doc.now).schemas)) opening }
{
    match doc.under() {
        Some(rev) => rev,
        None => Rev { session: 0, num: 0 },
    }
}

/// An intent that wants nothing yet.
pub fn empty_intent(alloc: Global, doc: &Doc, given: NameCounters) -> Intent
    ensures { result ≡ empty_intent (document_of doc.now) given }
{
    Intent {
        rev: given.rev,
        under: under(doc),
        new: List::new(alloc),
        groups: List::new(alloc),
        clear: List::new(alloc),
        put: List::new(alloc),
        need: List::new(alloc),
        schema: None,
    }
}

// A list of a group, if it is there.
fn with_group(alloc: Global, group: Option<Group>) -> Result<List<Group>, AllocError>
    ensures { IfOk result (λ gs. gs ≡ with_group group []) }
{
    let mut groups = List::new(alloc);
    if let Some(group) = group {
        groups.push(group)?;
    }
    Ok(groups)
}

// A list of one register.
fn one_field(alloc: Global, field: FieldId) -> Result<List<FieldId>, AllocError>
    ensures { IfOk result (λ fs. fs ≡ field ∷ []) }
{
    let mut fields = List::new(alloc);
    fields.push(field)?;
    Ok(fields)
}

/// A field that is emptied.
pub fn intent_to_clear(
    alloc: Global,
    doc: &Doc,
    given: NameCounters,
    field: FieldId,
) -> Result<Intent, AllocError>
    ensures { IfOk result (λ i. i ≡ record (empty_intent (document_of doc.now) given) { clear = field ∷ [] }) }
{
    let mut intent = empty_intent(alloc, doc, given);
    intent.clear = one_field(alloc, field)?;
    Ok(intent)
}

// The groups of new items of a row, which stand after a cell or at the row's start.
fn groups_inserted(
    alloc: Global,
    node: NodeId,
    after: Option<CellId>,
    nodes: &[FlatNode],
) -> Result<List<Group>, AllocError>
    ensures { IfOk result (λ gs. gs ≡ with_group (group_of node after (top_cells nodes.now)) (groups_under nodes.now)) }
{
    let cells = top_cells(alloc, nodes)?;
    let mut groups = with_group(alloc, group_of(node, after, cells))?;
    add_groups(alloc, &mut groups, nodes)?;
    Ok(groups)
}

// Fills an intent with new items of a row.
fn fill_inserted(
    alloc: Global,
    intent: &mut Intent,
    node: NodeId,
    after: Option<CellId>,
    nodes: &[FlatNode],
) -> Result<(), AllocError>
    ensures { OnOk result (intent.exit.now ≡ record intent.entry.now {
      new = new_nodes nodes.now;
      groups = with_group (group_of node after (top_cells nodes.now)) (groups_under nodes.now);
      clear = intent.entry.now.clear ++ registers nodes.now;
      put = puts None nodes.now;
    }) }
{
    intent.new = new_nodes(alloc, nodes)?;
    intent.groups = groups_inserted(alloc, node, after, nodes)?;
    add_registers(alloc, &mut intent.clear, nodes)?;
    intent.put = puts(alloc, None, nodes)?;
    Ok(())
}

/// New items in a row, directly after a cell, or at the row's start: at each index left of which the cell is.
pub fn intent_to_insert(
    alloc: Global,
    doc: &Doc,
    given: NameCounters,
    node: NodeId,
    after: Option<CellId>,
    nodes: &[FlatNode],
) -> Result<Intent, AllocError>
    ensures { IfOk result (λ i. (index : ℕ) → after ≡ left_of (document_of doc.now) node index → i ≡ intent_to_insert (document_of doc.now) given node index nodes.now) }
{
    let mut intent = empty_intent(alloc, doc, given);
    fill_inserted(alloc, &mut intent, node, after, nodes)?;
    Ok(intent)
}

// A field, and the registers in which new nodes stand.
fn fields_cleared(
    alloc: Global,
    field: FieldId,
    nodes: &[FlatNode],
) -> Result<List<FieldId>, AllocError>
    ensures { IfOk result (λ fs. fs ≡ field ∷ registers nodes.now) }
{
    let mut fields = one_field(alloc, field)?;
    add_registers(alloc, &mut fields, nodes)?;
    Ok(fields)
}

// Fills an intent with a new item of a field.
fn fill_placed(
    alloc: Global,
    intent: &mut Intent,
    field: &FieldId,
    nodes: &[FlatNode],
) -> Result<(), AllocError>
    ensures { OnOk result (intent.exit.now ≡ record intent.entry.now {
      new = new_nodes nodes.now;
      groups = intent.entry.now.groups ++ groups_under nodes.now;
      clear = field.now ∷ registers nodes.now;
      put = puts (Some field.now) nodes.now;
    }) }
{
    intent.new = new_nodes(alloc, nodes)?;
    add_groups(alloc, &mut intent.groups, nodes)?;
    intent.put = puts(alloc, Some(field), nodes)?;
    intent.clear = fields_cleared(alloc, field.copy(alloc)?, nodes)?;
    Ok(())
}

/// A new item in a field, in the place of what is there.
pub fn intent_to_place(
    alloc: Global,
    doc: &Doc,
    given: NameCounters,
    field: FieldId,
    nodes: &[FlatNode],
) -> Result<Intent, AllocError>
    ensures { IfOk result (λ i. i ≡ intent_to_place (document_of doc.now) given field nodes.now) }
{
    let mut intent = empty_intent(alloc, doc, given);
    fill_placed(alloc, &mut intent, &field, nodes)?;
    Ok(intent)
}

/// Nodes put nowhere.
pub fn intent_to_remove(
    alloc: Global,
    doc: &Doc,
    given: NameCounters,
    nodes: &[NodeId],
) -> Result<Intent, AllocError>
    ensures { IfOk result (λ i. i ≡ intent_to_remove (document_of doc.now) given nodes.now) }
{
    let mut intent = empty_intent(alloc, doc, given);
    intent.put = puts_nowhere(alloc, nodes)?;
    Ok(intent)
}

// Each node is put nowhere.
fn puts_nowhere(alloc: Global, nodes: &[NodeId]) -> Result<List<Put>, AllocError>
    ensures { IfOk result (λ r. r ≡ map (λ n. record { node = n; to = Target.Nowhere }) nodes.now) }
{
    let mut puts = List::new(alloc);
    for node in nodes {
        let node = *node;
        puts.push(Put {
            node,
            to: To::Nowhere,
        })?;
    }
    Ok(puts)
}

// A new cell for each node, under the next names.
fn cells_for(
    alloc: Global,
    rev: Rev,
    first: u32,
    nodes: &[NodeId],
) -> Result<List<Owned>, AllocError>
    requires { first + length nodes.now < 2 ^ 32 }
    ensures { IfOk result (λ r. r ≡ cells_for rev first nodes.now) }
{
    let mut cells = List::new(alloc);
    let mut at = first;
    for node in nodes {
        let node = *node;
        let cell = CellId(Atom { rev, at });
        cells.push(Owned { cell, node })?;
        at += 1;
    }
    Ok(cells)
}

// Each node is put into its cell.
fn puts_in(alloc: Global, cells: &[Owned]) -> Result<List<Put>, AllocError>
    ensures { IfOk result (λ r. r ≡ map (λ o. record { node = o.node; to = Target.Cell o.cell }) cells.now) }
{
    let mut puts = List::new(alloc);
    for owned in cells {
        let node = owned.node;
        puts.push(Put {
            node,
            to: To::Cell(owned.cell),
        })?;
    }
    Ok(puts)
}

// Fills an intent with cells of a row, into each of which its owner is put.
fn fill_moved(
    alloc: Global,
    intent: &mut Intent,
    node: NodeId,
    after: Option<CellId>,
    cells: List<Owned>,
) -> Result<(), AllocError>
    ensures { OnOk result (intent.exit.now ≡ record intent.entry.now {
      groups = with_group (group_of node after cells) [];
      put = map (λ o. record { node = o.node; to = Target.Cell o.cell }) cells;
    }) }
{
    intent.put = puts_in(alloc, cells.as_slice())?;
    intent.groups = with_group(alloc, group_of(node, after, cells))?;
    Ok(())
}

/// Nodes put into new cells of a row.
pub fn moved_to_row(
    alloc: Global,
    doc: &Doc,
    given: NameCounters,
    node: NodeId,
    index: u32,
    nodes: &[NodeId],
) -> Result<Intent, AllocError>
    requires { given.cells + length nodes.now < 2 ^ 32 }
    ensures { IfOk result (λ i. i ≡ moved_to_row (document_of doc.now) given node index nodes.now) }
{
    let after = left_of(doc, node, index);
    let cells = cells_for(alloc, given.rev, given.cells, nodes)?;
    let mut intent = empty_intent(alloc, doc, given);
    fill_moved(alloc, &mut intent, node, after, cells)?;
    Ok(intent)
}

// Each node is put into a register.
fn puts_at(alloc: Global, field: &FieldId, nodes: &[NodeId]) -> Result<List<Put>, AllocError>
    ensures { IfOk result (λ r. r ≡ map (λ n. record { node = n; to = Target.Register field.now }) nodes.now) }
{
    let mut puts = List::new(alloc);
    for node in nodes {
        let node = *node;
        let to = To::Register(field.copy(alloc)?);
        puts.push(Put { node, to })?;
    }
    Ok(puts)
}

// Fills an intent with nodes that are put into a field, in the place of what is there.
fn fill_field(
    alloc: Global,
    intent: &mut Intent,
    field: FieldId,
    nodes: &[NodeId],
) -> Result<(), AllocError>
    ensures { OnOk result (intent.exit.now ≡ record intent.entry.now {
      clear = field ∷ [];
      put = map (λ n. record { node = n; to = Target.Register field }) nodes.now;
    }) }
{
    intent.put = puts_at(alloc, &field, nodes)?;
    intent.clear = one_field(alloc, field)?;
    Ok(())
}

/// Nodes, of which there is one, put into a field, in the place of what is there.
pub fn moved_to_field(
    alloc: Global,
    doc: &Doc,
    given: NameCounters,
    field: FieldId,
    nodes: &[NodeId],
) -> Result<Intent, AllocError>
    ensures { IfOk result (λ i. i ≡ moved_to_field (document_of doc.now) given field nodes.now) }
{
    let mut intent = empty_intent(alloc, doc, given);
    fill_field(alloc, &mut intent, field, nodes)?;
    Ok(intent)
}
