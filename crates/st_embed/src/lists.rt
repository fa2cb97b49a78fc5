//! The lists of a change, in the order of their names.
ghost use Rattle.std.specs.Prelude.{◌≡◌, ◌++◌, Some, IfOk, OnOk};
ghost use Rattle.std.specs.BTreeMap.{get};
ghost use Rattle.std.specs.BTreeSet.{contains, IsOrdered};
ghost use Rattle.std.specs.List.{filter_map};
ghost use Rattle.std.specs.Option.{option_to_list};
ghost use Rattle.st_ids.specs.Order.{field_cmp, node_cmp};
ghost use Rattle.st_ids.specs.declared.names.FieldId.{FieldId as Register};
ghost use Rattle.st_ids.specs.declared.names.NodeId.{NodeId as Node};
ghost use Rattle.st_marks.specs.Document.{IsSoundInForm, content};
ghost use Rattle.st_marks.specs.Embedding.{row_marks};
ghost use Rattle.st_marks.specs.Register.{embed_register};
ghost use Rattle.st_marks.specs.Row.{embed_row};
ghost use Rattle.st_doc.specs.Doc.{document_of};
ghost use Rattle.st_embed.specs.inside.Wants.{loose_in, register_in, row_in};

use crate::registers::{listed_loose, listed_register};
use crate::rows::listed_row;
use crate::wants::Wants;
use st_doc::Doc;
use st_ids::{Copied, FieldId, List, NodeId};
use st_marks::{Loose, NewNode, RegMark, RowMarks};
use std::alloc::{AllocError, Global};
use std::collections::{BTreeMap, BTreeSet};

/// Puts an item behind others, if there is one.
pub fn push_if_some<T: Drop>(list: &mut List<T>, item: Option<T>) -> Result<(), AllocError>
    ensures { OnOk result (list.new ≡ list.old ++ option_to_list item) }
{
    match item {
        None => Ok(()),
        Some(item) => {
            list.push(item)?;
            Ok(())
        }
    }
}

/// The rows of some nodes that are listed.
pub fn listed_rows(
    alloc: Global,
    doc: &Doc,
    wants: &Wants,
    mentioned: &BTreeSet<NodeId>,
    nodes: &BTreeSet<NodeId>,
) -> Result<List<RowMarks>, AllocError>
    requires { IsSoundInForm (document_of doc.now) }
    ensures rows { IfOk result (λ l. l ≡ filter_map (row_in wants.now
        (contains node_cmp mentioned.now) (document_of doc.now)) nodes.now.keys) }
    ensures ordered { IfOk result (λ l. IsOrdered node_cmp nodes.now) }
{
    let mut list = List::new(alloc);
    for node in nodes.iter() {
        let row = listed_row(alloc, doc, wants, mentioned, *node)?;
        push_if_some(&mut list, row)?;
    }
    Ok(list)
}

/// The registers among some that are listed.
pub fn listed_registers(
    alloc: Global,
    doc: &Doc,
    wants: &Wants,
    mentioned: &BTreeSet<NodeId>,
    fields: &BTreeSet<FieldId>,
) -> Result<List<RegMark>, AllocError>
    ensures registers { IfOk result (λ l. l
        ≡ filter_map (register_in wants.now (contains node_cmp mentioned.now) (document_of doc.now)) fields.now.keys) }
    ensures ordered { IfOk result (λ l. IsOrdered field_cmp fields.now) }
{
    let mut list = List::new(alloc);
    for field in fields.iter() {
        let register = listed_register(alloc, doc, wants, mentioned, field)?;
        push_if_some(&mut list, register)?;
    }
    Ok(list)
}

/// The mentioned nodes that are nowhere.
pub fn loose_nodes(
    alloc: Global,
    doc: &Doc,
    wants: &Wants,
    mentioned: &BTreeSet<NodeId>,
) -> Result<List<Loose>, AllocError>
    ensures loose { IfOk result (λ l. l ≡ filter_map (loose_in wants.now
        (contains node_cmp mentioned.now) (document_of doc.now)) mentioned.now.keys) }
    ensures ordered { IfOk result (λ l. IsOrdered node_cmp mentioned.now) }
{
    let mut list = List::new(alloc);
    for node in mentioned.iter() {
        push_if_some(&mut list, listed_loose(doc, wants, mentioned, *node))?;
    }
    Ok(list)
}

/// The names of a set.
pub fn names_in(alloc: Global, nodes: &BTreeSet<NodeId>) -> Result<List<NodeId>, AllocError>
    ensures names { IfOk result (λ l. l ≡ filter_map (λ (n : Node). Some n) nodes.now.keys) }
    ensures ordered { IfOk result (λ l. IsOrdered node_cmp nodes.now) }
{
    let mut list = List::new(alloc);
    for node in nodes.iter() {
        push_if_some(&mut list, Some(*node))?;
    }
    Ok(list)
}

// A copy of what a map has at a name.
fn new_at(
    alloc: Global,
    map: &BTreeMap<NodeId, NewNode>,
    node: NodeId,
) -> Result<Option<NewNode>, AllocError>
    ensures { IfOk result (λ m. m ≡ get node_cmp map.now node) }
{
    match map.get(&node) {
        None => Ok(None),
        Some(new) => Ok(Some(new.copy(alloc)?)),
    }
}

/// What a map has at the names of a set.
pub fn new_in(
    alloc: Global,
    map: &BTreeMap<NodeId, NewNode>,
    nodes: &BTreeSet<NodeId>,
) -> Result<List<NewNode>, AllocError>
    ensures new { IfOk result (λ l. l ≡ filter_map (get node_cmp map.now) nodes.now.keys) }
    ensures ordered { IfOk result (λ l. IsOrdered node_cmp nodes.now) }
{
    let mut list = List::new(alloc);
    for node in nodes.iter() {
        let new = new_at(alloc, map, *node)?;
        push_if_some(&mut list, new)?;
    }
    Ok(list)
}
