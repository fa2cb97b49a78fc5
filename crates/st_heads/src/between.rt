//! The way back between two documents, told by the two alone.
ghost use Rattle.std.specs.Prelude.{◌≡◌, ◌↔◌, ◌++◌, true, IfOk, OnOk};
ghost use Rattle.std.specs.List.{filter_map};
ghost use Rattle.std.specs.Option.{option_copied, option_to_list};
ghost use Rattle.st_ids.specs.Listing.{Has};
ghost use Rattle.st_ids.specs.Order.{same_node};
ghost use Rattle.st_ids.specs.declared.names.FieldId.{FieldId as Field};
ghost use Rattle.st_ids.specs.declared.names.Rev.{Rev};
ghost use Rattle.st_marks.specs.Back.{IsBack};
ghost use Rattle.st_marks.specs.Extends.{IsExtendedBy};
ghost use Rattle.st_marks.specs.Intent.{same_option};
ghost use Rattle.st_doc.specs.Doc.{document_of};
ghost use Rattle.st_heads.specs.Remembered.{intent_of_way};
ghost use Rattle.st_heads.specs.inside.Between.{changed_field, differs, put_between, stands_in_old, target_between};

use crate::back::{is_in, leads_to_place, push_field, to_place_of};
use crate::ways::Way;
use st_doc::Doc;
use st_ids::{FieldId, List, NodeId, is_same_node};
use st_marks::{Put, Spot, To};
use std::alloc::{AllocError, Global};

// Whether a node stands in a field of a node that the document before has.
fn stands_in_old(before: &Doc, after: &Doc, node: NodeId) -> bool
    ensures { result ≡ stands_in_old (document_of before.now) (document_of after.now) node }
{
    match after.place(node) {
        None => false,
        Some(Spot::Nowhere) => false,
        Some(Spot::Row { node: row, .. }) => is_in(before, *row),
        Some(Spot::Register(field)) => is_in(before, field.node),
    }
}

// Where the put of a node leads that goes back.
fn target_between(alloc: Global, before: &Doc, after: &Doc, node: NodeId) -> Result<To, AllocError>
    ensures { IfOk result (λ to. to ≡ target_between (document_of before.now) (document_of after.now) node) }
{
    if is_in(before, node) {
        return to_place_of(alloc, before, node);
    }
    if stands_in_old(before, after, node) {
        return Ok(To::Nowhere);
    }
    to_place_of(alloc, after, node)
}

// The put of a node whose place differs.
fn put_between(
    alloc: Global,
    before: &Doc,
    after: &Doc,
    node: NodeId,
) -> Result<Option<Put>, AllocError>
    ensures { IfOk result (λ p. p ≡ put_between (document_of before.now) (document_of after.now) node) }
{
    let to = target_between(alloc, before, after, node)?;
    if leads_to_place(after, node, &to) {
        return Ok(None);
    }
    Ok(Some(Put { node, to }))
}

// Puts a put behind others, if there is one.
fn push_if_put(puts: &mut List<Put>, put: Option<Put>) -> Result<(), AllocError>
    ensures { OnOk result (puts.new ≡ puts.old ++ option_to_list put) }
{
    match put {
        None => Ok(()),
        Some(put) => {
            puts.push(put)?;
            Ok(())
        }
    }
}

// The puts of the nodes whose places differ.
fn puts_between(
    alloc: Global,
    before: &Doc,
    after: &Doc,
    nodes: &[NodeId],
) -> Result<List<Put>, AllocError>
    ensures { IfOk result (λ ps. ps ≡ filter_map (put_between (document_of before.now) (document_of after.now)) nodes.now) }
{
    let mut puts = List::new(alloc);
    for node in nodes {
        let put = put_between(alloc, before, after, *node)?;
        push_if_put(&mut puts, put)?;
    }
    Ok(puts)
}

// Whether two occupants are the same, or neither is there.
fn is_same_occupant(a: Option<NodeId>, b: Option<NodeId>) -> bool
    ensures { result ≡ same_option same_node a b }
{
    match (a, b) {
        (None, None) => true,
        (Some(a), Some(b)) => is_same_node(a, b),
        _ => false,
    }
}

// Whether the occupant of a register of a node that the document before has differs.
fn differs(before: &Doc, after: &Doc, field: &FieldId) -> bool
    ensures { result ≡ differs (document_of before.now) (document_of after.now) field.now }
{
    is_in(before, field.node) && !is_same_occupant(before.held(field), after.held(field))
}

// The register, if its occupant differs.
fn changed_field<'a>(before: &Doc, after: &Doc, field: &'a FieldId) -> Option<&'a FieldId>
    ensures { option_copied result ≡ changed_field (document_of before.now) (document_of after.now) field.now }
{
    if differs(before, after, field) {
        Some(field)
    } else {
        None
    }
}

// Puts the registers whose occupants differ behind others.
fn push_changed(
    alloc: Global,
    fields: &mut List<FieldId>,
    before: &Doc,
    after: &Doc,
    among: &[FieldId],
) -> Result<(), AllocError>
    ensures { OnOk result (fields.new ≡ fields.old ++ filter_map (changed_field (document_of before.now) (document_of after.now)) among.now) }
{
    for field in among {
        push_field(alloc, fields, changed_field(before, after, field))?;
    }
    Ok(())
}

// The registers whose occupants differ; one may be listed twice.
fn fields_between(alloc: Global, before: &Doc, after: &Doc) -> Result<List<FieldId>, AllocError>
    ensures { IfOk result (λ fs. (f : Field) → Has fs f ↔ (differs (document_of before.now) (document_of after.now) f ≡ true)) }
{
    let held_before = before.occupied_registers(alloc)?;
    let held_after = after.occupied_registers(alloc)?;
    let mut fields = List::new(alloc);
    push_changed(alloc, &mut fields, before, after, held_before.as_slice())?;
    push_changed(alloc, &mut fields, before, after, held_after.as_slice())?;
    Ok(fields)
}

/// The way back from a document to an earlier one that it extends, told by the two alone. It goes through all nodes and
/// registers of both, in O(d log d) for d names: the yardstick of `way_back`, which needs the commit and the document
/// before it.
pub fn way_between(alloc: Global, before: &Doc, after: &Doc) -> Result<Way, AllocError>
    requires { IsExtendedBy (document_of before.now) (document_of after.now) }
    ensures { IfOk result (λ w. (rev under : Rev) → IsBack (document_of before.now) (document_of after.now) rev under (intent_of_way w rev under)) }
{
    let nodes = after.nodes(alloc)?;
    let put = puts_between(alloc, before, after, nodes.as_slice())?;
    let clear = fields_between(alloc, before, after)?;
    Ok(Way { clear, put })
}
