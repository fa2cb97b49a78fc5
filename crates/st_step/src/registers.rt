//! The registers of a step, and the nodes that are nowhere.
ghost use Rattle.std.specs.Prelude.{◌≡◌, ◌||◌, IfOk, is_some};
ghost use Rattle.std.specs.BTreeSet.{contains, IsOrdered};
ghost use Rattle.std.specs.List.{filter_map, list_any};
ghost use Rattle.st_ids.specs.Listing.{IsListing};
ghost use Rattle.st_ids.specs.Order.{field_cmp, node_cmp, same_field};
ghost use Rattle.st_ids.specs.declared.names.FieldId.{FieldId as Field};
ghost use Rattle.st_marks.specs.declared.marks.Loose.{Loose as LooseOne};
ghost use Rattle.st_marks.specs.declared.marks.RegStep.{RegStep as Register};
ghost use Rattle.st_marks.specs.Register.{step_register};
ghost use Rattle.st_marks.specs.Step.{step_loose};
ghost use Rattle.st_doc.specs.Doc.{document_of};

use st_doc::Doc;
use st_embed::{
    add_cleared, holds_mentioned, is_loose, is_nowhere, is_same_occupant, push_if_some,
};
use st_ids::{Copied, FieldId, List, NodeId};
use st_marks::{How, Loose, RegStep};
use std::alloc::{AllocError, Global};
use std::collections::BTreeSet;

// The set of the registers of two lists.
fn set_of(
    alloc: Global,
    before: &[FieldId],
    after: &[FieldId],
) -> Result<BTreeSet<FieldId>, AllocError>
    ensures { IfOk result (λ s. (f : Field) → contains field_cmp s f
        ≡ (list_any (λ g. same_field g f) before.now || list_any (λ g. same_field g f) after.now)) }
{
    let mut set = BTreeSet::new(alloc);
    add_cleared(alloc, &mut set, before)?;
    add_cleared(alloc, &mut set, after)?;
    Ok(set)
}

// The registers that are occupied in one of both documents.
fn occupied(alloc: Global, doc: &Doc, later: &Doc) -> Result<BTreeSet<FieldId>, AllocError>
    ensures { IfOk result (λ s. (f : Field) → contains field_cmp s f
        ≡ (is_some ((document_of doc.now).held f) || is_some ((document_of later.now).held f))) }
{
    let before = doc.occupied_registers(alloc)?;
    let after = later.occupied_registers(alloc)?;
    let set = set_of(alloc, before.as_slice(), after.as_slice())?;
    Ok(set)
}

// A register, if it is listed.
fn listed_register(
    alloc: Global,
    doc: &Doc,
    later: &Doc,
    mentioned: &BTreeSet<NodeId>,
    field: &FieldId,
) -> Result<Option<RegStep>, AllocError>
    ensures { IfOk result (λ r. r ≡ step_register field.now (contains node_cmp mentioned.now)
        ((document_of doc.now).held field.now) ((document_of later.now).held field.now)) }
{
    let before = doc.held(field);
    let after = later.held(field);
    if !is_same_occupant(before, after) || holds_mentioned(mentioned, before) {
        let field = field.copy(alloc)?;
        return Ok(Some(RegStep {
            field,
            before,
            after,
        }));
    }
    Ok(None)
}

// The registers among some that are listed.
fn listed_registers(
    alloc: Global,
    doc: &Doc,
    later: &Doc,
    mentioned: &BTreeSet<NodeId>,
    fields: &BTreeSet<FieldId>,
) -> Result<List<RegStep>, AllocError>
    ensures registers { IfOk result (λ l. l ≡ filter_map (λ f. step_register f (contains node_cmp mentioned.now)
        ((document_of doc.now).held f) ((document_of later.now).held f)) fields.now.keys) }
    ensures ordered { IfOk result (λ l. IsOrdered field_cmp fields.now) }
{
    let mut list = List::new(alloc);
    for field in fields.iter() {
        let register = listed_register(alloc, doc, later, mentioned, field)?;
        push_if_some(&mut list, register)?;
    }
    Ok(list)
}

/// The registers. All that are occupied in one of both documents are gone through.
pub fn registers_of(
    alloc: Global,
    doc: &Doc,
    later: &Doc,
    mentioned: &BTreeSet<NodeId>,
) -> Result<List<RegStep>, AllocError>
    ensures { IfOk result (λ l. IsListing field_cmp (λ (r : Register). r.field) l
        (λ f. step_register f (contains node_cmp mentioned.now)
        ((document_of doc.now).held f) ((document_of later.now).held f))) }
{
    let fields = occupied(alloc, doc, later)?;
    let list = listed_registers(alloc, doc, later, mentioned, &fields)?;
    Ok(list)
}

// A node that is nowhere, if it is listed.
fn listed_loose(doc: &Doc, later: &Doc, mentioned: &BTreeSet<NodeId>, node: NodeId) -> Option<Loose>
    ensures { result ≡ step_loose (contains node_cmp mentioned.now)
        (document_of doc.now) (document_of later.now) node }
{
    if !is_loose(doc, mentioned, node) {
        return None;
    }
    let how = if is_nowhere(later, node) {
        How::Stay
    } else {
        How::Leave
    };
    Some(Loose { node, how })
}

// The mentioned nodes that are nowhere.
fn loose_nodes(
    alloc: Global,
    doc: &Doc,
    later: &Doc,
    mentioned: &BTreeSet<NodeId>,
) -> Result<List<Loose>, AllocError>
    ensures loose { IfOk result (λ l. l ≡ filter_map (step_loose (contains node_cmp mentioned.now)
        (document_of doc.now) (document_of later.now)) mentioned.now.keys) }
    ensures ordered { IfOk result (λ l. IsOrdered node_cmp mentioned.now) }
{
    let mut list = List::new(alloc);
    for node in mentioned.iter() {
        push_if_some(&mut list, listed_loose(doc, later, mentioned, *node))?;
    }
    Ok(list)
}

/// The mentioned nodes that are nowhere.
pub fn loose_of(
    alloc: Global,
    doc: &Doc,
    later: &Doc,
    mentioned: &BTreeSet<NodeId>,
) -> Result<List<Loose>, AllocError>
    ensures { IfOk result (λ l. IsListing node_cmp (λ (x : LooseOne). x.node) l
        (step_loose (contains node_cmp mentioned.now) (document_of doc.now) (document_of later.now))) }
{
    let list = loose_nodes(alloc, doc, later, mentioned)?;
    Ok(list)
}
