//! A register, and a node that is nowhere, as a change lists them.
ghost use Rattle.std.specs.Prelude.{◌≡◌, Bool, IfOk};
ghost use Rattle.st_ids.specs.declared.names.NodeId.{NodeId as Node};
ghost use Rattle.std.specs.BTreeMap.{get};
ghost use Rattle.std.specs.BTreeSet.{contains};
ghost use Rattle.st_ids.specs.Order.{field_cmp, node_cmp, same_node};
ghost use Rattle.st_marks.specs.declared.intents.To.{To as Target};
ghost use Rattle.st_marks.specs.Embedding.{is_loose, is_nowhere};
ghost use Rattle.st_marks.specs.Intent.{same_option};
ghost use Rattle.st_marks.specs.Register.{comes_in, embed_register, holds_mentioned, how_held};
ghost use Rattle.st_marks.specs.Row.{how, same_to};
ghost use Rattle.st_doc.specs.Doc.{document_of};
ghost use Rattle.st_embed.specs.inside.Wants.{loose_in, part_in_register, register_in};

use crate::rows::here_or_leave;
use crate::wants::{Wants, target_of};
use st_doc::Doc;
use st_ids::{Copied, FieldId, NodeId, ROOT, is_same_field, is_same_node};
use st_marks::{How, Loose, RegMark, Spot, To};
use std::alloc::{AllocError, Global};
use std::collections::BTreeSet;

// Whether a put leads to a register.
fn leads_to_register(to: &To, field: &FieldId) -> bool
    ensures { result ≡ same_to to.now (Target.Register field.now) }
{
    match to {
        To::Register(other) => is_same_field(other, field),
        _ => false,
    }
}

// What becomes of a node that stands in a register.
fn how_in_register(wants: &Wants, node: NodeId, field: &FieldId) -> How
    ensures { result ≡ how (get node_cmp wants.now.targets node) (Target.Register field.now) }
{
    match target_of(wants, node) {
        None => How::Stay,
        Some(to) => here_or_leave(leads_to_register(to, field)),
    }
}

// What becomes of the occupant of a register.
fn how_held(wants: &Wants, held: Option<NodeId>, field: &FieldId) -> How
    ensures { (m : Node → Bool) → result
        ≡ how_held field.now (part_in_register wants.now m field.now) held }
{
    match held {
        None => How::Stay,
        Some(node) => how_in_register(wants, node, field),
    }
}

/// Whether two occupants are the same, or neither is there.
pub fn is_same_occupant(a: Option<NodeId>, b: Option<NodeId>) -> bool
    ensures { result ≡ same_option same_node a b }
{
    match (a, b) {
        (None, None) => true,
        (Some(a), Some(b)) => is_same_node(a, b),
        _ => false,
    }
}

// Which node comes in, unless it is there already.
fn comes_in(held: Option<NodeId>, fill: Option<NodeId>) -> Option<NodeId>
    ensures { result ≡ comes_in held fill }
{
    if is_same_occupant(held, fill) {
        None
    } else {
        fill
    }
}

// Who is put into a register.
fn fill_of(wants: &Wants, field: &FieldId) -> Option<NodeId>
    ensures { result ≡ get field_cmp wants.now.fills field.now }
{
    wants.fills.get(field).copied()
}

// Whether a register is cleared.
fn is_cleared(wants: &Wants, field: &FieldId) -> bool
    ensures { result ≡ contains field_cmp wants.now.clear field.now }
{
    wants.clear.contains(field)
}

/// Whether a mentioned node is in a register.
pub fn holds_mentioned(mentioned: &BTreeSet<NodeId>, held: Option<NodeId>) -> bool
    ensures { result ≡ holds_mentioned (contains node_cmp mentioned.now) held }
{
    match held {
        None => false,
        Some(node) => mentioned.contains(&node),
    }
}

// What is said of a register that is listed.
fn reg_mark(
    alloc: Global,
    wants: &Wants,
    held: Option<NodeId>,
    field: &FieldId,
) -> Result<RegMark, AllocError>
    ensures field { IfOk result (λ r. r.field ≡ field.now) }
    ensures held { IfOk result (λ r. r.held ≡ held) }
    ensures how { IfOk result (λ r. (m : Node → Bool) → r.how
        ≡ how_held field.now (part_in_register wants.now m field.now) held) }
    ensures clear { IfOk result (λ r. r.clear ≡ contains field_cmp wants.now.clear field.now) }
    ensures fill { IfOk result (λ r. r.fill ≡ comes_in held (get field_cmp wants.now.fills field.now)) }
{
    let how = how_held(wants, held, field);
    let fill = comes_in(held, fill_of(wants, field));
    let clear = is_cleared(wants, field);
    let field = field.copy(alloc)?;
    Ok(RegMark {
        field,
        held,
        how,
        clear,
        fill,
    })
}

/// A register, if it is listed.
pub fn listed_register(
    alloc: Global,
    doc: &Doc,
    wants: &Wants,
    mentioned: &BTreeSet<NodeId>,
    field: &FieldId,
) -> Result<Option<RegMark>, AllocError>
    ensures { IfOk result (λ r. r ≡ register_in wants.now
        (contains node_cmp mentioned.now) (document_of doc.now) field.now) }
{
    let held = doc.held(field);
    if is_cleared(wants, field) || holds_mentioned(mentioned, held) {
        return Ok(Some(reg_mark(alloc, wants, held, field)?));
    }
    Ok(None)
}

/// Whether a node is nowhere.
pub fn is_nowhere(doc: &Doc, node: NodeId) -> bool
    ensures { result ≡ is_nowhere ((document_of doc.now).place node) }
{
    match doc.place(node) {
        None => true,
        Some(Spot::Nowhere) => true,
        _ => false,
    }
}

// Whether a put leads nowhere.
fn leads_nowhere(to: &To) -> bool
    ensures { result ≡ same_to to.now Target.Nowhere }
{
    match to {
        To::Nowhere => true,
        _ => false,
    }
}

// What becomes of a node that is nowhere.
fn how_nowhere(wants: &Wants, node: NodeId) -> How
    ensures { result ≡ how (get node_cmp wants.now.targets node) Target.Nowhere }
{
    match target_of(wants, node) {
        None => How::Stay,
        Some(to) => here_or_leave(leads_nowhere(to)),
    }
}

/// Whether a node is mentioned, is nowhere, and is not the root.
pub fn is_loose(doc: &Doc, mentioned: &BTreeSet<NodeId>, node: NodeId) -> bool
    ensures { result ≡ is_loose (contains node_cmp mentioned.now) (document_of doc.now) node }
{
    mentioned.contains(&node) && is_nowhere(doc, node) && !is_same_node(node, ROOT)
}

/// A node that is nowhere, if it is listed.
pub fn listed_loose(
    doc: &Doc,
    wants: &Wants,
    mentioned: &BTreeSet<NodeId>,
    node: NodeId,
) -> Option<Loose>
    ensures { result ≡ loose_in wants.now (contains node_cmp mentioned.now) (document_of doc.now) node }
{
    if !is_loose(doc, mentioned, node) {
        return None;
    }
    Some(Loose {
        node,
        how: how_nowhere(wants, node),
    })
}
