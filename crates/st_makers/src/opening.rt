//! The homes of the nodes of an opening document: the registers in which they stand.
ghost use Rattle.std.specs.Prelude.{◌≡◌, [], cond, IfOk, None, OnOk, Some};
ghost use Rattle.std.specs.BTreeMap.{get};
ghost use Rattle.std.specs.List.{find};
ghost use Rattle.std.specs.Option.{option_or};
ghost use Rattle.st_ids.specs.Order.{node_cmp, same_node};
ghost use Rattle.st_ids.specs.declared.names.NodeId.{NodeId as Node};
ghost use Rattle.st_doc.specs.Doc.{document_of};
ghost use Rattle.st_marks.specs.Document.{IsSoundInForm};
ghost use Rattle.st_edits.specs.Keeping.{home_of};
ghost use Rattle.st_makers.specs.inside.Homes.{stands_in};

use st_doc::Doc;
use st_ids::{Copied, FieldId, NodeId, OPENING, is_same_rev};
use std::alloc::{AllocError, Global};
use std::collections::BTreeMap;

// Says that a node has a register as its home, where nothing is said of the node yet.
#[tactic(auto, unfolding(st_ids::specs::Order::same_node))]
fn add_home(
    alloc: Global,
    homes: &mut BTreeMap<NodeId, FieldId>,
    node: NodeId,
    field: &FieldId,
) -> Result<(), AllocError>
    ensures { OnOk result ((n : Node) → get node_cmp homes.new n
        ≡ option_or (get node_cmp homes.old n) (cond (same_node node n) (Some field.now) None)) }
{
    if homes.contains_key(&node) {
        return Ok(());
    }
    let field = field.copy(alloc)?;
    homes.insert(node, field)?;
    Ok(())
}

// The same of the node that stands in the register, if it is the opening's.
fn add_register(
    alloc: Global,
    homes: &mut BTreeMap<NodeId, FieldId>,
    doc: &Doc,
    field: &FieldId,
) -> Result<(), AllocError>
    ensures { OnOk result ((n : Node) → get node_cmp homes.new n
        ≡ option_or (get node_cmp homes.old n)
        (cond (stands_in (document_of doc.now) n field.now) (Some field.now) None)) }
{
    let Some(node) = doc.held(field) else {
        return Ok(());
    };
    if is_same_rev(node.0.rev, OPENING) {
        add_home(alloc, homes, node, field)?;
    }
    Ok(())
}

// The same of the nodes that stand in some registers.
fn add_registers(
    alloc: Global,
    homes: &mut BTreeMap<NodeId, FieldId>,
    doc: &Doc,
    fields: &[FieldId],
) -> Result<(), AllocError>
    ensures { OnOk result ((n : Node) → get node_cmp homes.new n
        ≡ option_or (get node_cmp homes.old n) (find (stands_in (document_of doc.now) n) fields.now)) }
{
    for field in fields {
        add_register(alloc, homes, doc, field)?;
    }
    Ok(())
}

/// The homes of the nodes of an opening document.
pub fn opening_homes(alloc: Global, doc: &Doc) -> Result<BTreeMap<NodeId, FieldId>, AllocError>
    requires { IsSoundInForm (document_of doc.now) }
    ensures { IfOk result (λ homes. (n : Node) → get node_cmp homes n ≡ home_of (document_of doc.now) [] n) }
{
    let fields = doc.occupied_registers(alloc)?;
    let mut homes = BTreeMap::new(alloc);
    add_registers(alloc, &mut homes, doc, fields.as_slice())?;
    Ok(homes)
}
