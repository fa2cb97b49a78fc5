//! Which rows and registers may be listed.
ghost use Rattle.std.specs.Prelude.{◌≡◌, ◌||◌, true, cond, map, IfOk, OnOk};
ghost use Rattle.std.specs.BTreeSet.{contains};
ghost use Rattle.std.specs.List.{list_any};
ghost use Rattle.std.specs.Ordering.{is_eq};
ghost use Rattle.st_ids.specs.Order.{field_cmp, node_cmp, same_field, same_node};
ghost use Rattle.st_ids.specs.declared.names.FieldId.{FieldId as Register};
ghost use Rattle.st_ids.specs.declared.names.NodeId.{NodeId as Node};
ghost use Rattle.st_marks.specs.Embedding.{is_among};
ghost use Rattle.st_marks.specs.Intent.{clears, is_new};
ghost use Rattle.st_doc.specs.Doc.{document_of};
ghost use Rattle.st_embed.specs.inside.Standing.{is_register_of, is_row_of};

use st_doc::Doc;
use st_ids::{Copied, FieldId, NodeId};
use st_marks::{Group, Intent, NewNode, Spot};
use std::alloc::{AllocError, Global};
use std::collections::BTreeSet;

/// Puts a name into a set.
pub fn add<K: Ord + Drop>(set: &mut BTreeSet<K>, key: K) -> Result<(), AllocError>
    ensures { OnOk result ((q : K) → contains K.cmp set.new q
        ≡ cond (is_eq (K.cmp key q)) true (contains K.cmp set.old q)) }
{
    set.insert(key)?;
    Ok(())
}

/// Adds nodes.
pub fn add_nodes(set: &mut BTreeSet<NodeId>, nodes: &[NodeId]) -> Result<(), AllocError>
    ensures { OnOk result ((n : Node) → contains node_cmp set.new n
        ≡ (contains node_cmp set.old n || is_among nodes.now n)) }
{
    for node in nodes {
        add(set, *node)?;
    }
    Ok(())
}

// Adds the nodes in whose rows groups are.
fn add_grouped(set: &mut BTreeSet<NodeId>, groups: &[Group]) -> Result<(), AllocError>
    ensures { OnOk result ((n : Node) → contains node_cmp set.new n
        ≡ (contains node_cmp set.old n || list_any (λ g. same_node g.node n) groups.now)) }
{
    for group in groups {
        add(set, group.node)?;
    }
    Ok(())
}

// Adds the node in whose row a node stands.
fn add_row_of(set: &mut BTreeSet<NodeId>, doc: &Doc, node: NodeId) -> Result<(), AllocError>
    ensures { OnOk result ((n : Node) → contains node_cmp set.new n
        ≡ (contains node_cmp set.old n || is_row_of n ((document_of doc.now).place node))) }
{
    if let Some(Spot::Row { node: row, .. }) = doc.place(node) {
        add(set, *row)?;
        return Ok(());
    }
    Ok(())
}

// Adds the nodes in whose rows some nodes stand.
fn add_rows_of(
    set: &mut BTreeSet<NodeId>,
    doc: &Doc,
    nodes: &BTreeSet<NodeId>,
) -> Result<(), AllocError>
    ensures { OnOk result ((n : Node) → contains node_cmp set.new n
        ≡ (contains node_cmp set.old n || list_any (λ m. is_row_of n ((document_of doc.now).place m)) nodes.now.keys)) }
{
    for node in nodes.iter() {
        add_row_of(set, doc, *node)?;
    }
    Ok(())
}

/// The nodes whose rows may be listed: those with groups, with cells that puts lead to, or in which mentioned nodes
/// stand.
pub fn rows_to_list(
    alloc: Global,
    doc: &Doc,
    intent: &Intent,
    mentioned: &BTreeSet<NodeId>,
    targets: &[NodeId],
) -> Result<BTreeSet<NodeId>, AllocError>
    ensures { IfOk result (λ s. (n : Node) → contains node_cmp s n
        ≡ ((list_any (λ g. same_node g.node n) intent.now.groups || is_among targets.now n)
        || list_any (λ m. is_row_of n ((document_of doc.now).place m)) mentioned.now.keys)) }
{
    let mut set = BTreeSet::new(alloc);
    add_grouped(&mut set, intent.groups.as_slice())?;
    add_nodes(&mut set, targets)?;
    add_rows_of(&mut set, doc, mentioned)?;
    Ok(set)
}

/// The nodes that an intent needs.
pub fn needed_nodes(alloc: Global, intent: &Intent) -> Result<BTreeSet<NodeId>, AllocError>
    ensures { IfOk result (λ s. (n : Node) → contains node_cmp s n ≡ is_among intent.now.need n) }
{
    let mut set = BTreeSet::new(alloc);
    add_nodes(&mut set, intent.need.as_slice())?;
    Ok(set)
}

// Adds the names of new nodes.
fn add_new(set: &mut BTreeSet<NodeId>, new: &[NewNode]) -> Result<(), AllocError>
    ensures { OnOk result ((n : Node) → contains node_cmp set.new n
        ≡ (contains node_cmp set.old n || list_any (λ m. same_node m.node n) new.now)) }
{
    for node in new {
        add(set, node.node)?;
    }
    Ok(())
}

/// The nodes that an intent makes.
pub fn new_nodes(alloc: Global, intent: &Intent) -> Result<BTreeSet<NodeId>, AllocError>
    ensures { IfOk result (λ s. (n : Node) → contains node_cmp s n
        ≡ list_any (λ m. same_node m.node n) intent.now.new) }
{
    let mut set = BTreeSet::new(alloc);
    add_new(&mut set, intent.new.as_slice())?;
    Ok(set)
}

// Adds the register in which a node stands.
fn add_register_of(
    alloc: Global,
    set: &mut BTreeSet<FieldId>,
    doc: &Doc,
    node: NodeId,
) -> Result<(), AllocError>
    ensures { OnOk result ((f : Register) → contains field_cmp set.new f
        ≡ (contains field_cmp set.old f || is_register_of f ((document_of doc.now).place node))) }
{
    if let Some(Spot::Register(field)) = doc.place(node) {
        add(set, field.copy(alloc)?)?;
        return Ok(());
    }
    Ok(())
}

// Adds the registers in which some nodes stand.
fn add_registers_of(
    alloc: Global,
    set: &mut BTreeSet<FieldId>,
    doc: &Doc,
    nodes: &BTreeSet<NodeId>,
) -> Result<(), AllocError>
    ensures { OnOk result ((f : Register) → contains field_cmp set.new f
        ≡ (contains field_cmp set.old f || list_any (λ m. is_register_of f ((document_of doc.now).place m)) nodes.now.keys)) }
{
    for node in nodes.iter() {
        add_register_of(alloc, set, doc, *node)?;
    }
    Ok(())
}

/// Adds registers.
pub fn add_cleared(
    alloc: Global,
    set: &mut BTreeSet<FieldId>,
    fields: &[FieldId],
) -> Result<(), AllocError>
    ensures { OnOk result ((f : Register) → contains field_cmp set.new f
        ≡ (contains field_cmp set.old f || list_any (λ g. same_field g f) fields.now)) }
{
    for field in fields {
        add(set, field.copy(alloc)?)?;
    }
    Ok(())
}

/// The registers that may be listed: those that are cleared, or in which mentioned nodes stand.
pub fn registers_to_list(
    alloc: Global,
    doc: &Doc,
    intent: &Intent,
    mentioned: &BTreeSet<NodeId>,
) -> Result<BTreeSet<FieldId>, AllocError>
    ensures { IfOk result (λ s. (f : Register) → contains field_cmp s f
        ≡ (clears intent.now f || list_any (λ m. is_register_of f ((document_of doc.now).place m)) mentioned.now.keys)) }
{
    let mut set = BTreeSet::new(alloc);
    add_cleared(alloc, &mut set, intent.clear.as_slice())?;
    add_registers_of(alloc, &mut set, doc, mentioned)?;
    Ok(set)
}
