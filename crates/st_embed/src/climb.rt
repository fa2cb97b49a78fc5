//! The nodes that an intent mentions.
ghost use Rattle.std.specs.Prelude.{◌≡◌, ◌↔◌, true, IfOk, OnOk, option_and_then};
ghost use Rattle.std.specs.BTreeSet.{contains};
ghost use Rattle.st_ids.specs.declared.names.NodeId.{NodeId as Node};
ghost use Rattle.st_ids.specs.Order.{node_cmp};
ghost use Rattle.st_marks.specs.Document.{IsSoundInForm, above as upwards};
ghost use Rattle.std.specs.List.{filter_map};
ghost use Rattle.st_marks.specs.declared.intents.Put.{Put as PutOf};
ghost use Rattle.st_marks.specs.Embedding.{IsMentionedByIntent};
ghost use Rattle.st_marks.specs.Intent.{Fits, cell_of};
ghost use Rattle.st_doc.specs.Doc.{document_of};
ghost use Rattle.st_embed.specs.inside.Rows.{targets_in};
ghost use Rattle.st_embed.specs.inside.Upwards.{AreAbove, GainsKnown, GainsUpwards, IsClosed};

use crate::look::{above, is_in};
use crate::named::named_nodes;
use crate::targets::target_rows;
use st_doc::Doc;
use st_ids::NodeId;
use st_marks::Intent;
use std::alloc::{AllocError, Global};
use std::collections::BTreeSet;

// Adds a node and all above it to a set that has all nodes above its own.
fn add_upwards(nodes: &mut BTreeSet<NodeId>, doc: &Doc, node: NodeId) -> Result<(), AllocError>
    requires { IsClosed (upwards (document_of doc.now)) (contains node_cmp nodes.old) }
    ensures { OnOk result (GainsUpwards (upwards (document_of doc.now))
        (contains node_cmp nodes.old) node (contains node_cmp nodes.new)) }
{
    let mut next = Some(node);
    while let Some(here) = next {
        if nodes.contains(&here) {
            break;
        }
        nodes.insert(here)?;
        next = above(doc, here);
    }
    Ok(())
}

// Adds a node and all above it, if the document has the node.
fn add_known(nodes: &mut BTreeSet<NodeId>, doc: &Doc, node: NodeId) -> Result<(), AllocError>
    requires { IsClosed (upwards (document_of doc.now)) (contains node_cmp nodes.old) }
    ensures { OnOk result (GainsKnown (document_of doc.now)
        (contains node_cmp nodes.old) node (contains node_cmp nodes.new)) }
{
    if !is_in(doc, node) {
        return Ok(());
    }
    add_upwards(nodes, doc, node)?;
    Ok(())
}

/// The names that a document has, and all nodes above them.
pub fn known_upwards(
    alloc: Global,
    doc: &Doc,
    names: &[NodeId],
) -> Result<BTreeSet<NodeId>, AllocError>
    ensures { IfOk result (λ s. AreAbove (document_of doc.now) names.now (contains node_cmp s)) }
{
    let mut nodes = BTreeSet::new(alloc);
    for node in names {
        add_known(&mut nodes, doc, *node)?;
    }
    Ok(nodes)
}

/// The nodes that an intent mentions, where `targets` are those in whose rows the cells are that its puts lead to.
pub fn mentioned_with(
    alloc: Global,
    doc: &Doc,
    intent: &Intent,
    targets: &[NodeId],
) -> Result<BTreeSet<NodeId>, AllocError>
    requires { targets.now ≡ targets_in (document_of doc.now) intent.now }
    ensures { IfOk result (λ s. (n : Node) → (contains node_cmp s n
        ≡ true) ↔ IsMentionedByIntent (document_of doc.now) intent.now n) }
{
    let names = named_nodes(alloc, intent, targets)?;
    known_upwards(alloc, doc, names.as_slice())
}

/// The nodes that an intent mentions: those that it puts or needs, those whose fields it names, and all nodes above
/// them. Each is visited once.
pub fn mentioned_nodes(
    alloc: Global,
    doc: &Doc,
    intent: &Intent,
) -> Result<BTreeSet<NodeId>, AllocError>
    requires sound { IsSoundInForm (document_of doc.now) }
    requires fits { Fits (document_of doc.now) intent.now }
    ensures { IfOk result (λ s. (n : Node) → (contains node_cmp s n
        ≡ true) ↔ IsMentionedByIntent (document_of doc.now) intent.now n) }
{
    let targets = target_rows(alloc, doc, intent)?;
    mentioned_with(alloc, doc, intent, targets.as_slice())
}
