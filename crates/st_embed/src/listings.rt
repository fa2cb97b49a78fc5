//! The listings of a change.
ghost use Rattle.std.specs.Prelude.{◌≡◌, IfOk, Some, None, if◌then◌else◌, option_and_then};
ghost use Rattle.std.specs.BTreeSet.{contains};
ghost use Rattle.std.specs.List.{filter_map};
ghost use Rattle.st_ids.specs.Listing.{IsListing};
ghost use Rattle.st_ids.specs.Order.{field_cmp, node_cmp};
ghost use Rattle.st_ids.specs.declared.names.NodeId.{NodeId as Node};
ghost use Rattle.st_marks.specs.declared.changes.NewNode.{NewNode as NewOne};
ghost use Rattle.st_marks.specs.declared.intents.Put.{Put as PutOf};
ghost use Rattle.st_marks.specs.declared.marks.Loose.{Loose as LooseOne};
ghost use Rattle.st_marks.specs.declared.marks.RegMark.{RegMark as Register};
ghost use Rattle.st_marks.specs.declared.marks.RowMarks.{RowMarks as Row};
ghost use Rattle.st_marks.specs.Document.{IsSoundInForm, content};
ghost use Rattle.st_marks.specs.Embedding.{embed_loose, is_among, register_part, row_marks, row_part};
ghost use Rattle.st_marks.specs.Intent.{cell_of, new_node};
ghost use Rattle.st_marks.specs.Register.{embed_register};
ghost use Rattle.st_marks.specs.Row.{embed_row};
ghost use Rattle.st_doc.specs.Doc.{document_of};
ghost use Rattle.st_embed.specs.inside.Rows.{targets_in};
ghost use Rattle.st_embed.specs.inside.Wants.{AreWants};

use crate::lists::{listed_registers, listed_rows, loose_nodes, names_in, new_in};
use crate::sets::{needed_nodes, new_nodes, registers_to_list, rows_to_list};
use crate::wants::{Wants, new_by_name};
use st_doc::Doc;
use st_ids::{List, NodeId};
use st_marks::{Intent, Loose, NewNode, RegMark, RowMarks};
use std::alloc::{AllocError, Global};
use std::collections::BTreeSet;

/// The rows.
pub fn rows_of(
    alloc: Global,
    doc: &Doc,
    intent: &Intent,
    wants: &Wants,
    mentioned: &BTreeSet<NodeId>,
    targets: &[NodeId],
) -> Result<List<RowMarks>, AllocError>
    requires sound { IsSoundInForm (document_of doc.now) }
    requires wants { AreWants intent.now wants.now }
    requires targets { targets.now ≡ targets_in (document_of doc.now) intent.now }
    ensures { IfOk result (λ l. IsListing node_cmp (λ (r : Row). r.node) l
        (λ n. row_marks n (embed_row (row_part (contains node_cmp mentioned.now) intent.now n) (content (document_of doc.now) n)))) }
{
    let nodes = rows_to_list(alloc, doc, intent, mentioned, targets)?;
    let list = listed_rows(alloc, doc, wants, mentioned, &nodes)?;
    Ok(list)
}

/// The registers.
pub fn registers_of(
    alloc: Global,
    doc: &Doc,
    intent: &Intent,
    wants: &Wants,
    mentioned: &BTreeSet<NodeId>,
) -> Result<List<RegMark>, AllocError>
    requires sound { IsSoundInForm (document_of doc.now) }
    requires wants { AreWants intent.now wants.now }
    ensures { IfOk result (λ l. IsListing field_cmp (λ (r : Register). r.field) l
        (λ f. embed_register f (register_part (contains node_cmp mentioned.now) intent.now f) ((document_of doc.now).held f))) }
{
    let fields = registers_to_list(alloc, doc, intent, mentioned)?;
    let list = listed_registers(alloc, doc, wants, mentioned, &fields)?;
    Ok(list)
}

/// The mentioned nodes that are nowhere.
pub fn loose_of(
    alloc: Global,
    doc: &Doc,
    intent: &Intent,
    wants: &Wants,
    mentioned: &BTreeSet<NodeId>,
) -> Result<List<Loose>, AllocError>
    requires { AreWants intent.now wants.now }
    ensures { IfOk result (λ l. IsListing node_cmp (λ (x : LooseOne). x.node) l
        (embed_loose (contains node_cmp mentioned.now) (document_of doc.now) intent.now)) }
{
    let list = loose_nodes(alloc, doc, wants, mentioned)?;
    Ok(list)
}

/// The nodes that are needed.
pub fn need_of(alloc: Global, intent: &Intent) -> Result<List<NodeId>, AllocError>
    ensures { IfOk result (λ l. IsListing node_cmp (λ (n : Node). n) l (λ n. if is_among intent.now.need n then Some n else None)) }
{
    let nodes = needed_nodes(alloc, intent)?;
    let list = names_in(alloc, &nodes)?;
    Ok(list)
}

/// The new nodes.
pub fn new_of(alloc: Global, intent: &Intent) -> Result<List<NewNode>, AllocError>
    ensures { IfOk result (λ l. IsListing node_cmp (λ (m : NewOne). m.node) l (new_node intent.now)) }
{
    let map = new_by_name(alloc, intent)?;
    let nodes = new_nodes(alloc, intent)?;
    let list = new_in(alloc, &map, &nodes)?;
    Ok(list)
}
