//! The change of an intent in a document.
ghost use Rattle.std.specs.Prelude.{◌≡◌, ◌↔◌, ◌-◌, Bool, true, false, length, slice_get, IfOk, option_and_then};
ghost use Rattle.std.specs.BTreeSet.{contains};
ghost use Rattle.std.specs.List.{filter_map, list_any};
ghost use Rattle.std.specs.Option.{option_map_or};
ghost use Rattle.st_ids.specs.Order.{node_cmp, same_rev};
ghost use Rattle.st_ids.specs.declared.names.NodeId.{NodeId as Node};
ghost use Rattle.st_marks.specs.declared.intents.Put.{Put as PutOf};
ghost use Rattle.st_marks.specs.Document.{IsSoundInForm};
ghost use Rattle.st_marks.specs.Embedding.{IsEmbedding, IsMentionedByIntent};
ghost use Rattle.st_marks.specs.Intent.{Fits, cell_of};
ghost use Rattle.st_marks.specs.Verdict.{IsBaseInEffect};
ghost use Rattle.st_doc.specs.Doc.{document_of};
ghost use Rattle.st_embed.specs.inside.Fields.{AreFields};
ghost use Rattle.st_embed.specs.inside.Rows.{targets_in};
ghost use Rattle.st_embed.specs.inside.Wants.{AreWants};

use crate::climb::mentioned_with;
use crate::listings::{loose_of, need_of, new_of, registers_of, rows_of};
use crate::targets::target_rows;
use crate::wants::{Wants, wants_of};
use st_doc::Doc;
use st_ids::{Copied, List, NodeId, Rev, is_same_rev};
use st_marks::{Change, Intent, Loose, RegMark, RowMarks, SchemaEntry};
use std::alloc::{AllocError, Global};
use std::collections::BTreeSet;

/// What a change lists of rows, registers and loose nodes.
#[derive(Drop)]
pub struct Fields {
    pub rows: List<RowMarks>,
    pub regs: List<RegMark>,
    pub loose: List<Loose>,
}

// Whether a revision is among those of the entries.
fn has_rev(entries: &[SchemaEntry], rev: Rev) -> bool
    ensures { result ≡ list_any (λ e. same_rev e.rev rev) entries.now }
{
    entries.iter().any(|e| is_same_rev(e.rev, rev))
}

// Whether a revision is the last of those of the entries.
fn is_last_rev(entries: &[SchemaEntry], rev: Rev) -> bool
    ensures { result ≡ option_map_or (λ e. same_rev e.rev rev) (slice_get entries.now (length entries.now - 1)) false }
{
    match entries.last() {
        None => false,
        Some(entry) => is_same_rev(entry.rev, rev),
    }
}

// Whether the schema is in effect under which an intent was made.
fn has_base(doc: &Doc, intent: &Intent) -> bool
    ensures { (result ≡ true) ↔ IsBaseInEffect (document_of doc.now) intent.now }
{
    match &intent.schema {
        None => has_rev(doc.schemas(), intent.under),
        Some(_) => is_last_rev(doc.schemas(), intent.under),
    }
}

// The rows, the registers and the loose nodes.
fn fields_of(
    alloc: Global,
    doc: &Doc,
    intent: &Intent,
    wants: &Wants,
    mentioned: &BTreeSet<NodeId>,
    targets: &[NodeId],
) -> Result<Fields, AllocError>
    requires sound { IsSoundInForm (document_of doc.now) }
    requires wants { AreWants intent.now wants.now }
    requires targets { targets.now ≡ targets_in (document_of doc.now) intent.now }
    ensures { IfOk result (AreFields (document_of doc.now) intent.now
        (contains node_cmp mentioned.now)) }
{
    let rows = rows_of(alloc, doc, intent, wants, mentioned, targets)?;
    let regs = registers_of(alloc, doc, intent, wants, mentioned)?;
    let loose = loose_of(alloc, doc, intent, wants, mentioned)?;
    Ok(Fields { rows, regs, loose })
}

// The same, where nothing is kept of the intent yet.
fn listed_fields(
    alloc: Global,
    doc: &Doc,
    intent: &Intent,
    mentioned: &BTreeSet<NodeId>,
    targets: &[NodeId],
) -> Result<Fields, AllocError>
    requires sound { IsSoundInForm (document_of doc.now) }
    requires targets { targets.now ≡ targets_in (document_of doc.now) intent.now }
    ensures { IfOk result (AreFields (document_of doc.now) intent.now
        (contains node_cmp mentioned.now)) }
{
    let wants = wants_of(alloc, intent)?;
    fields_of(alloc, doc, intent, &wants, mentioned, targets)
}

// The change with these rows, registers and loose nodes.
fn change_with(
    alloc: Global,
    doc: &Doc,
    intent: &Intent,
    fields: Fields,
) -> Result<Change, AllocError>
    ensures { (m : Node → Bool) → ((n : Node) → (m n
        ≡ true) ↔ IsMentionedByIntent (document_of doc.now) intent.now n)
        → AreFields (document_of doc.now) intent.now m fields → IfOk result (IsEmbedding (document_of doc.now) intent.now) }
{
    let need = need_of(alloc, intent)?;
    let new = new_of(alloc, intent)?;
    let schema = intent.schema.copy(alloc)?;
    let Fields { rows, regs, loose } = fields;
    Ok(Change {
        rev: intent.rev,
        under: intent.under,
        base: has_base(doc, intent),
        need,
        new,
        rows,
        regs,
        loose,
        schema,
    })
}

/// The change that lists an intent in a document: each row and each register that the intent touches, or in which a
/// node stands that it mentions, rows whole. No other row is gone through, unless the intent puts a node into an old
/// cell, whose row has to be looked for. A change of schema lists nothing.
pub fn embed(alloc: Global, doc: &Doc, intent: &Intent) -> Result<Change, AllocError>
    requires sound { IsSoundInForm (document_of doc.now) }
    requires fits { Fits (document_of doc.now) intent.now }
    ensures { IfOk result (IsEmbedding (document_of doc.now) intent.now) }
{
    let targets = target_rows(alloc, doc, intent)?;
    let mentioned = mentioned_with(alloc, doc, intent, targets.as_slice())?;
    let fields = listed_fields(alloc, doc, intent, &mentioned, targets.as_slice())?;
    change_with(alloc, doc, intent, fields)
}
