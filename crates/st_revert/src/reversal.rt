//! The change that takes a step back.
ghost use Rattle.std.specs.Prelude.{◌≡◌, ◌↔◌, ◌&&◌, Bool, false, not, map, None, is_some, IfOk, IsTrue, if◌then◌else◌};
ghost use Rattle.std.specs.BTreeSet.{contains};
ghost use Rattle.std.specs.List.{list_any};
ghost use Rattle.st_ids.specs.Listing.{Has};
ghost use Rattle.st_ids.specs.Order.{node_cmp, same_node, same_rev};
ghost use Rattle.st_marks.specs.declared.changes.Change.{Change as Listed};
ghost use Rattle.st_marks.specs.declared.intents.Intent.{Intent};
ghost use Rattle.st_marks.specs.declared.marks.How.TheVariants.{Stay, Leave};
ghost use Rattle.st_marks.specs.declared.schemas.SchemaEntry.{SchemaEntry as Entry};
ghost use Rattle.st_marks.specs.Back.{IsBack};
ghost use Rattle.st_marks.specs.Document.{Document, revs};
ghost use Rattle.st_marks.specs.Embedding.{IsEmbedding};
ghost use Rattle.st_marks.specs.Extends.{IsExtendedBy};
ghost use Rattle.st_marks.specs.Intent.{same_option};
ghost use Rattle.st_marks.specs.Step.{IsStep};
ghost use Rattle.st_marks.specs.Verdict.{IsBaseInEffect};
ghost use Rattle.st_mention_laws.specs.Shown.{Shows, ShowsStep};
ghost use Rattle.st_steps.specs.Short.{HasShortRowsListed};
ghost use Rattle.st_revert.specs.Reversal.{has_rev as has_rev_told, takes_out as takes_out_told};
ghost use Rattle.st_revert.specs.inside.ReadBack.{mark_back as mark_told, read_back};

use st_climb::new_names;
use st_ids::{Copied, List, NodeId, Rev, is_same_node, is_same_rev};
use st_marks::{Change, How, RegMark, RegStep, SchemaEntry, SchemaStep, Step};
use st_steps::invert;
use std::alloc::{AllocError, Global};
use std::collections::BTreeSet;

// Whether a register has one occupant before and after, or none.
fn is_same_occupant(before: Option<NodeId>, after: Option<NodeId>) -> bool
    ensures { result ≡ same_option same_node before after }
{
    match (before, after) {
        (None, None) => true,
        (Some(before), Some(after)) => is_same_node(before, after),
        _ => false,
    }
}

// What becomes of the occupant of a register that differs.
fn how_left(before: Option<NodeId>) -> How
    ensures { result ≡ (if is_some before then Leave else Stay) }
{
    match before {
        None => How::Stay,
        Some(_) => How::Leave,
    }
}

// A register of the way back that doesn't differ, as a change has it.
fn mark_kept(alloc: Global, reg: &RegStep) -> Result<RegMark, AllocError>
    ensures { IfOk result (λ r. r ≡ record { field = reg.now.field; held = reg.now.before; how = Stay; clear = false; fill = None }) }
{
    Ok(RegMark {
        field: reg.field.copy(alloc)?,
        held: reg.before,
        how: How::Stay,
        clear: false,
        fill: None,
    })
}

// A register of the way back that differs, as a change has it.
fn mark_changed(alloc: Global, new: &BTreeSet<NodeId>, reg: &RegStep) -> Result<RegMark, AllocError>
    ensures { IfOk result (λ r. r ≡ record {
      field = reg.now.field;
      held = reg.now.before;
      how = if is_some reg.now.before then Leave else Stay;
      clear = not (contains node_cmp new.now reg.now.field.node);
      fill = reg.now.after;
    }) }
{
    Ok(RegMark {
        field: reg.field.copy(alloc)?,
        held: reg.before,
        how: how_left(reg.before),
        clear: !new.contains(&reg.field.node),
        fill: reg.after,
    })
}

// A register of the way back, as a change has it.
fn mark_back(alloc: Global, new: &BTreeSet<NodeId>, reg: &RegStep) -> Result<RegMark, AllocError>
    ensures { IfOk result (λ r. r ≡ mark_told (contains node_cmp new.now) reg.now) }
{
    if is_same_occupant(reg.before, reg.after) {
        mark_kept(alloc, reg)
    } else {
        mark_changed(alloc, new, reg)
    }
}

// The registers of the way back, as a change has them.
fn marks_back(
    alloc: Global,
    new: &BTreeSet<NodeId>,
    regs: &[RegStep],
) -> Result<List<RegMark>, AllocError>
    ensures { IfOk result (λ l. l ≡ map (mark_told (contains node_cmp new.now)) regs.now) }
{
    let mut list = List::new(alloc);
    for reg in regs {
        list.push(mark_back(alloc, new, reg)?)?;
    }
    Ok(list)
}

// The way back over a step that makes the nodes `new`, as a change.
fn change_of(
    alloc: Global,
    back: Step,
    new: &BTreeSet<NodeId>,
    rev: Rev,
    under: Rev,
    base: bool,
) -> Result<Change, AllocError>
    ensures { IfOk result (λ c. c ≡ read_back (contains node_cmp new.now) back rev under base) }
{
    let regs = marks_back(alloc, new, back.regs.as_slice())?;
    Ok(Change {
        rev,
        under,
        base,
        need: List::new(alloc),
        new: List::new(alloc),
        rows: back.rows,
        regs,
        loose: back.loose,
        schema: None,
    })
}

// Whether the entry of a revision is in a list.
fn has_rev(entries: &[SchemaEntry], rev: Rev) -> bool
    ensures { result ≡ has_rev_told entries.now rev }
{
    entries.iter().any(|entry| is_same_rev(entry.rev, rev))
}

// Whether a change of the schemas in effect takes that of a revision out.
fn takes_out(schema: &Option<SchemaStep>, rev: Rev) -> bool
    ensures { result ≡ takes_out_told schema.now rev }
{
    match schema {
        None => false,
        Some(part) => has_rev(part.cut.as_slice(), rev) && !has_rev(part.add.as_slice(), rev),
    }
}

/// The change that takes a step back, where the step leads: the commit of the revision `rev`, made under the schema of `under`,
/// that puts each node of the earlier document back where it was, and what the step put into its fields nowhere. Its `base` is
/// false exactly where the step takes the schema of `under` out of effect. Which empty cells that stay empty the step names isn't
/// read: of one that counts some of them the change may count these too. Takes O(n log n) for n marks and names, whatever a Skip
/// counts.
pub fn revert(alloc: Global, step: &Step, rev: Rev, under: Rev) -> Result<Change, AllocError>
    requires { HasShortRowsListed step.now }
    ensures reverted { (D E : Document) (B : Intent) → IsExtendedBy D E → IsStep D E step.now → IsBack D E rev under B
        → Has (revs E.schemas) under → IfOk result (IsEmbedding E B) }
    ensures under_any { (D E : Document) (B : Intent) → IsExtendedBy D E → IsStep D E step.now → IsBack D E rev under B
        → IfOk result (λ c. (b : Bool) → IsTrue b ↔ IsBaseInEffect E B → IsEmbedding E B (record c { base = b })) }
    ensures base { IfOk result (λ c. c.base ≡ not (takes_out_told step.now.schema under)) }
    ensures shown { (D E : Document) (B : Intent) → IsExtendedBy D E → ShowsStep D E step.now → IsBack D E rev under B
        → Has (revs E.schemas) under → IfOk result (Shows E B) }
{
    let back = invert(alloc, step)?;
    let new = new_names(alloc, step.new.as_slice())?;
    change_of(
        alloc,
        back,
        &new,
        rev,
        under,
        !takes_out(&step.schema, under),
    )
}
