//! A listing of a step, trimmed to what the step mentions.
ghost use Rattle.std.specs.Prelude.{◌≡◌, true, filter, IfOk, OnOk};
ghost use Rattle.std.specs.BTreeSet.{contains};
ghost use Rattle.std.specs.List.{list_any};
ghost use Rattle.st_ids.specs.Order.{node_cmp, same_node};
ghost use Rattle.st_kind.specs.Named.{Nodes};
ghost use Rattle.st_marks.specs.declared.marks.Loose.{Loose as LooseNode};
ghost use Rattle.st_marks.specs.declared.marks.RegStep.{RegStep as Register};
ghost use Rattle.st_marks.specs.declared.marks.RowMarks.{RowMarks as Row};
ghost use Rattle.st_marks.specs.declared.steps.Step.{Step as Listing};
ghost use Rattle.st_marks.specs.Document.{Document};
ghost use Rattle.st_marks.specs.Extends.{IsExtendedBy};
ghost use Rattle.st_marks.specs.Intent.{same_option};
ghost use Rattle.st_marks.specs.Register.{holds_mentioned};
ghost use Rattle.st_marks.specs.Step.{IsStep};
ghost use Rattle.st_mention_laws.specs.Shown.{ShowsStep, thin_step};
ghost use Rattle.st_trim.specs.Trimmed.{AreMentionedByStep, ListsStep};
ghost use Rattle.st_trim.specs.inside.Cut.{IsCutTo, TellsOfChangesAlone, names_stay, tells_register};

use crate::differing::{is_same_occupant, nodes_changed};
use crate::places::places_before;
use crate::rows::trim_rows;
use st_ids::{List, NodeId};
use st_marks::{How, Loose, Mark, RegStep, RowMarks, Step};
use st_puts::upwards;
use std::alloc::{AllocError, Global};
use std::collections::BTreeSet;

// Whether the occupant of a register is named.
fn holds_named(named: &BTreeSet<NodeId>, held: Option<NodeId>) -> bool
    ensures { result ≡ holds_mentioned (contains node_cmp named.now) held }
{
    match held {
        None => false,
        Some(node) => named.contains(&node),
    }
}

// Whether a register is listed where some nodes alone are named.
fn tells_register(named: &BTreeSet<NodeId>, reg: &RegStep) -> bool
    ensures { result ≡ tells_register (contains node_cmp named.now) reg.now }
{
    !is_same_occupant(reg.before, reg.after) || holds_named(named, reg.before)
}

// The registers that differ or hold one of some nodes.
fn trim_registers(named: &BTreeSet<NodeId>, regs: List<RegStep>) -> List<RegStep>
    ensures { result ≡ filter (tells_register (contains node_cmp named.now)) regs }
{
    let mut items = regs.into_vec();
    items.retain(|reg| tells_register(named, reg));
    List::from_vec(items)
}

// Those of the nodes that are nowhere that are named.
fn trim_loose(named: &BTreeSet<NodeId>, loose: List<Loose>) -> List<Loose>
    ensures { result ≡ filter (λ (l : LooseNode). contains node_cmp named.now l.node) loose }
{
    let mut items = loose.into_vec();
    items.retain(|one| named.contains(&one.node));
    List::from_vec(items)
}

// Whether a mark names a node that stays in its cell.
fn names_stay(mark: Mark) -> bool
    ensures { result ≡ names_stay mark }
{
    match mark {
        Mark::Touch { how: How::Stay, .. } => true,
        _ => false,
    }
}

// Whether one of some marks does.
fn marks_name_stay(marks: &[Mark]) -> bool
    ensures { result ≡ list_any names_stay marks.now }
{
    marks.iter().any(|mark| names_stay(*mark))
}

// Whether a mark of some rows does.
fn rows_name_stay(rows: &[RowMarks]) -> bool
    ensures { result ≡ list_any (λ (r : Row). list_any names_stay r.marks) rows.now }
{
    rows.iter().any(|row| marks_name_stay(row.marks.as_slice()))
}

// Whether a register has one occupant before and after.
fn registers_stay(regs: &[RegStep]) -> bool
    ensures { result ≡ list_any (λ (r : Register). same_option same_node r.before r.after) regs.now }
{
    regs.iter()
        .any(|reg| is_same_occupant(reg.before, reg.after))
}

// Whether a listing tells of what differs alone.
fn tells_of_changes_alone(listing: &Step) -> bool
    ensures { result ≡ true → TellsOfChangesAlone listing.now }
{
    if rows_name_stay(listing.rows.as_slice()) || registers_stay(listing.regs.as_slice()) {
        return false;
    }
    listing.loose.is_empty()
}

// A listing where some nodes alone are named.
fn cut(alloc: Global, listing: Step, named: &BTreeSet<NodeId>) -> Result<Step, AllocError>
    ensures { IfOk result (IsCutTo (contains node_cmp named.now) listing) }
{
    let Step {
        new,
        rows,
        regs,
        loose,
        schema,
    } = listing;
    Ok(Step {
        rows: trim_rows(alloc, named, rows.as_slice())?,
        regs: trim_registers(named, regs),
        loose: trim_loose(named, loose),
        new,
        schema,
    })
}

// The nodes that a step mentions: those that differ, and all above them.
fn mentioned(alloc: Global, listing: &Step) -> Result<BTreeSet<NodeId>, AllocError>
    ensures { (D E : Document) (K : Nodes) (G : Listing) → IsExtendedBy D E → ListsStep D E K G
        → thin_step listing.now ≡ thin_step G → IfOk result (λ s. AreMentionedByStep D E (contains node_cmp s)) }
{
    let places = places_before(alloc, listing)?;
    let changed = nodes_changed(alloc, listing)?;
    upwards(alloc, &places, &changed)
}

// The step of which a listing of what differs alone tells: nobody has to be looked up for it.
fn trim_changes(alloc: Global, listing: Step) -> Result<Step, AllocError>
    requires { TellsOfChangesAlone listing }
    ensures exact { (D E : Document) (K : Nodes) → IsExtendedBy D E → ListsStep D E K listing
        → IfOk result (IsStep D E) }
    ensures shown { (D E : Document) (K : Nodes) (G : Listing) → IsExtendedBy D E → ListsStep D E K G
        → thin_step listing ≡ thin_step G → IfOk result (ShowsStep D E) }
    ensures thin { (D E : Document) (K : Nodes) (G : Listing) → IsExtendedBy D E → ListsStep D E K G
        → thin_step listing ≡ thin_step G → thin_step listing ≡ listing → IfOk result (λ s. thin_step s ≡ s) }
{
    let nobody = BTreeSet::new(alloc);
    cut(alloc, listing, &nobody)
}

// The step of which a listing tells, with those named that it mentions.
fn trim_named(alloc: Global, listing: Step) -> Result<Step, AllocError>
    ensures exact { (D E : Document) (K : Nodes) → IsExtendedBy D E → ListsStep D E K listing
        → IfOk result (IsStep D E) }
    ensures shown { (D E : Document) (K : Nodes) (G : Listing) → IsExtendedBy D E → ListsStep D E K G
        → thin_step listing ≡ thin_step G → IfOk result (ShowsStep D E) }
    ensures thin { (D E : Document) (K : Nodes) (G : Listing) → IsExtendedBy D E → ListsStep D E K G
        → thin_step listing ≡ thin_step G → thin_step listing ≡ listing → IfOk result (λ s. thin_step s ≡ s) }
{
    let named = mentioned(alloc, &listing)?;
    cut(alloc, listing, &named)
}

/// The step of which a listing tells, perhaps with more nodes named than the step mentions, and rows and registers listed that
/// tell nothing: what is said with those alone named that the step mentions. Which these are is read off the listing itself.
/// Empty cells that stay empty aren't read: of a listing that counts some of them the step counts these too. Takes O(n log n)
/// for n marks and names, whatever a Skip counts, and O(n) of a listing that tells of what differs alone: there nothing is looked up.
pub fn trim_step(alloc: Global, listing: Step) -> Result<Step, AllocError>
    ensures exact { (D E : Document) (K : Nodes) → IsExtendedBy D E → ListsStep D E K listing
        → IfOk result (IsStep D E) }
    ensures shown { (D E : Document) (K : Nodes) (G : Listing) → IsExtendedBy D E → ListsStep D E K G
        → thin_step listing ≡ thin_step G → IfOk result (ShowsStep D E) }
    ensures thin { (D E : Document) (K : Nodes) (G : Listing) → IsExtendedBy D E → ListsStep D E K G
        → thin_step listing ≡ thin_step G → thin_step listing ≡ listing → IfOk result (λ s. thin_step s ≡ s) }
{
    if tells_of_changes_alone(&listing) {
        return trim_changes(alloc, listing);
    }
    trim_named(alloc, listing)
}
