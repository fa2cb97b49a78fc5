//! What a step makes, with the nodes that were there in their places.
ghost use Rattle.std.specs.Prelude.{◌≡◌, ◌&&◌, Bool, map, IfOk, OnOk, Option, None, [], if◌then◌else◌};
ghost use Rattle.std.specs.BTreeSet.{contains};
ghost use Rattle.st_ids.specs.Order.{node_cmp};
ghost use Rattle.st_kind.specs.Named.{Nodes};
ghost use Rattle.st_marks.specs.Back.{retreat};
ghost use Rattle.st_marks.specs.Document.{Document};
ghost use Rattle.st_marks.specs.Extends.{IsExtendedBy};
ghost use Rattle.st_marks.specs.Step.{IsStep};
ghost use Rattle.st_steps.specs.WayBack.{only_new as only, register_back as turned};
ghost use Rattle.st_trim.specs.Trimmed.{ListsStep};
ghost use Rattle.st_revert.specs.inside.Made.{
  ToldMade,
  loose_made as loose_told,
  mark_made as mark_told,
  register_made as register_told,
  row_made as row_told,
};

use st_climb::new_names;
use st_ids::{Copied, List, NodeId};
use st_marks::{How, Loose, Mark, RegStep, RowMarks, Step};
use st_trim::trim_step;
use std::alloc::{AllocError, Global};
use std::collections::BTreeSet;

// What is made of a mark, in a row of a new node or not.
fn mark_made(new: &BTreeSet<NodeId>, in_new: bool, mark: Mark) -> Mark
    ensures { result ≡ mark_told (contains node_cmp new.now) in_new mark }
{
    match mark {
        Mark::Skip(count) => Mark::Skip(count),
        Mark::Gap(cell) => Mark::Gap(cell),
        Mark::Touch { cell, node, .. } => Mark::Touch {
            cell,
            node,
            how: How::Stay,
        },
        Mark::Make { cell, node, full } => Mark::Make {
            cell,
            node,
            full: full && (in_new && new.contains(&node)),
        },
        Mark::Fill { cell, .. } => Mark::Gap(cell),
    }
}

// What is made of the marks of a row.
fn marks_made(
    alloc: Global,
    new: &BTreeSet<NodeId>,
    in_new: bool,
    marks: &[Mark],
) -> Result<List<Mark>, AllocError>
    ensures { IfOk result (λ l. l ≡ map (mark_told (contains node_cmp new.now) in_new) marks.now) }
{
    let mut list = List::new(alloc);
    for mark in marks {
        list.push(mark_made(new, in_new, *mark))?;
    }
    Ok(list)
}

// What is made of a row.
fn row_made(alloc: Global, new: &BTreeSet<NodeId>, row: &RowMarks) -> Result<RowMarks, AllocError>
    ensures { IfOk result (λ r. r ≡ row_told (contains node_cmp new.now) row.now) }
{
    let marks = marks_made(alloc, new, new.contains(&row.node), row.marks.as_slice())?;
    Ok(RowMarks {
        node: row.node,
        marks,
    })
}

// What is made of rows.
fn rows_made(
    alloc: Global,
    new: &BTreeSet<NodeId>,
    rows: &[RowMarks],
) -> Result<List<RowMarks>, AllocError>
    ensures { IfOk result (λ l. l ≡ map (row_told (contains node_cmp new.now)) rows.now) }
{
    let mut list = List::new(alloc);
    for row in rows {
        list.push(row_made(alloc, new, row)?)?;
    }
    Ok(list)
}

// A node, if it is new.
fn only_new(new: &BTreeSet<NodeId>, node: Option<NodeId>) -> Option<NodeId>
    ensures { result ≡ only (contains node_cmp new.now) node }
{
    match node {
        None => None,
        Some(node) => {
            if new.contains(&node) {
                Some(node)
            } else {
                None
            }
        }
    }
}

// Who is in a register when what was there is back in place.
fn held_made(new: &BTreeSet<NodeId>, reg: &RegStep) -> Option<NodeId>
    ensures { result ≡ (turned (contains node_cmp new.now) reg.now).after }
{
    if new.contains(&reg.field.node) {
        only_new(new, reg.after)
    } else {
        reg.before
    }
}

// What is made of a register.
fn register_made(
    alloc: Global,
    new: &BTreeSet<NodeId>,
    reg: &RegStep,
) -> Result<RegStep, AllocError>
    ensures { IfOk result (λ r. r ≡ register_told (contains node_cmp new.now) reg.now) }
{
    let after = held_made(new, reg);
    Ok(RegStep {
        field: reg.field.copy(alloc)?,
        before: reg.before,
        after,
    })
}

// What is made of registers.
fn registers_made(
    alloc: Global,
    new: &BTreeSet<NodeId>,
    regs: &[RegStep],
) -> Result<List<RegStep>, AllocError>
    ensures { IfOk result (λ l. l ≡ map (register_told (contains node_cmp new.now)) regs.now) }
{
    let mut list = List::new(alloc);
    for reg in regs {
        list.push(register_made(alloc, new, reg)?)?;
    }
    Ok(list)
}

// The nodes that are nowhere, each of which stays so.
fn all_loose_made(alloc: Global, loose: &[Loose]) -> Result<List<Loose>, AllocError>
    ensures { IfOk result (λ l. l ≡ map loose_told loose.now) }
{
    let mut list = List::new(alloc);
    for one in loose {
        list.push(Loose {
            node: one.node,
            how: How::Stay,
        })?;
    }
    Ok(list)
}

// The step that lists nothing.
fn empty_step(alloc: Global) -> Step
    ensures { result ≡ record { new = []; rows = []; regs = []; loose = []; schema = None } }
{
    Step {
        new: List::new(alloc),
        rows: List::new(alloc),
        regs: List::new(alloc),
        loose: List::new(alloc),
        schema: None,
    }
}

// Lists what a step makes.
fn fill(
    alloc: Global,
    step: &Step,
    new: &BTreeSet<NodeId>,
    made: &mut Step,
) -> Result<(), AllocError>
    ensures { made.entry.now.schema ≡ None → OnOk result (ToldMade step.now made.exit.now (contains node_cmp new.now)) }
{
    made.new = step.new.copy(alloc)?;
    made.rows = rows_made(alloc, new, step.rows.as_slice())?;
    made.regs = registers_made(alloc, new, step.regs.as_slice())?;
    made.loose = all_loose_made(alloc, step.loose.as_slice())?;
    Ok(())
}

// What a step makes, by the names of its new nodes.
fn told_made(alloc: Global, step: &Step, new: &BTreeSet<NodeId>) -> Result<Step, AllocError>
    ensures { IfOk result (λ g. ToldMade step.now g (contains node_cmp new.now)) }
{
    let mut made = empty_step(alloc);
    fill(alloc, step, new, &mut made)?;
    Ok(made)
}

// What a step makes. It may name more than the step that makes it.
fn listing_made(alloc: Global, step: &Step) -> Result<Step, AllocError>
    ensures { (D E : Document) → IsExtendedBy D E → (s : IsStep D E step.now)
        → IfOk result (λ g. ListsStep D (retreat D E) s.mentioned g) }
{
    let new = new_names(alloc, step.new.as_slice())?;
    told_made(alloc, step, &new)
}

/// What a step makes, with the nodes that were there in their places: the step to the retreat, which has all that the later
/// document has. New cells of rows that were there stay empty, and a new node stands where it stood if that is in a new node;
/// the schemas stay. Takes O(n log n) for n marks and names, whatever a Skip counts.
pub fn makings(alloc: Global, step: &Step) -> Result<Step, AllocError>
    ensures { (D E : Document) → IsExtendedBy D E → IsStep D E step.now → IfOk result (IsStep D (retreat D E)) }
{
    let listing = listing_made(alloc, step)?;
    trim_step(alloc, listing)
}
