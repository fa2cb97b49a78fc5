//! Who is found before a step.
ghost use Rattle.std.specs.Prelude.{◌≡◌, ◌||◌, ◌++◌, map, IfOk, OnOk};
ghost use Rattle.std.specs.BTreeSet.{contains};
ghost use Rattle.std.specs.List.{flat_map};
ghost use Rattle.st_ids.specs.Order.{node_cmp};
ghost use Rattle.st_ids.specs.declared.names.NodeId.{NodeId as Node};
ghost use Rattle.st_marks.specs.declared.marks.Mark.{Mark as AnyMark};
ghost use Rattle.st_marks.specs.declared.marks.RegStep.{RegStep as Register};
ghost use Rattle.st_marks.specs.declared.marks.RowMarks.{RowMarks as Row};
ghost use Rattle.st_marks.specs.Embedding.{is_among};
ghost use Rattle.st_marks.specs.Listings.{nodes_loose, nodes_new, one_or_none, placed_before};
ghost use Rattle.st_listings.specs.inside.Stood.{finds};

use st_climb::{add_one, new_names};
use st_ids::NodeId;
use st_marks::{Loose, Mark, RegStep, RowMarks, Step};
use std::alloc::{AllocError, Global};
use std::collections::BTreeSet;

// Who is found in the cell of a mark.
fn found(mark: Mark) -> Option<NodeId>
    ensures { result ≡ finds mark }
{
    match mark {
        Mark::Touch { node, .. } => Some(node),
        _ => None,
    }
}

// Adds those who are found in the cells of a row.
fn add_row(set: &mut BTreeSet<NodeId>, marks: &[Mark]) -> Result<(), AllocError>
    ensures { OnOk result ((n : Node) → contains node_cmp set.new n
        ≡ (contains node_cmp set.old n || is_among (flat_map (λ (m : AnyMark). one_or_none (finds m)) marks.now) n)) }
{
    for mark in marks {
        add_one(set, found(*mark))?;
    }
    Ok(())
}

// Adds those who are found in the cells of rows.
fn add_rows(set: &mut BTreeSet<NodeId>, rows: &[RowMarks]) -> Result<(), AllocError>
    ensures { OnOk result ((n : Node) → contains node_cmp set.new n
        ≡ (contains node_cmp set.old n || is_among (flat_map (λ (r : Row). flat_map (λ (m : AnyMark). one_or_none (finds m)) r.marks) rows.now) n)) }
{
    for row in rows {
        add_row(set, row.marks.as_slice())?;
    }
    Ok(())
}

// Adds those who are found in registers.
fn add_registers(set: &mut BTreeSet<NodeId>, regs: &[RegStep]) -> Result<(), AllocError>
    ensures { OnOk result ((n : Node) → contains node_cmp set.new n
        ≡ (contains node_cmp set.old n || is_among (flat_map (λ (r : Register). one_or_none r.before) regs.now) n)) }
{
    for reg in regs {
        add_one(set, reg.before)?;
    }
    Ok(())
}

// Adds those who are found somewhere.
fn add_found(set: &mut BTreeSet<NodeId>, step: &Step) -> Result<(), AllocError>
    ensures { OnOk result ((n : Node) → contains node_cmp set.new n
        ≡ (contains node_cmp set.old n || is_among (placed_before step.now.rows (map (λ (r : Register). r.before) step.now.regs)) n)) }
{
    add_rows(set, step.rows.as_slice())?;
    add_registers(set, step.regs.as_slice())?;
    Ok(())
}

/// The nodes that a step finds somewhere.
pub fn nodes_found(alloc: Global, step: &Step) -> Result<BTreeSet<NodeId>, AllocError>
    ensures { IfOk result (λ s. (n : Node) → contains node_cmp s n
        ≡ is_among (placed_before step.now.rows (map (λ (r : Register). r.before) step.now.regs)) n) }
{
    let mut set = BTreeSet::new(alloc);
    add_found(&mut set, step)?;
    Ok(set)
}

// Adds nodes that are nowhere.
fn add_loose(set: &mut BTreeSet<NodeId>, loose: &[Loose]) -> Result<(), AllocError>
    ensures { OnOk result ((n : Node) → contains node_cmp set.new n
        ≡ (contains node_cmp set.old n || is_among (nodes_loose loose.now) n)) }
{
    for one in loose {
        add_one(set, Some(one.node))?;
    }
    Ok(())
}

/// The nodes that a step finds somewhere or nowhere, and those that it makes.
pub fn nodes_listed(alloc: Global, step: &Step) -> Result<BTreeSet<NodeId>, AllocError>
    ensures { IfOk result (λ s. (n : Node) → contains node_cmp s n ≡ is_among (nodes_new step.now.new ++ nodes_loose step.now.loose
        ++ placed_before step.now.rows (map (λ (r : Register). r.before) step.now.regs)) n) }
{
    let mut set = new_names(alloc, step.new.as_slice())?;
    add_loose(&mut set, step.loose.as_slice())?;
    add_found(&mut set, step)?;
    Ok(set)
}
