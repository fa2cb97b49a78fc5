//! A step after a change, name by name.
ghost use Rattle.std.specs.Prelude.{◌≡◌, IfOk};
ghost use Rattle.std.specs.BTreeMap.{get};
ghost use Rattle.std.specs.BTreeSet.{IsOrdered, contains};
ghost use Rattle.st_ids.specs.Order.{node_cmp};
ghost use Rattle.st_ids.specs.declared.names.NodeId.{NodeId as Node};
ghost use Rattle.st_marks.specs.Embedding.{is_among};
ghost use Rattle.st_marks.specs.Listings.{nodes_new};
ghost use Rattle.st_over.specs.Laid.{CanBeLaid};
ghost use Rattle.st_cross_laws.specs.Crossed.{IsCrossed};
ghost use Rattle.st_carry.specs.inside.Listed.{AreLoose, HasFields, loose_by};

use crate::found::{nodes_named, nodes_placed};
use crate::loose::loose_nodes;
use st_cross::{Crossing, registers_across, rows_across};
use st_ids::{Copied, List, NodeId};
use st_marks::{Change, Loose, RegStep, RowMarks, Step};
use st_reading::Reading;
use std::alloc::{AllocError, Global};
use std::collections::BTreeSet;

// A step with other rows, registers and loose nodes.
fn with_fields(
    alloc: Global,
    step: &Step,
    rows: List<RowMarks>,
    regs: List<RegStep>,
    loose: List<Loose>,
) -> Result<Step, AllocError>
    ensures { IfOk result (λ g. g ≡ record step.now { rows = rows; regs = regs; loose = loose }) }
{
    let new = step.new.copy(alloc)?;
    let schema = step.schema.copy(alloc)?;
    Ok(Step {
        new,
        rows,
        regs,
        loose,
        schema,
    })
}

// Those of some nodes that are nowhere, as rows and registers tell.
fn loose_in(
    alloc: Global,
    rows: &List<RowMarks>,
    regs: &List<RegStep>,
    names: &BTreeSet<NodeId>,
) -> Result<List<Loose>, AllocError>
    ensures loose { IfOk result (λ l. l ≡ loose_by rows.now regs.now names.now.keys) }
    ensures ordered { IfOk result (λ l. IsOrdered node_cmp names.now) }
{
    let stood = nodes_placed(alloc, rows.as_slice(), regs.as_slice(), false)?;
    let stands = nodes_placed(alloc, rows.as_slice(), regs.as_slice(), true)?;
    loose_nodes(alloc, names, &stood, &stands)
}

// Those that are nowhere of the nodes that are named after a change.
fn loose_named<R: Reading>(
    alloc: Global,
    across: &Crossing<'_, R>,
    change: &Change,
    step: &Step,
    rows: &List<RowMarks>,
    regs: &List<RegStep>,
) -> Result<List<Loose>, AllocError>
    ensures { IfOk result (AreLoose across.now.was across.now.is change.now step.now rows.now regs.now) }
{
    let names = nodes_named(alloc, change, step, across.was, across.is)?;
    let loose = loose_in(alloc, rows, regs, &names)?;
    Ok(loose)
}

// A step with other rows and registers, and with the loose nodes of which they tell.
fn with_loose<R: Reading>(
    alloc: Global,
    across: &Crossing<'_, R>,
    change: &Change,
    step: &Step,
    rows: List<RowMarks>,
    regs: List<RegStep>,
) -> Result<Step, AllocError>
    ensures { IfOk result (HasFields across.now.was across.now.is change.now step.now rows regs) }
{
    let loose = loose_named(alloc, across, change, step, &rows, &regs)?;
    with_fields(alloc, step, rows, regs, loose)
}

/// What a step says of each name after a change. It may name more than the step there mentions.
pub fn listing_across<R: Reading>(
    alloc: Global,
    across: &Crossing<'_, R>,
    change: &Change,
    step: &Step,
) -> Result<Step, AllocError>
    requires laid { CanBeLaid change.now step.now }
    requires made { (n : Node) → contains node_cmp across.now.made.now n ≡ is_among (nodes_new change.now.new) n }
    ensures { IfOk result (IsCrossed R.listed across.now.was across.now.is (get node_cmp across.now.puts.now) change.now step.now) }
{
    let rows = rows_across(alloc, across, &change.rows, &step.rows)?;
    let regs = registers_across(alloc, across, &change.regs, &step.regs)?;
    with_loose(alloc, across, change, step, rows, regs)
}
