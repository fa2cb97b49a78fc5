//! Nodes that stand elsewhere in one list than in another.
ghost use Rattle.std.specs.Prelude.{◌≡◌, ◌++◌, ℕ, List as Seq, Option, Some, OnOk};
ghost use Rattle.std.specs.BTreeMap.{get};
ghost use Rattle.std.specs.Option.{option_copied};
ghost use Rattle.st_ids.specs.Listing.{IsRising};
ghost use Rattle.st_ids.specs.Order.{field_cmp, node_cmp};
ghost use Rattle.st_ids.specs.declared.names.NodeId.{NodeId as Node};
ghost use Rattle.st_marks.specs.declared.marks.RegStep.{RegStep as Register};
ghost use Rattle.st_marks.specs.declared.marks.RowMarks.{RowMarks as Row};
ghost use Rattle.st_marks.specs.Listings.{listing_after_step, listing_before_step};
ghost use Rattle.st_clash.specs.Adds.{Adds};
ghost use Rattle.st_turn_places.specs.declared.places.Placed.{Placed as Place};
ghost use Rattle.st_turn_places.specs.Rules.{ArePlaces, IsPlacedOnce, NodesTwice};
ghost use Rattle.st_turn_places.specs.inside.Sides.{IsTable};
ghost use Rattle.st_turn_places.specs.inside.Twice.{
  apart_fields,
  fields_of,
  found_twice,
  looked_up,
  same_spot,
};

use crate::places::{Placed, places_after, places_before, table_of};
use st_clash::row_field;
use st_ids::{Copied, FieldId, List, NodeId, is_same_cell, is_same_field, is_same_node};
use st_marks::{Spot, Step};
use std::alloc::{AllocError, Global};
use std::collections::BTreeMap;

// Whether two places are the same.
fn is_same_spot(a: &Spot, b: &Spot) -> bool
    ensures { result ≡ same_spot a.now b.now }
{
    match (a, b) {
        (Spot::Nowhere, Spot::Nowhere) => true,
        (Spot::Row { node: m, cell: c }, Spot::Row { node: n, cell: d }) => {
            is_same_node(*m, *n) && is_same_cell(*c, *d)
        }
        (Spot::Register(f), Spot::Register(g)) => is_same_field(f, g),
        _ => false,
    }
}

// Adds the field of a place.
fn push_field(alloc: Global, found: &mut List<FieldId>, spot: &Spot) -> Result<(), AllocError>
    ensures { OnOk result (found.new ≡ found.old ++ fields_of spot.now) }
{
    match spot {
        Spot::Nowhere => Ok(()),
        Spot::Row { node, .. } => {
            found.push(row_field(alloc, *node))?;
            Ok(())
        }
        Spot::Register(field) => {
            found.push(field.copy(alloc)?)?;
            Ok(())
        }
    }
}

// The placement of a node in a list, as its table tells.
fn other_of<'a>(
    table: &BTreeMap<NodeId, usize>,
    others: &'a [Placed],
    node: NodeId,
) -> Option<&'a Placed>
    ensures { option_copied result ≡ looked_up others.now (get node_cmp table.now node) }
{
    match table.get(&node) {
        Some(at) => others.get(*at),
        None => None,
    }
}

// Adds the fields of two places of a node, if they differ.
fn push_both(
    alloc: Global,
    found: &mut List<FieldId>,
    placed: &Placed,
    other: &Placed,
) -> Result<(), AllocError>
    ensures { OnOk result (found.new ≡ found.old ++ apart_fields placed.now (Some other.now)) }
{
    if !is_same_spot(&placed.spot, &other.spot) {
        push_field(alloc, found, &placed.spot)?;
        push_field(alloc, found, &other.spot)?;
    }
    Ok(())
}

// Adds the fields of a node that others place elsewhere.
fn push_apart(
    alloc: Global,
    found: &mut List<FieldId>,
    table: &BTreeMap<NodeId, usize>,
    others: &[Placed],
    placed: &Placed,
) -> Result<(), AllocError>
    ensures { OnOk result (found.new ≡ found.old
        ++ apart_fields placed.now (looked_up others.now (get node_cmp table.now placed.now.node))) }
{
    match other_of(table, others, placed.node) {
        Some(other) => push_both(alloc, found, placed, other),
        None => Ok(()),
    }
}

// Adds the fields of the nodes that others place elsewhere, which a table tells.
fn push_all(
    alloc: Global,
    found: &mut List<FieldId>,
    table: &BTreeMap<NodeId, usize>,
    others: &[Placed],
    list: &[Placed],
) -> Result<(), AllocError>
    ensures { OnOk result (found.new ≡ found.old ++ found_twice list.now others.now (get node_cmp table.now)) }
{
    for placed in list {
        push_apart(alloc, found, table, others, placed)?;
    }
    Ok(())
}

// Adds the fields of the nodes that others place elsewhere.
fn push_elsewhere(
    alloc: Global,
    found: &mut List<FieldId>,
    list: &[Placed],
    others: &[Placed],
) -> Result<(), AllocError>
    ensures { OnOk result ((at : Node → Option ℕ) × IsTable others.now at × (found.new ≡ found.old ++ found_twice list.now others.now at)) }
{
    let table = table_of(alloc, others)?;
    push_all(alloc, found, &table, others, list)
}

// Adds the fields of the nodes that a step finds elsewhere.
fn push_found(
    alloc: Global,
    found: &mut List<FieldId>,
    list: &[Placed],
    step: &Step,
) -> Result<(), AllocError>
    requires rows { IsRising node_cmp (λ (r : Row). r.node) step.now.rows }
    requires regs { IsRising field_cmp (λ (r : Register). r.field) step.now.regs }
    ensures { OnOk result ((others : Seq Place) × (at : Node → Option ℕ) × ArePlaces others (listing_before_step step.now)
        × IsTable others at × (found.new ≡ found.old ++ found_twice list.now others at)) }
{
    let others = places_before(alloc, step)?;
    push_elsewhere(alloc, found, list, others.as_slice())?;
    Ok(())
}

/// Adds the fields of both places of each node that one step leaves elsewhere than another finds it. One may be added twice.
/// Takes O(n log n) for n marks and new nodes.
pub fn push_twice(
    alloc: Global,
    found: &mut List<FieldId>,
    first: &Step,
    then: &Step,
) -> Result<(), AllocError>
    requires rows { IsRising node_cmp (λ (r : Row). r.node) first.now.rows }
    requires regs { IsRising field_cmp (λ (r : Register). r.field) first.now.regs }
    requires rows_then { IsRising node_cmp (λ (r : Row). r.node) then.now.rows }
    requires regs_then { IsRising field_cmp (λ (r : Register). r.field) then.now.regs }
    ensures { OnOk result (Adds found.old found.new (NodesTwice (listing_after_step first.now) (listing_before_step then.now))
        (IsPlacedOnce (listing_before_step then.now))) }
{
    let list = places_after(alloc, first)?;
    push_found(alloc, found, list.as_slice(), then)?;
    Ok(())
}
