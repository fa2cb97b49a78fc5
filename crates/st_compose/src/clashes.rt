//! The fields that rules of agreement name between two steps in turn.
ghost use Rattle.std.specs.Prelude.{IfOk, OnOk};
ghost use Rattle.st_ids.specs.Listing.{Has};
ghost use Rattle.st_ids.specs.declared.names.FieldId.{FieldId as Field};
ghost use Rattle.st_marks.specs.Agree.{ComposeClash, HaveSchemasInTurn, RootRule};
ghost use Rattle.st_marks.specs.Listings.{listing_after_step, listing_before_step};
ghost use Rattle.st_normal.specs.Rules.{ObeysStepRules};
ghost use Rattle.st_clash.specs.Adds.{Adds};
ghost use Rattle.st_clash.specs.Cells.{AreCellsOnce};
ghost use Rattle.st_turn_places.specs.Rules.{IsPlacedOnce};
ghost use Rattle.st_compose.specs.inside.Clashes.{IsClear, IsNamedApart, IsShownApart, ListsRise, SchemasFit};

use crate::rising::lists_rise;
use st_agree_turn::{have_schemas_in_turn, push_cells, push_registers, push_rows};
use st_clash::row_field;
use st_ids::{FieldId, List, ROOT};
use st_marks::Step;
use st_turn_names::{push_made, push_owners};
use st_turn_places::push_twice;
use std::alloc::{AllocError, Global};

// Adds the fields that the rules on rows, registers and cells name.
fn push_shown(
    alloc: Global,
    found: &mut List<FieldId>,
    first: &Step,
    then: &Step,
) -> Result<(), AllocError>
    requires { ListsRise first.now then.now }
    ensures { OnOk result (Adds found.old found.new (IsShownApart (listing_after_step first.now) (listing_before_step then.now))
        ((Unit {0} × Unit {0}) × AreCellsOnce (listing_before_step then.now))) }
{
    push_rows(alloc, found, first, then)?;
    push_registers(alloc, found, first, then)?;
    push_cells(alloc, found, first, then)?;
    Ok(())
}

// Adds the fields that the rules on names and on nodes that stand twice name.
fn push_named(
    alloc: Global,
    found: &mut List<FieldId>,
    first: &Step,
    then: &Step,
) -> Result<(), AllocError>
    requires { ListsRise first.now then.now }
    ensures { OnOk result (Adds found.old found.new (IsNamedApart (listing_after_step first.now) (listing_before_step then.now))
        ((Unit {0} × Unit {0}) × IsPlacedOnce (listing_before_step then.now))) }
{
    push_made(alloc, found, first, then)?;
    push_owners(alloc, found, first, then)?;
    push_twice(alloc, found, first, then)?;
    Ok(())
}

// Adds the root's row, if no schema entries suit both.
fn push_root(
    alloc: Global,
    found: &mut List<FieldId>,
    first: &Step,
    then: &Step,
) -> Result<(), AllocError>
    ensures { OnOk result (Adds found.old found.new (RootRule (HaveSchemasInTurn first.now then.now)) (SchemasFit first.now then.now)) }
{
    if have_schemas_in_turn(first, then) {
        return Ok(());
    }
    found.push(row_field(alloc, ROOT))?;
    Ok(())
}

// Adds the fields that are named.
fn push_clashes(
    alloc: Global,
    found: &mut List<FieldId>,
    first: &Step,
    then: &Step,
) -> Result<(), AllocError>
    requires { ListsRise first.now then.now }
    ensures { OnOk result (Adds found.old found.new (ComposeClash first.now then.now) (IsClear first.now then.now)) }
{
    push_shown(alloc, found, first, then)?;
    push_named(alloc, found, first, then)?;
    push_root(alloc, found, first, then)?;
    Ok(())
}

/// The fields that the rules of agreement name, where the second of two steps finds what the first leaves. Each that is answered
/// is named by a rule; between two steps in normal form none is missed. One may be answered twice. Takes O(n log n) for n marks
/// and names, whatever a Skip counts.
pub fn clashes_in_turn(
    alloc: Global,
    first: &Step,
    then: &Step,
) -> Result<List<FieldId>, AllocError>
    ensures clash { IfOk result (λ l. (f : Field) → Has l f → ComposeClash first.now then.now f) }
    ensures all { ObeysStepRules first.now → ObeysStepRules then.now
        → IfOk result (λ l. (f : Field) → ComposeClash first.now then.now f → Has l f) }
{
    let mut found = List::new(alloc);
    if !lists_rise(first, then) {
        return Ok(found);
    }
    push_clashes(alloc, &mut found, first, then)?;
    Ok(found)
}
