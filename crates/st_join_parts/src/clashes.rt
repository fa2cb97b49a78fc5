//! The fields that rules of agreement name between two parts of one commit.
ghost use Rattle.std.specs.Prelude.{◌≡◌, ◌⊎◌, IfOk, OnOk};
ghost use Rattle.st_ids.specs.Listing.{Has};
ghost use Rattle.st_ids.specs.declared.names.FieldId.{FieldId as Field};
ghost use Rattle.st_marks.specs.Agree.{JoinClash};
ghost use Rattle.st_marks.specs.Listings.{listing_after_step, listing_before_step};
ghost use Rattle.st_normal.specs.Rules.{ObeysChangeRules};
ghost use Rattle.st_clash.specs.Adds.{Adds};
ghost use Rattle.st_clash.specs.Cells.{AreCellsOnce};
ghost use Rattle.st_turn_places.specs.Rules.{IsPlacedOnce};
ghost use Rattle.st_part_rings.specs.Told.{step_of};
ghost use Rattle.st_join_parts.specs.inside.Clashes.{
  AddsInTurn,
  AreNoParts,
  IsNamedApart,
  IsShownApart,
  ListsRise,
  NeededAgain,
  ObeyRules,
  StepsRise,
};

use crate::needed::push_needed;
use crate::parts::can_be_parts;
use crate::rising::lists_rise;
use st_agree_turn::{push_cells, push_registers, push_rows};
use st_clash::row_field;
use st_ids::{FieldId, List, ROOT};
use st_marks::{Change, Step};
use st_part_rings::step_of;
use st_turn_names::{push_made, push_owners};
use st_turn_places::push_twice;
use std::alloc::{AllocError, Global};

// Adds the fields that the rules on rows, registers and cells name.
fn push_shown(
    alloc: Global,
    found: &mut List<FieldId>,
    first: &Step,
    then: &Step,
) -> Result<(), AllocError>
    requires { StepsRise first.now then.now }
    ensures { OnOk result (Adds found.old found.new (IsShownApart (listing_after_step first.now) (listing_before_step then.now))
        ((Unit {0} × Unit {0}) × AreCellsOnce (listing_before_step then.now))) }
{
    push_rows(alloc, found, first, then)?;
    push_registers(alloc, found, first, then)?;
    push_cells(alloc, found, first, then)?;
    Ok(())
}

// Adds the fields that the rules on names and on nodes that stand twice name.
fn push_named(
    alloc: Global,
    found: &mut List<FieldId>,
    first: &Step,
    then: &Step,
) -> Result<(), AllocError>
    requires { StepsRise first.now then.now }
    ensures { OnOk result (Adds found.old found.new (IsNamedApart (listing_after_step first.now) (listing_before_step then.now))
        ((Unit {0} × Unit {0}) × IsPlacedOnce (listing_before_step then.now))) }
{
    push_made(alloc, found, first, then)?;
    push_owners(alloc, found, first, then)?;
    push_twice(alloc, found, first, then)?;
    Ok(())
}

// Adds the fields that the rules on two steps in turn name.
fn push_ruled(
    alloc: Global,
    found: &mut List<FieldId>,
    first: &Step,
    then: &Step,
) -> Result<(), AllocError>
    requires { StepsRise first.now then.now }
    ensures { OnOk result (AddsInTurn first.now then.now found.old found.new) }
{
    push_shown(alloc, found, first, then)?;
    push_named(alloc, found, first, then)?;
    Ok(())
}

// Adds the fields that these rules name between a step and a change that is told as one.
fn push_behind(
    alloc: Global,
    found: &mut List<FieldId>,
    first: &Step,
    then: &Change,
) -> Result<(), AllocError>
    requires { StepsRise first.now (step_of then.now) }
    ensures { OnOk result (AddsInTurn first.now (step_of then.now) found.old found.new) }
{
    let right = step_of(alloc, then)?;
    push_ruled(alloc, found, first, &right)
}

// Adds the fields that these rules name between two changes, each told as a step.
fn push_told(
    alloc: Global,
    found: &mut List<FieldId>,
    first: &Change,
    then: &Change,
) -> Result<(), AllocError>
    requires { ListsRise first.now then.now }
    ensures { OnOk result (AddsInTurn (step_of first.now) (step_of then.now) found.old found.new) }
{
    let left = step_of(alloc, first)?;
    push_behind(alloc, found, &left, then)
}

// Adds the root's row, if two changes can't be parts of one commit.
fn push_root(
    alloc: Global,
    found: &mut List<FieldId>,
    first: &Change,
    then: &Change,
) -> Result<(), AllocError>
    requires { ListsRise first.now then.now }
    ensures { OnOk result (Adds found.old found.new (AreNoParts first.now then.now) (ObeyRules first.now then.now)) }
{
    if can_be_parts(alloc, first, then)? {
        return Ok(());
    }
    found.push(row_field(alloc, ROOT))?;
    Ok(())
}

// Adds the fields that are named.
fn push_clashes(
    alloc: Global,
    found: &mut List<FieldId>,
    first: &Change,
    then: &Change,
) -> Result<(), AllocError>
    requires { ListsRise first.now then.now }
    ensures { OnOk result (Adds found.old found.new (JoinClash first.now then.now) (ObeyRules first.now then.now)) }
{
    push_told(alloc, found, first, then)?;
    push_needed(alloc, found, first, then)?;
    push_root(alloc, found, first, then)?;
    Ok(())
}

/// The fields that the rules of agreement name, where the second of two changes, parts of one commit, finds what the first leaves.
/// Each that is answered is named by a rule; between two changes in normal form none is missed. One may be answered twice. Takes
/// O(n log n) for n marks and names, whatever a Skip counts.
pub fn clashes_of_parts(
    alloc: Global,
    first: &Change,
    then: &Change,
) -> Result<List<FieldId>, AllocError>
    ensures clash { IfOk result (λ l. (f : Field) → Has l f → JoinClash first.now then.now f) }
    ensures all { ObeysChangeRules first.now → ObeysChangeRules then.now
        → IfOk result (λ l. (f : Field) → JoinClash first.now then.now f → Has l f) }
{
    let mut found = List::new(alloc);
    if !lists_rise(first, then) {
        return Ok(found);
    }
    push_clashes(alloc, &mut found, first, then)?;
    Ok(found)
}
