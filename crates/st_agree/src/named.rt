//! The fields that rules of agreement name.
ghost use Rattle.std.specs.Prelude.{◌≡◌, ◌++◌, [], IfOk, IfSome, OnOk};
ghost use Rattle.std.specs.List.{flat_map};
ghost use Rattle.st_ids.specs.Listing.{Has};
ghost use Rattle.st_ids.specs.declared.names.FieldId.{FieldId as Field};
ghost use Rattle.st_marks.specs.declared.intents.Intent.{Intent};
ghost use Rattle.st_marks.specs.Agree.{HaveSchemasBeside, RebaseClash, RootRule};
ghost use Rattle.st_marks.specs.Document.{Document};
ghost use Rattle.st_marks.specs.Embedding.{IsEmbedding};
ghost use Rattle.st_marks.specs.Extends.{IsExtendedBy};
ghost use Rattle.st_marks.specs.Intent.{Fits};
ghost use Rattle.st_marks.specs.Listings.{listing_before_step};
ghost use Rattle.st_marks.specs.Step.{IsStep};
ghost use Rattle.st_normal.specs.Rules.{ObeysChangeRules, ObeysStepRules, SchemaStepFits};
ghost use Rattle.st_clash.specs.Adds.{Adds};
ghost use Rattle.st_agree.specs.inside.Clashes.{IsClear, IsNamedSoFar, IsPlacedOnce, ListsRise};
ghost use Rattle.st_agree.specs.inside.Names.{made_again, nodes_of_change, nodes_of_step};
ghost use Rattle.st_agree.specs.inside.Rows.{register_apart, row_apart};

use crate::names::{push_made_by_change, push_made_by_step};
use crate::places::push_twice;
use crate::registers::push_registers;
use crate::rising::lists_rise;
use crate::rows::push_rows;
use st_clash::{have_schemas, push_cells, row_field};
use st_ids::{FieldId, List, ROOT};
use st_marks::{Change, Step};
use std::alloc::{AllocError, Global};

// Adds the rows and registers that both list and show otherwise.
fn push_listed(
    alloc: Global,
    found: &mut List<FieldId>,
    change: &Change,
    step: &Step,
) -> Result<(), AllocError>
    requires { ListsRise change.now step.now }
    ensures { OnOk result (found.new ≡ found.old ++ flat_map (row_apart step.now.rows) change.now.rows
        ++ flat_map (register_apart step.now.regs) change.now.regs) }
{
    push_rows(alloc, found, change.rows.as_slice(), step.rows.as_slice())?;
    push_registers(alloc, found, change.regs.as_slice(), step.regs.as_slice())?;
    Ok(())
}

// Adds the rows of nodes that one makes and the other names.
fn push_made(
    alloc: Global,
    found: &mut List<FieldId>,
    change: &Change,
    step: &Step,
) -> Result<(), AllocError>
    requires { ListsRise change.now step.now }
    ensures { OnOk result (found.new ≡ found.old ++ flat_map (made_again step.now.new) (nodes_of_change change.now)
        ++ flat_map (made_again change.now.new) (nodes_of_step step.now)) }
{
    push_made_by_step(alloc, found, change, step)?;
    push_made_by_change(alloc, found, change, step)?;
    Ok(())
}

// Adds the fields that are named by the rules on rows, on registers, on made nodes and on nodes that stand twice.
fn push_ruled(
    alloc: Global,
    found: &mut List<FieldId>,
    change: &Change,
    step: &Step,
) -> Result<(), AllocError>
    requires { ListsRise change.now step.now }
    ensures { OnOk result (Adds found.old found.new (IsNamedSoFar change.now step.now) (IsPlacedOnce (listing_before_step step.now))) }
{
    push_listed(alloc, found, change, step)?;
    push_made(alloc, found, change, step)?;
    push_twice(alloc, found, change, step)?;
    Ok(())
}

// Adds the root's row, if no schema entries can be in effect.
fn push_root(
    alloc: Global,
    found: &mut List<FieldId>,
    change: &Change,
    step: &Step,
) -> Result<(), AllocError>
    ensures { OnOk result (Adds found.old found.new (RootRule (HaveSchemasBeside change.now step.now)) (IfSome step.now.schema SchemaStepFits)) }
{
    if have_schemas(change, step) {
        return Ok(());
    }
    found.push(row_field(alloc, ROOT))?;
    Ok(())
}

// Adds the fields that are named.
fn push_clashes(
    alloc: Global,
    found: &mut List<FieldId>,
    change: &Change,
    step: &Step,
) -> Result<(), AllocError>
    requires { ListsRise change.now step.now }
    ensures { OnOk result (Adds found.old found.new (RebaseClash change.now step.now) (IsClear step.now)) }
{
    push_ruled(alloc, found, change, step)?;
    push_cells(alloc, found, change, step)?;
    push_root(alloc, found, change, step)?;
    Ok(())
}

/// The fields that the rules of agreement name, where a change and a step find the same document. Each that is answered is
/// named by a rule; between a change and a step in normal form none is missed. Over one document there are none. One may be
/// answered twice.
pub fn clashes(alloc: Global, change: &Change, step: &Step) -> Result<List<FieldId>, AllocError>
    ensures clash { IfOk result (λ l. (f : Field) → Has l f → RebaseClash change.now step.now f) }
    ensures all { ObeysChangeRules change.now → ObeysStepRules step.now
        → IfOk result (λ l. (f : Field) → RebaseClash change.now step.now f → Has l f) }
    ensures over { (D E : Document) (N : Intent) → IsExtendedBy D E → Fits D N → Fits E N
        → IsEmbedding D N change.now → IsStep D E step.now → IfOk result (λ l. l ≡ []) }
{
    let mut found = List::new(alloc);
    if !lists_rise(change, step) {
        return Ok(found);
    }
    push_clashes(alloc, &mut found, change, step)?;
    Ok(found)
}
