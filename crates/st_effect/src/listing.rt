//! What a change does, with all that it names.
ghost use Rattle.std.specs.Prelude.{◌≡◌, map, IfOk, OnOk};
ghost use Rattle.st_ids.specs.Listing.{IsRising};
ghost use Rattle.st_ids.specs.Order.{node_cmp};
ghost use Rattle.st_effect.specs.Short.{HasShortRowsListed};
ghost use Rattle.st_effect.specs.inside.Done.{AreRegistersDone, ListsDone, row_done, schema_done as done};

use crate::loose::all_loose_done;
use crate::names::new_names;
use crate::registers::registers_done;
use crate::rows::rows_done;
use crate::schemas::schema_done;
use st_ids::{Copied, List, NodeId};
use st_marks::{Change, Step};
use std::alloc::{AllocError, Global};

// Lists what the change does to rows and registers. The commit makes the nodes `new`.
fn fill_fields(
    alloc: Global,
    change: &Change,
    void: bool,
    new: &List<NodeId>,
    step: &mut Step,
) -> Result<(), AllocError>
    requires rising { IsRising node_cmp (λ n. n) new.now }
    requires short { HasShortRowsListed change.now }
    ensures rows { OnOk result (step.exit.now.rows ≡ map (row_done void new.now) change.now.rows) }
    ensures regs { OnOk result (AreRegistersDone void change.now.rev new.now change.now.regs step.exit.now.regs) }
    ensures schema { OnOk result (step.exit.now.schema ≡ step.entry.now.schema) }
{
    step.rows = rows_done(alloc, change.rows.as_slice(), void, new)?;
    step.regs = registers_done(alloc, change.rev, change.regs.as_slice(), void, new)?;
    Ok(())
}

// Lists what the change does but to schemas.
fn fill(alloc: Global, change: &Change, void: bool, step: &mut Step) -> Result<(), AllocError>
    requires { HasShortRowsListed change.now }
    ensures lists { OnOk result (ListsDone void change.now step.exit.now) }
    ensures schema { OnOk result (step.exit.now.schema ≡ step.entry.now.schema) }
{
    let names = new_names(alloc, change.new.as_slice())?;
    fill_fields(alloc, change, void, &names, step)?;
    step.new = change.new.copy(alloc)?;
    step.loose = all_loose_done(alloc, change.loose.as_slice(), void)?;
    Ok(())
}

/// What a change does that is void or not. It may name more than the step to the document after it.
pub fn listing_of(alloc: Global, change: &Change, void: bool) -> Result<Step, AllocError>
    requires { HasShortRowsListed change.now }
    ensures lists { IfOk result (λ g. ListsDone void change.now g) }
    ensures schema { IfOk result (λ g. g.schema ≡ done void change.now) }
{
    let schema = schema_done(alloc, change, void)?;
    let mut step = Step {
        new: List::new(alloc),
        rows: List::new(alloc),
        regs: List::new(alloc),
        loose: List::new(alloc),
        schema,
    };
    fill(alloc, change, void, &mut step)?;
    Ok(step)
}
