//! What is left of a step, told with all that is named.
ghost use Rattle.std.specs.Prelude.{◌≡◌, IfOk, OnOk};
ghost use Rattle.std.specs.BTreeMap.{get};
ghost use Rattle.std.specs.BTreeSet.{contains};
ghost use Rattle.st_ids.specs.Order.{node_cmp};
ghost use Rattle.st_kind.specs.Named.{either};
ghost use Rattle.st_marks.specs.declared.steps.Step.{Step as Listing};
ghost use Rattle.st_marks.specs.Document.{Document};
ghost use Rattle.st_marks.specs.Extends.{IsExtendedBy};
ghost use Rattle.st_marks.specs.Step.{IsStep};
ghost use Rattle.st_mention_laws.specs.Shown.{thin_step};
ghost use Rattle.st_trim.specs.Trimmed.{ListsStep};
ghost use Rattle.st_listings.specs.Schemas.{schemas_in_turn as in_turn};
ghost use Rattle.st_steps.specs.Short.{HasShortRowsListed};
ghost use Rattle.st_steps.specs.WayBack.{schema_back as turned};
ghost use Rattle.st_strip.specs.Rest.{named_rest};
ghost use Rattle.st_strip.specs.inside.Told.{AreFieldsTold, ToldRest, nowhere_told};

use crate::loose::{Tables, rest_loose, tables_of};
use crate::new::rest_new;
use crate::registers::rest_registers;
use crate::rows::rest_rows;
use st_ids::{Copied, List};
use st_listings::schemas_in_turn;
use st_marks::{SchemaStep, Step};
use std::alloc::{AllocError, Global};

// How the list of schemas in effect changes on the way back.
fn schema_back(alloc: Global, schema: &Option<SchemaStep>) -> Result<Option<SchemaStep>, AllocError>
    ensures { IfOk result (λ o. o ≡ turned schema.now) }
{
    match schema {
        None => Ok(None),
        Some(schema) => {
            let cut = schema.add.copy(alloc)?;
            let add = schema.cut.copy(alloc)?;
            Ok(Some(SchemaStep {
                on: schema.on,
                cut,
                add,
            }))
        }
    }
}

// Lists the rows and registers of what is left.
fn fill_fields(alloc: Global, first: &Step, whole: &Step, step: &mut Step) -> Result<(), AllocError>
    requires first { HasShortRowsListed first.now }
    requires whole { HasShortRowsListed whole.now }
    ensures { OnOk result (AreFieldsTold first.now whole.now step.exit.now) }
{
    step.rows = rest_rows(alloc, &first.rows, &whole.rows)?;
    step.regs = rest_registers(alloc, &first.regs, &whole.regs)?;
    Ok(())
}

// How the list of schemas in effect changes: back over the first part, and then as the whole step has it.
fn rest_schema(
    alloc: Global,
    first: &Option<SchemaStep>,
    whole: &Option<SchemaStep>,
) -> Result<Option<SchemaStep>, AllocError>
    ensures { IfOk result (λ o. o ≡ in_turn (turned first.now) whole.now) }
{
    let back = schema_back(alloc, first)?;
    schemas_in_turn(alloc, &back, whole)
}

// Lists what is left of a step, by what both tell of nodes.
fn fill(
    alloc: Global,
    first: &Step,
    whole: &Step,
    of_first: &Tables,
    of_whole: &Tables,
    step: &mut Step,
) -> Result<(), AllocError>
    requires first { HasShortRowsListed first.now }
    requires whole { HasShortRowsListed whole.now }
    ensures { OnOk result (ToldRest first.now whole.now step.exit.now
        (either (contains node_cmp of_first.now.listed) (contains node_cmp of_whole.now.listed))
        (nowhere_told (get node_cmp of_first.now.spots) (contains node_cmp of_whole.now.stood))
        (nowhere_told (get node_cmp of_whole.now.spots) (contains node_cmp of_first.now.stood))) }
{
    fill_fields(alloc, first, whole, step)?;
    step.new = rest_new(alloc, &first.new, &whole.new)?;
    step.loose = rest_loose(alloc, of_first, of_whole)?;
    step.schema = rest_schema(alloc, &first.schema, &whole.schema)?;
    Ok(())
}

// The step that lists nothing.
fn empty_step(alloc: Global) -> Step {
    Step {
        new: List::new(alloc),
        rows: List::new(alloc),
        regs: List::new(alloc),
        loose: List::new(alloc),
        schema: None,
    }
}

// What is left of a step, by what both tell of nodes.
fn told_rest(
    alloc: Global,
    first: &Step,
    whole: &Step,
    of_first: &Tables,
    of_whole: &Tables,
) -> Result<Step, AllocError>
    requires first { HasShortRowsListed first.now }
    requires whole { HasShortRowsListed whole.now }
    ensures { IfOk result (λ g. ToldRest first.now whole.now g
        (either (contains node_cmp of_first.now.listed) (contains node_cmp of_whole.now.listed))
        (nowhere_told (get node_cmp of_first.now.spots) (contains node_cmp of_whole.now.stood))
        (nowhere_told (get node_cmp of_whole.now.spots) (contains node_cmp of_first.now.stood))) }
{
    let mut step = empty_step(alloc);
    fill(alloc, first, whole, of_first, of_whole, &mut step)?;
    Ok(step)
}

/// What is left of a step behind a first part of it. It may name more than the step from there on.
pub fn rest_listing(alloc: Global, first: &Step, whole: &Step) -> Result<Step, AllocError>
    requires first { HasShortRowsListed first.now }
    requires whole { HasShortRowsListed whole.now }
    ensures exact { (D E F : Document) → IsExtendedBy D E → IsExtendedBy E F → (s : IsStep D E first.now) → (t : IsStep D F whole.now)
        → IfOk result (λ g. ListsStep E F (named_rest D F s.mentioned t.mentioned) g) }
    ensures shown { (D E F : Document) (S W : Listing) → IsExtendedBy D E → IsExtendedBy E F → (s : IsStep D E S) → (t : IsStep D F W)
        → thin_step first.now ≡ thin_step S → thin_step whole.now ≡ thin_step W
        → IfOk result (λ g. (G : Listing) × ListsStep E F (named_rest D F s.mentioned t.mentioned) G × (thin_step g ≡ thin_step G)) }
{
    let of_first = tables_of(alloc, first)?;
    let of_whole = tables_of(alloc, whole)?;
    told_rest(alloc, first, whole, &of_first, &of_whole)
}
