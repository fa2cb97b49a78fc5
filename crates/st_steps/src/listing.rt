//! Two steps in turn, told together with all that either names.
ghost use Rattle.std.specs.Prelude.{◌≡◌, [], None, map, IfOk, OnOk, IfSome, IsSome};
ghost use Rattle.std.specs.BTreeMap.{get};
ghost use Rattle.std.specs.BTreeSet.{contains};
ghost use Rattle.st_ids.specs.Order.{node_cmp};
ghost use Rattle.st_ids.specs.declared.names.NodeId.{NodeId as Node};
ghost use Rattle.st_marks.specs.declared.marks.RegStep.{RegStep as Register};
ghost use Rattle.st_marks.specs.Document.{Document};
ghost use Rattle.st_marks.specs.Embedding.{is_among};
ghost use Rattle.st_marks.specs.Extends.{IsExtendedBy};
ghost use Rattle.st_marks.specs.Listings.{nodes_new, placed_before};
ghost use Rattle.st_marks.specs.Step.{IsStep};
ghost use Rattle.st_mention_laws.specs.Shown.{ShowsStep};
ghost use Rattle.st_trim.specs.Trimmed.{ListsStep};
ghost use Rattle.st_steps.specs.Short.{HasShortRowsListed};
ghost use Rattle.st_steps.specs.Turned.{TellsTurn, named_in_turn};
ghost use Rattle.st_steps.specs.inside.Told.{AreFieldsTold, ShowsListed, ToldInTurn};

use crate::loose::{Tables, loose_in_turn};
use crate::registers::registers_in_turn;
use crate::rows::rows_in_turn;
use st_climb::new_names;
use st_ids::List;
use st_listings::{nodes_found, schemas_in_turn, union};
use st_marks::Step;
use st_puts::places_after;
use std::alloc::{AllocError, Global};

// What two steps in turn tell of nodes: whom the first finds somewhere, whom it makes, and where the second leaves them.
fn tables_of(alloc: Global, first: &Step, second: &Step) -> Result<Tables, AllocError>
    ensures { (D E F : Document) → IsExtendedBy D E → IsExtendedBy E F → (s : ShowsStep D E first.now) → (t : ShowsStep E F second.now)
        → IfOk result (λ r. TellsTurn D E F s.1.mentioned t.1.mentioned (contains node_cmp r.stood) (contains node_cmp r.new) (get node_cmp r.spots)) }
{
    let stood = nodes_found(alloc, first)?;
    let new = new_names(alloc, first.new.as_slice())?;
    let spots = places_after(alloc, second)?;
    Ok(Tables { stood, new, spots })
}

/// The step that lists nothing.
pub fn empty_step(alloc: Global) -> Step
    ensures { result ≡ record { new = []; rows = []; regs = []; loose = []; schema = None } }
{
    Step {
        new: List::new(alloc),
        rows: List::new(alloc),
        regs: List::new(alloc),
        loose: List::new(alloc),
        schema: None,
    }
}

// Lists the rows and registers of two steps in turn.
fn fill_fields(
    alloc: Global,
    first: &Step,
    second: &Step,
    step: &mut Step,
) -> Result<(), AllocError>
    requires { HasShortRowsListed second.now }
    ensures { OnOk result (AreFieldsTold first.now second.now step.exit.now) }
{
    step.rows = rows_in_turn(alloc, &first.rows, &second.rows)?;
    step.regs = registers_in_turn(alloc, &first.regs, &second.regs)?;
    Ok(())
}

// Lists what two steps in turn say, by what tables tell of nodes.
fn fill(
    alloc: Global,
    first: &Step,
    second: &Step,
    tables: &Tables,
    step: &mut Step,
) -> Result<(), AllocError>
    requires { HasShortRowsListed second.now }
    ensures { OnOk result (ToldInTurn first.now second.now step.exit.now
        (contains node_cmp tables.now.stood) (contains node_cmp tables.now.new) (get node_cmp tables.now.spots)) }
{
    fill_fields(alloc, first, second, step)?;
    step.new = union(alloc, first.new.as_slice(), second.new.as_slice())?;
    step.loose = loose_in_turn(
        alloc,
        tables,
        first.loose.as_slice(),
        second.loose.as_slice(),
    )?;
    step.schema = schemas_in_turn(alloc, &first.schema, &second.schema)?;
    Ok(())
}

// What two steps in turn say, by what tables tell of nodes.
fn told_by(alloc: Global, first: &Step, second: &Step, tables: &Tables) -> Result<Step, AllocError>
    requires { HasShortRowsListed second.now }
    ensures { IfOk result (λ g. ToldInTurn first.now second.now g
        (contains node_cmp tables.now.stood) (contains node_cmp tables.now.new) (get node_cmp tables.now.spots)) }
{
    let mut step = empty_step(alloc);
    fill(alloc, first, second, tables, &mut step)?;
    Ok(step)
}

/// What two steps in turn say together. It may name more than the step over both.
pub fn listing_in_turn(alloc: Global, first: &Step, second: &Step) -> Result<Step, AllocError>
    requires { HasShortRowsListed second.now }
    ensures exact { (D E F : Document) → IsExtendedBy D E → IsExtendedBy E F → (s : IsStep D E first.now) → (t : IsStep E F second.now)
        → IfOk result (λ g. ListsStep D F (named_in_turn D s.mentioned t.mentioned) g) }
    ensures shown { (D E F : Document) → IsExtendedBy D E → IsExtendedBy E F → (s : ShowsStep D E first.now) → (t : ShowsStep E F second.now)
        → IfOk result (ShowsListed D F (named_in_turn D s.1.mentioned t.1.mentioned)) }
{
    let tables = tables_of(alloc, first, second)?;
    told_by(alloc, first, second, &tables)
}
