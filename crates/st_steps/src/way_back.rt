//! The way back over a step.
ghost use Rattle.std.specs.Prelude.{◌≡◌, [], IfOk, OnOk};
ghost use Rattle.std.specs.BTreeMap.{get};
ghost use Rattle.std.specs.BTreeSet.{contains};
ghost use Rattle.st_ids.specs.Order.{node_cmp};
ghost use Rattle.st_ids.specs.declared.names.NodeId.{NodeId as Node};
ghost use Rattle.st_kind.specs.Named.{Nodes};
ghost use Rattle.st_marks.specs.Back.{retreat};
ghost use Rattle.st_marks.specs.Document.{Document};
ghost use Rattle.st_marks.specs.Extends.{IsExtendedBy};
ghost use Rattle.st_marks.specs.Step.{IsStep};
ghost use Rattle.st_mention_laws.specs.Shown.{ShowsStep};
ghost use Rattle.st_trim.specs.Trimmed.{ListsStep};
ghost use Rattle.st_steps.specs.Short.{HasShortRowsListed};
ghost use Rattle.st_steps.specs.WayBack.{TellsBack, named_back_of, schema_back as turned};
ghost use Rattle.st_steps.specs.inside.Back.{ToldBack, lists_node, told_of};
ghost use Rattle.st_steps.specs.inside.Told.{ShowsListed};

use crate::listing::empty_step;
use crate::loose::Tables;
use crate::loose_back::all_loose_back;
use crate::rows_back::{registers_back, rows_back};
use st_climb::new_names;
use st_ids::{Copied, NodeId};
use st_listings::{nodes_found, nodes_listed};
use st_marks::{SchemaStep, Step};
use st_puts::places_after;
use st_trim::trim_step;
use std::alloc::{AllocError, Global};
use std::collections::BTreeSet;

// How the list of schemas in effect changes on the way back.
fn schema_back(alloc: Global, schema: &Option<SchemaStep>) -> Result<Option<SchemaStep>, AllocError>
    ensures { IfOk result (λ o. o ≡ turned schema.now) }
{
    match schema {
        None => Ok(None),
        Some(schema) => {
            let cut = schema.add.copy(alloc)?;
            let add = schema.cut.copy(alloc)?;
            Ok(Some(SchemaStep {
                on: schema.on,
                cut,
                add,
            }))
        }
    }
}

// What a step tells of nodes: whom it finds somewhere, whom it makes, and where it leaves them.
fn tables_back(alloc: Global, step: &Step) -> Result<Tables, AllocError>
    ensures { (D E : Document) → IsExtendedBy D E → (s : ShowsStep D E step.now) → (listed : Nodes) → ((n : Node) → listed n ≡ lists_node step.now n)
        → IfOk result (λ r. TellsBack D E s.1.mentioned (contains node_cmp r.new) (contains node_cmp r.stood) (told_of listed (get node_cmp r.spots))) }
{
    let stood = nodes_found(alloc, step)?;
    let new = new_names(alloc, step.new.as_slice())?;
    let spots = places_after(alloc, step)?;
    Ok(Tables { stood, new, spots })
}

// Lists what the way back says, by what tables tell of nodes.
fn fill_back(
    alloc: Global,
    step: &Step,
    tables: &Tables,
    nodes: &BTreeSet<NodeId>,
    back: &mut Step,
) -> Result<(), AllocError>
    requires { HasShortRowsListed step.now }
    ensures { back.entry.now.new ≡ [] → OnOk result (ToldBack step.now back.exit.now (contains node_cmp tables.now.new)
        (contains node_cmp tables.now.stood) (told_of (contains node_cmp nodes.now) (get node_cmp tables.now.spots))) }
{
    back.rows = rows_back(alloc, &tables.new, step.rows.as_slice())?;
    back.regs = registers_back(alloc, &tables.new, step.regs.as_slice())?;
    back.loose = all_loose_back(alloc, tables, nodes)?;
    back.schema = schema_back(alloc, &step.schema)?;
    Ok(())
}

// What the way back says, by what tables tell of nodes.
fn told_back(
    alloc: Global,
    step: &Step,
    tables: &Tables,
    nodes: &BTreeSet<NodeId>,
) -> Result<Step, AllocError>
    requires { HasShortRowsListed step.now }
    ensures { IfOk result (λ g. ToldBack step.now g (contains node_cmp tables.now.new)
        (contains node_cmp tables.now.stood) (told_of (contains node_cmp nodes.now) (get node_cmp tables.now.spots))) }
{
    let mut back = empty_step(alloc);
    fill_back(alloc, step, tables, nodes, &mut back)?;
    Ok(back)
}

// What a step says, turned round. It may name more than the step back.
fn listing_back(alloc: Global, step: &Step) -> Result<Step, AllocError>
    requires { HasShortRowsListed step.now }
    ensures exact { (D E : Document) → IsExtendedBy D E → (s : IsStep D E step.now)
        → IfOk result (λ g. ListsStep E (retreat D E) (named_back_of D E s.mentioned) g) }
    ensures shown { (D E : Document) → IsExtendedBy D E → (s : ShowsStep D E step.now)
        → IfOk result (ShowsListed E (retreat D E) (named_back_of D E s.1.mentioned)) }
{
    let tables = tables_back(alloc, step)?;
    let nodes = nodes_listed(alloc, step)?;
    told_back(alloc, step, &tables, &nodes)
}

/// The way back over a step: from the later document to the retreat, which has all that the later one has, with the nodes of the
/// earlier one where they were. Which empty cells that stay empty the step names isn't read: of one that counts some of them the
/// way back may count these too. Takes O(n log n) for n marks and names, whatever a Skip counts.
pub fn invert(alloc: Global, step: &Step) -> Result<Step, AllocError>
    requires { HasShortRowsListed step.now }
    ensures exact { (D E : Document) → IsExtendedBy D E → IsStep D E step.now → IfOk result (IsStep E (retreat D E)) }
    ensures shown { (D E : Document) → IsExtendedBy D E → ShowsStep D E step.now → IfOk result (ShowsStep E (retreat D E)) }
{
    let listing = listing_back(alloc, step)?;
    trim_step(alloc, listing)
}
