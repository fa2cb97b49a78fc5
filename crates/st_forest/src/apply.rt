//! A step on the tables.
ghost use Rattle.std.specs.Prelude.{◌≡◌, ◌++◌, ◌<◌, ◌^◌, ◌-◌, [], Bool, List as Seq, length, take, unwrap_or, OnOk, None, Some, MatchOption, false, if◌then◌else◌};
ghost use Rattle.std.specs.BTreeMap.{get};
ghost use Rattle.st_ids.specs.declared.names.FieldId.{FieldId as Register};
ghost use Rattle.st_ids.specs.declared.names.NodeId.{NodeId as Node};
ghost use Rattle.st_ids.specs.Order.{field_cmp, node_cmp, same_field, same_node};
ghost use Rattle.st_marks.specs.declared.places.Slot.{Slot as AnySlot};
ghost use Rattle.st_marks.specs.declared.schemas.SchemaStep.{SchemaStep as Part};
ghost use Rattle.st_marks.specs.Document.{Document};
ghost use Rattle.st_marks.specs.Extends.{IsExtendedBy};
ghost use Rattle.st_marks.specs.Row.{spread};
ghost use Rattle.st_read_laws.specs.Reading.{IsStepRead};
ghost use Rattle.st_forest.specs.RowSteps.{Leads};
ghost use Rattle.st_forest.specs.Stands.{StandsFor};
ghost use Rattle.st_forest.specs.inside.Writes.{AreLed, AreSeated, IsChangedBy, RowsLead, held_writes, schemas_after, step_seats, written};

use crate::forest::{Forest, Seated};
use crate::maps::set;
use crate::row_step::apply_row;
use crate::seats::{add_nodes, seat_registers, seat_rows};
use st_chunks::ChunkRow;
use st_ids::{Copied, FieldId, List, NodeId};
use st_marks::{NewNode, RegStep, RowMarks, SchemaEntry, SchemaStep, Step};
use std::alloc::{AllocError, Global};
use std::collections::BTreeMap;

// ## Rows

// Takes a node's row out of the table; where it has none, that is an empty one.
fn take_row(alloc: Global, rows: &mut BTreeMap<NodeId, ChunkRow>, node: NodeId) -> ChunkRow
    ensures row { result ≡ unwrap_or (get node_cmp rows.old node) [] }
    ensures rest { (n : Node) → same_node node n ≡ false → get node_cmp rows.new n ≡ get node_cmp rows.old n }
{
    match rows.remove(&node) {
        None => ChunkRow::new(alloc),
        Some(row) => row,
    }
}

// Changes a node's row as marks say.
fn change_row(
    alloc: Global,
    rows: &mut BTreeMap<NodeId, ChunkRow>,
    row: &RowMarks,
) -> Result<(), AllocError>
    ensures there { OnOk result ((d : Seq AnySlot) → length d < 2 ^ 32
        → Leads (unwrap_or (get node_cmp rows.old row.now.node) []) (spread row.now.marks) d
        → unwrap_or (get node_cmp rows.new row.now.node) [] ≡ d) }
    ensures rest { OnOk result ((n : Node) → same_node row.now.node n ≡ false → get node_cmp rows.new n ≡ get node_cmp rows.old n) }
{
    let mut slots = take_row(alloc, rows, row.node);
    apply_row(alloc, &mut slots, row.marks.as_slice())?;
    set(rows, row.node, slots)?;
    Ok(())
}

// Changes the rows that are listed.
fn change_rows(
    alloc: Global,
    rows: &mut BTreeMap<NodeId, ChunkRow>,
    listed: &[RowMarks],
) -> Result<(), AllocError>
    ensures { OnOk result ((R : Node → Seq AnySlot) → RowsLead (λ n. unwrap_or (get node_cmp rows.old n) []) R listed.now
        → AreLed (λ n. unwrap_or (get node_cmp rows.old n) []) R listed.now (λ n. unwrap_or (get node_cmp rows.new n) [])) }
{
    for row in listed {
        change_row(alloc, rows, row)?;
    }
    Ok(())
}

// ## Registers

// Puts into a register who is in it after a step, or empties it.
fn change_register(
    alloc: Global,
    held: &mut BTreeMap<FieldId, NodeId>,
    register: &RegStep,
) -> Result<(), AllocError>
    ensures { OnOk result ((f : Register) → get field_cmp held.new f
        ≡ if same_field register.now.field f then register.now.after else get field_cmp held.old f) }
{
    match register.after {
        None => {
            let _ = held.remove(&register.field);
            Ok(())
        }
        Some(node) => {
            let field = register.field.copy(alloc)?;
            set(held, field, node)?;
            Ok(())
        }
    }
}

// Puts into each register that is listed who is in it after the step.
fn change_registers(
    alloc: Global,
    held: &mut BTreeMap<FieldId, NodeId>,
    listed: &[RegStep],
) -> Result<(), AllocError>
    ensures { OnOk result ((f : Register) → get field_cmp held.new f ≡ written same_field (held_writes listed.now) f (get field_cmp held.old f)) }
{
    for register in listed {
        change_register(alloc, held, register)?;
    }
    Ok(())
}

// ## Schemas

// Takes so many of the last entries away.
fn cut_last(entries: &mut List<SchemaEntry>, count: usize)
    ensures { entries.new ≡ take (length entries.old - count) entries.old }
{
    for _ in 0..count {
        let _ = entries.pop();
    }
}

// Puts copies of entries behind others.
fn add_entries(
    alloc: Global,
    entries: &mut List<SchemaEntry>,
    more: &[SchemaEntry],
) -> Result<(), AllocError>
    ensures { OnOk result (entries.new ≡ entries.old ++ more.now) }
{
    for entry in more {
        let entry = entry.copy(alloc)?;
        entries.push(entry)?;
    }
    Ok(())
}

// Changes the entries in effect as a step says.
fn change_schemas(
    alloc: Global,
    entries: &mut List<SchemaEntry>,
    part: &Option<SchemaStep>,
) -> Result<(), AllocError>
    ensures { OnOk result (entries.new ≡ schemas_after part.now entries.old) }
{
    match part {
        None => Ok(()),
        Some(part) => {
            cut_last(entries, part.cut.len());
            add_entries(alloc, entries, part.add.as_slice())
        }
    }
}

// ## The step

// Has each node stand where it stands after a step: first those that leave are nowhere, then those that come are there.
fn seat_all(
    alloc: Global,
    nodes: &mut BTreeMap<NodeId, Seated>,
    step: &Step,
) -> Result<(), AllocError>
    ensures { OnOk result (AreSeated (step_seats step.now) nodes.old nodes.new) }
{
    seat_rows(nodes, false, step.rows.as_slice());
    seat_registers(alloc, nodes, false, step.regs.as_slice())?;
    seat_rows(nodes, true, step.rows.as_slice());
    seat_registers(alloc, nodes, true, step.regs.as_slice())?;
    Ok(())
}

// Changes all tables as a step says.
fn change_all(alloc: Global, forest: &mut Forest, step: &Step) -> Result<(), AllocError>
    ensures { OnOk result (IsChangedBy step.now forest.old forest.new) }
{
    add_nodes(alloc, &mut forest.nodes, step.new.as_slice())?;
    seat_all(alloc, &mut forest.nodes, step)?;
    change_rows(alloc, &mut forest.rows, step.rows.as_slice())?;
    change_registers(alloc, &mut forest.held, step.regs.as_slice())?;
    change_schemas(alloc, &mut forest.schemas, &step.schema)?;
    Ok(())
}

impl Forest {
    /// Changes the document as a step says, whichever empty cells it names: the forest stands for the document to which the step
    /// leads. Takes a search for each mark that changes a slot and for each node that comes, leaves or is new; the other cells of a
    /// row that is listed are passed over. After an `Err` the forest is spent.
    pub fn apply(&mut self, alloc: Global, step: &Step) -> Result<(), AllocError>
        ensures { OnOk result ((listed : Bool) (D E : Document) → StandsFor self.old D → IsExtendedBy D E → IsStepRead listed D E step.now
            → StandsFor self.new E) }
    {
        change_all(alloc, self, step)?;
        Ok(())
    }
}
