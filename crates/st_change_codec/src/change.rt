//! Changes as JSON values, and their texts.
ghost use Rattle.std.specs.Prelude.{◌≡◌, [], ◌∷◌, map, codes, IfOk, OnOk};
ghost use Rattle.serde_json.specs.Data.{boolean, put};
ghost use Rattle.serde_json.specs.View.{view, members_view};
ghost use Rattle.serde_json.specs.Written.{compact_text};
ghost use Rattle.st_change_codec.specs.Changes.{change_data, edits_data, list_data, loose_data, new_data, node_data, register_data, rev_data, row_data, upgrade_data};
ghost use Rattle.st_change_codec.specs.SchemaTexts.{text_data};

use crate::marks::{all_loose_value, all_new_value, registers_value, rows_value};
use crate::names::{nodes_value, rev_value};
use crate::schema::schema_value;
use serde_json::{Map, Value};
use st_ids::{Rev, Text};
use st_marks::Change;
use std::alloc::{AllocError, Global};

// Puts a member into an object.
fn put_value(
    alloc: Global,
    members: &mut Map<String, Value>,
    name: &str,
    value: Value,
) -> Result<(), AllocError>
    ensures { OnOk result (members_view members.new.entries ≡ put name.now (view value) (members_view members.old.entries)) }
{
    serde_json::put(members, alloc, name, value)?;
    Ok(())
}

// Puts the name of a revision.
fn put_rev(
    alloc: Global,
    members: &mut Map<String, Value>,
    name: &str,
    rev: Rev,
) -> Result<(), AllocError>
    ensures { OnOk result (members_view members.new.entries ≡ put name.now (rev_data rev) (members_view members.old.entries)) }
{
    let value = rev_value(alloc, rev)?;
    put_value(alloc, members, name, value)
}

// Puts under which schema a change was made, whether that is in effect, and which revision the change has.
fn put_ground(
    alloc: Global,
    members: &mut Map<String, Value>,
    change: &Change,
) -> Result<(), AllocError>
    ensures { OnOk result (members_view members.new.entries ≡ put (codes "base") (boolean change.now.base) (
        put (codes "rev") (rev_data change.now.rev) (put (codes "under") (rev_data change.now.under) (members_view members.old.entries)))) }
{
    put_rev(alloc, members, "under", change.under)?;
    put_rev(alloc, members, "rev", change.rev)?;
    put_value(alloc, members, "base", Value::Bool(change.base))
}

// Puts the rows and the registers.
fn put_fields(
    alloc: Global,
    members: &mut Map<String, Value>,
    change: &Change,
) -> Result<(), AllocError>
    ensures { OnOk result (members_view members.new.entries ≡ put (codes "regs") (list_data (map register_data change.now.regs)) (
        put (codes "rows") (list_data (map row_data change.now.rows)) (members_view members.old.entries))) }
{
    let rows = rows_value(alloc, &change.rows)?;
    put_value(alloc, members, "rows", rows)?;
    let registers = registers_value(alloc, &change.regs)?;
    put_value(alloc, members, "regs", registers)
}

// Puts the new nodes and the needed ones.
fn put_nodes(
    alloc: Global,
    members: &mut Map<String, Value>,
    change: &Change,
) -> Result<(), AllocError>
    ensures { OnOk result (members_view members.new.entries ≡ put (codes "need") (list_data (map node_data change.now.need)) (
        put (codes "new") (list_data (map new_data change.now.new)) (members_view members.old.entries))) }
{
    let new = all_new_value(alloc, &change.new)?;
    put_value(alloc, members, "new", new)?;
    let need = nodes_value(alloc, &change.need)?;
    put_value(alloc, members, "need", need)
}

// Puts the mentioned nodes that are nowhere.
fn put_loose(
    alloc: Global,
    members: &mut Map<String, Value>,
    change: &Change,
) -> Result<(), AllocError>
    ensures { OnOk result (members_view members.new.entries ≡ put (codes "loose") (list_data (map loose_data change.now.loose)) (members_view members.old.entries)) }
{
    let loose = all_loose_value(alloc, &change.loose)?;
    put_value(alloc, members, "loose", loose)
}

// Puts what a change of data lists.
fn put_edits(
    alloc: Global,
    members: &mut Map<String, Value>,
    change: &Change,
) -> Result<(), AllocError>
    ensures { OnOk result (members_view members.new.entries ≡ put (codes "loose") (list_data (map loose_data change.now.loose)) (
        put (codes "need") (list_data (map node_data change.now.need)) (
        put (codes "new") (list_data (map new_data change.now.new)) (
        put (codes "regs") (list_data (map register_data change.now.regs)) (
        put (codes "rows") (list_data (map row_data change.now.rows)) (members_view members.old.entries)))))) }
{
    put_fields(alloc, members, change)?;
    put_nodes(alloc, members, change)?;
    put_loose(alloc, members, change)
}

// A change of data.
fn edits_value(alloc: Global, change: &Change) -> Result<Value, AllocError>
    ensures { IfOk result (λ v. view v ≡ edits_data change.now) }
{
    let mut members = Map::new(alloc);
    put_edits(alloc, &mut members, change)?;
    put_ground(alloc, &mut members, change)?;
    Ok(Value::Object(members))
}

// A change of the schema, to that of a text.
fn upgrade_value(alloc: Global, change: &Change, text: &Text) -> Result<Value, AllocError>
    ensures { IfOk result (λ v. view v ≡ upgrade_data change.now text.now) }
{
    let mut members = Map::new(alloc);
    let schema = schema_value(alloc, text)?;
    put_value(alloc, &mut members, "schema", schema)?;
    put_ground(alloc, &mut members, change)?;
    Ok(Value::Object(members))
}

/// The JSON form of a change.
pub fn change_value(alloc: Global, change: &Change) -> Result<Value, AllocError>
    ensures { IfOk result (λ v. view v ≡ change_data change.now) }
{
    match &change.schema {
        None => edits_value(alloc, change),
        Some(text) => upgrade_value(alloc, change, text),
    }
}

/// The text of a change: its JSON form, compact.
#[tactic(auto, using(crate::proofs::Plain::change_plain))]
pub fn change_text(alloc: Global, change: &Change) -> Result<Text, AllocError>
    ensures { IfOk result (λ t. t ≡ compact_text (change_data change.now)) }
{
    let value = change_value(alloc, change)?;
    Ok(Text::from_string(value.to_string(alloc)?))
}
