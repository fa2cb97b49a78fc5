//! Changes read from values.
ghost use Rattle.std.specs.Prelude.{◌≡◌, codes, IfOk};
ghost use Rattle.serde_json.specs.View.{view};
ghost use Rattle.st_change_reader.specs.Reading.{ground_of, fields_of, nodes_of, edits_of, read_lists, read_edits, schema_text_of, upgrade_of, read_upgrade, change_of};
ghost use Rattle.st_mark_reader.specs.Reading.{member_of};

use crate::parts::{Fields, Ground, Nodes};
use serde_json::Value;
use st_ids::{List, Or, Rev, Text};
use st_mark_reader::{
    NewNodes, Nodes as NodeNames, Nowhere, ReadNames, Registers, Rows, is_named, list_member,
};
use st_marks::{Change, Loose};
use st_schema::Schema;
use std::alloc::{AllocError, Global};

/// The revision of a member.
pub(crate) fn rev_member<N: ReadNames>(names: &N, value: &Value, name: &str) -> Option<Rev>
    ensures { result ≡ member_of (N.form names.now).rev name.now (view value.now) }
{
    names.rev(value.get(name)?)
}

// The revision, under which schema the change was made, and whether that is in effect.
fn ground<N: ReadNames>(names: &N, value: &Value) -> Option<Ground>
    ensures { result ≡ ground_of (N.form names.now) (view value.now) }
{
    let rev = rev_member(names, value, "rev")?;
    let under = rev_member(names, value, "under")?;
    let base = value.get("base")?.as_bool()?;
    Some(Ground { rev, under, base })
}

// The fields that a change lists.
fn fields<N: ReadNames>(
    alloc: Global,
    names: &N,
    value: &Value,
) -> Result<Option<Fields>, AllocError>
    ensures { IfOk result (λ o. o ≡ fields_of (N.form names.now) (view value.now)) }
{
    let Some(rows) = list_member(alloc, value, "rows", &Rows(names))? else {
        return Ok(None);
    };
    match list_member(alloc, value, "regs", &Registers(names))? {
        None => Ok(None),
        Some(regs) => Ok(Some(Fields { rows, regs })),
    }
}

// The nodes that a change needs, and those that it makes.
fn nodes<N: ReadNames>(alloc: Global, names: &N, value: &Value) -> Result<Option<Nodes>, AllocError>
    ensures { IfOk result (λ o. o ≡ nodes_of (N.form names.now) (view value.now)) }
{
    let Some(need) = list_member(alloc, value, "need", &NodeNames(names))? else {
        return Ok(None);
    };
    match list_member(alloc, value, "new", &NewNodes(names))? {
        None => Ok(None),
        Some(new) => Ok(Some(Nodes { need, new })),
    }
}

// A change of data, of its parts.
fn edits(ground: Ground, nodes: Nodes, fields: Fields, loose: List<Loose>) -> Change
    ensures { result ≡ edits_of ground nodes fields loose }
{
    let Nodes { need, new } = nodes;
    let Fields { rows, regs } = fields;
    Change {
        rev: ground.rev,
        under: ground.under,
        base: ground.base,
        need,
        new,
        rows,
        regs,
        loose,
        schema: None,
    }
}

// A change of data, of its ground and its lists.
fn read_lists<N: ReadNames>(
    alloc: Global,
    names: &N,
    ground: Ground,
    value: &Value,
) -> Result<Option<Change>, AllocError>
    ensures { IfOk result (λ o. o ≡ read_lists (N.form names.now) ground (view value.now)) }
{
    let Some(nodes) = nodes(alloc, names, value)? else {
        return Ok(None);
    };
    let Some(fields) = fields(alloc, names, value)? else {
        return Ok(None);
    };
    match list_member(alloc, value, "loose", &Nowhere(names))? {
        None => Ok(None),
        Some(loose) => Ok(Some(edits(ground, nodes, fields, loose))),
    }
}

// A change of data.
fn read_edits<N: ReadNames>(
    alloc: Global,
    names: &N,
    value: &Value,
) -> Result<Option<Change>, AllocError>
    ensures { IfOk result (λ o. o ≡ read_edits (N.form names.now) (view value.now)) }
{
    match ground(names, value) {
        None => Ok(None),
        Some(ground) => read_lists(alloc, names, ground, value),
    }
}

/// The text of the schema that a value is the form of, if it keeps the rules.
#[tactic(auto, using(crate::proofs::Schemas::text_seen, crate::proofs::Schemas::text_unseen))]
pub(crate) fn schema_text(alloc: Global, value: &Value) -> Result<Option<Text>, AllocError>
    ensures { IfOk result (λ t. t ≡ schema_text_of (view value.now)) }
{
    match Schema::read(alloc, value) {
        Ok(schema) => Ok(Some(schema.text(alloc)?)),
        Err(Or::NoMemory) => Err(AllocError),
        Err(Or::Fault(_)) => Ok(None),
    }
}

// The text of the schema of a member.
fn schema_member(alloc: Global, value: &Value) -> Result<Option<Text>, AllocError>
    ensures { IfOk result (λ t. t ≡ member_of schema_text_of (codes "schema") (view value.now)) }
{
    match value.get("schema") {
        None => Ok(None),
        Some(schema) => schema_text(alloc, schema),
    }
}

// A change of the schema, of its parts.
fn upgrade(alloc: Global, ground: Ground, text: Text) -> Change
    ensures { result ≡ upgrade_of ground text }
{
    Change {
        rev: ground.rev,
        under: ground.under,
        base: ground.base,
        need: List::new(alloc),
        new: List::new(alloc),
        rows: List::new(alloc),
        regs: List::new(alloc),
        loose: List::new(alloc),
        schema: Some(text),
    }
}

// A change of the schema.
fn read_upgrade<N: ReadNames>(
    alloc: Global,
    names: &N,
    value: &Value,
) -> Result<Option<Change>, AllocError>
    ensures { IfOk result (λ o. o ≡ read_upgrade (N.form names.now) (view value.now)) }
{
    let Some(ground) = ground(names, value) else {
        return Ok(None);
    };
    match schema_member(alloc, value)? {
        None => Ok(None),
        Some(text) => Ok(Some(upgrade(alloc, ground, text))),
    }
}

/// The change that a value is, by its form alone.
pub fn read_change<N: ReadNames>(
    alloc: Global,
    names: &N,
    value: &Value,
) -> Result<Option<Change>, AllocError>
    ensures { IfOk result (λ o. o ≡ change_of (N.form names.now) (view value.now)) }
{
    if is_named(value, &["base", "rev", "schema", "under"]) {
        read_upgrade(alloc, names, value)
    } else if is_named(
        value,
        &[
            "base", "loose", "need", "new", "regs", "rev", "rows", "under",
        ],
    ) {
        read_edits(alloc, names, value)
    } else {
        Ok(None)
    }
}
