//! Changes, written behind a text.
ghost use Rattle.std.specs.Prelude.{◌≡◌, ◌++◌, OnOk};
ghost use Rattle.serde_json.specs.Written.{compact_text};
ghost use Rattle.st_change_writer.specs.Told.{change_data, edits_data, upgrade_data};
ghost use Rattle.st_change_writer.specs.Texts.{head_text, middle_text, tail_text, upgrade_head_text};

use crate::lists::{push_bool, push_list};
use crate::marks::Rows;
use crate::names::PushNames;
use crate::nodes::{NewNodes, Nodes, Nowhere, Registers};
use crate::schema::push_schema;
use st_ids::Text;
use st_marks::Change;
use std::alloc::{AllocError, Global};

// Writes the first three members.
fn push_head<N: PushNames>(out: &mut Text, change: &Change, names: &N) -> Result<(), AllocError>
    ensures { OnOk result (out.new ≡ out.old ++ head_text (N.naming names.now) change.now) }
{
    out.push_str("{\"base\":")?;
    push_bool(out, change.base)?;
    out.push_str(",\"loose\":")?;
    push_list(out, change.loose.as_slice(), &Nowhere(names))?;
    out.push_str(",\"need\":")?;
    push_list(out, change.need.as_slice(), &Nodes(names))
}

// Writes the next two.
fn push_middle<N: PushNames>(
    alloc: Global,
    out: &mut Text,
    change: &Change,
    names: &N,
) -> Result<(), AllocError>
    ensures { OnOk result (out.new ≡ out.old ++ middle_text (N.naming names.now) change.now) }
{
    out.push_str(",\"new\":")?;
    push_list(out, change.new.as_slice(), &NewNodes { names, alloc })?;
    out.push_str(",\"regs\":")?;
    push_list(out, change.regs.as_slice(), &Registers { names, alloc })
}

// Writes the last three.
fn push_tail<N: PushNames>(out: &mut Text, change: &Change, names: &N) -> Result<(), AllocError>
    ensures { OnOk result (out.new ≡ out.old ++ tail_text (N.naming names.now) change.now) }
{
    out.push_str(",\"rev\":")?;
    names.push_rev(out, change.rev)?;
    out.push_str(",\"rows\":")?;
    push_list(out, change.rows.as_slice(), &Rows(names))?;
    out.push_str(",\"under\":")?;
    names.push_rev(out, change.under)?;
    out.push_str("}")
}

/// Writes a change of data behind a text, as the compact form of its JSON value.
#[tactic(auto, using(crate::proofs::Append::edits_are))]
pub fn push_edits<N: PushNames>(
    alloc: Global,
    out: &mut Text,
    change: &Change,
    names: &N,
) -> Result<(), AllocError>
    ensures { OnOk result (out.new ≡ out.old ++ compact_text (edits_data (N.naming names.now) change.now)) }
{
    push_head(out, change, names)?;
    push_middle(alloc, out, change, names)?;
    push_tail(out, change, names)
}

// Writes what comes before the schema of a change of the schema.
fn push_upgrade_head<N: PushNames>(
    out: &mut Text,
    change: &Change,
    names: &N,
) -> Result<(), AllocError>
    ensures { OnOk result (out.new ≡ out.old ++ upgrade_head_text (N.naming names.now) change.now) }
{
    out.push_str("{\"base\":")?;
    push_bool(out, change.base)?;
    out.push_str(",\"rev\":")?;
    names.push_rev(out, change.rev)?;
    out.push_str(",\"schema\":")
}

// Writes a change of the schema, to that of a text.
#[tactic(auto, using(crate::proofs::Append::upgrade_is))]
fn push_upgrade<N: PushNames>(
    alloc: Global,
    out: &mut Text,
    change: &Change,
    text: &Text,
    names: &N,
) -> Result<(), AllocError>
    ensures { OnOk result (out.new ≡ out.old ++ compact_text (upgrade_data (N.naming names.now) change.now text.now)) }
{
    push_upgrade_head(out, change, names)?;
    push_schema(alloc, out, text)?;
    out.push_str(",\"under\":")?;
    names.push_rev(out, change.under)?;
    out.push_str("}")
}

/// Writes a change behind a text, as the compact form of its JSON value.
pub fn push_change<N: PushNames>(
    alloc: Global,
    out: &mut Text,
    change: &Change,
    names: &N,
) -> Result<(), AllocError>
    ensures { OnOk result (out.new ≡ out.old ++ compact_text (change_data (N.naming names.now) change.now)) }
{
    match &change.schema {
        None => push_edits(alloc, out, change, names),
        Some(text) => push_upgrade(alloc, out, change, text, names),
    }
}
