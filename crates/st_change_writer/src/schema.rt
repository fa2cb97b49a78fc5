//! Schemas, and what a step does to them, written behind a text.
ghost use Rattle.std.specs.Prelude.{◌≡◌, ◌++◌, OnOk};
ghost use Rattle.serde_json.specs.Written.{compact_text};
ghost use Rattle.st_change_codec.specs.SchemaTexts.{text_data};
ghost use Rattle.st_change_writer.specs.Told.{entry_data, schema_part_data, schema_step_data};

use crate::lists::{PushItem, push_list};
use crate::names::PushNames;
use st_change_codec::schema_text;
use st_ids::Text;
use st_marks::{SchemaEntry, SchemaStep};
use std::alloc::{AllocError, Global};

/// Writes the schema of a text.
pub(crate) fn push_schema(alloc: Global, out: &mut Text, text: &Text) -> Result<(), AllocError>
    ensures { OnOk result (out.new ≡ out.old ++ compact_text (text_data text.now)) }
{
    let schema = schema_text(alloc, text)?;
    out.push_str(schema.as_str())
}

#[tactic(auto, using(crate::proofs::Steps::entry_is))]
fn push_entry<N: PushNames>(
    alloc: Global,
    out: &mut Text,
    entry: &SchemaEntry,
    names: &N,
) -> Result<(), AllocError>
    ensures { OnOk result (out.new ≡ out.old ++ compact_text (entry_data (N.naming names.now) entry.now)) }
{
    out.push_str("[")?;
    names.push_rev(out, entry.rev)?;
    out.push_str(",")?;
    push_schema(alloc, out, &entry.text)?;
    out.push_str("]")
}

// How the entries of schemas are written.
#[derive(Clone, Copy)]
struct Entries<'a, N> {
    names: &'a N,
    alloc: Global,
}

impl<N: PushNames> PushItem for Entries<'_, N> {
    type Item = SchemaEntry;

    ghost told = { λ s. entry_data (N.naming s.names.now) };

    fn push(&self, out: &mut Text, item: &SchemaEntry) -> Result<(), AllocError> {
        push_entry(self.alloc, out, item, self.names)
    }
}

#[tactic(auto, using(crate::proofs::Steps::schema_step_is))]
fn push_schema_step<N: PushNames>(
    alloc: Global,
    out: &mut Text,
    step: &SchemaStep,
    names: &N,
) -> Result<(), AllocError>
    ensures { OnOk result (out.new ≡ out.old ++ compact_text (schema_step_data (N.naming names.now) step.now)) }
{
    let entries = Entries { names, alloc };
    out.push_str("{\"add\":")?;
    push_list(out, step.add.as_slice(), &entries)?;
    out.push_str(",\"cut\":")?;
    push_list(out, step.cut.as_slice(), &entries)?;
    out.push_str(",\"on\":")?;
    names.push_rev(out, step.on)?;
    out.push_str("}")
}

/// Writes what a step does to the schemas, or null.
pub(crate) fn push_schema_part<N: PushNames>(
    alloc: Global,
    out: &mut Text,
    part: &Option<SchemaStep>,
    names: &N,
) -> Result<(), AllocError>
    ensures { OnOk result (out.new ≡ out.old ++ compact_text (schema_part_data (N.naming names.now) part.now)) }
{
    match part {
        None => out.push_str("null"),
        Some(step) => push_schema_step(alloc, out, step, names),
    }
}
