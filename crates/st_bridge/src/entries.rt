//! How a step changes the list of schemas, over a change of schema.
ghost use Rattle.std.specs.Prelude.{◌≡◌, ◌∷◌, ◌++◌, [], option_map, IfOk, OnOk, Some};
ghost use Rattle.st_bridge.specs.inside.Entries.{entries_with, part_with};

use st_ids::{Copied, List, Rev, Text};
use st_marks::{SchemaEntry, SchemaStep, Step};
use std::alloc::{AllocError, Global};

// Puts an entry behind others.
fn push_entry(
    alloc: Global,
    rev: Rev,
    text: &Text,
    entries: &mut List<SchemaEntry>,
) -> Result<(), AllocError>
    ensures { OnOk result (entries.new ≡ entries.old ++ record { rev = rev; text = text.now } ∷ []) }
{
    let text = text.copy(alloc)?;
    entries.push(SchemaEntry { rev, text })?;
    Ok(())
}

// Some entries, and behind them one more where it is sound.
fn with_entry(
    alloc: Global,
    rev: Rev,
    text: &Text,
    sound: bool,
    entries: &List<SchemaEntry>,
) -> Result<List<SchemaEntry>, AllocError>
    ensures { IfOk result (λ l. l ≡ entries_with (record { rev = rev; text = text.now }) sound entries.now) }
{
    let mut entries = entries.copy(alloc)?;
    if sound {
        push_entry(alloc, rev, text, &mut entries)?;
    }
    Ok(entries)
}

/// What goes and what comes, where the entry of a change of schema stands behind it before and after, if the change is sound there.
fn part_over(
    alloc: Global,
    rev: Rev,
    text: &Text,
    sound: (bool, bool),
    part: &SchemaStep,
) -> Result<SchemaStep, AllocError>
    ensures { IfOk result (λ p. p ≡ part_with (record { rev = rev; text = text.now }) sound.0 sound.1 part.now) }
{
    let cut = with_entry(alloc, rev, text, sound.0, &part.cut)?;
    let add = with_entry(alloc, rev, text, sound.1, &part.add)?;
    Ok(SchemaStep {
        on: part.on,
        cut,
        add,
    })
}

// A step that changes the schemas so.
fn with_part(alloc: Global, step: &Step, part: SchemaStep) -> Result<Step, AllocError>
    ensures { IfOk result (λ g. g ≡ record step.now { schema = Some part }) }
{
    let mut step = step.copy(alloc)?;
    step.schema = Some(part);
    Ok(step)
}

/// A step over a change of schema: the entry is behind those that go if the change is `sound` before the step, and behind those
/// that come if it is after it.
pub fn over_schema(
    alloc: Global,
    step: &Step,
    rev: Rev,
    text: &Text,
    sound: (bool, bool),
) -> Result<Step, AllocError>
    ensures { IfOk result (λ g. g ≡ record step.now { schema = option_map (part_with (record { rev = rev; text = text.now }) sound.0 sound.1) step.now.schema }) }
{
    match &step.schema {
        None => step.copy(alloc),
        Some(part) => {
            let part = part_over(alloc, rev, text, sound, part)?;
            with_part(alloc, step, part)
        }
    }
}
