//! A step over a change.
ghost use Rattle.std.specs.Prelude.{◌≡◌, ◌∷◌, [], Some, option_map, IfOk, OnOk};
ghost use Rattle.std.specs.BTreeMap.{get};
ghost use Rattle.std.specs.BTreeSet.{contains};
ghost use Rattle.st_ids.specs.Order.{node_cmp};
ghost use Rattle.st_ids.specs.declared.names.NodeId.{NodeId as Node};
ghost use Rattle.st_marks.specs.declared.intents.Intent.{Intent};
ghost use Rattle.st_marks.specs.Document.{Document, IsSoundInForm};
ghost use Rattle.st_marks.specs.Embedding.{is_among};
ghost use Rattle.st_marks.specs.Intent.{Fits, put_of};
ghost use Rattle.st_marks.specs.Listings.{nodes_new};
ghost use Rattle.st_over.specs.Laid.{CanBeLaid};
ghost use Rattle.st_read_laws.specs.Reading.{IsRead};
ghost use Rattle.st_carry.specs.inside.Entries.{entries_with, part_with};
ghost use Rattle.st_carry.specs.inside.Over.{IsOver, IsOverData};

use crate::listing::listing_across;
use st_climb::new_names;
use st_cross::Crossing;
use st_ids::{Copied, List, Rev, Text};
use st_marks::{Change, SchemaEntry, SchemaStep, Step};
use st_puts::puts_of;
use st_reading::Reading;
use st_trim::trim_step;
use std::alloc::{AllocError, Global};

// The step over a change of data, where it is known where the change puts nodes and which it makes.
fn over_known<R: Reading>(
    alloc: Global,
    across: &Crossing<'_, R>,
    change: &Change,
    step: &Step,
) -> Result<Step, AllocError>
    requires laid { CanBeLaid change.now step.now }
    requires made { (n : Node) → contains node_cmp across.now.made.now n ≡ is_among (nodes_new change.now.new) n }
    requires known { (D : Document) (N : Intent) → IsSoundInForm D → Fits D N → IsRead R.listed D N change.now
        → (n : Node) → get node_cmp across.now.puts.now n ≡ put_of N n }
    ensures { IfOk result (IsOverData R.listed change.now step.now across.now.was across.now.is) }
{
    let listing = listing_across(alloc, across, change, step)?;
    trim_step(alloc, listing)
}

// The step over a change of data that is void before the step or not, and after it or not.
fn over_data<R: Reading>(
    alloc: Global,
    reading: &R,
    change: &Change,
    step: &Step,
    was: bool,
    is: bool,
) -> Result<Step, AllocError>
    requires { CanBeLaid change.now step.now }
    ensures { IfOk result (IsOverData R.listed change.now step.now was is) }
{
    let puts = puts_of(alloc, change)?;
    let made = new_names(alloc, change.new.as_slice())?;
    let across = Crossing {
        reading,
        puts: &puts,
        made: &made,
        was,
        is,
    };
    over_known(alloc, &across, change, step)
}

// Puts an entry behind others, where it is sound.
fn add_entry(
    alloc: Global,
    rev: Rev,
    text: &Text,
    sound: bool,
    entries: &mut List<SchemaEntry>,
) -> Result<(), AllocError>
    ensures { OnOk result (entries.new ≡ entries_with (record { rev = rev; text = text.now }) sound entries.old) }
{
    if !sound {
        return Ok(());
    }
    let text = text.copy(alloc)?;
    entries.push(SchemaEntry { rev, text })?;
    Ok(())
}

// What goes and what comes, where the entry of a change of schema stands behind it before and after, if the change is sound there.
fn part_over(
    alloc: Global,
    rev: Rev,
    text: &Text,
    was: bool,
    is: bool,
    part: &mut SchemaStep,
) -> Result<(), AllocError>
    ensures { OnOk result (part.exit.now ≡ part_with (record { rev = rev; text = text.now }) was is part.entry.now) }
{
    add_entry(alloc, rev, text, was, &mut part.cut)?;
    add_entry(alloc, rev, text, is, &mut part.add)?;
    Ok(())
}

// The step over a change of schema that is sound before the step or not, and after it or not.
fn over_schema(
    alloc: Global,
    rev: Rev,
    text: &Text,
    was: bool,
    is: bool,
    step: &mut Step,
) -> Result<(), AllocError>
    ensures { OnOk result (step.exit.now ≡ record step.entry.now { schema = option_map (part_with (record { rev = rev; text = text.now }) was is) step.entry.now.schema }) }
{
    match &mut step.schema {
        None => Ok(()),
        Some(part) => part_over(alloc, rev, text, was, is, part),
    }
}

// The step over a change of data, in place.
fn set_over<R: Reading>(
    alloc: Global,
    reading: &R,
    change: &Change,
    was: bool,
    is: bool,
    step: &mut Step,
) -> Result<(), AllocError>
    requires { CanBeLaid change.now step.now }
    ensures { OnOk result (IsOverData R.listed change.now step.entry.now was is step.exit.now) }
{
    *step = over_data(alloc, reading, change, step, was, is)?;
    Ok(())
}

/// The step over a change, in place, where the change is void before the step or not, and after it or not; `next` is the change after
/// the step.
pub fn over_change<R: Reading>(
    alloc: Global,
    reading: &R,
    change: &Change,
    next: &Change,
    was: bool,
    is: bool,
    step: &mut Step,
) -> Result<(), AllocError>
    requires { CanBeLaid change.now step.now }
    ensures { OnOk result (IsOver R.listed change.now step.entry.now was is next.now step.exit.now) }
{
    match &change.schema {
        None => set_over(alloc, reading, change, was, is, step),
        Some(text) => over_schema(alloc, change.rev, text, change.base, next.base, step),
    }
}
