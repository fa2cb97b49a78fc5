//! A whole change over a step.
ghost use Rattle.std.specs.Prelude.{◌≡◌, ◌↔◌, IfOk, OnOk, OnErr, IsTrue};
ghost use Rattle.std.specs.BTreeMap.{get};
ghost use Rattle.st_ids.specs.Order.{node_cmp};
ghost use Rattle.st_ids.specs.declared.names.NodeId.{NodeId as Node};
ghost use Rattle.st_marks.specs.declared.intents.Intent.{Intent};
ghost use Rattle.st_marks.specs.Document.{Document};
ghost use Rattle.st_marks.specs.Extends.{IsExtendedBy};
ghost use Rattle.st_marks.specs.Intent.{Fits, put_of};
ghost use Rattle.st_marks.specs.Verdict.{IsBaseInEffect};
ghost use Rattle.st_puts.specs.Mentions.{PlacesMentioned};
ghost use Rattle.st_read_laws.specs.Reading.{IsRead, IsStepRead};
ghost use Rattle.st_over.specs.Laid.{CanBeLaid};
ghost use Rattle.st_over.specs.inside.Fields.{HasFields, change_with};

use crate::fields::{Fields, fields_over};
use crate::rows::Aims;
use st_ids::NodeId;
use st_marks::{Change, Spot, Step, To};
use st_puts::{mentioned_after, places_beside, puts_of};
use st_reading::Reading;
use std::alloc::{AllocError, Global};
use std::collections::BTreeMap;

// Puts other fields into a change, and says whether its schema is in effect.
fn put_fields(change: &mut Change, base: bool, fields: Fields)
    ensures { change.exit.now ≡ change_with base fields.rows fields.regs fields.loose change.entry.now }
{
    let Fields { rows, regs, loose } = fields;
    change.base = base;
    change.rows = rows;
    change.regs = regs;
    change.loose = loose;
}

// What a change lists after a step, where it is known where nodes are put and stand.
fn fields_with<R: Reading>(
    alloc: Global,
    reading: &R,
    change: &Change,
    step: &Step,
    puts: &BTreeMap<NodeId, To>,
    places: &BTreeMap<NodeId, Spot>,
) -> Result<Fields, AllocError>
    requires { CanBeLaid change.now step.now }
    ensures { (D E : Document) (N : Intent) → IsExtendedBy D E → Fits D N → Fits E N
        → IsRead R.listed D N change.now → IsStepRead R.listed D E step.now
        → ((n : Node) → get node_cmp puts.now n ≡ put_of N n) → PlacesMentioned E N places.now
        → IfOk result (λ f. HasFields R.listed E N f.rows f.regs f.loose) }
{
    let named = mentioned_after(alloc, change, places)?;
    let aims = Aims {
        reading,
        puts,
        named: &named,
    };
    fields_over(alloc, &aims, places, change, step)
}

// What a change lists after a step.
fn fields_after<R: Reading>(
    alloc: Global,
    reading: &R,
    change: &Change,
    step: &Step,
) -> Result<Fields, AllocError>
    requires { CanBeLaid change.now step.now }
    ensures { (D E : Document) (N : Intent) → IsExtendedBy D E → Fits D N → Fits E N
        → IsRead R.listed D N change.now → IsStepRead R.listed D E step.now
        → IfOk result (λ f. HasFields R.listed E N f.rows f.regs f.loose) }
{
    let puts = puts_of(alloc, change)?;
    let places = places_beside(alloc, change, step)?;
    fields_with(alloc, reading, change, step, &puts, &places)
}

/// A change over a step, in place, where `base` says whether the schema under which the commit was made is in effect after the
/// step: it becomes the change of its intent there. Where it fails, it stays as it was. Takes O(n log n) for n marks and names,
/// whatever a Skip counts.
pub fn rebase_with_base<R: Reading>(
    alloc: Global,
    reading: &R,
    change: &mut Change,
    step: &Step,
    base: bool,
) -> Result<(), AllocError>
    requires { CanBeLaid change.now step.now }
    ensures ok { OnOk result ((D E : Document) (N : Intent) → IsExtendedBy D E → Fits D N → Fits E N
        → IsRead R.listed D N change.entry.now → IsStepRead R.listed D E step.now
        → IsTrue base ↔ IsBaseInEffect E N → IsRead R.listed E N change.exit.now) }
    ensures err { OnErr result (change.exit.now ≡ change.entry.now) }
{
    let fields = fields_after(alloc, reading, change, step)?;
    put_fields(change, base, fields);
    Ok(())
}
