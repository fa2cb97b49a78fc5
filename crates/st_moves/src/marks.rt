//! A whole change, carried to where a step puts the nodes that are mentioned after it.
ghost use Rattle.std.specs.Prelude.{◌≡◌, IfOk};
ghost use Rattle.std.specs.BTreeMap.{get};
ghost use Rattle.std.specs.BTreeSet.{contains};
ghost use Rattle.st_ids.specs.Order.{node_cmp};
ghost use Rattle.st_ids.specs.declared.names.NodeId.{NodeId as Node};
ghost use Rattle.st_marks.specs.declared.intents.Intent.{Intent};
ghost use Rattle.st_marks.specs.Document.{Document};
ghost use Rattle.st_marks.specs.Embedding.{IsEmbedding};
ghost use Rattle.st_marks.specs.Extends.{IsExtendedBy};
ghost use Rattle.st_marks.specs.Intent.{Fits, put_of};
ghost use Rattle.st_marks.specs.Step.{IsStep};
ghost use Rattle.st_puts.specs.Mentions.{AreMentions, PlacesMentioned, place_in};
ghost use Rattle.st_moves.specs.Changes.{IsChangeBetween};
ghost use Rattle.st_moves.specs.Room.{HasRoomInRows};
ghost use Rattle.st_moves.specs.inside.Fields.{AreBeside, IsChangeWith};

use crate::registers::{carry_registers, loose_nodes};
use crate::rows::carry_rows;
use st_ids::{Copied, List, NodeId};
use st_marks::{Change, Loose, RegMark, RowMarks, Spot, Step, To};
use st_puts::{mentioned_after, places_beside, puts_of};
use std::alloc::{AllocError, Global};
use std::collections::{BTreeMap, BTreeSet};

/// A change carried to the document between, and the nodes that its intent mentions there: they stand where the later
/// document has them.
#[derive(Drop)]
pub struct Between {
    pub change: Change,
    pub named: BTreeSet<NodeId>,
}

// What a change lists of rows, registers and loose nodes.
#[derive(Drop)]
struct Fields {
    rows: List<RowMarks>,
    regs: List<RegMark>,
    loose: List<Loose>,
}

// The rows, the registers and the loose nodes of a change beside a step.
fn fields_beside(
    alloc: Global,
    change: &Change,
    step: &Step,
    puts: &BTreeMap<NodeId, To>,
    places: &BTreeMap<NodeId, Spot>,
    named: &BTreeSet<NodeId>,
) -> Result<Fields, AllocError>
    requires { HasRoomInRows change.now step.now }
    ensures { IfOk result (λ f. AreBeside (get node_cmp puts.now) (place_in places.now) named.now change.now step.now f.rows f.regs f.loose) }
{
    let rows = carry_rows(alloc, puts, named, &change.rows, &step.rows)?;
    let regs = carry_registers(alloc, puts, named, &change.regs, &step.regs)?;
    let loose = loose_nodes(alloc, puts, places, named)?;
    Ok(Fields { rows, regs, loose })
}

// A change with other rows, registers and loose nodes.
fn change_with(alloc: Global, change: &Change, fields: Fields) -> Result<Change, AllocError>
    ensures { IfOk result (IsChangeWith change.now fields.rows fields.regs fields.loose) }
{
    let need = change.need.copy(alloc)?;
    let new = change.new.copy(alloc)?;
    let schema = change.schema.copy(alloc)?;
    let Fields { rows, regs, loose } = fields;
    Ok(Change {
        rev: change.rev,
        under: change.under,
        base: change.base,
        need,
        new,
        rows,
        regs,
        loose,
        schema,
    })
}

// A change beside a step, where it is known where nodes are put and stand, and which are mentioned.
fn change_beside(
    alloc: Global,
    change: &Change,
    step: &Step,
    puts: &BTreeMap<NodeId, To>,
    places: &BTreeMap<NodeId, Spot>,
    named: &BTreeSet<NodeId>,
) -> Result<Change, AllocError>
    requires { HasRoomInRows change.now step.now }
    ensures { (D E : Document) (N : Intent) → IsExtendedBy D E → Fits D N → Fits E N
        → IsEmbedding D N change.now → IsStep D E step.now
        → ((n : Node) → get node_cmp puts.now n ≡ put_of N n) → PlacesMentioned E N places.now
        → AreMentions E N (contains node_cmp named.now)
        → IfOk result (IsChangeBetween D E N (contains node_cmp named.now)) }
{
    let fields = fields_beside(alloc, change, step, puts, places, named)?;
    change_with(alloc, change, fields)
}

// The same, with the nodes that are mentioned.
fn between_with(
    alloc: Global,
    change: &Change,
    step: &Step,
    puts: &BTreeMap<NodeId, To>,
    places: &BTreeMap<NodeId, Spot>,
) -> Result<Between, AllocError>
    requires { HasRoomInRows change.now step.now }
    ensures { (D E : Document) (N : Intent) → IsExtendedBy D E → Fits D N → Fits E N
        → IsEmbedding D N change.now → IsStep D E step.now
        → ((n : Node) → get node_cmp puts.now n ≡ put_of N n) → PlacesMentioned E N places.now
        → IfOk result (λ b. AreMentions E N (contains node_cmp b.named) × IsChangeBetween D E N (contains node_cmp b.named) b.change) }
{
    let named = mentioned_after(alloc, change, places)?;
    let change = change_beside(alloc, change, step, puts, places, &named)?;
    Ok(Between { change, named })
}

/// A change, rewritten for the document between: where the nodes that its intent mentions after the step stand as the step
/// puts them, and all others as they stood. It is read off the marks of the two alone, in time n log n for n marks and names,
/// whatever a Skip counts. Where the two stand over no document, the answer means nothing; a row in which they don't find the
/// same stays as it is. What it asks holds of each two that stand over documents with short rows (`documents_have_room`).
pub fn carry_marks(alloc: Global, change: &Change, step: &Step) -> Result<Between, AllocError>
    requires room { HasRoomInRows change.now step.now }
    ensures carried { (D E : Document) (N : Intent) → IsExtendedBy D E → Fits D N → Fits E N
        → IsEmbedding D N change.now → IsStep D E step.now
        → IfOk result (λ b. AreMentions E N (contains node_cmp b.named) × IsChangeBetween D E N (contains node_cmp b.named) b.change) }
{
    let puts = puts_of(alloc, change)?;
    let places = places_beside(alloc, change, step)?;
    between_with(alloc, change, step, &puts, &places)
}
