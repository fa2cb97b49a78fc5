//! What a change lists after a step.
ghost use Rattle.std.specs.Prelude.{IfOk};
ghost use Rattle.std.specs.BTreeMap.{get};
ghost use Rattle.st_ids.specs.Order.{node_cmp};
ghost use Rattle.st_puts.specs.Mentions.{place_in};
ghost use Rattle.st_over.specs.Laid.{CanBeLaid};
ghost use Rattle.st_over.specs.inside.Fields.{AreOver};

use crate::loose::loose_nodes;
use crate::registers::registers_over;
use crate::rows::{Aims, rows_over};
use st_ids::{List, NodeId};
use st_marks::{Change, Loose, RegMark, RowMarks, Spot, Step};
use st_reading::Reading;
use std::alloc::{AllocError, Global};
use std::collections::BTreeMap;

/// What a change lists of rows, registers and loose nodes.
#[derive(Drop)]
pub struct Fields {
    pub rows: List<RowMarks>,
    pub regs: List<RegMark>,
    pub loose: List<Loose>,
}

/// The rows, the registers and the loose nodes of a change after a step.
pub fn fields_over<R: Reading>(
    alloc: Global,
    aims: &Aims<'_, R>,
    places: &BTreeMap<NodeId, Spot>,
    change: &Change,
    step: &Step,
) -> Result<Fields, AllocError>
    requires { CanBeLaid change.now step.now }
    ensures { IfOk result (λ f. AreOver R.listed (get node_cmp aims.now.puts.now) (place_in places.now) aims.now.named.now change.now step.now f.rows f.regs f.loose) }
{
    let rows = rows_over(alloc, aims, &change.rows, &step.rows)?;
    let regs = registers_over(alloc, aims.puts, aims.named, &change.regs, &step.regs)?;
    let loose = loose_nodes(alloc, aims.puts, places, aims.named)?;
    Ok(Fields { rows, regs, loose })
}
