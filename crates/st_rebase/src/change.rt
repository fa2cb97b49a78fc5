//! A whole change over a step.
ghost use Rattle.std.specs.Prelude.{◌≡◌, ◌↔◌, map, IfOk, IsTrue};
ghost use Rattle.std.specs.BTreeSet.{contains};
ghost use Rattle.st_ids.specs.Order.{node_cmp};
ghost use Rattle.st_marks.specs.declared.intents.Intent.{Intent};
ghost use Rattle.st_marks.specs.Document.{Document};
ghost use Rattle.st_marks.specs.Embedding.{IsEmbedding};
ghost use Rattle.st_marks.specs.Extends.{IsExtendedBy};
ghost use Rattle.st_marks.specs.Intent.{Fits};
ghost use Rattle.st_marks.specs.Listings.{nodes_new};
ghost use Rattle.st_marks.specs.Step.{IsStep};
ghost use Rattle.st_marks.specs.Verdict.{IsBaseInEffect};
ghost use Rattle.st_moves.specs.Room.{HasRoomInRows};
ghost use Rattle.st_rebase.specs.inside.Over.{AreRegistersOver, IsChangeOver};
ghost use Rattle.st_rebase.specs.inside.Room.{AreRowsOver};

use crate::base::base_after;
use crate::registers::rebase_registers;
use crate::rows::rebase_rows;
use st_ids::{List, NodeId};
use st_marks::{Change, NewNode, RegMark, RowMarks, Step};
use st_moves::{Between, carry_marks};
use std::alloc::{AllocError, Global};
use std::collections::BTreeSet;

// The names of new nodes.
fn names_of(alloc: Global, new: &[NewNode]) -> Result<List<NodeId>, AllocError>
    ensures { IfOk result (λ l. l ≡ nodes_new new.now) }
{
    let mut names = List::new(alloc);
    for one in new {
        names.push(one.node)?;
    }
    Ok(names)
}

// What a change lists of rows and registers.
#[derive(Drop)]
struct Fields {
    rows: List<RowMarks>,
    regs: List<RegMark>,
}

// The registers of a change over what is left of a step.
fn regs_over(alloc: Global, change: &Change, step: &Step) -> Result<List<RegMark>, AllocError>
    ensures { IfOk result (AreRegistersOver change.now.rev (nodes_new change.now.new) step.now.regs change.now.regs) }
{
    let new = names_of(alloc, change.new.as_slice())?;
    rebase_registers(alloc, change.rev, new.as_slice(), &change.regs, &step.regs)
}

// The rows and registers of a change over what is left of a step, where the nodes of `named` stand already.
fn fields_over(
    alloc: Global,
    change: &Change,
    step: &Step,
    named: &BTreeSet<NodeId>,
) -> Result<Fields, AllocError>
    ensures rows { IfOk result (λ f. AreRowsOver (contains node_cmp named.now) step.now.rows change.now.rows f.rows) }
    ensures regs { IfOk result (λ f. AreRegistersOver change.now.rev (nodes_new change.now.new) step.now.regs change.now.regs f.regs) }
{
    let rows = rebase_rows(alloc, &change.rows, &step.rows, named)?;
    let regs = regs_over(alloc, change, step)?;
    Ok(Fields { rows, regs })
}

// The change with these fields, and with this said of the schema in effect.
fn change_with(mut change: Change, base: bool, fields: Fields) -> Change
    ensures { result ≡ record change { base = base; rows = fields.rows; regs = fields.regs } }
{
    let Fields { rows, regs } = fields;
    change.base = base;
    change.rows = rows;
    change.regs = regs;
    change
}

// A change of the document between over what is left of a step.
fn change_over(
    alloc: Global,
    between: Between,
    step: &Step,
    base: bool,
) -> Result<Change, AllocError>
    ensures { IfOk result (IsChangeOver (contains node_cmp between.named) between.change step.now base) }
{
    let Between { change, named } = between;
    let fields = fields_over(alloc, &change, step, &named)?;
    Ok(change_with(change, base, fields))
}

/// A change over a step with which it is known to agree, where `base` says whether the schema under which the commit was made is
/// in effect after the step.
pub fn rebase_with_base(
    alloc: Global,
    change: &Change,
    step: &Step,
    base: bool,
) -> Result<Change, AllocError>
    requires { HasRoomInRows change.now step.now }
    ensures { (D E : Document) (N : Intent) → IsExtendedBy D E → Fits D N → Fits E N
        → IsEmbedding D N change.now → IsStep D E step.now → IsTrue base ↔ IsBaseInEffect E N
        → IfOk result (IsEmbedding E N) }
{
    let between = carry_marks(alloc, change, step)?;
    change_over(alloc, between, step, base)
}

/// A change over a step, for two that are known to stand over one document: it doesn't test whether they agree, and of two that
/// don't, anything may be answered. Takes O(n log n) for n marks and names, whatever a Skip counts, and a look at all new nodes for
/// each register.
pub fn rebase_agreed(alloc: Global, change: &Change, step: &Step) -> Result<Change, AllocError>
    requires { HasRoomInRows change.now step.now }
    ensures { (D E : Document) (N : Intent) → IsExtendedBy D E → Fits D N → Fits E N
        → IsEmbedding D N change.now → IsStep D E step.now → IfOk result (IsEmbedding E N) }
{
    let base = base_after(change, step);
    rebase_with_base(alloc, change, step, base)
}
