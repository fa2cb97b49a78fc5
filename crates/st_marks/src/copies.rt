//! Copies into fresh memory.
ghost use Rattle.std.specs.Prelude.{◌≡◌, OnOk};

use crate::changes::{Change, NewNode};
use crate::intents::{Group, Intent, Owned, Put, To};
use crate::marks::{How, Loose, Mark, RegMark, RegStep, RowMarks};
use crate::places::{Slot, Spot};
use crate::schemas::{SchemaEntry, SchemaStep};
use crate::steps::Step;
use crate::verdicts::Verdict;
use st_ids::{Copied, List};
use std::alloc::{AllocError, Global};

impl Copied for How {
    fn copy(&self, _alloc: Global) -> Result<Self, AllocError> {
        Ok(*self)
    }
}

impl Copied for Mark {
    fn copy(&self, _alloc: Global) -> Result<Self, AllocError> {
        Ok(*self)
    }
}

impl Copied for Loose {
    fn copy(&self, _alloc: Global) -> Result<Self, AllocError> {
        Ok(*self)
    }
}

impl Copied for Slot {
    fn copy(&self, _alloc: Global) -> Result<Self, AllocError> {
        Ok(*self)
    }
}

impl Copied for Owned {
    fn copy(&self, _alloc: Global) -> Result<Self, AllocError> {
        Ok(*self)
    }
}

impl Copied for Verdict {
    fn copy(&self, _alloc: Global) -> Result<Self, AllocError> {
        Ok(*self)
    }
}

impl Copied for RowMarks {
    fn copy(&self, alloc: Global) -> Result<Self, AllocError> {
        let node = self.node;
        let marks = self.marks.copy(alloc)?;
        Ok(RowMarks { node, marks })
    }
}

impl Copied for RegMark {
    fn copy(&self, alloc: Global) -> Result<Self, AllocError> {
        let field = self.field.copy(alloc)?;
        Ok(RegMark {
            field,
            held: self.held,
            how: self.how,
            clear: self.clear,
            fill: self.fill,
        })
    }
}

impl Copied for RegStep {
    fn copy(&self, alloc: Global) -> Result<Self, AllocError> {
        let field = self.field.copy(alloc)?;
        Ok(RegStep {
            field,
            before: self.before,
            after: self.after,
        })
    }
}

impl Copied for Spot {
    fn copy(&self, alloc: Global) -> Result<Self, AllocError> {
        match self {
            Spot::Nowhere => Ok(Spot::Nowhere),
            Spot::Row { node, cell } => Ok(Spot::Row {
                node: *node,
                cell: *cell,
            }),
            Spot::Register(field) => Ok(Spot::Register(field.copy(alloc)?)),
        }
    }
}

impl Copied for SchemaEntry {
    fn copy(&self, alloc: Global) -> Result<Self, AllocError> {
        let rev = self.rev;
        let text = self.text.copy(alloc)?;
        Ok(SchemaEntry { rev, text })
    }
}

impl Copied for SchemaStep {
    fn copy(&self, alloc: Global) -> Result<Self, AllocError> {
        let on = self.on;
        let cut = self.cut.copy(alloc)?;
        let add = self.add.copy(alloc)?;
        Ok(SchemaStep { on, cut, add })
    }
}

impl Copied for NewNode {
    fn copy(&self, alloc: Global) -> Result<Self, AllocError> {
        let node = self.node;
        let ty = self.ty.copy(alloc)?;
        let leaf = self.leaf.copy(alloc)?;
        Ok(NewNode { node, ty, leaf })
    }
}

// Copies what a change lists.
fn copy_lists(alloc: Global, from: &Change, to: &mut Change) -> Result<(), AllocError>
    ensures { OnOk result (to.exit.now ≡ record from.now { rev = to.entry.now.rev; under = to.entry.now.under; base = to.entry.now.base; schema = to.entry.now.schema }) }
{
    to.need = from.need.copy(alloc)?;
    to.new = from.new.copy(alloc)?;
    to.rows = from.rows.copy(alloc)?;
    to.regs = from.regs.copy(alloc)?;
    to.loose = from.loose.copy(alloc)?;
    Ok(())
}

impl Copied for Change {
    fn copy(&self, alloc: Global) -> Result<Self, AllocError> {
        let schema = self.schema.copy(alloc)?;
        let mut copy = Change {
            rev: self.rev,
            under: self.under,
            base: self.base,
            need: List::new(alloc),
            new: List::new(alloc),
            rows: List::new(alloc),
            regs: List::new(alloc),
            loose: List::new(alloc),
            schema,
        };
        copy_lists(alloc, self, &mut copy)?;
        Ok(copy)
    }
}

// Copies what differs.
fn copy_differences(alloc: Global, from: &Step, to: &mut Step) -> Result<(), AllocError>
    ensures { OnOk result (to.exit.now ≡ record from.now { schema = to.entry.now.schema }) }
{
    to.new = from.new.copy(alloc)?;
    to.rows = from.rows.copy(alloc)?;
    to.regs = from.regs.copy(alloc)?;
    to.loose = from.loose.copy(alloc)?;
    Ok(())
}

impl Copied for Step {
    fn copy(&self, alloc: Global) -> Result<Self, AllocError> {
        let schema = self.schema.copy(alloc)?;
        let mut copy = Step {
            new: List::new(alloc),
            rows: List::new(alloc),
            regs: List::new(alloc),
            loose: List::new(alloc),
            schema,
        };
        copy_differences(alloc, self, &mut copy)?;
        Ok(copy)
    }
}

impl Copied for To {
    fn copy(&self, alloc: Global) -> Result<Self, AllocError> {
        match self {
            To::Nowhere => Ok(To::Nowhere),
            To::Cell(cell) => Ok(To::Cell(*cell)),
            To::Register(field) => Ok(To::Register(field.copy(alloc)?)),
        }
    }
}

impl Copied for Put {
    fn copy(&self, alloc: Global) -> Result<Self, AllocError> {
        let node = self.node;
        let to = self.to.copy(alloc)?;
        Ok(Put { node, to })
    }
}

impl Copied for Group {
    fn copy(&self, alloc: Global) -> Result<Self, AllocError> {
        let node = self.node;
        let after = self.after;
        let cells = self.cells.copy(alloc)?;
        Ok(Group { node, after, cells })
    }
}

// Copies what is wanted.
fn copy_wants(alloc: Global, from: &Intent, to: &mut Intent) -> Result<(), AllocError>
    ensures { OnOk result (to.exit.now ≡ record from.now { rev = to.entry.now.rev; under = to.entry.now.under; schema = to.entry.now.schema }) }
{
    to.new = from.new.copy(alloc)?;
    to.groups = from.groups.copy(alloc)?;
    to.clear = from.clear.copy(alloc)?;
    to.put = from.put.copy(alloc)?;
    to.need = from.need.copy(alloc)?;
    Ok(())
}

impl Copied for Intent {
    fn copy(&self, alloc: Global) -> Result<Self, AllocError> {
        let schema = self.schema.copy(alloc)?;
        let mut copy = Intent {
            rev: self.rev,
            under: self.under,
            new: List::new(alloc),
            groups: List::new(alloc),
            clear: List::new(alloc),
            put: List::new(alloc),
            need: List::new(alloc),
            schema,
        };
        copy_wants(alloc, self, &mut copy)?;
        Ok(copy)
    }
}
