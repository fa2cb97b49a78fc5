//! Steps and changes of the root's row, as rows of data.

use st_ids::{Atom, CellId, FieldId, Key, List, NodeId, OPENING, ROOT, Rev, Text};
use st_marks::{
    Change, How, Loose, Mark, NewNode, RegMark, RowMarks, SchemaEntry, SchemaStep, Step,
};
use std::alloc::{AllocError, Global};

pub const OURS: Rev = Rev { session: 2, num: 1 };

/// A node that was there.
pub const A: NodeId = NodeId(Atom {
    rev: OPENING,
    at: 1,
});

/// Another.
pub const B: NodeId = NodeId(Atom {
    rev: OPENING,
    at: 2,
});

/// A new node.
pub const P: NodeId = NodeId(Atom { rev: OURS, at: 0 });

pub const CELL_OF_A: CellId = CellId(Atom {
    rev: OPENING,
    at: 1,
});

pub const CELL_OF_B: CellId = CellId(Atom {
    rev: OPENING,
    at: 2,
});

pub const CELL_OF_P: CellId = CellId(Atom { rev: OURS, at: 0 });

pub const A_LEAVES: Mark = Mark::Touch {
    cell: CELL_OF_A,
    node: A,
    how: How::Leave,
};

pub const P_PUT: Mark = Mark::Make {
    cell: CELL_OF_P,
    node: P,
    full: true,
};

/// What a step or a change lists: the nodes that it needs, its new nodes, the marks of the root's row, and the nodes that were nowhere.
#[derive(Clone, Copy)]
pub struct Listed {
    pub need: &'static [NodeId],
    pub new: &'static [NodeId],
    pub marks: &'static [Mark],
    pub loose: &'static [Loose],
}

fn root_row(alloc: Global, marks: &[Mark]) -> Result<List<RowMarks>, AllocError> {
    let mut rows = List::new(alloc);
    let marks = List::from_vec(marks.to_vec(alloc)?);
    rows.push(RowMarks { node: ROOT, marks })?;
    Ok(rows)
}

fn push_new(alloc: Global, new: &mut List<NewNode>, node: NodeId) -> Result<(), AllocError> {
    let ty = Text::from_str(alloc, "t")?;
    new.push(NewNode {
        node,
        ty,
        leaf: None,
    })?;
    Ok(())
}

fn new_nodes(alloc: Global, nodes: &[NodeId]) -> Result<List<NewNode>, AllocError> {
    let mut new = List::new(alloc);
    for node in nodes {
        push_new(alloc, &mut new, *node)?;
    }
    Ok(new)
}

/// The step that leaves all as it is.
pub fn no_step(alloc: Global) -> Step {
    Step {
        new: List::new(alloc),
        rows: List::new(alloc),
        regs: List::new(alloc),
        loose: List::new(alloc),
        schema: None,
    }
}

fn fill_step(alloc: Global, step: &mut Step, listed: &Listed) -> Result<(), AllocError> {
    step.new = new_nodes(alloc, listed.new)?;
    step.rows = root_row(alloc, listed.marks)?;
    step.loose = List::from_vec(listed.loose.to_vec(alloc)?);
    Ok(())
}

/// The step that lists this.
pub fn step(alloc: Global, listed: &Listed) -> Result<Step, AllocError> {
    let mut step = no_step(alloc);
    fill_step(alloc, &mut step, listed)?;
    Ok(step)
}

fn ours(alloc: Global) -> Result<List<SchemaEntry>, AllocError> {
    let mut entries = List::new(alloc);
    let text = Text::from_str(alloc, "s")?;
    entries.push(SchemaEntry { rev: OURS, text })?;
    Ok(entries)
}

/// A step that takes our schema out of effect.
pub fn step_without_ours(alloc: Global) -> Result<Step, AllocError> {
    let cut = ours(alloc)?;
    let mut step = no_step(alloc);
    step.schema = Some(SchemaStep {
        on: OPENING,
        cut,
        add: List::new(alloc),
    });
    Ok(step)
}

fn fill_change(alloc: Global, change: &mut Change, listed: &Listed) -> Result<(), AllocError> {
    change.need = List::from_vec(listed.need.to_vec(alloc)?);
    change.new = new_nodes(alloc, listed.new)?;
    change.rows = root_row(alloc, listed.marks)?;
    change.loose = List::from_vec(listed.loose.to_vec(alloc)?);
    Ok(())
}

/// The change that lists this, under the opening's schema.
pub fn change(alloc: Global, rev: Rev, listed: &Listed) -> Result<Change, AllocError> {
    let mut change = Change {
        rev,
        under: OPENING,
        base: true,
        need: List::new(alloc),
        new: List::new(alloc),
        rows: List::new(alloc),
        regs: List::new(alloc),
        loose: List::new(alloc),
        schema: None,
    };
    fill_change(alloc, &mut change, listed)?;
    Ok(change)
}

fn register(alloc: Global) -> Result<FieldId, AllocError> {
    let key = Key(Text::from_str(alloc, "k")?);
    Ok(FieldId { node: ROOT, key })
}

fn push_filled(alloc: Global, regs: &mut List<RegMark>, node: NodeId) -> Result<(), AllocError> {
    let field = register(alloc)?;
    regs.push(RegMark {
        field,
        held: None,
        how: How::Stay,
        clear: true,
        fill: Some(node),
    })?;
    Ok(())
}

/// The change that lists this, and puts a node into a register of the root.
pub fn change_into_register(
    alloc: Global,
    rev: Rev,
    listed: &Listed,
    node: NodeId,
) -> Result<Change, AllocError> {
    let mut change = change(alloc, rev, listed)?;
    push_filled(alloc, &mut change.regs, node)?;
    Ok(change)
}

const NOTHING: Listed = Listed {
    need: &[],
    new: &[],
    marks: &[],
    loose: &[],
};

/// A change of schema where another stands behind the opening's, so that it is void there.
pub fn schema_change(alloc: Global, rev: Rev) -> Result<Change, AllocError> {
    let mut change = change(alloc, rev, &NOTHING)?;
    change.rows = List::new(alloc);
    change.base = false;
    change.schema = Some(Text::from_str(alloc, "n")?);
    Ok(change)
}

fn push_entry(alloc: Global, entries: &mut List<SchemaEntry>, rev: Rev) -> Result<(), AllocError> {
    let text = Text::from_str(alloc, "n")?;
    entries.push(SchemaEntry { rev, text })?;
    Ok(())
}

/// A step that takes our schema out of effect, and brings another.
pub fn step_to_another(alloc: Global, rev: Rev) -> Result<Step, AllocError> {
    let mut step = step_without_ours(alloc)?;
    if let Some(part) = &mut step.schema {
        push_entry(alloc, &mut part.add, rev)?;
    }
    Ok(step)
}
