//! Steps, part by part.
use st_ids::{FieldId, Key, List, NodeId, ROOT, Rev, Text};
use st_marks::{How, Loose, Mark, NewNode, RegStep, RowMarks, SchemaEntry, SchemaStep, Step};
use std::alloc::{AllocError, Global};

/// A step that lists nothing.
pub fn no_step(alloc: Global) -> Step {
    Step {
        new: List::new(alloc),
        rows: List::new(alloc),
        regs: List::new(alloc),
        loose: List::new(alloc),
        schema: None,
    }
}

/// A new node comes.
pub fn add_new(alloc: Global, step: &mut Step, node: NodeId) -> Result<(), AllocError> {
    let ty = Text::from_str(alloc, "list")?;
    step.new.push(NewNode {
        node,
        ty,
        leaf: None,
    })?;
    Ok(())
}

/// The row of a node is listed.
pub fn add_row(
    alloc: Global,
    step: &mut Step,
    node: NodeId,
    listed: &[Mark],
) -> Result<(), AllocError> {
    let mut marks = List::new(alloc);
    for mark in listed {
        marks.push(*mark)?;
    }
    step.rows.push(RowMarks { node, marks })?;
    Ok(())
}

/// The title is listed.
pub fn add_register(
    alloc: Global,
    step: &mut Step,
    before: Option<NodeId>,
    after: Option<NodeId>,
) -> Result<(), AllocError> {
    let key = Key(Text::from_str(alloc, "title")?);
    let field = FieldId { node: ROOT, key };
    step.regs.push(RegStep {
        field,
        before,
        after,
    })?;
    Ok(())
}

/// A node that is nowhere is listed.
pub fn add_loose(step: &mut Step, node: NodeId, how: How) -> Result<(), AllocError> {
    step.loose.push(Loose { node, how })?;
    Ok(())
}

fn entries(alloc: Global, revs: &[Rev]) -> Result<List<SchemaEntry>, AllocError> {
    let mut entries = List::new(alloc);
    for rev in revs {
        let text = Text::from_str(alloc, "schema")?;
        entries.push(SchemaEntry { rev: *rev, text })?;
    }
    Ok(entries)
}

/// Schemas of these revisions go, and come.
pub fn add_schemas(
    alloc: Global,
    step: &mut Step,
    on: Rev,
    cut: &[Rev],
    add: &[Rev],
) -> Result<(), AllocError> {
    let cut = entries(alloc, cut)?;
    let add = entries(alloc, add)?;
    step.schema = Some(SchemaStep { on, cut, add });
    Ok(())
}
