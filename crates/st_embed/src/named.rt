//! The nodes that an intent names.
ghost use Rattle.std.specs.Prelude.{◌≡◌, ◌++◌, map, IfOk, OnOk};
ghost use Rattle.st_ids.specs.declared.names.FieldId.{FieldId as Field};
ghost use Rattle.st_marks.specs.declared.intents.Group.{Group as GroupOf};
ghost use Rattle.st_marks.specs.declared.intents.Put.{Put as PutOf};
ghost use Rattle.st_embed.specs.inside.Rows.{names_with};

use st_ids::{FieldId, List, NodeId};
use st_marks::{Group, Intent, Put};
use std::alloc::{AllocError, Global};

// Adds the nodes that are put.
fn push_put(names: &mut List<NodeId>, puts: &[Put]) -> Result<(), AllocError>
    ensures { OnOk result (names.new ≡ names.old ++ map (λ (p : PutOf). p.node) puts.now) }
{
    for put in puts {
        names.push(put.node)?;
    }
    Ok(())
}

// Adds nodes.
fn push_all(names: &mut List<NodeId>, nodes: &[NodeId]) -> Result<(), AllocError>
    ensures { OnOk result (names.new ≡ names.old ++ nodes.now) }
{
    for node in nodes {
        names.push(*node)?;
    }
    Ok(())
}

// Adds the nodes in whose rows groups are.
fn push_grouped(names: &mut List<NodeId>, groups: &[Group]) -> Result<(), AllocError>
    ensures { OnOk result (names.new ≡ names.old ++ map (λ (g : GroupOf). g.node) groups.now) }
{
    for group in groups {
        names.push(group.node)?;
    }
    Ok(())
}

// Adds the nodes whose registers are cleared.
fn push_cleared(names: &mut List<NodeId>, clear: &[FieldId]) -> Result<(), AllocError>
    ensures { OnOk result (names.new ≡ names.old ++ map (λ (f : Field). f.node) clear.now) }
{
    for field in clear {
        names.push(field.node)?;
    }
    Ok(())
}

// Adds the nodes that an intent names.
fn push_named(
    names: &mut List<NodeId>,
    intent: &Intent,
    targets: &[NodeId],
) -> Result<(), AllocError>
    ensures { OnOk result (names.new ≡ names.old ++ names_with intent.now targets.now) }
{
    push_put(names, intent.put.as_slice())?;
    push_all(names, intent.need.as_slice())?;
    push_grouped(names, intent.groups.as_slice())?;
    push_all(names, targets)?;
    push_cleared(names, intent.clear.as_slice())?;
    Ok(())
}

/// The nodes that an intent names: those that it puts or needs, and those whose fields it names. `targets` are those in
/// whose rows the cells are that its puts lead to.
pub fn named_nodes(
    alloc: Global,
    intent: &Intent,
    targets: &[NodeId],
) -> Result<List<NodeId>, AllocError>
    ensures { IfOk result (λ names. names ≡ names_with intent.now targets.now) }
{
    let mut names = List::new(alloc);
    push_named(&mut names, intent, targets)?;
    Ok(names)
}
