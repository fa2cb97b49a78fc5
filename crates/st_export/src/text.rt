//! The text of the live tree, and of what a node shows.
ghost use Rattle.std.specs.Prelude.{◌≡◌, ◌↔◌, IfOk, IsErrOf, None};
ghost use Rattle.st_ids.specs.declared.fault.Or;
ghost use Rattle.st_marks.specs.Document.{Document, IsSoundInForm};
ghost use Rattle.st_marks.specs.LiveTree.{IsTreeText};
ghost use Rattle.st_doc.specs.LiveText.{is_among};
ghost use Rattle.st_forest.specs.Stands.{StandsFor};
ghost use Rattle.st_export.specs.NodeText.{IsNodeText};

use crate::values::value_at;
use st_forest::Forest;
use st_ids::{NodeId, Or, ROOT, Text};
use std::alloc::{AllocError, Global};

/// The node isn't there.
#[derive(Clone, Copy, Debug, PartialEq, Eq)]
pub struct NoNode;

/// The text of what a node shows, with all that is beneath it, in compact JSON; `arrays` are the types whose nodes have a row. It
/// goes through what is shown there and no more, and to any depth.
pub fn export_at(
    alloc: Global,
    forest: &Forest,
    arrays: &[Text],
    node: NodeId,
) -> Result<Text, Or<NoNode>>
    ensures text { (D : Document) → StandsFor forest.now D → IsSoundInForm D
        → IfOk result (IsNodeText (is_among arrays.now) D node) }
    ensures no_node { (D : Document) → StandsFor forest.now D → IsSoundInForm D
        → (IsErrOf result (Or.Fault (record {})) ↔ (D.nodes node ≡ None)) }
{
    if forest.node(node).is_none() {
        return Err(Or::Fault(NoNode));
    }
    match value_at(alloc, forest, arrays, node)? {
        None => Err(Or::Fault(NoNode)),
        Some(value) => Ok(Text::from_string(value.to_string(alloc)?)),
    }
}

/// The text of the live tree, in compact JSON; `arrays` are the types whose nodes have a row. It goes through the live tree and no
/// more, and to any depth.
pub fn export(alloc: Global, forest: &Forest, arrays: &[Text]) -> Result<Text, AllocError>
    ensures { (D : Document) → StandsFor forest.now D → IsSoundInForm D → IfOk result (IsTreeText (is_among arrays.now) D) }
{
    match export_at(alloc, forest, arrays, ROOT) {
        Ok(text) => Ok(text),
        Err(Or::NoMemory) => Err(AllocError),
        Err(Or::Fault(NoNode)) => Ok(Text::new(alloc)),
    }
}
