//! The new nodes of what is left of a step.
ghost use Rattle.std.specs.Prelude.{◌≡◌, ◌++◌, IfOk, OnOk};
ghost use Rattle.std.specs.BTreeSet.{contains};
ghost use Rattle.std.specs.List.{filter_map};
ghost use Rattle.std.specs.Option.{option_to_list};
ghost use Rattle.st_ids.specs.Order.{node_cmp};
ghost use Rattle.st_marks.specs.Embedding.{is_among};
ghost use Rattle.st_marks.specs.Listings.{nodes_new};
ghost use Rattle.st_strip.specs.inside.Told.{unless_made as unless};

use st_climb::new_names;
use st_ids::{Copied, List, NodeId};
use st_marks::NewNode;
use std::alloc::{AllocError, Global};
use std::collections::BTreeSet;

// Puts a new node behind others, unless it is one of some.
fn push_unless(
    alloc: Global,
    list: &mut List<NewNode>,
    made: &BTreeSet<NodeId>,
    node: &NewNode,
) -> Result<(), AllocError>
    ensures { OnOk result (list.new ≡ list.old ++ option_to_list (unless (contains node_cmp made.now) node.now)) }
{
    if made.contains(&node.node) {
        Ok(())
    } else {
        list.push(node.copy(alloc)?)?;
        Ok(())
    }
}

// Those of new nodes that aren't in a set.
fn all_unless(
    alloc: Global,
    made: &BTreeSet<NodeId>,
    nodes: &[NewNode],
) -> Result<List<NewNode>, AllocError>
    ensures { IfOk result (λ l. l ≡ filter_map (unless (contains node_cmp made.now)) nodes.now) }
{
    let mut list = List::new(alloc);
    for node in nodes {
        push_unless(alloc, &mut list, made, node)?;
    }
    Ok(list)
}

/// The new nodes of the whole step that the first part doesn't make.
pub fn rest_new(
    alloc: Global,
    first: &List<NewNode>,
    whole: &List<NewNode>,
) -> Result<List<NewNode>, AllocError>
    ensures { IfOk result (λ l. l ≡ filter_map (unless (is_among (nodes_new first.now))) whole.now) }
{
    let made = new_names(alloc, first.as_slice())?;
    all_unless(alloc, &made, whole.as_slice())
}
