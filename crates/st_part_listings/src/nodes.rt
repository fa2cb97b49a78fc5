//! The nodes that are nowhere before two parts of one commit, and those that the two need.
ghost use Rattle.std.specs.Prelude.{◌≡◌, ◌++◌, map, IfOk, OnOk};
ghost use Rattle.std.specs.BTreeSet.{contains};
ghost use Rattle.std.specs.List.{filter_map};
ghost use Rattle.std.specs.Option.{option_to_list};
ghost use Rattle.st_ids.specs.Order.{node_cmp};
ghost use Rattle.st_part_listings.specs.Together.{AreLooseOf, AreNeedsOf, goes_of, known_by, loose_before as before, loose_behind as behind, unless_new as old};

use crate::joint_puts::{Tables, how_goes, is_known};
use crate::unions::union;
use st_ids::{List, NodeId};
use st_marks::{Loose, To};
use std::alloc::{AllocError, Global};
use std::collections::BTreeSet;

// Puts an item behind others, if there is one.
fn push_if_some<T: Drop>(list: &mut List<T>, item: Option<T>) -> Result<(), AllocError>
    ensures { OnOk result (list.new ≡ list.old ++ option_to_list item) }
{
    match item {
        None => Ok(()),
        Some(item) => {
            list.push(item)?;
            Ok(())
        }
    }
}

// A node that is nowhere, by where both parts put it.
fn loose_one(tables: &Tables, one: Loose) -> Loose
    ensures { result ≡ before (goes_of tables.now) one }
{
    Loose {
        node: one.node,
        how: how_goes(tables, one.node, &To::Nowhere),
    }
}

// The nodes that are nowhere before the first part, by where both parts put them.
fn all_before(alloc: Global, tables: &Tables, loose: &[Loose]) -> Result<List<Loose>, AllocError>
    ensures { IfOk result (λ l. l ≡ map (before (goes_of tables.now)) loose.now) }
{
    let mut list = List::new(alloc);
    for one in loose {
        list.push(loose_one(tables, *one))?;
    }
    Ok(list)
}

// A node that is nowhere before the second part, unless the first knows it.
fn one_behind(tables: &Tables, one: Loose) -> Option<Loose>
    ensures { result ≡ behind (goes_of tables.now) (known_by tables.now) one }
{
    if is_known(tables, one.node) {
        None
    } else {
        Some(loose_one(tables, one))
    }
}

// The nodes that are nowhere before the second part, but for those that the first knows.
fn all_behind(alloc: Global, tables: &Tables, loose: &[Loose]) -> Result<List<Loose>, AllocError>
    ensures { IfOk result (λ l. l ≡ filter_map (behind (goes_of tables.now) (known_by tables.now)) loose.now) }
{
    let mut list = List::new(alloc);
    for one in loose {
        push_if_some(&mut list, one_behind(tables, *one))?;
    }
    Ok(list)
}

/// The nodes that are nowhere before two parts.
pub fn loose_of_parts(
    alloc: Global,
    tables: &Tables,
    first: &[Loose],
    second: &[Loose],
) -> Result<List<Loose>, AllocError>
    ensures { IfOk result (AreLooseOf (goes_of tables.now) (known_by tables.now) first.now second.now) }
{
    let before = all_before(alloc, tables, first)?;
    let behind = all_behind(alloc, tables, second)?;
    union(alloc, before.as_slice(), behind.as_slice())
}

// A node, unless it is new.
fn unless_new(new: &BTreeSet<NodeId>, node: NodeId) -> Option<NodeId>
    ensures { result ≡ old (contains node_cmp new.now) node }
{
    if new.contains(&node) {
        None
    } else {
        Some(node)
    }
}

// The nodes that the second part needs, but for those that the first makes.
fn old_needs(
    alloc: Global,
    new: &BTreeSet<NodeId>,
    need: &[NodeId],
) -> Result<List<NodeId>, AllocError>
    ensures { IfOk result (λ l. l ≡ filter_map (old (contains node_cmp new.now)) need.now) }
{
    let mut list = List::new(alloc);
    for node in need {
        push_if_some(&mut list, unless_new(new, *node))?;
    }
    Ok(list)
}

/// The nodes that two parts need.
pub fn needs_of_parts(
    alloc: Global,
    new: &BTreeSet<NodeId>,
    first: &[NodeId],
    second: &[NodeId],
) -> Result<List<NodeId>, AllocError>
    ensures { IfOk result (AreNeedsOf (contains node_cmp new.now) first.now second.now) }
{
    let old = old_needs(alloc, new, second)?;
    union(alloc, first, old.as_slice())
}
