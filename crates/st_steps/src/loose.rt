//! The nodes that are nowhere before two steps in turn.
ghost use Rattle.std.specs.Prelude.{◌≡◌, ◌++◌, map, IfOk, OnOk, option_copied};
ghost use Rattle.std.specs.BTreeMap.{get};
ghost use Rattle.std.specs.BTreeSet.{contains};
ghost use Rattle.std.specs.List.{filter_map};
ghost use Rattle.std.specs.Option.{option_or, option_to_list};
ghost use Rattle.st_ids.specs.Listing.{IsListing, item_of};
ghost use Rattle.st_ids.specs.Order.{node_cmp};
ghost use Rattle.st_marks.specs.declared.marks.Loose.{Loose as LooseNode};
ghost use Rattle.st_steps.specs.Turned.{how_in_turn as how_told};
ghost use Rattle.st_steps.specs.inside.Told.{loose_before as before, loose_behind as behind};

use st_ids::{List, NodeId};
use st_listings::union;
use st_marks::{How, Loose, Spot};
use std::alloc::{AllocError, Global};
use std::collections::{BTreeMap, BTreeSet};

// What becomes of a node that was nowhere, by where it is told to be at last.
fn how_in_turn(how: How, spot: Option<&Spot>) -> How
    ensures { result ≡ how_told how (option_copied spot.entry) }
{
    match spot {
        None => how,
        Some(Spot::Nowhere) => How::Stay,
        Some(_) => How::Leave,
    }
}

// The nodes that are nowhere before the first step, by where they are told to be at last.
fn loose_before(
    alloc: Global,
    spots: &BTreeMap<NodeId, Spot>,
    loose: &[Loose],
) -> Result<List<Loose>, AllocError>
    ensures { IfOk result (λ l. l ≡ map (before (get node_cmp spots.now)) loose.now) }
{
    let mut list = List::new(alloc);
    for one in loose {
        let how = how_in_turn(one.how, spots.get(&one.node));
        list.push(Loose {
            node: one.node,
            how,
        })?;
    }
    Ok(list)
}

// A node that is nowhere before the second step, unless the first knows it.
fn behind_one(stood: &BTreeSet<NodeId>, new: &BTreeSet<NodeId>, one: Loose) -> Option<Loose>
    ensures { result ≡ behind (contains node_cmp stood.now) (contains node_cmp new.now) one }
{
    if stood.contains(&one.node) {
        None
    } else if new.contains(&one.node) {
        None
    } else {
        Some(one)
    }
}

/// Puts an item behind others, if there is one.
pub fn push_if_some(list: &mut List<Loose>, item: Option<Loose>) -> Result<(), AllocError>
    ensures { OnOk result (list.new ≡ list.old ++ option_to_list item) }
{
    match item {
        None => Ok(()),
        Some(item) => {
            list.push(item)?;
            Ok(())
        }
    }
}

// The nodes that are nowhere before the second step, but for those that the first knows.
fn loose_behind(
    alloc: Global,
    stood: &BTreeSet<NodeId>,
    new: &BTreeSet<NodeId>,
    loose: &[Loose],
) -> Result<List<Loose>, AllocError>
    ensures { IfOk result (λ l. l ≡ filter_map (behind (contains node_cmp stood.now) (contains node_cmp new.now)) loose.now) }
{
    let mut list = List::new(alloc);
    for one in loose {
        push_if_some(&mut list, behind_one(stood, new, *one))?;
    }
    Ok(list)
}

/// What two tables tell of nodes before two steps, and one of where nodes are at last.
#[derive(Drop)]
pub struct Tables {
    pub stood: BTreeSet<NodeId>,
    pub new: BTreeSet<NodeId>,
    pub spots: BTreeMap<NodeId, Spot>,
}

/// The nodes that are nowhere before two steps in turn.
pub fn loose_in_turn(
    alloc: Global,
    tables: &Tables,
    first: &[Loose],
    second: &[Loose],
) -> Result<List<Loose>, AllocError>
    ensures { IfOk result (λ l. IsListing node_cmp (λ (m : LooseNode). m.node) l (λ n. option_or
        (item_of node_cmp (λ (m : LooseNode). m.node) (map (before (get node_cmp tables.now.spots)) first.now) n)
        (item_of node_cmp (λ (m : LooseNode). m.node) (filter_map (behind (contains node_cmp tables.now.stood) (contains node_cmp tables.now.new)) second.now) n))) }
{
    let before = loose_before(alloc, &tables.spots, first)?;
    let behind = loose_behind(alloc, &tables.stood, &tables.new, second)?;
    union(alloc, before.as_slice(), behind.as_slice())
}
