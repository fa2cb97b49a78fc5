//! The nodes that are nowhere behind a first part of a step.
ghost use Rattle.std.specs.Prelude.{◌≡◌, ◌++◌, true, IfOk, OnOk, option_copied};
ghost use Rattle.std.specs.BTreeMap.{get};
ghost use Rattle.std.specs.BTreeSet.{IsOrdered, contains};
ghost use Rattle.std.specs.List.{filter_map};
ghost use Rattle.std.specs.Option.{option_to_list};
ghost use Rattle.st_ids.specs.Listing.{IsListing};
ghost use Rattle.st_ids.specs.Order.{node_cmp};
ghost use Rattle.st_ids.specs.declared.names.NodeId.{NodeId as Node};
ghost use Rattle.st_kind.specs.Named.{either};
ghost use Rattle.st_marks.specs.declared.marks.Loose.{Loose as LooseNode};
ghost use Rattle.st_marks.specs.declared.steps.Step.{Step as Listing};
ghost use Rattle.st_marks.specs.Document.{Document};
ghost use Rattle.st_marks.specs.Extends.{IsExtendedBy};
ghost use Rattle.st_marks.specs.Step.{IsStep};
ghost use Rattle.st_mention_laws.specs.Shown.{thin_step};
ghost use Rattle.st_strip.specs.Rest.{rest_loose as rest};
ghost use Rattle.st_strip.specs.inside.Told.{TellsNodes, nowhere_by, nowhere_told};

use st_ids::{List, NodeId, ROOT, is_same_node};
use st_listings::{nodes_found, nodes_listed, union};
use st_marks::{How, Loose, Spot, Step};
use st_puts::places_after;
use std::alloc::{AllocError, Global};
use std::collections::{BTreeMap, BTreeSet};

/// What a step tells of nodes: whom it lists, whom it finds somewhere, and where it leaves them.
#[derive(Drop)]
pub struct Tables {
    pub listed: BTreeSet<NodeId>,
    pub stood: BTreeSet<NodeId>,
    pub spots: BTreeMap<NodeId, Spot>,
}

/// What a step tells of nodes.
pub fn tables_of(alloc: Global, step: &Step) -> Result<Tables, AllocError>
    ensures { (D E : Document) (S : Listing) → IsExtendedBy D E → IsStep D E S → thin_step step.now ≡ thin_step S
        → IfOk result (λ t. TellsNodes D E S (contains node_cmp t.listed) (contains node_cmp t.stood) (get node_cmp t.spots)) }
{
    let listed = nodes_listed(alloc, step)?;
    let stood = nodes_found(alloc, step)?;
    let spots = places_after(alloc, step)?;
    Ok(Tables {
        listed,
        stood,
        spots,
    })
}

// Whether a node is nowhere: as it is told, or else by whether it stood somewhere at first.
fn is_nowhere_by(spot: Option<&Spot>, stood: bool) -> bool
    ensures { result ≡ nowhere_by (option_copied spot.entry) stood }
{
    match spot {
        None => !stood,
        Some(Spot::Nowhere) => true,
        Some(_) => false,
    }
}

// A node that is told, if it is nowhere between, by whether it is nowhere at last.
fn rest_one(between: bool, last: bool, node: NodeId) -> Option<Loose>
    ensures { result ≡ rest true between last node }
{
    if between && !is_same_node(node, ROOT) {
        let how = if last { How::Stay } else { How::Leave };
        Some(Loose { node, how })
    } else {
        None
    }
}

// A node that either tells of, if it is nowhere between.
fn rest_of(first: &Tables, whole: &Tables, node: NodeId) -> Option<Loose>
    ensures { result ≡ rest true (nowhere_told (get node_cmp first.now.spots) (contains node_cmp whole.now.stood) node)
        (nowhere_told (get node_cmp whole.now.spots) (contains node_cmp first.now.stood) node) node }
{
    let between = is_nowhere_by(first.spots.get(&node), whole.stood.contains(&node));
    let last = is_nowhere_by(whole.spots.get(&node), first.stood.contains(&node));
    rest_one(between, last, node)
}

// Puts an item behind others, if there is one.
fn push_if_some(list: &mut List<Loose>, item: Option<Loose>) -> Result<(), AllocError>
    ensures { OnOk result (list.new ≡ list.old ++ option_to_list item) }
{
    match item {
        None => Ok(()),
        Some(item) => {
            list.push(item)?;
            Ok(())
        }
    }
}

// Those of some nodes that are nowhere between, one by one.
fn all_rest(
    alloc: Global,
    first: &Tables,
    whole: &Tables,
    nodes: &BTreeSet<NodeId>,
) -> Result<List<Loose>, AllocError>
    ensures loose { IfOk result (λ l. l ≡ filter_map (λ (n : Node). rest true
        (nowhere_told (get node_cmp first.now.spots) (contains node_cmp whole.now.stood) n)
        (nowhere_told (get node_cmp whole.now.spots) (contains node_cmp first.now.stood) n) n) nodes.now.keys) }
    ensures ordered { IfOk result (λ l. IsOrdered node_cmp nodes.now) }
{
    let mut list = List::new(alloc);
    for node in nodes.iter() {
        push_if_some(&mut list, rest_of(first, whole, *node))?;
    }
    Ok(list)
}

// Those of some nodes that are nowhere between.
fn rest_among(
    alloc: Global,
    first: &Tables,
    whole: &Tables,
    nodes: &BTreeSet<NodeId>,
) -> Result<List<Loose>, AllocError>
    ensures { IfOk result (λ l. IsListing node_cmp (λ (m : LooseNode). m.node) l (λ n. rest (contains node_cmp nodes.now n)
        (nowhere_told (get node_cmp first.now.spots) (contains node_cmp whole.now.stood) n)
        (nowhere_told (get node_cmp whole.now.spots) (contains node_cmp first.now.stood) n) n)) }
{
    let list = all_rest(alloc, first, whole, nodes)?;
    Ok(list)
}

/// The nodes that are nowhere between, of those that either lists.
pub fn rest_loose(alloc: Global, first: &Tables, whole: &Tables) -> Result<List<Loose>, AllocError>
    ensures { IfOk result (λ l. IsListing node_cmp (λ (m : LooseNode). m.node) l (λ n. rest
        (either (contains node_cmp first.now.listed) (contains node_cmp whole.now.listed) n)
        (nowhere_told (get node_cmp first.now.spots) (contains node_cmp whole.now.stood) n)
        (nowhere_told (get node_cmp whole.now.spots) (contains node_cmp first.now.stood) n) n)) }
{
    let of_first = rest_among(alloc, first, whole, &first.listed)?;
    let of_whole = rest_among(alloc, first, whole, &whole.listed)?;
    union(alloc, of_first.as_slice(), of_whole.as_slice())
}
