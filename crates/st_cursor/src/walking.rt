//! From the root along a path.
ghost use Rattle.std.specs.Prelude.{◌≡◌, ◌+◌, ◌<◌, ◌^◌, length, map, Ok, Err, None, IfOk, IfSome, OnOk, Some, []};
ghost use Rattle.st_cursor.specs.At.{Leads, place_at};
ghost use Rattle.st_cursor.specs.declared.hops.Hop.{Hop as OneHop};
ghost use Rattle.st_edits.specs.Paths.{child};
ghost use Rattle.st_edits.specs.Resolve.{walk};
ghost use Rattle.st_forest.specs.Stands.{StandsFor};
ghost use Rattle.st_ids.specs.Or.{IfRefused};
ghost use Rattle.st_ids.specs.Root.{root};
ghost use Rattle.st_marks.specs.Document.{Document};
ghost use Rattle.st_tree.specs.declared.edit.EditFault.TheVariants.{NoNode as NoSuchNode};

use crate::finding::{child, item_at};
use crate::hops::Hop;
use st_forest::Forest;
use st_ids::{Copied, List, NodeId, Or, Path, Place, ROOT};
use std::alloc::{AllocError, Global};

/// A place of a path leads to no node: the one of this number, counted from 0.
#[derive(Clone, Copy, Debug, PartialEq, Eq)]
pub struct NoNode {
    pub depth: u32,
}

/// The node to which a path leads from the root, or the number of the first place that leads to none.
pub fn walk(alloc: Global, forest: &Forest, path: &Path) -> Result<NodeId, Or<NoNode>>
    requires { length path.now < 2 ^ 32 }
    ensures ok { IfOk result (λ n. (D : Document) → StandsFor forest.now D → walk D path.now ≡ Ok n) }
    ensures no_node { IfRefused result (λ f. (D : Document) → StandsFor forest.now D
        → walk D path.now ≡ Err (NoSuchNode f.depth)) }
{
    let mut node = ROOT;
    for (i, place) in path.as_slice().iter().enumerate() {
        match child(alloc, forest, node, place)? {
            None => return Err(Or::Fault(NoNode { depth: i as u32 })),
            Some(next) => node = next,
        }
    }
    Ok(node)
}

// The hop from a node to where a place leads, if it leads to a node.
fn hop_from(
    alloc: Global,
    forest: &Forest,
    node: NodeId,
    place: &Place,
) -> Result<Option<Hop>, AllocError>
    ensures none { IfOk result (λ o. o ≡ None → (D : Document) → StandsFor forest.now D
        → child D node place.now ≡ None) }
    ensures place { IfOk result (λ o. IfSome o (λ h. h.place ≡ place.now)) }
    ensures some { IfOk result (λ o. IfSome o (λ h. (D : Document) → StandsFor forest.now D
        → child D node place.now ≡ Some h.node)) }
{
    match child(alloc, forest, node, place)? {
        None => Ok(None),
        Some(next) => {
            let place = place.copy(alloc)?;
            Ok(Some(Hop { place, node: next }))
        }
    }
}

/// The hop from a node to the item behind that of a place in the same field, if there is one.
pub(crate) fn hop_behind(
    alloc: Global,
    forest: &Forest,
    node: NodeId,
    place: &Place,
) -> Result<Option<Hop>, AllocError>
    ensures none { IfOk result (λ o. o ≡ None → (D : Document) → StandsFor forest.now D
        → child D node (place_at place.now.key (place.now.index + 1)) ≡ None) }
    ensures place { IfOk result (λ o. IfSome o (λ h. h.place ≡ place_at place.now.key (place.now.index + 1))) }
    ensures some { IfOk result (λ o. IfSome o (λ h. (D : Document) → StandsFor forest.now D
        → child D node h.place ≡ Some h.node)) }
{
    let key = place.key.copy(alloc)?;
    let index = place.index as u64 + 1;
    match item_at(alloc, forest, node, &key, index)? {
        None => Ok(None),
        Some(next) => {
            let index = index as u32;
            let place = Place { key, index };
            Ok(Some(Hop { place, node: next }))
        }
    }
}

// Lists the hops along a path from the root, or answers the number of the first place that leads to no node.
fn go_down(
    alloc: Global,
    forest: &Forest,
    path: &Path,
    hops: &mut List<Hop>,
) -> Result<(), Or<NoNode>>
    requires short { length path.now < 2 ^ 32 }
    requires none { hops.old ≡ [] }
    ensures places { OnOk result (map (λ (h : OneHop). h.place) hops.new ≡ path.now) }
    ensures leads { OnOk result ((D : Document) → StandsFor forest.now D → Leads D root hops.new) }
    ensures no_node { IfRefused result (λ f. (D : Document) → StandsFor forest.now D
        → walk D path.now ≡ Err (NoSuchNode f.depth)) }
{
    let mut node = ROOT;
    for (i, place) in path.as_slice().iter().enumerate() {
        match hop_from(alloc, forest, node, place)? {
            None => return Err(Or::Fault(NoNode { depth: i as u32 })),
            Some(hop) => {
                node = hop.node;
                hops.push(hop)?;
            }
        }
    }
    Ok(())
}

/// The hops along a path from the root, or the number of the first place that leads to no node.
pub(crate) fn way_down(alloc: Global, forest: &Forest, path: &Path) -> Result<List<Hop>, Or<NoNode>>
    requires { length path.now < 2 ^ 32 }
    ensures places { IfOk result (λ hs. map (λ (h : OneHop). h.place) hs ≡ path.now) }
    ensures leads { IfOk result (λ hs. (D : Document) → StandsFor forest.now D → Leads D root hs) }
    ensures no_node { IfRefused result (λ f. (D : Document) → StandsFor forest.now D
        → walk D path.now ≡ Err (NoSuchNode f.depth)) }
{
    let mut hops = List::new(alloc);
    go_down(alloc, forest, path, &mut hops)?;
    Ok(hops)
}
