//! The cells that a join makes.
ghost use Rattle.std.specs.Prelude.{◌≡◌, ◌++◌, ◌∷◌, ◌||◌, ◌&&◌, [], not, map, IfOk, OnOk, Option as Maybe, Some, None, cond};
ghost use Rattle.std.specs.BTreeMap.{get};
ghost use Rattle.std.specs.BTreeSet.{contains};
ghost use Rattle.std.specs.List.{filter, list_any};
ghost use Rattle.std.specs.Option.{option_or};
ghost use Rattle.std.specs.Ordering.{is_eq};
ghost use Rattle.st_ids.specs.Order.{same_node};
ghost use Rattle.st_ids.specs.declared.names.CellId.{CellId as Cell};
ghost use Rattle.st_ids.specs.declared.names.NodeId.{NodeId as Node};
ghost use Rattle.st_marks.specs.Intent.{group_at, same_anchor};
ghost use Rattle.st_join.specs.inside.Lists.{has_place, joined_groups, takes_place, with_cells_after, with_cells_in};
ghost use Rattle.st_join.specs.inside.Places.{cells_at, is_at_place, place_cmp};

use crate::lists::push_all;
use crate::sets::add;
use st_ids::{CellId, Copied, List, NodeId};
use st_marks::{Group, Intent, Owned};
use std::alloc::{AllocError, Global};
use std::collections::{BTreeMap, BTreeSet};

// Keeps a value at a key that has none.
fn keep<K: Ord + Drop, V: Drop>(
    map: &mut BTreeMap<K, V>,
    key: K,
    value: V,
) -> Result<(), AllocError>
    ensures { OnOk result ((q : K) → get K.cmp map.new q ≡ option_or (get K.cmp map.old q) (cond (is_eq (K.cmp key q)) (Some value) None)) }
{
    if map.contains_key(&key) {
        return Ok(());
    }
    map.insert(key, value)?;
    Ok(())
}

// Keeps a group's cells by its place, unless there is a group.
fn keep_group(
    alloc: Global,
    places: &mut BTreeMap<(NodeId, Option<CellId>), List<Owned>>,
    group: &Group,
) -> Result<(), AllocError>
    ensures { OnOk result ((n : Node) (a : Maybe Cell) → get place_cmp places.new (n, a)
        ≡ option_or (get place_cmp places.old (n, a)) (cond (is_at_place n a group.now) (Some group.now.cells) None)) }
{
    let cells = group.cells.copy(alloc)?;
    keep(places, (group.node, group.after), cells)?;
    Ok(())
}

// The cells that an intent makes, by place.
fn cells_by_place(
    alloc: Global,
    intent: &Intent,
) -> Result<BTreeMap<(NodeId, Option<CellId>), List<Owned>>, AllocError>
    ensures { IfOk result (λ m. (n : Node) (a : Maybe Cell) → cells_at m n a ≡ group_at intent.now n a) }
{
    let mut places = BTreeMap::new(alloc);
    for group in intent.groups.as_slice() {
        keep_group(alloc, &mut places, group)?;
    }
    Ok(places)
}

// Adds the cells of a place.
fn push_cells_at(
    alloc: Global,
    cells: &mut List<Owned>,
    places: &BTreeMap<(NodeId, Option<CellId>), List<Owned>>,
    node: NodeId,
    after: Option<CellId>,
) -> Result<(), AllocError>
    ensures { OnOk result (cells.new ≡ cells.old ++ cells_at places.now node after) }
{
    match places.get(&(node, after)) {
        None => Ok(()),
        Some(more) => {
            push_all(alloc, cells, more.as_slice())?;
            Ok(())
        }
    }
}

// Adds a cell, and what stands after it.
fn push_cell(
    alloc: Global,
    cells: &mut List<Owned>,
    places: &BTreeMap<(NodeId, Option<CellId>), List<Owned>>,
    node: NodeId,
    owned: Owned,
) -> Result<(), AllocError>
    ensures { OnOk result (cells.new ≡ cells.old ++ with_cells_after (cells_at places.now) node (owned ∷ [])) }
{
    cells.push(owned)?;
    push_cells_at(alloc, cells, places, node, Some(owned.cell))?;
    Ok(())
}

// Adds the cells of a group, each with what stands after it.
fn push_cells(
    alloc: Global,
    cells: &mut List<Owned>,
    places: &BTreeMap<(NodeId, Option<CellId>), List<Owned>>,
    group: &Group,
) -> Result<(), AllocError>
    ensures { OnOk result (cells.new ≡ cells.old ++ with_cells_after (cells_at places.now) group.now.node group.now.cells) }
{
    for owned in group.cells.as_slice() {
        push_cell(alloc, cells, places, group.node, *owned)?;
    }
    Ok(())
}

// A group with what is made at its place, and after its cells.
fn with_cells_in(
    alloc: Global,
    places: &BTreeMap<(NodeId, Option<CellId>), List<Owned>>,
    group: &Group,
) -> Result<Group, AllocError>
    ensures { IfOk result (λ g. g ≡ with_cells_in (cells_at places.now) group.now) }
{
    let mut cells = List::new(alloc);
    push_cells_at(alloc, &mut cells, places, group.node, group.after)?;
    push_cells(alloc, &mut cells, places, group)?;
    Ok(Group {
        node: group.node,
        after: group.after,
        cells,
    })
}

// Adds the groups of the first part, with the second's cells in them.
fn push_first(
    alloc: Global,
    list: &mut List<Group>,
    places: &BTreeMap<(NodeId, Option<CellId>), List<Owned>>,
    groups: &[Group],
) -> Result<(), AllocError>
    ensures { OnOk result (list.new ≡ list.old ++ map (with_cells_in (cells_at places.now)) groups.now) }
{
    for group in groups {
        list.push(with_cells_in(alloc, places, group)?)?;
    }
    Ok(())
}

// Takes the places after some cells of a node's row.
fn take_after(
    taken: &mut BTreeSet<(NodeId, Option<CellId>)>,
    node: NodeId,
    cells: &[Owned],
) -> Result<(), AllocError>
    ensures { OnOk result ((n : Node) (a : Maybe Cell) → contains place_cmp taken.new (n, a)
        ≡ (contains place_cmp taken.old (n, a) || (same_node node n && list_any (λ o. same_anchor (Some o.cell) a) cells.now))) }
{
    for owned in cells {
        add(taken, (node, Some(owned.cell)))?;
    }
    Ok(())
}

// Takes the place of a group and those after its cells.
fn take_group(
    taken: &mut BTreeSet<(NodeId, Option<CellId>)>,
    group: &Group,
) -> Result<(), AllocError>
    ensures { OnOk result ((n : Node) (a : Maybe Cell) → contains place_cmp taken.new (n, a)
        ≡ (contains place_cmp taken.old (n, a) || takes_place n a group.now)) }
{
    add(taken, (group.node, group.after))?;
    take_after(taken, group.node, group.cells.as_slice())?;
    Ok(())
}

// The places of an intent's groups, and those after its cells.
fn taken_places(
    alloc: Global,
    intent: &Intent,
) -> Result<BTreeSet<(NodeId, Option<CellId>)>, AllocError>
    ensures { IfOk result (λ s. (n : Node) (a : Maybe Cell) → contains place_cmp s (n, a) ≡ has_place intent.now n a) }
{
    let mut taken = BTreeSet::new(alloc);
    for group in intent.groups.as_slice() {
        take_group(&mut taken, group)?;
    }
    Ok(taken)
}

// Adds a group whose place isn't taken.
fn push_other(
    alloc: Global,
    list: &mut List<Group>,
    taken: &BTreeSet<(NodeId, Option<CellId>)>,
    group: &Group,
) -> Result<(), AllocError>
    ensures { OnOk result (list.new ≡ list.old ++ filter (λ g. not (contains place_cmp taken.now (g.node, g.after))) (group.now ∷ [])) }
{
    if taken.contains(&(group.node, group.after)) {
        return Ok(());
    }
    list.push(group.copy(alloc)?)?;
    Ok(())
}

// Adds the groups whose places aren't taken.
fn push_others(
    alloc: Global,
    list: &mut List<Group>,
    taken: &BTreeSet<(NodeId, Option<CellId>)>,
    groups: &[Group],
) -> Result<(), AllocError>
    ensures { OnOk result (list.new ≡ list.old ++ filter (λ g. not (contains place_cmp taken.now (g.node, g.after))) groups.now) }
{
    for group in groups {
        push_other(alloc, list, taken, group)?;
    }
    Ok(())
}

/// The groups of a join: the first's with the second's cells in them, and the second's others.
pub fn join_groups(
    alloc: Global,
    first: &Intent,
    second: &Intent,
) -> Result<List<Group>, AllocError>
    ensures { IfOk result (λ l. l ≡ joined_groups first.now second.now) }
{
    let places = cells_by_place(alloc, second)?;
    let taken = taken_places(alloc, first)?;
    let mut groups = List::new(alloc);
    push_first(alloc, &mut groups, &places, first.groups.as_slice())?;
    push_others(alloc, &mut groups, &taken, second.groups.as_slice())?;
    Ok(groups)
}
