//! What an intent wants, by name.
ghost use Rattle.std.specs.Prelude.{◌≡◌, true, IfOk, OnOk, Option as Maybe, Some, None, cond};
ghost use Rattle.std.specs.BTreeMap.{get};
ghost use Rattle.std.specs.BTreeSet.{contains};
ghost use Rattle.std.specs.Option.{option_copied, option_or};
ghost use Rattle.std.specs.Ordering.{is_eq};
ghost use Rattle.st_ids.specs.Order.{field_cmp, node_cmp, same_node};
ghost use Rattle.st_ids.specs.declared.names.CellId.{CellId as Cell};
ghost use Rattle.st_ids.specs.declared.names.FieldId.{FieldId as Register};
ghost use Rattle.st_ids.specs.declared.names.NodeId.{NodeId as Node};
ghost use Rattle.st_marks.specs.Intent.{clears, group_at, is_register, new_node, put_in, put_of};
ghost use Rattle.st_embed.specs.inside.Places.{cells_at as made_at, is_at_place, place_cmp};
ghost use Rattle.st_embed.specs.inside.Wants.{AreWants};

use crate::sets::add;
use st_ids::{CellId, Copied, FieldId, List, NodeId};
use st_marks::{Group, Intent, NewNode, Owned, Put, To};
use std::alloc::{AllocError, Global};
use std::collections::{BTreeMap, BTreeSet};

/// Where nodes are put, the cells that are made by row and anchor (`None` is a row's start), who is put into which
/// register, and the registers that are cleared.
#[derive(Drop)]
pub struct Wants {
    pub targets: BTreeMap<NodeId, To>,
    pub cells: BTreeMap<(NodeId, Option<CellId>), List<Owned>>,
    pub fills: BTreeMap<FieldId, NodeId>,
    pub clear: BTreeSet<FieldId>,
}

/// Keeps a value at a key that has none.
pub fn keep<K: Ord + Drop, V: Drop>(
    map: &mut BTreeMap<K, V>,
    key: K,
    value: V,
) -> Result<(), AllocError>
    ensures { OnOk result ((q : K) → get K.cmp map.new q
        ≡ option_or (get K.cmp map.old q) (cond (is_eq (K.cmp key q)) (Some value) None)) }
{
    if map.contains_key(&key) {
        return Ok(());
    }
    map.insert(key, value)?;
    Ok(())
}

// Keeps where a put leads, unless its node has a put.
fn keep_target(
    alloc: Global,
    targets: &mut BTreeMap<NodeId, To>,
    put: &Put,
) -> Result<(), AllocError>
    ensures { OnOk result ((n : Node) → get node_cmp targets.new n
        ≡ option_or (get node_cmp targets.old n) (cond (same_node put.now.node n) (Some put.now.to) None)) }
{
    let to = put.to.copy(alloc)?;
    keep(targets, put.node, to)?;
    Ok(())
}

// Where each node is put first.
fn targets_of(alloc: Global, intent: &Intent) -> Result<BTreeMap<NodeId, To>, AllocError>
    ensures { IfOk result (λ m. (n : Node) → get node_cmp m n ≡ put_of intent.now n) }
{
    let mut targets = BTreeMap::new(alloc);
    for put in intent.put.as_slice() {
        keep_target(alloc, &mut targets, put)?;
    }
    Ok(targets)
}

// Keeps a group's cells by its place, unless there is a group.
fn keep_group(
    alloc: Global,
    cells: &mut BTreeMap<(NodeId, Option<CellId>), List<Owned>>,
    group: &Group,
) -> Result<(), AllocError>
    ensures { OnOk result ((n : Node) (a : Maybe Cell) → get place_cmp cells.new (n, a)
        ≡ option_or (get place_cmp cells.old (n, a)) (cond (is_at_place n a group.now) (Some group.now.cells) None)) }
{
    let made = group.cells.copy(alloc)?;
    keep(cells, (group.node, group.after), made)?;
    Ok(())
}

// The cells that an intent makes, by place.
fn cells_of(
    alloc: Global,
    intent: &Intent,
) -> Result<BTreeMap<(NodeId, Option<CellId>), List<Owned>>, AllocError>
    ensures { IfOk result (λ m. (n : Node) (a : Maybe Cell) → made_at m n a ≡ group_at intent.now n a) }
{
    let mut cells = BTreeMap::new(alloc);
    for group in intent.groups.as_slice() {
        keep_group(alloc, &mut cells, group)?;
    }
    Ok(cells)
}

// Keeps who is put into a register, unless one is.
fn keep_fill(
    alloc: Global,
    fills: &mut BTreeMap<FieldId, NodeId>,
    put: &Put,
) -> Result<(), AllocError>
    ensures { OnOk result ((f : Register) → get field_cmp fills.new f
        ≡ option_or (get field_cmp fills.old f) (cond (is_register f put.now.to) (Some put.now.node) None)) }
{
    if let To::Register(field) = &put.to {
        keep(fills, field.copy(alloc)?, put.node)?;
        return Ok(());
    }
    Ok(())
}

// Who is put first into each register.
fn fills_of(alloc: Global, intent: &Intent) -> Result<BTreeMap<FieldId, NodeId>, AllocError>
    ensures { IfOk result (λ m. (f : Register) → get field_cmp m f ≡ put_in intent.now f) }
{
    let mut fills = BTreeMap::new(alloc);
    for put in intent.put.as_slice() {
        keep_fill(alloc, &mut fills, put)?;
    }
    Ok(fills)
}

// Keeps a copy of a new node, unless one has its name.
fn keep_new(
    alloc: Global,
    map: &mut BTreeMap<NodeId, NewNode>,
    new: &NewNode,
) -> Result<(), AllocError>
    ensures { OnOk result ((n : Node) → get node_cmp map.new n
        ≡ option_or (get node_cmp map.old n) (cond (same_node new.now.node n) (Some new.now) None)) }
{
    let copy = new.copy(alloc)?;
    keep(map, new.node, copy)?;
    Ok(())
}

/// The new nodes, by name.
pub fn new_by_name(alloc: Global, intent: &Intent) -> Result<BTreeMap<NodeId, NewNode>, AllocError>
    ensures { IfOk result (λ m. (n : Node) → get node_cmp m n ≡ new_node intent.now n) }
{
    let mut map = BTreeMap::new(alloc);
    for new in intent.new.as_slice() {
        keep_new(alloc, &mut map, new)?;
    }
    Ok(map)
}

// The registers that an intent clears.
fn clear_of(alloc: Global, intent: &Intent) -> Result<BTreeSet<FieldId>, AllocError>
    ensures { IfOk result (λ s. (f : Register) → contains field_cmp s f ≡ clears intent.now f) }
{
    let mut set = BTreeSet::new(alloc);
    for field in intent.clear.as_slice() {
        add(&mut set, field.copy(alloc)?)?;
    }
    Ok(set)
}

/// What an intent wants.
pub fn wants_of(alloc: Global, intent: &Intent) -> Result<Wants, AllocError>
    ensures { IfOk result (AreWants intent.now) }
{
    let targets = targets_of(alloc, intent)?;
    let cells = cells_of(alloc, intent)?;
    let fills = fills_of(alloc, intent)?;
    let clear = clear_of(alloc, intent)?;
    Ok(Wants {
        targets,
        cells,
        fills,
        clear,
    })
}

/// Where a node is put, if it is.
pub fn target_of(wants: &Wants, node: NodeId) -> Option<&To>
    ensures { option_copied result ≡ get node_cmp wants.now.targets node }
{
    wants.targets.get(&node)
}

/// The cells that are made at the start of a node's row (`None`) or after a cell.
pub fn cells_at(wants: &Wants, node: NodeId, after: Option<CellId>) -> &[Owned]
    ensures { result.now ≡ made_at wants.now.cells node after }
{
    match wants.cells.get(&(node, after)) {
        None => &[],
        Some(cells) => cells.as_slice(),
    }
}
