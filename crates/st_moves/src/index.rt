//! Listings that are looked into by name.
ghost use Rattle.std.specs.Prelude.{◌≡◌, ◌||◌, Some, None, true, cond, IfOk, OnOk};
ghost use Rattle.std.specs.BTreeMap.{get};
ghost use Rattle.std.specs.BTreeSet.{contains};
ghost use Rattle.std.specs.List.{list_any};
ghost use Rattle.std.specs.Option.{option_copied, option_or};
ghost use Rattle.std.specs.Ordering.{is_eq};
ghost use Rattle.st_ids.specs.Listing.{item_of};
ghost use Rattle.st_ids.specs.Order.{field_cmp, node_cmp};
ghost use Rattle.st_ids.specs.declared.names.FieldId.{FieldId as Field};
ghost use Rattle.st_ids.specs.declared.names.NodeId.{NodeId as Node};
ghost use Rattle.st_marks.specs.declared.marks.RegMark.{RegMark as Register};
ghost use Rattle.st_marks.specs.declared.marks.RegStep.{RegStep as RegisterOver};
ghost use Rattle.st_marks.specs.declared.marks.RowMarks.{RowMarks as Row};
ghost use Rattle.st_moves.specs.Index.{IsIndex};

use st_ids::{Copied, FieldId, List, NodeId};
use st_marks::{RegMark, RegStep, RowMarks};
use std::alloc::{AllocError, Global};
use std::collections::{BTreeMap, BTreeSet};

// Keeps a place at a name that has none.
fn keep<K: Ord + Drop>(
    index: &mut BTreeMap<K, usize>,
    key: K,
    place: usize,
) -> Result<(), AllocError>
    ensures { OnOk result ((q : K) → get K.cmp index.new q
        ≡ option_or (get K.cmp index.old q) (cond (is_eq (K.cmp key q)) (Some place) None)) }
{
    if index.contains_key(&key) {
        return Ok(());
    }
    index.insert(key, place)?;
    Ok(())
}

// Puts a name into a set.
fn add<K: Ord + Drop>(set: &mut BTreeSet<K>, key: K) -> Result<(), AllocError>
    ensures { OnOk result ((q : K) → contains K.cmp set.new q
        ≡ cond (is_eq (K.cmp key q)) true (contains K.cmp set.old q)) }
{
    set.insert(key)?;
    Ok(())
}

/// Where the rows of nodes are listed.
pub fn index_rows(alloc: Global, items: &[RowMarks]) -> Result<BTreeMap<NodeId, usize>, AllocError>
    ensures { IfOk result (IsIndex node_cmp (λ (r : Row). r.node) items.now) }
{
    let mut index = BTreeMap::new(alloc);
    for at in 0..items.len() {
        keep(&mut index, items[at].node, at)?;
    }
    Ok(index)
}

/// Where a change lists registers.
pub fn index_registers(
    alloc: Global,
    items: &[RegMark],
) -> Result<BTreeMap<FieldId, usize>, AllocError>
    ensures { IfOk result (IsIndex field_cmp (λ (r : Register). r.field) items.now) }
{
    let mut index = BTreeMap::new(alloc);
    for at in 0..items.len() {
        keep(&mut index, items[at].field.copy(alloc)?, at)?;
    }
    Ok(index)
}

/// Where a step lists registers.
pub fn index_registers_over(
    alloc: Global,
    items: &[RegStep],
) -> Result<BTreeMap<FieldId, usize>, AllocError>
    ensures { IfOk result (IsIndex field_cmp (λ (r : RegisterOver). r.field) items.now) }
{
    let mut index = BTreeMap::new(alloc);
    for at in 0..items.len() {
        keep(&mut index, items[at].field.copy(alloc)?, at)?;
    }
    Ok(index)
}

/// The row that is listed for a node.
pub fn row_in<'a>(
    items: &'a List<RowMarks>,
    index: &BTreeMap<NodeId, usize>,
    node: NodeId,
) -> Option<&'a RowMarks>
    requires { IsIndex node_cmp (λ (r : Row). r.node) items.now index.now }
    ensures { option_copied result ≡ item_of node_cmp (λ (r : Row). r.node) items.now node }
{
    match index.get(&node) {
        None => None,
        Some(at) => items.get(*at),
    }
}

/// What a change lists for a register.
pub fn register_in<'a>(
    items: &'a List<RegMark>,
    index: &BTreeMap<FieldId, usize>,
    field: &FieldId,
) -> Option<&'a RegMark>
    requires { IsIndex field_cmp (λ (r : Register). r.field) items.now index.now }
    ensures { option_copied result ≡ item_of field_cmp (λ (r : Register). r.field) items.now field.now }
{
    match index.get(field) {
        None => None,
        Some(at) => items.get(*at),
    }
}

/// What a step lists for a register.
pub fn register_over_in<'a>(
    items: &'a List<RegStep>,
    index: &BTreeMap<FieldId, usize>,
    field: &FieldId,
) -> Option<&'a RegStep>
    requires { IsIndex field_cmp (λ (r : RegisterOver). r.field) items.now index.now }
    ensures { option_copied result ≡ item_of field_cmp (λ (r : RegisterOver). r.field) items.now field.now }
{
    match index.get(field) {
        None => None,
        Some(at) => items.get(*at),
    }
}

/// Adds the nodes whose rows are listed.
pub fn add_rows(set: &mut BTreeSet<NodeId>, items: &[RowMarks]) -> Result<(), AllocError>
    ensures { OnOk result ((q : Node) → contains node_cmp set.new q
        ≡ (contains node_cmp set.old q || list_any (λ (r : Row). is_eq (node_cmp r.node q)) items.now)) }
{
    for item in items {
        add(set, item.node)?;
    }
    Ok(())
}

/// Adds the registers that a change lists.
pub fn add_registers(
    alloc: Global,
    set: &mut BTreeSet<FieldId>,
    items: &[RegMark],
) -> Result<(), AllocError>
    ensures { OnOk result ((q : Field) → contains field_cmp set.new q
        ≡ (contains field_cmp set.old q || list_any (λ (r : Register). is_eq (field_cmp r.field q)) items.now)) }
{
    for item in items {
        add(set, item.field.copy(alloc)?)?;
    }
    Ok(())
}

/// Adds the registers that a step lists.
pub fn add_registers_over(
    alloc: Global,
    set: &mut BTreeSet<FieldId>,
    items: &[RegStep],
) -> Result<(), AllocError>
    ensures { OnOk result ((q : Field) → contains field_cmp set.new q
        ≡ (contains field_cmp set.old q || list_any (λ (r : RegisterOver). is_eq (field_cmp r.field q)) items.now)) }
{
    for item in items {
        add(set, item.field.copy(alloc)?)?;
    }
    Ok(())
}
