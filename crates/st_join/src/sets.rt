//! Sets of the names that an intent lists.
ghost use Rattle.std.specs.Prelude.{◌≡◌, IfOk, OnOk, cond, true, is_some};
ghost use Rattle.std.specs.BTreeSet.{contains};
ghost use Rattle.std.specs.List.{list_any};
ghost use Rattle.std.specs.Ordering.{is_eq};
ghost use Rattle.st_ids.specs.declared.names.FieldId.{FieldId as Register};
ghost use Rattle.st_ids.specs.declared.names.NodeId.{NodeId as Node};
ghost use Rattle.st_ids.specs.Order.{node_cmp, field_cmp};
ghost use Rattle.st_marks.specs.Intent.{clears, is_new, put_of};
ghost use Rattle.st_join.specs.inside.Lists.{is_needed};

use st_ids::{Copied, FieldId, NodeId};
use st_marks::Intent;
use std::alloc::{AllocError, Global};
use std::collections::BTreeSet;

/// Puts a name into a set.
pub fn add<K: Ord + Drop>(set: &mut BTreeSet<K>, key: K) -> Result<(), AllocError>
    ensures { OnOk result ((q : K) → contains K.cmp set.new q ≡ cond (is_eq (K.cmp key q)) true (contains K.cmp set.old q)) }
{
    set.insert(key)?;
    Ok(())
}

/// The nodes that an intent makes.
pub fn new_nodes(alloc: Global, intent: &Intent) -> Result<BTreeSet<NodeId>, AllocError>
    ensures { IfOk result (λ s. (n : Node) → contains node_cmp s n ≡ is_new intent.now n) }
{
    let mut set = BTreeSet::new(alloc);
    for node in intent.new.as_slice() {
        add(&mut set, node.node)?;
    }
    Ok(set)
}

/// The nodes that an intent needs.
pub fn needed_nodes(alloc: Global, intent: &Intent) -> Result<BTreeSet<NodeId>, AllocError>
    ensures { IfOk result (λ s. (n : Node) → contains node_cmp s n ≡ is_needed intent.now n) }
{
    let mut set = BTreeSet::new(alloc);
    for node in intent.need.as_slice() {
        add(&mut set, *node)?;
    }
    Ok(set)
}

/// The nodes that an intent puts.
pub fn put_nodes(alloc: Global, intent: &Intent) -> Result<BTreeSet<NodeId>, AllocError>
    ensures { IfOk result (λ s. (n : Node) → contains node_cmp s n ≡ is_some (put_of intent.now n)) }
{
    let mut set = BTreeSet::new(alloc);
    for put in intent.put.as_slice() {
        add(&mut set, put.node)?;
    }
    Ok(set)
}

/// The registers that an intent clears.
pub fn cleared_registers(alloc: Global, intent: &Intent) -> Result<BTreeSet<FieldId>, AllocError>
    ensures { IfOk result (λ s. (f : Register) → contains field_cmp s f ≡ clears intent.now f) }
{
    let mut set = BTreeSet::new(alloc);
    for field in intent.clear.as_slice() {
        add(&mut set, field.copy(alloc)?)?;
    }
    Ok(set)
}
