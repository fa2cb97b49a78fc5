//! Who leaves a register, and who comes into one.
ghost use Rattle.std.specs.Prelude.{◌≡◌, ◌&&◌, cond, Some, None, OnOk, true, unwrap_or};
ghost use Rattle.std.specs.BTreeMap.{get};
ghost use Rattle.std.specs.Option.{option_or};
ghost use Rattle.st_ids.specs.declared.names.FieldId.{FieldId as Register};
ghost use Rattle.st_ids.specs.declared.names.NodeId.{NodeId as Node};
ghost use Rattle.st_ids.specs.Order.{node_cmp, field_cmp, same_node, same_field};
ghost use Rattle.st_marks.specs.declared.places.Spot.{Spot as Standing};
ghost use Rattle.st_marks.specs.Intent.{clears, is_new, is_register, put_in};
ghost use Rattle.st_marks.specs.CarryOut.{only_new, unless_put};
ghost use Rattle.st_doc.specs.inside.Evictions.{IsOneHeld, stands_in, is_held, spot_if_cleared};

use crate::maps::{add, set, unset};
use st_ids::{Copied, FieldId, NodeId};
use st_intent::is_new;
use st_marks::{Intent, Put, Spot, To};
use std::alloc::{AllocError, Global};
use std::collections::BTreeMap;

// Sends the occupant of a register nowhere, unless it is put.
fn evict(
    targets: &mut BTreeMap<NodeId, Spot>,
    held: &BTreeMap<FieldId, NodeId>,
    field: &FieldId,
) -> Result<(), AllocError>
    ensures { OnOk result ((n : Node) → get node_cmp targets.new n
        ≡ option_or (get node_cmp targets.old n) (cond (is_held (get field_cmp held.now field.now) n) (Some Standing.Nowhere) None)) }
{
    match held.get(field) {
        None => Ok(()),
        Some(node) => {
            add(targets, *node, Spot::Nowhere)?;
            Ok(())
        }
    }
}

/// Sends the occupants of cleared registers nowhere, unless they are put.
pub fn evict_all(
    targets: &mut BTreeMap<NodeId, Spot>,
    held: &BTreeMap<FieldId, NodeId>,
    intent: &Intent,
) -> Result<(), AllocError>
    ensures { OnOk result ((place : Node → Standing) → IsOneHeld held.now place → (n : Node)
        → get node_cmp targets.new n ≡ option_or (get node_cmp targets.old n) (spot_if_cleared intent.now.clear (place n))) }
{
    for field in intent.clear.as_slice() {
        evict(targets, held, field)?;
    }
    Ok(())
}

// Empties the register in which a node stands.
fn leave(held: &mut BTreeMap<FieldId, NodeId>, place: &BTreeMap<NodeId, Spot>, node: NodeId)
    ensures { (f : Register) → get field_cmp held.new f
        ≡ cond (stands_in f (unwrap_or (get node_cmp place.now node) Standing.Nowhere)) None (get field_cmp held.old f) }
{
    if let Some(Spot::Register(field)) = place.get(&node) {
        unset(held, field);
    }
}

// Empties the registers whose occupants are put.
fn leave_all(held: &mut BTreeMap<FieldId, NodeId>, place: &BTreeMap<NodeId, Spot>, intent: &Intent)
    requires { IsOneHeld held.old (λ n. unwrap_or (get node_cmp place.now n) Standing.Nowhere) }
    ensures { (f : Register) → get field_cmp held.new f ≡ unless_put intent.now (get field_cmp held.old f) }
{
    for put in intent.put.as_slice() {
        leave(held, place, put.node);
    }
}

// Empties the cleared registers.
fn clear_all(held: &mut BTreeMap<FieldId, NodeId>, intent: &Intent)
    ensures { (f : Register) → get field_cmp held.new f ≡ cond (clears intent.now f) None (get field_cmp held.old f) }
{
    for field in intent.clear.as_slice() {
        unset(held, field);
    }
}

// Fills a register by a put.
fn fill(alloc: Global, held: &mut BTreeMap<FieldId, NodeId>, put: &Put) -> Result<(), AllocError>
    ensures { OnOk result ((f : Register) → get field_cmp held.new f
        ≡ cond (is_register f put.now.to) (Some put.now.node) (get field_cmp held.old f)) }
{
    if let To::Register(field) = &put.to {
        set(held, field.copy(alloc)?, put.node)?;
        return Ok(());
    }
    Ok(())
}

// Fills each register by the first put into it. The puts are taken from the last to the first.
fn fill_all(
    alloc: Global,
    held: &mut BTreeMap<FieldId, NodeId>,
    intent: &Intent,
) -> Result<(), AllocError>
    ensures { OnOk result ((f : Register) → get field_cmp held.new f ≡ option_or (put_in intent.now f) (get field_cmp held.old f)) }
{
    let puts = intent.put.as_slice();
    let mut left = puts.len();
    while left > 0 {
        left -= 1;
        fill(alloc, held, &puts[left])?;
    }
    Ok(())
}

/// Empties the registers whose occupants are put and the cleared ones, and then fills those into which an intent puts.
pub fn refill(
    alloc: Global,
    held: &mut BTreeMap<FieldId, NodeId>,
    place: &BTreeMap<NodeId, Spot>,
    intent: &Intent,
) -> Result<(), AllocError>
    requires { IsOneHeld held.old (λ n. unwrap_or (get node_cmp place.now n) Standing.Nowhere) }
    ensures { OnOk result ((f : Register) → get field_cmp held.new f
        ≡ option_or (put_in intent.now f) (cond (clears intent.now f) None (unless_put intent.now (get field_cmp held.old f)))) }
{
    leave_all(held, place, intent);
    clear_all(held, intent);
    fill_all(alloc, held, intent)?;
    Ok(())
}

// Fills a register of a new node by a put of a new node; a put of an old one empties it.
fn fill_new(
    alloc: Global,
    held: &mut BTreeMap<FieldId, NodeId>,
    intent: &Intent,
    put: &Put,
) -> Result<(), AllocError>
    ensures { OnOk result ((f : Register) → get field_cmp held.new f
        ≡ cond (is_register f put.now.to && is_new intent.now f.node) (only_new intent.now (Some put.now.node)) (get field_cmp held.old f)) }
{
    let To::Register(field) = &put.to else {
        return Ok(());
    };
    if !is_new(intent, field.node) {
        return Ok(());
    }
    if !is_new(intent, put.node) {
        unset(held, field);
        return Ok(());
    }
    set(held, field.copy(alloc)?, put.node)?;
    Ok(())
}

/// Fills the registers of new nodes by new nodes, and changes no other.
pub fn fill_all_new(
    alloc: Global,
    held: &mut BTreeMap<FieldId, NodeId>,
    intent: &Intent,
) -> Result<(), AllocError>
    requires { (f : Register) → is_new intent.now f.node ≡ true → get field_cmp held.old f ≡ None }
    ensures { OnOk result ((f : Register) → get field_cmp held.new f
        ≡ cond (is_new intent.now f.node) (only_new intent.now (put_in intent.now f)) (get field_cmp held.old f)) }
{
    let puts = intent.put.as_slice();
    let mut left = puts.len();
    while left > 0 {
        left -= 1;
        fill_new(alloc, held, intent, &puts[left])?;
    }
    Ok(())
}
