//! The registers of a step after a change.
ghost use Rattle.std.specs.Prelude.{◌≡◌, false, None, Some, if◌then◌else◌, IfOk};
ghost use Rattle.std.specs.BTreeMap.{get};
ghost use Rattle.std.specs.BTreeSet.{IsOrdered, contains};
ghost use Rattle.std.specs.List.{filter_map};
ghost use Rattle.std.specs.Option.{option_copied};
ghost use Rattle.st_ids.specs.Listing.{IsListing, IsRising, item_of};
ghost use Rattle.st_ids.specs.Order.{field_cmp, node_cmp};
ghost use Rattle.st_marks.specs.declared.marks.RegMark.{RegMark as Register};
ghost use Rattle.st_marks.specs.declared.marks.RegStep.{RegStep as RegisterOver};
ghost use Rattle.st_moves.specs.Carried.{goal_of as goal};
ghost use Rattle.st_register.specs.Register.{only_made, unless_put};
ghost use Rattle.st_over.specs.Across.{held_across as held_after};
ghost use Rattle.st_cross.specs.Fields.{register_at as at};

use crate::names::names_of_both;
use crate::rows::Crossing;
use st_clash::push_if_some;
use st_ids::{Copied, FieldId, List, NodeId};
use st_marks::{How, RegMark, RegStep, To};
use st_over::item_at;
use st_reading::Reading;
use std::alloc::{AllocError, Global};
use std::collections::{BTreeMap, BTreeSet};

// Whom a change puts into a register that it lists.
fn goal_of(mark: &RegMark) -> Option<NodeId>
    ensures { result ≡ goal mark.now }
{
    match mark.how {
        How::Here => mark.held,
        _ => mark.fill,
    }
}

// A node, if it is new.
fn only_made(made: &BTreeSet<NodeId>, node: Option<NodeId>) -> Option<NodeId>
    ensures { result ≡ only_made (contains node_cmp made.now) node }
{
    match node {
        None => None,
        Some(node) => {
            if made.contains(&node) {
                Some(node)
            } else {
                None
            }
        }
    }
}

// A node, unless it is put.
fn unless_put(puts: &BTreeMap<NodeId, To>, node: Option<NodeId>) -> Option<NodeId>
    ensures { result ≡ unless_put (get node_cmp puts.now) node }
{
    match node {
        None => None,
        Some(node) => match puts.get(&node) {
            None => Some(node),
            Some(_) => None,
        },
    }
}

// Who stays in a register that a change clears or not, if it is carried out whole.
fn left_in(puts: &BTreeMap<NodeId, To>, clear: bool, held: Option<NodeId>) -> Option<NodeId>
    ensures { result ≡ (if clear then None else unless_put (get node_cmp puts.now) held) }
{
    if clear { None } else { unless_put(puts, held) }
}

// Who is in a register after a change that is void or not.
fn held_across<R: Reading>(
    across: &Crossing<'_, R>,
    void: bool,
    field: &FieldId,
    clear: bool,
    goal: Option<NodeId>,
    held: Option<NodeId>,
) -> Option<NodeId>
    ensures { result ≡ held_after void (contains node_cmp across.now.made.now) (get node_cmp across.now.puts.now) field.now clear goal held }
{
    if !void {
        return match goal {
            None => left_in(across.puts, clear, held),
            Some(node) => Some(node),
        };
    }
    if across.made.contains(&field.node) {
        only_made(across.made, goal)
    } else {
        held
    }
}

// A register, by whether it is cleared, whom the change puts there, and who is there before the step and after it.
fn register_across<R: Reading>(
    alloc: Global,
    across: &Crossing<'_, R>,
    field: &FieldId,
    clear: bool,
    goal: Option<NodeId>,
    before: Option<NodeId>,
    after: Option<NodeId>,
) -> Result<Option<RegStep>, AllocError>
    ensures { IfOk result (λ o. o ≡ Some (record {
      field = field.now;
      before = held_after across.now.was (contains node_cmp across.now.made.now) (get node_cmp across.now.puts.now) field.now clear goal before;
      after = held_after across.now.is (contains node_cmp across.now.made.now) (get node_cmp across.now.puts.now) field.now clear goal after;
    })) }
{
    let name = field.copy(alloc)?;
    Ok(Some(RegStep {
        field: name,
        before: held_across(across, across.was, field, clear, goal, before),
        after: held_across(across, across.is, field, clear, goal, after),
    }))
}

// What a change lists for a register.
fn mark_in<'a>(regs: &'a List<RegMark>, field: &FieldId) -> Option<&'a RegMark>
    requires { IsRising field_cmp (λ (r : Register). r.field) regs.now }
    ensures { option_copied result ≡ item_of field_cmp (λ (r : Register). r.field) regs.now field.now }
{
    item_at(regs.as_slice(), field)
}

// What a step lists for a register.
fn step_in<'a>(regs: &'a List<RegStep>, field: &FieldId) -> Option<&'a RegStep>
    requires { IsRising field_cmp (λ (r : RegisterOver). r.field) regs.now }
    ensures { option_copied result ≡ item_of field_cmp (λ (r : RegisterOver). r.field) regs.now field.now }
{
    item_at(regs.as_slice(), field)
}

// A register that the change or the step lists.
fn register_at<R: Reading>(
    alloc: Global,
    across: &Crossing<'_, R>,
    field: &FieldId,
    change: &List<RegMark>,
    step: &List<RegStep>,
) -> Result<Option<RegStep>, AllocError>
    requires change { IsRising field_cmp (λ (r : Register). r.field) change.now }
    requires step { IsRising field_cmp (λ (r : RegisterOver). r.field) step.now }
    ensures { IfOk result (λ o. o ≡ at across.now.was across.now.is (contains node_cmp across.now.made.now) (get node_cmp across.now.puts.now) change.now step.now field.now) }
{
    match (mark_in(change, field), step_in(step, field)) {
        (None, None) => Ok(None),
        (None, Some(s)) => register_across(alloc, across, field, false, None, s.before, s.after),
        (Some(c), None) => {
            register_across(alloc, across, field, c.clear, goal_of(c), c.held, c.held)
        }
        (Some(c), Some(s)) => {
            register_across(alloc, across, field, c.clear, goal_of(c), c.held, s.after)
        }
    }
}

// Some registers.
fn registers_at<R: Reading>(
    alloc: Global,
    across: &Crossing<'_, R>,
    change: &List<RegMark>,
    step: &List<RegStep>,
    fields: &BTreeSet<FieldId>,
) -> Result<List<RegStep>, AllocError>
    requires change { IsRising field_cmp (λ (r : Register). r.field) change.now }
    requires step { IsRising field_cmp (λ (r : RegisterOver). r.field) step.now }
    ensures registers { IfOk result (λ l. l ≡ filter_map (at across.now.was across.now.is (contains node_cmp across.now.made.now) (get node_cmp across.now.puts.now) change.now step.now) fields.now.keys) }
    ensures ordered { IfOk result (λ l. IsOrdered field_cmp fields.now) }
{
    let mut list = List::new(alloc);
    for field in fields.iter() {
        let register = register_at(alloc, across, field, change, step)?;
        push_if_some(&mut list, register)?;
    }
    Ok(list)
}

/// The registers that a change or a step lists, each as the step has it after the change.
pub fn registers_across<R: Reading>(
    alloc: Global,
    across: &Crossing<'_, R>,
    change: &List<RegMark>,
    step: &List<RegStep>,
) -> Result<List<RegStep>, AllocError>
    requires change { IsRising field_cmp (λ (r : Register). r.field) change.now }
    requires step { IsRising field_cmp (λ (r : RegisterOver). r.field) step.now }
    ensures { IfOk result (λ l. IsListing field_cmp (λ (r : RegisterOver). r.field) l
        (at across.now.was across.now.is (contains node_cmp across.now.made.now) (get node_cmp across.now.puts.now) change.now step.now)) }
{
    let fields = names_of_both(alloc, change.as_slice(), step.as_slice())?;
    let list = registers_at(alloc, across, change, step, &fields)?;
    Ok(list)
}
