//! The registers and the loose nodes of a change over a step.
ghost use Rattle.std.specs.Prelude.{◌≡◌, ◌||◌, Bool, IfOk, OnOk, Option as Maybe, if◌then◌else◌};
ghost use Rattle.std.specs.BTreeMap.{get};
ghost use Rattle.std.specs.BTreeSet.{IsOrdered, contains};
ghost use Rattle.std.specs.List.{filter_map, list_any};
ghost use Rattle.std.specs.Ordering.{is_eq};
ghost use Rattle.st_ids.specs.Listing.{IsListing, IsRising, item_of};
ghost use Rattle.std.specs.Option.{option_copied};
ghost use Rattle.st_ids.specs.Order.{field_cmp, node_cmp, same_node};
ghost use Rattle.st_ids.specs.declared.names.FieldId.{FieldId as Field};
ghost use Rattle.st_ids.specs.declared.names.NodeId.{NodeId as Node};
ghost use Rattle.st_marks.specs.declared.intents.To.{To as Aim};
ghost use Rattle.st_marks.specs.declared.marks.How.TheVariants.{Here, Leave};
ghost use Rattle.st_marks.specs.declared.marks.RegMark.{RegMark as Register};
ghost use Rattle.st_marks.specs.declared.marks.RegStep.{RegStep as RegisterOver};
ghost use Rattle.st_marks.specs.Intent.{same_option};
ghost use Rattle.st_marks.specs.Register.{comes_in, holds_mentioned, how_held};
ghost use Rattle.st_marks.specs.Row.{how as how_at};
ghost use Rattle.st_moves.specs.Carried.{goal_of, register_mark};
ghost use Rattle.st_over.specs.inside.Registers.{register_beside as beside};

use crate::look::{add, item_at};
use st_clash::push_if_some;
use st_ids::{Copied, FieldId, List, NodeId, is_same_field, is_same_node};
use st_marks::{How, RegMark, RegStep, To};
use std::alloc::{AllocError, Global};
use std::collections::{BTreeMap, BTreeSet};

// What becomes of a node that is put, where it stands.
fn here_or_leave(here: bool) -> How
    ensures { result ≡ (if here then Here else Leave) }
{
    if here { How::Here } else { How::Leave }
}

// What becomes of a node in a register, by where it is put.
fn how_in_register(puts: &BTreeMap<NodeId, To>, node: NodeId, field: &FieldId) -> How
    ensures { result ≡ how_at (get node_cmp puts.now node) (Aim.Register field.now) }
{
    match puts.get(&node) {
        None => How::Stay,
        Some(To::Register(other)) => here_or_leave(is_same_field(other, field)),
        Some(_) => How::Leave,
    }
}

// What becomes of the occupant of a register.
fn how_of(puts: &BTreeMap<NodeId, To>, held: Option<NodeId>, field: &FieldId) -> How
    ensures { (c : Bool) (o : Maybe Node) (m : Node → Bool) → result
        ≡ how_held field.now (record { clear = c; fill = o; target_of = get node_cmp puts.now; mentioned = m }) held }
{
    match held {
        None => How::Stay,
        Some(node) => how_in_register(puts, node, field),
    }
}

// Whether two occupants are the same, or neither is there.
fn is_same_occupant(a: Option<NodeId>, b: Option<NodeId>) -> bool
    ensures { result ≡ same_option same_node a b }
{
    match (a, b) {
        (None, None) => true,
        (Some(a), Some(b)) => is_same_node(a, b),
        _ => false,
    }
}

// Which node comes in, unless it is there already.
fn comes_in(held: Option<NodeId>, fill: Option<NodeId>) -> Option<NodeId>
    ensures { result ≡ comes_in held fill }
{
    if is_same_occupant(held, fill) {
        None
    } else {
        fill
    }
}

// Whether a mentioned node is in a register.
fn holds_mentioned(named: &BTreeSet<NodeId>, held: Option<NodeId>) -> bool
    ensures { result ≡ holds_mentioned (contains node_cmp named.now) held }
{
    match held {
        None => false,
        Some(node) => named.contains(&node),
    }
}

// Whom a change puts into a register that it lists.
fn goal_of(mark: &RegMark) -> Option<NodeId>
    ensures { result ≡ goal_of mark.now }
{
    match mark.how {
        How::Here => mark.held,
        _ => mark.fill,
    }
}

// What is said of a register, by whether it is cleared, whom the change puts there, and who is there.
fn register_mark(
    alloc: Global,
    puts: &BTreeMap<NodeId, To>,
    named: &BTreeSet<NodeId>,
    field: &FieldId,
    clear: bool,
    goal: Option<NodeId>,
    held: Option<NodeId>,
) -> Result<Option<RegMark>, AllocError>
    ensures { IfOk result (λ o. o ≡ register_mark field.now (get node_cmp puts.now) (contains node_cmp named.now) clear goal held) }
{
    if !clear && !holds_mentioned(named, held) {
        return Ok(None);
    }
    let how = how_of(puts, held, field);
    let fill = comes_in(held, goal);
    let field = field.copy(alloc)?;
    Ok(Some(RegMark {
        field,
        held,
        how,
        clear,
        fill,
    }))
}

// What a change lists for a register.
fn register_at<'a>(regs: &'a List<RegMark>, field: &FieldId) -> Option<&'a RegMark>
    requires { IsRising field_cmp (λ (r : Register). r.field) regs.now }
    ensures { option_copied result ≡ item_of field_cmp (λ (r : Register). r.field) regs.now field.now }
{
    item_at(regs.as_slice(), field)
}

// What a step lists for a register.
fn register_over_at<'a>(regs: &'a List<RegStep>, field: &FieldId) -> Option<&'a RegStep>
    requires { IsRising field_cmp (λ (r : RegisterOver). r.field) regs.now }
    ensures { option_copied result ≡ item_of field_cmp (λ (r : RegisterOver). r.field) regs.now field.now }
{
    item_at(regs.as_slice(), field)
}

// A register that the change or the step lists, after the step, if it is listed.
fn register_beside(
    alloc: Global,
    puts: &BTreeMap<NodeId, To>,
    named: &BTreeSet<NodeId>,
    change: &List<RegMark>,
    step: &List<RegStep>,
    field: &FieldId,
) -> Result<Option<RegMark>, AllocError>
    requires change { IsRising field_cmp (λ (r : Register). r.field) change.now }
    requires step { IsRising field_cmp (λ (r : RegisterOver). r.field) step.now }
    ensures { IfOk result (λ o. o ≡ beside (get node_cmp puts.now) (contains node_cmp named.now) change.now step.now field.now) }
{
    match (register_at(change, field), register_over_at(step, field)) {
        (None, None) => Ok(None),
        (None, Some(s)) => register_mark(alloc, puts, named, field, false, None, s.after),
        (Some(c), None) => register_mark(alloc, puts, named, field, c.clear, goal_of(c), c.held),
        (Some(c), Some(s)) => register_mark(
            alloc,
            puts,
            named,
            field,
            c.clear,
            goal_of(c),
            s.after,
        ),
    }
}

// Some registers.
fn registers_beside(
    alloc: Global,
    puts: &BTreeMap<NodeId, To>,
    named: &BTreeSet<NodeId>,
    change: &List<RegMark>,
    step: &List<RegStep>,
    fields: &BTreeSet<FieldId>,
) -> Result<List<RegMark>, AllocError>
    requires change { IsRising field_cmp (λ (r : Register). r.field) change.now }
    requires step { IsRising field_cmp (λ (r : RegisterOver). r.field) step.now }
    ensures registers { IfOk result (λ l. l ≡ filter_map (beside (get node_cmp puts.now) (contains node_cmp named.now) change.now step.now) fields.now.keys) }
    ensures ordered { IfOk result (λ l. IsOrdered field_cmp fields.now) }
{
    let mut list = List::new(alloc);
    for field in fields.iter() {
        let register = register_beside(alloc, puts, named, change, step, field)?;
        push_if_some(&mut list, register)?;
    }
    Ok(list)
}

// Adds the registers that a change lists.
fn add_registers(
    alloc: Global,
    set: &mut BTreeSet<FieldId>,
    items: &[RegMark],
) -> Result<(), AllocError>
    ensures { OnOk result ((q : Field) → contains field_cmp set.new q
        ≡ (contains field_cmp set.old q || list_any (λ (r : Register). is_eq (field_cmp r.field q)) items.now)) }
{
    for item in items {
        add(set, item.field.copy(alloc)?)?;
    }
    Ok(())
}

// Adds the registers that a step lists.
fn add_registers_over(
    alloc: Global,
    set: &mut BTreeSet<FieldId>,
    items: &[RegStep],
) -> Result<(), AllocError>
    ensures { OnOk result ((q : Field) → contains field_cmp set.new q
        ≡ (contains field_cmp set.old q || list_any (λ (r : RegisterOver). is_eq (field_cmp r.field q)) items.now)) }
{
    for item in items {
        add(set, item.field.copy(alloc)?)?;
    }
    Ok(())
}

// The registers that are listed by one of two.
fn fields_of_both(
    alloc: Global,
    change: &List<RegMark>,
    step: &List<RegStep>,
) -> Result<BTreeSet<FieldId>, AllocError>
    ensures { IfOk result (λ s. (f : Field) → contains field_cmp s f
        ≡ (list_any (λ (r : Register). is_eq (field_cmp r.field f)) change.now || list_any (λ (r : RegisterOver). is_eq (field_cmp r.field f)) step.now)) }
{
    let mut fields = BTreeSet::new(alloc);
    add_registers(alloc, &mut fields, change.as_slice())?;
    add_registers_over(alloc, &mut fields, step.as_slice())?;
    Ok(fields)
}

/// The registers that a change or a step lists, each as the change has it after the step.
pub fn registers_over(
    alloc: Global,
    puts: &BTreeMap<NodeId, To>,
    named: &BTreeSet<NodeId>,
    change: &List<RegMark>,
    step: &List<RegStep>,
) -> Result<List<RegMark>, AllocError>
    requires change { IsRising field_cmp (λ (r : Register). r.field) change.now }
    requires step { IsRising field_cmp (λ (r : RegisterOver). r.field) step.now }
    ensures { IfOk result (λ l. IsListing field_cmp (λ (r : Register). r.field) l
        (beside (get node_cmp puts.now) (contains node_cmp named.now) change.now step.now)) }
{
    let fields = fields_of_both(alloc, change, step)?;
    let list = registers_beside(alloc, puts, named, change, step, &fields)?;
    Ok(list)
}
