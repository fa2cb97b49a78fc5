//! The registers and the loose nodes of a change, carried to where a step puts the nodes that are mentioned after it.
ghost use Rattle.std.specs.Prelude.{◌≡◌, ◌||◌, Bool, IfOk, Some, None, Option as Maybe, if◌then◌else◌};
ghost use Rattle.std.specs.BTreeMap.{get};
ghost use Rattle.std.specs.BTreeSet.{IsOrdered, contains};
ghost use Rattle.std.specs.List.{filter_map, list_any};
ghost use Rattle.std.specs.Ordering.{is_eq};
ghost use Rattle.st_ids.specs.Listing.{IsListing};
ghost use Rattle.st_ids.specs.Order.{field_cmp, node_cmp, same_node};
ghost use Rattle.st_ids.specs.declared.names.FieldId.{FieldId as Field};
ghost use Rattle.st_ids.specs.declared.names.NodeId.{NodeId as Node};
ghost use Rattle.st_marks.specs.declared.intents.To.{To as Aim};
ghost use Rattle.st_marks.specs.declared.marks.How.TheVariants.{Here, Leave};
ghost use Rattle.st_marks.specs.declared.marks.RegMark.{RegMark as Register};
ghost use Rattle.st_marks.specs.declared.marks.RegStep.{RegStep as RegisterOver};
ghost use Rattle.st_marks.specs.Embedding.{is_nowhere};
ghost use Rattle.st_marks.specs.Intent.{same_option};
ghost use Rattle.st_marks.specs.Register.{comes_in, holds_mentioned, how_held};
ghost use Rattle.st_marks.specs.Row.{how as how_at};
ghost use Rattle.st_puts.specs.Mentions.{place_in};
ghost use Rattle.st_moves.specs.Between.{only_others};
ghost use Rattle.st_moves.specs.Carried.{carried_register, goal_of, held_between, register_mark};
ghost use Rattle.st_moves.specs.Index.{IsIndex};
ghost use Rattle.st_moves.specs.inside.Registers.{loose_in, register_beside as beside};

use crate::index::{
    add_registers, add_registers_over, index_registers, index_registers_over, register_in,
    register_over_in,
};
use crate::rows::push_if_some;
use st_ids::{Copied, FieldId, List, NodeId, ROOT, is_same_field, is_same_node};
use st_marks::{How, Loose, RegMark, RegStep, Spot, To};
use std::alloc::{AllocError, Global};
use std::collections::{BTreeMap, BTreeSet};

// What becomes of a node that is put, where it stands.
fn here_or_leave(here: bool) -> How
    ensures { result ≡ (if here then Here else Leave) }
{
    if here { How::Here } else { How::Leave }
}

// What becomes of a node in a register, by where it is put.
fn how_in_register(puts: &BTreeMap<NodeId, To>, node: NodeId, field: &FieldId) -> How
    ensures { result ≡ how_at (get node_cmp puts.now node) (Aim.Register field.now) }
{
    match puts.get(&node) {
        None => How::Stay,
        Some(To::Register(other)) => here_or_leave(is_same_field(other, field)),
        Some(_) => How::Leave,
    }
}

// What becomes of a node that is nowhere, by where it is put.
fn how_nowhere(puts: &BTreeMap<NodeId, To>, node: NodeId) -> How
    ensures { result ≡ how_at (get node_cmp puts.now node) Aim.Nowhere }
{
    match puts.get(&node) {
        None => How::Stay,
        Some(To::Nowhere) => How::Here,
        Some(_) => How::Leave,
    }
}

// What becomes of the occupant of a register.
fn how_of(puts: &BTreeMap<NodeId, To>, held: Option<NodeId>, field: &FieldId) -> How
    ensures { (c : Bool) (o : Maybe Node) (m : Node → Bool) → result
        ≡ how_held field.now (record { clear = c; fill = o; target_of = get node_cmp puts.now; mentioned = m }) held }
{
    match held {
        None => How::Stay,
        Some(node) => how_in_register(puts, node, field),
    }
}

// Whether two occupants are the same, or neither is there.
fn is_same_occupant(a: Option<NodeId>, b: Option<NodeId>) -> bool
    ensures { result ≡ same_option same_node a b }
{
    match (a, b) {
        (None, None) => true,
        (Some(a), Some(b)) => is_same_node(a, b),
        _ => false,
    }
}

// Which node comes in, unless it is there already.
fn comes_in(held: Option<NodeId>, fill: Option<NodeId>) -> Option<NodeId>
    ensures { result ≡ comes_in held fill }
{
    if is_same_occupant(held, fill) {
        None
    } else {
        fill
    }
}

// Whether a mentioned node is in a register.
fn holds_mentioned(named: &BTreeSet<NodeId>, held: Option<NodeId>) -> bool
    ensures { result ≡ holds_mentioned (contains node_cmp named.now) held }
{
    match held {
        None => false,
        Some(node) => named.contains(&node),
    }
}

// An occupant that isn't mentioned.
fn only_others(named: &BTreeSet<NodeId>, held: Option<NodeId>) -> Option<NodeId>
    ensures { result ≡ only_others (contains node_cmp named.now) held }
{
    match held {
        None => None,
        Some(node) => {
            if named.contains(&node) {
                None
            } else {
                Some(node)
            }
        }
    }
}

// Who is in a register of the document between.
fn held_between(
    named: &BTreeSet<NodeId>,
    before: Option<NodeId>,
    after: Option<NodeId>,
) -> Option<NodeId>
    ensures { result ≡ held_between (contains node_cmp named.now) before after }
{
    if holds_mentioned(named, after) {
        after
    } else {
        only_others(named, before)
    }
}

// Whom a change puts into a register that it lists.
fn goal_of(mark: &RegMark) -> Option<NodeId>
    ensures { result ≡ goal_of mark.now }
{
    match mark.how {
        How::Here => mark.held,
        _ => mark.fill,
    }
}

// What is said of a register, by whether it is cleared, whom the change puts there, and who is there.
fn register_mark(
    alloc: Global,
    puts: &BTreeMap<NodeId, To>,
    named: &BTreeSet<NodeId>,
    field: &FieldId,
    clear: bool,
    goal: Option<NodeId>,
    held: Option<NodeId>,
) -> Result<Option<RegMark>, AllocError>
    ensures { IfOk result (λ o. o ≡ register_mark field.now (get node_cmp puts.now) (contains node_cmp named.now) clear goal held) }
{
    if !clear && !holds_mentioned(named, held) {
        return Ok(None);
    }
    let how = how_of(puts, held, field);
    let fill = comes_in(held, goal);
    let field = field.copy(alloc)?;
    Ok(Some(RegMark {
        field,
        held,
        how,
        clear,
        fill,
    }))
}

// Registers of a change and of a step that are looked into by name.
#[derive(Drop)]
struct Registers<'a> {
    change: &'a List<RegMark>,
    change_index: BTreeMap<FieldId, usize>,
    step: &'a List<RegStep>,
    step_index: BTreeMap<FieldId, usize>,
}

// A register that the change or the step lists, carried, if it is listed.
fn register_beside(
    alloc: Global,
    puts: &BTreeMap<NodeId, To>,
    named: &BTreeSet<NodeId>,
    both: &Registers<'_>,
    field: &FieldId,
) -> Result<Option<RegMark>, AllocError>
    requires change { IsIndex field_cmp (λ (r : Register). r.field) both.now.change.now both.now.change_index }
    requires step { IsIndex field_cmp (λ (r : RegisterOver). r.field) both.now.step.now both.now.step_index }
    ensures { IfOk result (λ o. o ≡ beside (get node_cmp puts.now) (contains node_cmp named.now) both.now.change.now both.now.step.now field.now) }
{
    let first = register_in(both.change, &both.change_index, field);
    let then = register_over_in(both.step, &both.step_index, field);
    match (first, then) {
        (None, None) => Ok(None),
        (None, Some(s)) => {
            let held = held_between(named, s.before, s.after);
            register_mark(alloc, puts, named, field, false, None, held)
        }
        (Some(c), None) => {
            let held = held_between(named, c.held, c.held);
            register_mark(alloc, puts, named, field, c.clear, goal_of(c), held)
        }
        (Some(c), Some(s)) => {
            let held = held_between(named, c.held, s.after);
            register_mark(alloc, puts, named, field, c.clear, goal_of(c), held)
        }
    }
}

// Some registers.
fn registers_beside(
    alloc: Global,
    puts: &BTreeMap<NodeId, To>,
    named: &BTreeSet<NodeId>,
    both: &Registers<'_>,
    fields: &BTreeSet<FieldId>,
) -> Result<List<RegMark>, AllocError>
    requires change { IsIndex field_cmp (λ (r : Register). r.field) both.now.change.now both.now.change_index }
    requires step { IsIndex field_cmp (λ (r : RegisterOver). r.field) both.now.step.now both.now.step_index }
    ensures registers { IfOk result (λ l. l ≡ filter_map (beside (get node_cmp puts.now) (contains node_cmp named.now) both.now.change.now both.now.step.now) fields.now.keys) }
    ensures ordered { IfOk result (λ l. IsOrdered field_cmp fields.now) }
{
    let mut list = List::new(alloc);
    for field in fields.iter() {
        let register = register_beside(alloc, puts, named, both, field)?;
        push_if_some(&mut list, register)?;
    }
    Ok(list)
}

// The registers that are listed by one of two.
fn fields_of_both(
    alloc: Global,
    change: &List<RegMark>,
    step: &List<RegStep>,
) -> Result<BTreeSet<FieldId>, AllocError>
    ensures { IfOk result (λ s. (f : Field) → contains field_cmp s f
        ≡ (list_any (λ (r : Register). is_eq (field_cmp r.field f)) change.now || list_any (λ (r : RegisterOver). is_eq (field_cmp r.field f)) step.now)) }
{
    let mut fields = BTreeSet::new(alloc);
    add_registers(alloc, &mut fields, change.as_slice())?;
    add_registers_over(alloc, &mut fields, step.as_slice())?;
    Ok(fields)
}

// The registers that are listed by one of two.
fn registers_listed(
    alloc: Global,
    puts: &BTreeMap<NodeId, To>,
    named: &BTreeSet<NodeId>,
    both: &Registers<'_>,
) -> Result<List<RegMark>, AllocError>
    requires change { IsIndex field_cmp (λ (r : Register). r.field) both.now.change.now both.now.change_index }
    requires step { IsIndex field_cmp (λ (r : RegisterOver). r.field) both.now.step.now both.now.step_index }
    ensures { IfOk result (λ l. IsListing field_cmp (λ (r : Register). r.field) l
        (beside (get node_cmp puts.now) (contains node_cmp named.now) both.now.change.now both.now.step.now)) }
{
    let fields = fields_of_both(alloc, both.change, both.step)?;
    let list = registers_beside(alloc, puts, named, both, &fields)?;
    Ok(list)
}

// Registers with their indexes.
fn registers_indexed<'a>(
    alloc: Global,
    change: &'a List<RegMark>,
    step: &'a List<RegStep>,
) -> Result<Registers<'a>, AllocError>
    ensures changes { IfOk result (λ r. r.change.now ≡ change.now) }
    ensures steps { IfOk result (λ r. r.step.now ≡ step.now) }
    ensures change_index { IfOk result (λ r. IsIndex field_cmp (λ (q : Register). q.field) r.change.now r.change_index) }
    ensures step_index { IfOk result (λ r. IsIndex field_cmp (λ (q : RegisterOver). q.field) r.step.now r.step_index) }
{
    let change_index = index_registers(alloc, change.as_slice())?;
    let step_index = index_registers_over(alloc, step.as_slice())?;
    Ok(Registers {
        change,
        change_index,
        step,
        step_index,
    })
}

/// The registers that a change or a step lists, each carried to where the step puts the nodes that are mentioned after it.
pub fn carry_registers(
    alloc: Global,
    puts: &BTreeMap<NodeId, To>,
    named: &BTreeSet<NodeId>,
    change: &List<RegMark>,
    step: &List<RegStep>,
) -> Result<List<RegMark>, AllocError>
    ensures { IfOk result (λ l. IsListing field_cmp (λ (r : Register). r.field) l
        (beside (get node_cmp puts.now) (contains node_cmp named.now) change.now step.now)) }
{
    let both = registers_indexed(alloc, change, step)?;
    registers_listed(alloc, puts, named, &both)
}

// Whether a node is nowhere, as a table of places tells.
fn is_nowhere(places: &BTreeMap<NodeId, Spot>, node: NodeId) -> bool
    ensures { result ≡ is_nowhere (place_in places.now node) }
{
    match places.get(&node) {
        None | Some(Spot::Nowhere) => true,
        _ => false,
    }
}

// A node that is nowhere, if it is listed.
fn loose_node(
    puts: &BTreeMap<NodeId, To>,
    places: &BTreeMap<NodeId, Spot>,
    node: NodeId,
) -> Option<Loose>
    ensures { result ≡ loose_in (get node_cmp puts.now) (place_in places.now) node }
{
    if is_nowhere(places, node) && !is_same_node(node, ROOT) {
        let how = how_nowhere(puts, node);
        Some(Loose { node, how })
    } else {
        None
    }
}

/// The nodes of a set that are nowhere, as a table of places tells, with what becomes of them.
pub fn loose_nodes(
    alloc: Global,
    puts: &BTreeMap<NodeId, To>,
    places: &BTreeMap<NodeId, Spot>,
    named: &BTreeSet<NodeId>,
) -> Result<List<Loose>, AllocError>
    ensures loose { IfOk result (λ l. l ≡ filter_map (loose_in (get node_cmp puts.now) (place_in places.now)) named.now.keys) }
    ensures ordered { IfOk result (λ l. IsOrdered node_cmp named.now) }
{
    let mut list = List::new(alloc);
    for node in named.iter() {
        push_if_some(&mut list, loose_node(puts, places, *node))?;
    }
    Ok(list)
}
