//! Registers that one step leaves and another finds.
ghost use Rattle.std.specs.Prelude.{◌≡◌, ◌++◌, OnOk};
ghost use Rattle.std.specs.BTreeSet.{contains};
ghost use Rattle.std.specs.List.{flat_map};
ghost use Rattle.std.specs.Option.{option_copied};
ghost use Rattle.st_ids.specs.Listing.{IsRising};
ghost use Rattle.st_ids.specs.Order.{field_cmp, node_cmp, same_node};
ghost use Rattle.st_marks.specs.declared.marks.RegStep.{RegStep as Register};
ghost use Rattle.st_marks.specs.Intent.{same_option};
ghost use Rattle.st_marks.specs.Listings.{listing_after_step, listing_before_step};
ghost use Rattle.st_moves.specs.Index.{IsIndex};
ghost use Rattle.st_clash.specs.Adds.{Adds};
ghost use Rattle.st_agree_turn.specs.Rules.{RegistersApart};
ghost use Rattle.st_agree_turn.specs.inside.Registers.{holds_otherwise as otherwise, register_apart};

use st_climb::new_names;
use st_ids::{Copied, FieldId, List, NodeId, is_same_node};
use st_marks::{RegStep, Step};
use st_moves::{index_registers_over, register_over_in};
use std::alloc::{AllocError, Global};
use std::collections::{BTreeMap, BTreeSet};

// The registers that a step lists, which are looked into by field, and the nodes that it makes.
#[derive(Clone, Copy)]
struct Left<'a> {
    regs: &'a List<RegStep>,
    index: &'a BTreeMap<FieldId, usize>,
    made: &'a BTreeSet<NodeId>,
}

// Whether two occupants are the same, or neither is there.
fn is_same_occupant(a: Option<NodeId>, b: Option<NodeId>) -> bool
    ensures { result ≡ same_option same_node a b }
{
    match (a, b) {
        (None, None) => true,
        (Some(a), Some(b)) => is_same_node(a, b),
        _ => false,
    }
}

// Whether a register was left with another occupant than is found.
fn holds_otherwise(left: Option<&RegStep>, made: bool, held: Option<NodeId>) -> bool
    ensures { result ≡ otherwise (option_copied left.entry) made held }
{
    match left {
        Some(left) => !is_same_occupant(left.after, held),
        None => made && !is_same_occupant(None, held),
    }
}

// Adds a register that was left with another occupant than is found.
fn push_register(
    alloc: Global,
    found: &mut List<FieldId>,
    left: &Left<'_>,
    register: &RegStep,
) -> Result<(), AllocError>
    requires { IsIndex field_cmp (λ (r : Register). r.field) left.now.regs.now left.now.index.now }
    ensures { OnOk result (found.new ≡ found.old ++ register_apart left.now.regs.now (contains node_cmp left.now.made.now) register.now) }
{
    let there = register_over_in(left.regs, left.index, &register.field);
    if holds_otherwise(
        there,
        left.made.contains(&register.field.node),
        register.before,
    ) {
        found.push(register.field.copy(alloc)?)?;
    }
    Ok(())
}

// Adds the registers that were left with other occupants than are found.
fn push_all(
    alloc: Global,
    found: &mut List<FieldId>,
    left: &Left<'_>,
    registers: &[RegStep],
) -> Result<(), AllocError>
    requires { IsIndex field_cmp (λ (r : Register). r.field) left.now.regs.now left.now.index.now }
    ensures { OnOk result (found.new ≡ found.old ++ flat_map (register_apart left.now.regs.now (contains node_cmp left.now.made.now)) registers.now) }
{
    for register in registers {
        push_register(alloc, found, left, register)?;
    }
    Ok(())
}

// The same, by the nodes that are made.
fn push_listed(
    alloc: Global,
    found: &mut List<FieldId>,
    lefts: &List<RegStep>,
    made: &BTreeSet<NodeId>,
    registers: &[RegStep],
) -> Result<(), AllocError>
    ensures { OnOk result (found.new ≡ found.old ++ flat_map (register_apart lefts.now (contains node_cmp made.now)) registers.now) }
{
    let index = index_registers_over(alloc, lefts.as_slice())?;
    let left = Left {
        regs: lefts,
        index: &index,
        made,
    };
    push_all(alloc, found, &left, registers)
}

/// Adds the registers that one step leaves with another occupant than another step finds: where both list a register, or the
/// second lists one of a node that the first makes. Takes O(n log n) for n registers and new nodes.
pub fn push_registers(
    alloc: Global,
    found: &mut List<FieldId>,
    first: &Step,
    then: &Step,
) -> Result<(), AllocError>
    requires { IsRising field_cmp (λ (r : Register). r.field) then.now.regs }
    ensures { OnOk result (Adds found.old found.new (RegistersApart (listing_after_step first.now) (listing_before_step then.now)) (Unit {0})) }
{
    let made = new_names(alloc, first.new.as_slice())?;
    push_listed(alloc, found, &first.regs, &made, then.regs.as_slice())
}
