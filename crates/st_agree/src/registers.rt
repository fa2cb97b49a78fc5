//! Registers that a change and a step both list.
ghost use Rattle.std.specs.Prelude.{◌≡◌, ◌++◌, OnOk};
ghost use Rattle.std.specs.List.{flat_map};
ghost use Rattle.st_ids.specs.Listing.{IsRising, item_of};
ghost use Rattle.st_ids.specs.Order.{field_cmp, same_node};
ghost use Rattle.st_marks.specs.declared.marks.RegStep.{RegStep as Register};
ghost use Rattle.st_marks.specs.Intent.{same_option};
ghost use Rattle.st_agree.specs.inside.Rows.{holds_other, register_apart};

use crate::look::register_at;
use st_ids::{Copied, FieldId, List, NodeId, is_same_node};
use st_marks::{RegMark, RegStep};
use std::alloc::{AllocError, Global};

// Whether two occupants are the same, or neither is there.
fn is_same_occupant(a: Option<NodeId>, b: Option<NodeId>) -> bool
    ensures { result ≡ same_option same_node a b }
{
    match (a, b) {
        (None, None) => true,
        (Some(a), Some(b)) => is_same_node(a, b),
        _ => false,
    }
}

// Whether a register is listed by the step with another occupant.
fn is_held_otherwise(others: &[RegStep], register: &RegMark) -> bool
    requires { IsRising field_cmp (λ (r : Register). r.field) others.now }
    ensures { result ≡ holds_other register.now.held
        (item_of field_cmp (λ (r : Register). r.field) others.now register.now.field) }
{
    match register_at(others, &register.field) {
        Some(other) => !is_same_occupant(register.held, other.before),
        None => false,
    }
}

// Adds the register, if both list it and show another occupant.
fn push_register(
    alloc: Global,
    found: &mut List<FieldId>,
    others: &[RegStep],
    register: &RegMark,
) -> Result<(), AllocError>
    requires { IsRising field_cmp (λ (r : Register). r.field) others.now }
    ensures { OnOk result (found.new ≡ found.old ++ register_apart others.now register.now) }
{
    if is_held_otherwise(others, register) {
        found.push(register.field.copy(alloc)?)?;
    }
    Ok(())
}

/// Adds the registers that both list with another occupant.
pub fn push_registers(
    alloc: Global,
    found: &mut List<FieldId>,
    registers: &[RegMark],
    others: &[RegStep],
) -> Result<(), AllocError>
    requires { IsRising field_cmp (λ (r : Register). r.field) others.now }
    ensures { OnOk result (found.new ≡ found.old ++ flat_map (register_apart others.now) registers.now) }
{
    for register in registers {
        push_register(alloc, found, others, register)?;
    }
    Ok(())
}
