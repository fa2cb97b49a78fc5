//! The registers of what is left of a step.
ghost use Rattle.std.specs.Prelude.{◌≡◌, map, IfOk, option_copied};
ghost use Rattle.std.specs.Option.{option_or};
ghost use Rattle.st_ids.specs.Listing.{IsListing, item_of};
ghost use Rattle.st_ids.specs.Order.{field_cmp};
ghost use Rattle.st_marks.specs.declared.marks.RegStep.{RegStep as Register};
ghost use Rattle.st_strip.specs.inside.Told.{register_back as back, register_behind as behind};

use st_ids::{Copied, List};
use st_listings::union;
use st_marks::RegStep;
use st_moves::{index_registers_over, register_over_in};
use std::alloc::{AllocError, Global};

// A register of the whole step, behind that of the first part.
fn register_behind(
    alloc: Global,
    first: Option<&RegStep>,
    whole: &RegStep,
) -> Result<RegStep, AllocError>
    ensures { IfOk result (λ r. r ≡ behind (option_copied first.entry) whole.now) }
{
    let before = match first {
        None => whole.before,
        Some(first) => first.after,
    };
    Ok(RegStep {
        field: whole.field.copy(alloc)?,
        before,
        after: whole.after,
    })
}

// The registers of the whole step, each behind that of the first part.
fn registers_behind(
    alloc: Global,
    first: &List<RegStep>,
    whole: &[RegStep],
) -> Result<List<RegStep>, AllocError>
    ensures { IfOk result (λ l. l ≡ map (λ (r : Register). behind (item_of field_cmp (λ (q : Register). q.field) first.now r.field) r) whole.now) }
{
    let index = index_registers_over(alloc, first.as_slice())?;
    let mut regs = List::new(alloc);
    for reg in whole {
        let before = register_over_in(first, &index, &reg.field);
        regs.push(register_behind(alloc, before, reg)?)?;
    }
    Ok(regs)
}

// A register of the first part, back.
fn register_back(alloc: Global, reg: &RegStep) -> Result<RegStep, AllocError>
    ensures { IfOk result (λ r. r ≡ back reg.now) }
{
    Ok(RegStep {
        field: reg.field.copy(alloc)?,
        before: reg.after,
        after: reg.before,
    })
}

// The registers of the first part, back.
fn registers_back(alloc: Global, regs: &[RegStep]) -> Result<List<RegStep>, AllocError>
    ensures { IfOk result (λ l. l ≡ map back regs.now) }
{
    let mut list = List::new(alloc);
    for reg in regs {
        list.push(register_back(alloc, reg)?)?;
    }
    Ok(list)
}

/// The registers of what is left.
pub fn rest_registers(
    alloc: Global,
    first: &List<RegStep>,
    whole: &List<RegStep>,
) -> Result<List<RegStep>, AllocError>
    ensures { IfOk result (λ l. IsListing field_cmp (λ (r : Register). r.field) l (λ f. option_or
        (item_of field_cmp (λ (r : Register). r.field) (map (λ (r : Register). behind (item_of field_cmp (λ (q : Register). q.field) first.now r.field) r) whole.now) f)
        (item_of field_cmp (λ (r : Register). r.field) (map back first.now) f))) }
{
    let behind = registers_behind(alloc, first, whole.as_slice())?;
    let back = registers_back(alloc, first.as_slice())?;
    union(alloc, behind.as_slice(), back.as_slice())
}
