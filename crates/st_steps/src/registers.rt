//! The registers of two steps in turn.
ghost use Rattle.std.specs.Prelude.{◌≡◌, map, IfOk, option_copied};
ghost use Rattle.std.specs.Option.{option_or};
ghost use Rattle.st_ids.specs.Listing.{IsListing, item_of};
ghost use Rattle.st_ids.specs.Order.{field_cmp};
ghost use Rattle.st_marks.specs.declared.marks.RegStep.{RegStep as Register};
ghost use Rattle.st_steps.specs.inside.Told.{register_behind as behind};

use st_ids::{Copied, List};
use st_listings::union;
use st_marks::RegStep;
use st_moves::{index_registers_over, register_over_in};
use std::alloc::{AllocError, Global};

// A register of the second step, behind that of the first.
fn register_behind(
    alloc: Global,
    first: Option<&RegStep>,
    second: &RegStep,
) -> Result<RegStep, AllocError>
    ensures { IfOk result (λ r. r ≡ behind (option_copied first.entry) second.now) }
{
    let before = match first {
        None => second.before,
        Some(first) => first.before,
    };
    Ok(RegStep {
        field: second.field.copy(alloc)?,
        before,
        after: second.after,
    })
}

// The registers of the second step, each behind that of the first.
fn registers_behind(
    alloc: Global,
    first: &List<RegStep>,
    second: &[RegStep],
) -> Result<List<RegStep>, AllocError>
    ensures { IfOk result (λ l. l ≡ map (λ (r : Register). behind (item_of field_cmp (λ (q : Register). q.field) first.now r.field) r) second.now) }
{
    let index = index_registers_over(alloc, first.as_slice())?;
    let mut regs = List::new(alloc);
    for reg in second {
        let before = register_over_in(first, &index, &reg.field);
        regs.push(register_behind(alloc, before, reg)?)?;
    }
    Ok(regs)
}

/// The registers of two steps in turn.
pub fn registers_in_turn(
    alloc: Global,
    first: &List<RegStep>,
    second: &List<RegStep>,
) -> Result<List<RegStep>, AllocError>
    ensures { IfOk result (λ l. IsListing field_cmp (λ (r : Register). r.field) l (λ f. option_or
        (item_of field_cmp (λ (r : Register). r.field) (map (λ (r : Register). behind (item_of field_cmp (λ (q : Register). q.field) first.now r.field) r) second.now) f)
        (item_of field_cmp (λ (r : Register). r.field) first.now f))) }
{
    let behind = registers_behind(alloc, first, second.as_slice())?;
    union(alloc, behind.as_slice(), first.as_slice())
}
