//! The registers that a change clears.
ghost use Rattle.std.specs.Prelude.{◌≡◌, ◌++◌, IfOk, OnOk};
ghost use Rattle.std.specs.List.{flat_map};
ghost use Rattle.st_meaning.specs.inside.Made.{cleared_at};

use st_ids::{Copied, FieldId, List};
use st_marks::RegMark;
use std::alloc::{AllocError, Global};

// Puts a register behind others, if it is cleared.
fn push_if_cleared(
    alloc: Global,
    fields: &mut List<FieldId>,
    reg: &RegMark,
) -> Result<(), AllocError>
    ensures { OnOk result (fields.new ≡ fields.old ++ cleared_at reg.now) }
{
    if !reg.clear {
        return Ok(());
    }
    let field = reg.field.copy(alloc)?;
    fields.push(field)?;
    Ok(())
}

/// The registers that are cleared.
pub fn clears_of(alloc: Global, regs: &[RegMark]) -> Result<List<FieldId>, AllocError>
    ensures { IfOk result (λ fs. fs ≡ flat_map cleared_at regs.now) }
{
    let mut fields = List::new(alloc);
    for reg in regs {
        push_if_cleared(alloc, &mut fields, reg)?;
    }
    Ok(fields)
}
