//! The step that changes nothing.
ghost use Rattle.std.specs.Prelude.{◌≡◌};
ghost use Rattle.st_laws.specs.Empty.{nothing};

use st_ids::List;
use st_marks::Step;
use std::alloc::Global;

/// The step that changes nothing.
pub fn empty_step(alloc: Global) -> Step
    ensures { result ≡ nothing }
{
    Step {
        new: List::new(alloc),
        rows: List::new(alloc),
        regs: List::new(alloc),
        loose: List::new(alloc),
        schema: None,
    }
}
