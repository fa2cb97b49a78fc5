//! Whether listings rise by name.
ghost use Rattle.std.specs.Prelude.{◌≡◌, ◌↔◌, true};
ghost use Rattle.st_compose.specs.inside.Clashes.{ListsRise};

use st_clash::rise;
use st_marks::Step;

/// Whether the rows and the registers of both rise by name.
pub(crate) fn lists_rise(first: &Step, then: &Step) -> bool
    ensures { (result ≡ true) ↔ ListsRise first.now then.now }
{
    rise(first.rows.as_slice())
        && rise(then.rows.as_slice())
        && rise(first.regs.as_slice())
        && rise(then.regs.as_slice())
}
