//! Whether listings rise by name.
ghost use Rattle.std.specs.Prelude.{◌≡◌, ◌↔◌, true};
ghost use Rattle.st_join_parts.specs.inside.Clashes.{ListsRise};

use st_clash::rise;
use st_marks::Change;

/// Whether the rows and the registers of both rise by name.
pub(crate) fn lists_rise(first: &Change, then: &Change) -> bool
    ensures { (result ≡ true) ↔ ListsRise first.now then.now }
{
    rise(first.rows.as_slice())
        && rise(then.rows.as_slice())
        && rise(first.regs.as_slice())
        && rise(then.regs.as_slice())
}
