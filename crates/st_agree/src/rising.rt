//! Whether listings rise by name.
ghost use Rattle.std.specs.Prelude.{◌≡◌, ◌↔◌, true};
ghost use Rattle.st_agree.specs.inside.Clashes.{ListsRise};

use st_clash::rise;
use st_marks::{Change, Step};

/// Whether the listings of both that are looked into rise by name.
pub fn lists_rise(change: &Change, step: &Step) -> bool
    ensures { (result ≡ true) ↔ ListsRise change.now step.now }
{
    rise(change.rows.as_slice())
        && rise(step.rows.as_slice())
        && rise(change.regs.as_slice())
        && rise(step.regs.as_slice())
        && rise(change.new.as_slice())
        && rise(step.new.as_slice())
}
