//! A use of `st_normal`.
ghost use Rattle.std.specs.Prelude.{◌↔◌, IsTrue};
ghost use Rattle.st_normal.specs.Rules.{ObeysChangeRules};

use st_marks::Change;
use st_normal::Check;

/// Whether two changes that came from outside are both in normal form.
pub fn are_normal(first: &Change, then: &Change) -> bool
    ensures { IsTrue result ↔ (ObeysChangeRules first.now × ObeysChangeRules then.now) }
{
    first.check().is_ok() && then.check().is_ok()
}
