//! Whether changes and steps may be told as texts: in normal form, with rows that are short enough.
#![tactic(auto)]

ghost use Rattle.std.specs.Prelude.{◌≡◌, ◌↔◌, IsTrue};
ghost use Rattle.st_normal_texts.specs.NormalTexts.{IsNormalStepText, IsNormalText, row_is_short, rows_are_short};

use st_marks::{Change, RowMarks, Step, after, before};
use st_normal::Check;

// Whether a row lists fewer than 2^31 cells before and after.
fn row_is_short(row: &RowMarks) -> bool
    ensures { result ≡ row_is_short row.now }
{
    let most: u64 = 2_147_483_648;
    before(&row.marks) < most && after(&row.marks) < most
}

fn rows_are_short(rows: &[RowMarks]) -> bool
    ensures { result ≡ rows_are_short rows.now }
{
    rows.iter().all(row_is_short)
}

/// Whether a change is in normal form, and each row that it lists has fewer than 2^31 cells before
/// and after.
pub fn is_normal_text(change: &Change) -> bool
    ensures { IsTrue result ↔ IsNormalText change.now }
{
    change.check().is_ok() && rows_are_short(change.rows.as_slice())
}

/// Whether a step is in normal form, and each row that it lists has fewer than 2^31 cells before
/// and after.
pub fn is_normal_step_text(step: &Step) -> bool
    ensures { IsTrue result ↔ IsNormalStepText step.now }
{
    step.check().is_ok() && rows_are_short(step.rows.as_slice())
}
