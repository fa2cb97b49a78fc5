//! Whether what a step lists of each row is short enough for one.
ghost use Rattle.std.specs.Prelude.{◌≡◌, ◌↔◌, ◌^◌, nat_lt, true, length};
ghost use Rattle.std.specs.List.{list_all};
ghost use Rattle.st_marks.specs.declared.marks.RowMarks.{RowMarks as Row};
ghost use Rattle.st_marks.specs.Row.{spread};
ghost use Rattle.st_steps.specs.Short.{HasShortRowsListed};

use st_marks::{RowMarks, Step, after};

/// So many cells are too many for a row.
const TOO_MANY: u64 = 4_294_967_296;

// Whether a row lists few enough cells.
fn is_short(row: &RowMarks) -> bool
    ensures { result ≡ nat_lt (length (spread row.now.marks)) (2 ^ 32) }
{
    after(&row.marks) < TOO_MANY
}

// Whether each row lists few enough cells.
fn are_short(rows: &[RowMarks]) -> bool
    ensures { result ≡ list_all (λ (r : Row). nat_lt (length (spread r.marks)) (2 ^ 32)) rows.now }
{
    rows.iter().all(|row| is_short(row))
}

/// Whether each row of a step lists fewer than 2^32 cells, those that it finds and those that it makes, as each step between
/// documents does (`steps_have_short_rows`).
pub fn has_short_rows(step: &Step) -> bool
    ensures { (result ≡ true) ↔ HasShortRowsListed step.now }
{
    are_short(step.rows.as_slice())
}
