//! Whether what a change lists of each row is short enough for one.
ghost use Rattle.std.specs.Prelude.{◌≡◌, ◌↔◌, ◌^◌, nat_lt, true, length};
ghost use Rattle.std.specs.List.{list_all};
ghost use Rattle.st_marks.specs.declared.marks.RowMarks.{RowMarks as Row};
ghost use Rattle.st_marks.specs.Row.{spread};
ghost use Rattle.st_parts.specs.Short.{HasShortRowsListed};

use st_marks::{Change, RowMarks, after};

/// So many cells are too many for a row.
const TOO_MANY: u64 = 4_294_967_296;

// Whether a row lists few enough cells.
fn is_short(row: &RowMarks) -> bool
    ensures { result ≡ nat_lt (length (spread row.now.marks)) (2 ^ 32) }
{
    after(&row.marks) < TOO_MANY
}

// Whether each row lists few enough cells.
fn are_short(rows: &[RowMarks]) -> bool
    ensures { result ≡ list_all (λ (r : Row). nat_lt (length (spread r.marks)) (2 ^ 32)) rows.now }
{
    rows.iter().all(|row| is_short(row))
}

/// Whether each row of a change lists fewer than 2^32 cells, those that it finds and those that it makes, as it does where the
/// intent leaves rows short.
pub fn has_short_rows(change: &Change) -> bool
    ensures { (result ≡ true) ↔ HasShortRowsListed change.now }
{
    are_short(change.rows.as_slice())
}
