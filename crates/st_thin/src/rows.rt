//! One row.
ghost use Rattle.std.specs.Prelude.{◌≡◌, ◌<◌, ◌^◌, ◌∷◌, [], length, nat_lt, IfOk};
ghost use Rattle.st_marks.specs.Row.{spread};
ghost use Rattle.st_mention_laws.specs.Shown.{thin_marks as thin, unnamed as counted};
ghost use Rattle.st_rows.specs.Pieces.{IsSingle};
ghost use Rattle.st_rows.specs.Reading.{cell_of};
ghost use Rattle.st_thin.specs.inside.Thinning.{row_thinned};

use st_ids::{Copied, List};
use st_marks::{Mark, RowMarks, after};
use st_rows::{Piece, Table, lay_in_turn_alike};
use std::alloc::{AllocError, Global};

/// So many cells are too many for a row.
const TOO_MANY: u64 = 4_294_967_296;

// What is said of a cell, but for an empty one that stays empty.
#[inline(always)]
fn unnamed(mark: Mark) -> Mark
    requires { IsSingle mark }
    ensures { spread (result ∷ []) ≡ counted (cell_of mark) ∷ [] }
{
    match mark {
        Mark::Gap(_) => Mark::Skip(1),
        _ => mark,
    }
}

/// A row and counts of all cells that it leaves.
#[derive(Drop)]
struct Thinning;

impl Table for Thinning {
    ghost use Rattle.st_thin.specs.inside.Thinning.{thinned};

    ghost cell = { λ t. thinned };

    #[inline(always)]
    fn mark(&self, piece: Piece) -> Mark {
        match piece {
            Piece::Counted(k) => Mark::Skip(k),
            Piece::Both(mark, _) => unnamed(mark),
            Piece::First(mark) => unnamed(mark),
            Piece::Then(count) => count,
        }
    }
}

// Marks, with so many cells after them, where those are counted that are empty and stay so.
fn marks_thinned(alloc: Global, marks: &List<Mark>, count: u32) -> Result<List<Mark>, AllocError>
    ensures { length (spread marks.now) ≡ count → IfOk result (λ ms. ms ≡ thin marks.now) }
{
    lay_in_turn_alike(alloc, &Thinning, marks.as_slice(), &[Mark::Skip(count)])
}

// Marks where those are counted that are empty and stay so.
fn marks_counted(alloc: Global, marks: &List<Mark>, count: u64) -> Result<List<Mark>, AllocError>
    requires { count < 2 ^ 32 }
    ensures { length (spread marks.now) ≡ count → IfOk result (λ ms. ms ≡ thin marks.now) }
{
    marks_thinned(alloc, marks, count as u32)
}

/// A row with its empty cells counted; one that lists too many cells stays as it is.
pub fn thin_row(alloc: Global, row: &RowMarks) -> Result<RowMarks, AllocError>
    ensures { IfOk result (λ r. r ≡ row_thinned row.now) }
{
    let count = after(&row.marks);
    if count >= TOO_MANY {
        return row.copy(alloc);
    }
    let marks = marks_counted(alloc, &row.marks, count)?;
    Ok(RowMarks {
        node: row.node,
        marks,
    })
}
