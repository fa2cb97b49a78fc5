//! A row as it is listed by a side that tells nothing there.
ghost use Rattle.std.specs.Prelude.{◌≡◌, ◌∷◌, [], IfOk};
ghost use Rattle.st_marks.specs.Row.{spread};
ghost use Rattle.st_moves.specs.inside.Rows.{bare as bare_cells};

use st_ids::List;
use st_marks::Mark;
use std::alloc::{AllocError, Global};

// What a mark says of cells that both sides find, with no node told.
fn bare_mark(mark: Mark) -> Mark
    ensures { spread (result ∷ []) ≡ bare_cells (spread (mark ∷ [])) }
{
    match mark {
        Mark::Skip(count) => Mark::Skip(count),
        Mark::Touch { .. } => Mark::Skip(1),
        Mark::Make { .. } => Mark::Skip(0),
        Mark::Gap(cell) | Mark::Fill { cell, .. } => Mark::Gap(cell),
    }
}

/// What marks say of the cells that both sides find, with no node told.
pub fn bare_marks(alloc: Global, marks: &[Mark]) -> Result<List<Mark>, AllocError>
    ensures { IfOk result (λ l. spread l ≡ bare_cells (spread marks.now)) }
{
    let mut list = List::new(alloc);
    for mark in marks {
        list.push(bare_mark(*mark))?;
    }
    Ok(list)
}
