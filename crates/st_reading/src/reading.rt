//! How empty cells that stay empty are read.
ghost use Rattle.std.specs.Prelude.{Bool, ◌≡◌, ◌∷◌, [], true, false};
ghost use Rattle.st_marks.specs.Row.{Gap, spread};
ghost use Rattle.st_read_laws.specs.Reading.{read};

use st_ids::CellId;
use st_marks::Mark;

/// What stands for an empty cell that stays empty: its name, or a count.
pub trait Reading {
    /// Whether it is named.
    ghost listed: { Bool };

    fn empty(&self, cell: CellId) -> Mark
        ensures { spread (result ∷ []) ≡ read listed (Gap cell) ∷ [] };
}

/// Each empty cell is named.
#[derive(Clone, Copy)]
pub struct Listed;

/// An empty cell that stays empty is counted with the full cells that aren't named.
#[derive(Clone, Copy)]
pub struct Thin;

impl Reading for Listed {
    ghost listed = { true };

    #[inline(always)]
    fn empty(&self, cell: CellId) -> Mark {
        Mark::Gap(cell)
    }
}

impl Reading for Thin {
    ghost listed = { false };

    #[inline(always)]
    fn empty(&self, _cell: CellId) -> Mark {
        Mark::Skip(1)
    }
}
