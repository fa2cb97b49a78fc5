//! The rules of normal form on the marks of one row.
ghost use Rattle.std.specs.Prelude.{◌≡◌, ◌≢◌, ◌<◌, ◌^◌, ◌↔◌, ◌∷◌, ◌||◌, IsTrue, List, false, length};
ghost use Rattle.std.specs.List.{list_any};
ghost use Rattle.st_marks.specs.declared.marks.Mark.{Mark as Marked};
ghost use Rattle.st_marks.specs.Embedding.{tells};
ghost use Rattle.st_marks.specs.Row.{merge, spread};
ghost use Rattle.st_marks.specs.Listings.{cells_after, cells_before};

use crate::scan::Rule;
use st_marks::{Mark, RowMarks, after, before};

// Whether a Skip of so many cells may stand behind a mark, which may be a Skip.
fn may_skip(count: u32, behind_skip: bool) -> bool
    ensures { IsTrue result ↔ ((count ≢ 0) × (behind_skip ≡ false)) }
{
    count != 0 && !behind_skip
}

// Whether no Skip is of 0 and none stands right behind another.
fn is_merged(marks: &[Mark]) -> bool
    ensures { IsTrue result ↔ (marks.now ≡ merge (spread marks.now)) }
{
    let mut behind_skip = false;
    for mark in marks {
        let Mark::Skip(count) = *mark else {
            behind_skip = false;
            continue;
        };
        if !may_skip(count, behind_skip) {
            return false;
        }
        behind_skip = true;
    }
    true
}

// Whether a mark makes or fills a cell or finds a node.
#[tactic(auto, using(crate::proofs::Counted::told_counted))]
fn is_telling(mark: Mark) -> bool
    ensures { (rest : List Marked) → list_any tells (spread (mark ∷ rest)) ≡ (result || list_any tells (spread rest)) }
{
    match mark {
        Mark::Skip(_) | Mark::Gap(_) => false,
        Mark::Touch { .. } | Mark::Make { .. } | Mark::Fill { .. } => true,
    }
}

// Whether some mark does.
fn has_telling(marks: &[Mark]) -> bool
    ensures { result ≡ list_any tells (spread marks.now) }
{
    for mark in marks {
        if is_telling(*mark) {
            return true;
        }
    }
    false
}

/// The marks of a row are in normal form.
#[derive(Drop)]
pub struct Merged;

impl Rule for Merged {
    type Item = RowMarks;

    ghost Holds = { λ s r. r.marks ≡ merge (spread r.marks) };

    fn holds(&self, row: &RowMarks) -> bool {
        is_merged(row.marks.as_slice())
    }
}

/// A row is listed for some of its cells.
#[derive(Drop)]
pub struct Telling;

impl Rule for Telling {
    type Item = RowMarks;

    ghost Holds = { λ s r. IsTrue (list_any tells (spread r.marks)) };

    fn holds(&self, row: &RowMarks) -> bool {
        has_telling(row.marks.as_slice())
    }
}

/// A row lists few enough cells.
#[derive(Drop)]
pub struct Short;

impl Rule for Short {
    type Item = RowMarks;

    ghost Holds = { λ s r. (length (cells_before (spread r.marks)) < 2 ^ 32) × (length (cells_after (spread r.marks)) < 2 ^ 32) };

    fn holds(&self, row: &RowMarks) -> bool {
        let most: u64 = 4_294_967_296;
        before(&row.marks) < most && after(&row.marks) < most
    }
}
