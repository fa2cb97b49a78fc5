//! Marks of a row that are written one after another.
ghost use Rattle.std.specs.Prelude.{◌≡◌, ◌++◌, ◌∷◌, [], suc, ℕ, ◌≤◌, OnOk};
ghost use Rattle.std.specs.List.{list_any};
ghost use Rattle.st_marks.specs.declared.marks.Mark.{Mark as AnyMark};
ghost use Rattle.st_embed.specs.inside.Marks.{CountWithin, HasRoom, count_in, tells_mark, with_cell, with_count};

use st_ids::List;
use st_marks::Mark;
use std::alloc::{AllocError, Global};

// How many cells a mark counts, if it counts cells.
fn count_in(mark: Mark) -> Option<u32>
    ensures { result ≡ count_in mark }
{
    match mark {
        Mark::Skip(k) => Some(k),
        _ => None,
    }
}

// Takes the count off that stands at the end, if one does.
fn take_count(marks: &mut List<Mark>) -> u32
    ensures marks { with_count marks.old ≡ marks.new ++ AnyMark.Skip (suc result) ∷ [] }
    ensures within { (most : ℕ) → CountWithin most marks.old → result ≤ most }
{
    match marks.as_slice().last().copied() {
        None => 0,
        Some(mark) => match count_in(mark) {
            None => 0,
            Some(k) => {
                marks.pop();
                k
            }
        },
    }
}

// Adds a counted cell.
fn push_count(marks: &mut List<Mark>) -> Result<(), AllocError>
    requires { HasRoom marks.old }
    ensures { OnOk result (marks.new ≡ with_count marks.old) }
{
    let k = take_count(marks);
    marks.push(Mark::Skip(k + 1))?;
    Ok(())
}

/// Adds a cell: with its mark, or counted where there is none.
pub fn push_cell(marks: &mut List<Mark>, mark: Option<Mark>) -> Result<(), AllocError>
    requires { HasRoom marks.old }
    ensures { OnOk result (marks.new ≡ with_cell marks.old mark) }
{
    match mark {
        None => push_count(marks),
        Some(mark) => {
            marks.push(mark)?;
            Ok(())
        }
    }
}

/// Whether a row with these marks is listed.
pub fn tells(marks: &[Mark]) -> bool
    ensures { result ≡ list_any tells_mark marks.now }
{
    marks.iter().any(|mark| tells_mark(*mark))
}

// Whether a row is listed for a mark.
fn tells_mark(mark: Mark) -> bool
    ensures { result ≡ tells_mark mark }
{
    match mark {
        Mark::Skip(_) | Mark::Gap(_) => false,
        _ => true,
    }
}
