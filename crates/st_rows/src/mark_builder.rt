//! Marks that are written one after another, in their normal form.
ghost use Rattle.std.specs.Prelude.{◌≡◌, ◌+◌, ◌^◌, ◌<◌, ◌∷◌, [], ◌++◌, length, OnOk, ℕ, false};
ghost use Rattle.st_marks.specs.Row.{spread, counted_cells};
ghost use Rattle.st_marks.specs.declared.marks.Mark.{Mark as AnyMark};
ghost use Rattle.st_rows.specs.Merged.{IsMerged, is_skip, count_in};

use st_ids::List;
use st_marks::Mark;
use std::alloc::{AllocError, Global};

/// How many cells a mark counts, if it counts cells.
#[inline(always)]
fn count_of(mark: Mark) -> Option<u32>
    ensures { result ≡ count_in mark }
{
    match mark {
        Mark::Skip(k) => Some(k),
        _ => None,
    }
}

/// Takes the count off that stands at the end, if one does.
#[inline(always)]
fn take_count(out: &mut List<Mark>) -> u32
    requires { IsMerged out.old }
    ensures cells { spread out.old ≡ spread out.new ++ counted_cells result [] }
    ensures more { (k : ℕ) → 0 < k → IsMerged (out.new ++ AnyMark.Skip k ∷ []) }
{
    match out.as_slice().last().copied() {
        None => 0,
        Some(mark) => match count_of(mark) {
            None => 0,
            Some(k) => {
                out.pop();
                k
            }
        },
    }
}

/// Adds some counted cells at the end.
#[inline(always)]
fn push_count(out: &mut List<Mark>, k: u32) -> Result<(), AllocError>
    requires merged { IsMerged out.old }
    requires some { 0 < k }
    requires room { length (spread out.old) + k < 2 ^ 32 }
    ensures merged { OnOk result (IsMerged out.new) }
    ensures cells { OnOk result (spread out.new ≡ spread out.old ++ counted_cells k []) }
{
    let j = take_count(out);
    out.push(Mark::Skip(j + k))?;
    Ok(())
}

/// Adds one cell at the end.
#[inline(always)]
fn push_cell(out: &mut List<Mark>, mark: Mark) -> Result<(), AllocError>
    requires merged { IsMerged out.old }
    requires named { is_skip mark ≡ false }
    ensures merged { OnOk result (IsMerged out.new) }
    ensures cells { OnOk result (spread out.new ≡ spread out.old ++ spread (mark ∷ [])) }
{
    out.push(mark)?;
    Ok(())
}

/// Adds what a mark says at the end.
#[inline(always)]
pub fn push(out: &mut List<Mark>, mark: Mark) -> Result<(), AllocError>
    requires merged { IsMerged out.old }
    requires room { length (spread out.old) + length (spread (mark ∷ [])) < 2 ^ 32 }
    ensures merged { OnOk result (IsMerged out.new) }
    ensures cells { OnOk result (spread out.new ≡ spread out.old ++ spread (mark ∷ [])) }
{
    match mark {
        Mark::Skip(0) => Ok(()),
        Mark::Skip(k) => push_count(out, k),
        _ => push_cell(out, mark),
    }
}
