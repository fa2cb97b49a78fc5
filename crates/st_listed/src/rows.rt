//! One row.
ghost use Rattle.std.specs.Prelude.{◌≡◌, ◌<◌, ◌^◌, ◌∷◌, [], length, map, IfOk};
ghost use Rattle.st_marks.specs.Row.{merge, spread};
ghost use Rattle.st_rows.specs.Pieces.{IsSingle};
ghost use Rattle.st_rows.specs.Reading.{cell_of};
ghost use Rattle.st_listed.specs.Named.{named_change, named_mark as named, named_step, slot_mark as told};

use st_chunks::ChunkRow;
use st_ids::List;
use st_marks::{Mark, Slot};
use st_rows::{Piece, Table, lay_in_turn_alike};
use std::alloc::{AllocError, Global};

// A slot of which nothing is said.
fn slot_mark(slot: Slot) -> Mark
    ensures { spread (result ∷ []) ≡ told slot ∷ [] }
{
    if slot.full {
        Mark::Skip(1)
    } else {
        Mark::Gap(slot.cell)
    }
}

// The slots of a row, of which nothing is said.
fn slot_marks(alloc: Global, row: &ChunkRow) -> Result<List<Mark>, AllocError>
    ensures told { IfOk result (λ ms. spread ms ≡ map told row.now) }
    ensures short { IfOk result (λ ms. length (spread ms) < 2 ^ 32) }
{
    let mut marks = List::new(alloc);
    for place in 0..row.len() {
        let Ok(slot) = row.get(place) else {
            return Ok(marks);
        };
        marks.push(slot_mark(slot))?;
    }
    Ok(marks)
}

// What is said of a cell, or else what the row has there.
#[inline(always)]
fn named_mark(slot: Mark, said: Mark) -> Mark
    requires slot { IsSingle slot }
    requires said { IsSingle said }
    ensures { spread (result ∷ []) ≡ named (cell_of slot) (cell_of said) ∷ [] }
{
    match said {
        Mark::Skip(_) => slot,
        Mark::Gap(_) => slot,
        _ => said,
    }
}

/// The row before and a change of it.
#[derive(Drop)]
struct RowAndChange;

impl Table for RowAndChange {
    ghost use Rattle.st_listed.specs.Named.{change_piece};

    ghost cell = { λ t. change_piece };

    #[inline(always)]
    fn mark(&self, piece: Piece) -> Mark {
        match piece {
            Piece::Counted(k) => Mark::Skip(k),
            Piece::Both(slot, said) => named_mark(slot, said),
            Piece::First(slot) => slot,
            Piece::Then(said) => said,
        }
    }
}

/// A step and the row after it.
#[derive(Drop)]
struct StepAndRow;

impl Table for StepAndRow {
    ghost use Rattle.st_listed.specs.Named.{step_piece};

    ghost cell = { λ t. step_piece };

    #[inline(always)]
    fn mark(&self, piece: Piece) -> Mark {
        match piece {
            Piece::Counted(k) => Mark::Skip(k),
            Piece::Both(said, slot) => named_mark(slot, said),
            Piece::First(said) => said,
            Piece::Then(slot) => slot,
        }
    }
}

/// A change's marks, with the empty cells named of the row that it finds.
pub fn name_change(
    alloc: Global,
    row: &ChunkRow,
    marks: &List<Mark>,
) -> Result<List<Mark>, AllocError>
    requires { length (spread marks.now) < 2 ^ 32 }
    ensures { IfOk result (λ ms. ms ≡ merge (named_change row.now (spread marks.now))) }
{
    let slots = slot_marks(alloc, row)?;
    lay_in_turn_alike(alloc, &RowAndChange, slots.as_slice(), marks.as_slice())
}

/// A step's marks, with the empty cells named of the row that it leaves.
pub fn name_step(
    alloc: Global,
    row: &ChunkRow,
    marks: &List<Mark>,
) -> Result<List<Mark>, AllocError>
    ensures { IfOk result (λ ms. ms ≡ merge (named_step row.now (spread marks.now))) }
{
    let slots = slot_marks(alloc, row)?;
    lay_in_turn_alike(alloc, &StepAndRow, marks.as_slice(), slots.as_slice())
}
