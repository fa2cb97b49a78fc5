//! The row after a step.
ghost use Rattle.std.specs.Prelude.{◌≡◌, ◌^◌, ◌<◌, ◌∷◌, [], length, IfOk, MatchOption, false, List as Seq};
ghost use Rattle.st_kind.specs.Named.{Nodes};
ghost use Rattle.st_kind.specs.Refused.{IfMemory, IsApartWhere};
ghost use Rattle.st_marks.specs.declared.places.Slot.{Slot as Cell};
ghost use Rattle.st_marks.specs.Row.{CellMark, spread};
ghost use Rattle.st_marks.specs.Listings.{cells_before, cell_view};
ghost use Rattle.st_rows.specs.Views.{DifferAt, row_views, view_of};
ghost use Rattle.st_rows.specs.Differences.{first_difference, IsApart};
ghost use Rattle.st_rows.specs.Turns.{after_row};
ghost use Rattle.st_rows.specs.Heads.{marks_left, is_make, IsFirst};
ghost use Rattle.st_rows.specs.Rows.{IsRowStep};
ghost use Rattle.st_rows.specs.Turns.{IsSlotTurn};

use crate::cell_view::{Sighting, after as said_after, before, is_same};
use crate::front_mark::{Head, next};
use crate::pieces::one;
use st_ids::{List, Or};
use st_kind::Apart;
use st_marks::{Mark, Slot};
use std::alloc::Global;

/// The next cell of the row after a step, and what is left of the row and of the step; or that these differ at the next
/// cell. `found` is 1 where the cell was there before.
#[derive(Drop)]
pub enum SlotTurn<'a> {
    Done,
    Apart,
    Go {
        slot: Slot,
        found: u32,
        slots: &'a [Slot],
        count: u32,
        marks: &'a [Mark],
    },
}

/// What a row says of a cell.
fn slot_said(slot: Slot) -> Sighting
    ensures { view_of result ≡ cell_view slot.cell slot.node slot.full }
{
    Sighting {
        cell: Some(slot.cell),
        node: Some(slot.node),
        full: slot.full,
    }
}

/// The first slot, and those behind it.
fn first_slot<'a>(slots: &'a [Slot]) -> Option<(Slot, &'a [Slot])>
    ensures { MatchOption result (slots.now ≡ []) (λ p. slots.now ≡ p.0 ∷ p.1.now) }
{
    match slots {
        [slot, others @ ..] => Some((*slot, others)),
        _ => None,
    }
}

/// The next cell, which the step finds.
fn found_turn<'a>(slots: &'a [Slot], head: Head<'a>, marks: &'a [Mark]) -> SlotTurn<'a>
    requires { is_make head ≡ false }
    ensures { (xs : Seq CellMark) → IsFirst xs head.entry marks.now → IsSlotTurn slots.now xs result }
{
    match one(head) {
        None => match first_slot(slots) {
            None => SlotTurn::Done,
            Some(_) => SlotTurn::Apart,
        },
        Some((mark, count)) => match first_slot(slots) {
            None => SlotTurn::Apart,
            Some((slot, others)) => {
                if is_same(slot_said(slot), before(*mark)) {
                    SlotTurn::Go {
                        slot: Slot {
                            full: said_after(*mark).full,
                            ..slot
                        },
                        found: 1,
                        slots: others,
                        count,
                        marks,
                    }
                } else {
                    SlotTurn::Apart
                }
            }
        },
    }
}

/// One turn; so many counted cells stand before the marks.
pub fn slot_turn<'a>(slots: &'a [Slot], count: u32, marks: &'a [Mark]) -> SlotTurn<'a>
    ensures { IsSlotTurn slots.now (marks_left count marks.now) result }
{
    let (head, rest) = next(count, marks);
    match head {
        Head::Make(made) => match *made {
            Mark::Make { cell, node, full } => {
                SlotTurn::Go {
                    slot: Slot { cell, node, full },
                    found: 0,
                    slots,
                    count: 0,
                    marks: rest,
                }
            }
            _ => unreachable!(),
        },
        Head::Many(k) => found_turn(slots, Head::Many(k), rest),
        Head::Cell(mark) => found_turn(slots, Head::Cell(mark), rest),
        Head::End => found_turn(slots, Head::End, rest),
    }
}

/// The row after a step.
pub fn after(alloc: Global, row: &List<Slot>, step: &List<Mark>) -> Result<List<Slot>, Or<Apart>>
    requires { length (cells_before (spread step.now)) < 2 ^ 32 }
    ensures after { (m : Nodes) (d : Seq Cell) → IsRowStep m row.now d step.now → IfMemory result (λ e. e ≡ d) }
    ensures apart { IsApartWhere result (DifferAt (row_views row.now) (cells_before (spread step.now))) }
{
    slots_after(alloc, row.as_slice(), step.as_slice())
}

/// The row after a step, cell by cell.
fn slots_after(alloc: Global, row: &[Slot], step: &[Mark]) -> Result<List<Slot>, Or<Apart>>
    requires { length (cells_before (spread step.now)) < 2 ^ 32 }
    ensures cells { IfOk result (λ d. d ≡ after_row row.now (spread step.now)) }
    ensures apart { IsApart (first_difference (row_views row.now) (cells_before (spread step.now))) result }
{
    let mut out = List::new(alloc);
    let mut place = 0;
    let mut slots_left = row;
    let mut count_left = 0;
    let mut marks_left = step;
    'cells: loop {
        match slot_turn(slots_left, count_left, marks_left) {
            SlotTurn::Done => return Ok(out),
            SlotTurn::Apart => return Err(Or::Fault(Apart { place })),
            SlotTurn::Go {
                slot,
                found,
                slots,
                count,
                marks,
            } => {
                out.push(slot)?;
                place += found;
                slots_left = slots;
                count_left = count;
                marks_left = marks;
            }
        }
    }
}
