//! A row, a bridge to it, and a change before the bridge, side by side.
ghost use Rattle.std.specs.Prelude.{◌≡◌, ◌↔◌, ◌∷◌, drop, false, [], IsTrue, MatchOption, List as Seq};
ghost use Rattle.st_marks.specs.declared.places.Slot.{Slot as Cell};
ghost use Rattle.st_marks.specs.Listings.{cells_before};
ghost use Rattle.st_marks.specs.Row.{CellMark, spread};
ghost use Rattle.st_puts.specs.Seen.{AreAsSeen};
ghost use Rattle.st_author_laws.specs.Back.{row_back};
ghost use Rattle.st_author_over.specs.inside.Side.{IsTurn, before as cell_before, cell as said, is_make, left, sees as seen, sees_back};

use st_chunks::ChunkRow;
use st_ids::{is_same_cell, is_same_node};
use st_marks::{Mark, Slot};

/// The answer, or what is left of the row, of the bridge and of the change.
pub enum Turn<'a> {
    Done(bool),
    Go {
        place: u64,
        y_count: u32,
        ys: &'a [Mark],
        x_count: u32,
        xs: &'a [Mark],
    },
}

/// The first mark, and those behind it.
#[inline(always)]
fn first_mark<'a>(marks: &'a [Mark]) -> Option<(Mark, &'a [Mark])>
    ensures { MatchOption result (marks.now ≡ []) (λ p. marks.now ≡ p.0 ∷ p.1.now) }
{
    match marks {
        [mark, others @ ..] => Some((*mark, others)),
        _ => None,
    }
}

/// The first cell's mark, where so many counted cells stand before the marks, and what is left of them.
#[inline(always)]
fn first<'a>(count: u32, marks: &'a [Mark]) -> Option<(Mark, u32, &'a [Mark])>
    ensures { MatchOption result (left count marks.now ≡ []) (λ p. left count marks.now ≡ said p.0 ∷ left p.1 p.2.now) }
{
    if count > 0 {
        return Some((Mark::Skip(1), count - 1, marks));
    }
    let mut rest = marks;
    'marks: while let Some((mark, more)) = first_mark(rest) {
        match mark {
            Mark::Skip(0) => rest = more,
            Mark::Skip(k) => return Some((Mark::Skip(1), k - 1, more)),
            other => return Some((other, 0, more)),
        }
    }
    None
}

/// Whether a mark finds such a cell.
#[inline(always)]
fn sees(slot: Slot, mark: Mark) -> bool
    ensures { result ≡ seen slot (said mark) }
{
    match mark {
        Mark::Skip(_) => slot.full,
        Mark::Gap(cell) => !slot.full && is_same_cell(cell, slot.cell),
        Mark::Touch { cell, node, .. } => slot.full
            && is_same_cell(cell, slot.cell)
            && is_same_node(node, slot.node),
        Mark::Make { .. } => false,
        Mark::Fill { cell, node } => !slot.full
            && is_same_cell(cell, slot.cell)
            && is_same_node(node, slot.node),
    }
}

/// Whether a mark makes a cell.
#[inline(always)]
fn makes(mark: Mark) -> bool
    ensures { result ≡ is_make (said mark) }
{
    matches!(mark, Mark::Make { .. })
}

/// A cell as it was before a mark that finds it.
#[inline(always)]
fn back(slot: Slot, mark: Mark) -> Slot
    ensures { result ≡ cell_before slot (said mark) }
{
    match mark {
        Mark::Touch { .. } => Slot { full: true, ..slot },
        Mark::Fill { .. } => Slot {
            full: false,
            ..slot
        },
        _ => slot,
    }
}

/// The slot at a place, and the place behind it.
pub fn slot_at(row: &ChunkRow, place: u64) -> Option<(Slot, u64)>
    ensures { MatchOption result (drop place row.now ≡ []) (λ p. drop place row.now ≡ p.0 ∷ drop p.1 row.now) }
{
    if row.len() <= place {
        return None;
    }
    let Ok(slot) = row.get(place) else {
        return None;
    };
    Some((slot, place + 1))
}

/// A turn at whose beginning a cell of the row comes first, and a mark of the change that finds a cell, if any is left.
#[inline(always)]
fn cell_turn<'a>(
    slot: Slot,
    place: u64,
    y_count: u32,
    ys: &'a [Mark],
    x_count: u32,
    xs: &'a [Mark],
    x: Option<(Mark, u32, &'a [Mark])>,
) -> Turn<'a>
    requires x { MatchOption x (left x_count xs.now ≡ []) (λ p. (is_make (said p.0) ≡ false) × (left x_count xs.now ≡ said p.0 ∷ left p.1 p.2.now)) }
    ensures { (c : Seq Cell) → IsTurn c (slot ∷ drop place c) (left y_count ys.now) (left x_count xs.now) result }
{
    let (was, j, zs) = match first(y_count, ys) {
        None => (slot, y_count, ys),
        Some((y, j, zs)) => {
            if makes(y) {
                return Turn::Go {
                    place,
                    y_count: j,
                    ys: zs,
                    x_count,
                    xs,
                };
            }
            (back(slot, y), j, zs)
        }
    };
    match x {
        None => Turn::Done(false),
        Some((x, k, ws)) => {
            if sees(was, x) {
                Turn::Go {
                    place,
                    y_count: j,
                    ys: zs,
                    x_count: k,
                    xs: ws,
                }
            } else {
                Turn::Done(false)
            }
        }
    }
}

/// One turn.
#[inline(always)]
fn take_turn<'a>(
    row: &ChunkRow,
    place: u64,
    y_count: u32,
    ys: &'a [Mark],
    x_count: u32,
    xs: &'a [Mark],
) -> Turn<'a>
    ensures { IsTurn row.now (drop place row.now) (left y_count ys.now) (left x_count xs.now) result }
{
    match first(x_count, xs) {
        None => match slot_at(row, place) {
            None => Turn::Done(true),
            Some((slot, next)) => cell_turn(slot, next, y_count, ys, x_count, xs, None),
        },
        Some((x, k, ws)) => {
            if makes(x) {
                return Turn::Go {
                    place,
                    y_count,
                    ys,
                    x_count: k,
                    xs: ws,
                };
            }
            match slot_at(row, place) {
                None => Turn::Done(false),
                Some((slot, next)) => cell_turn(
                    slot,
                    next,
                    y_count,
                    ys,
                    x_count,
                    xs,
                    Some((x, k, ws)),
                ),
            }
        }
    }
}

/// Whether a change finds what is so in its author's row, of which the row after the bridge is told. It takes no memory. Each slot
/// is found by its place, once.
pub fn is_over_back(row: &ChunkRow, bridge: &[Mark], change: &[Mark]) -> bool
    ensures { IsTrue result ↔ AreAsSeen (row_back row.now (spread bridge.now)) (cells_before (spread change.now)) }
{
    sees_all(row, bridge, change)
}

fn sees_all(row: &ChunkRow, bridge: &[Mark], change: &[Mark]) -> bool
    ensures { result ≡ sees_back row.now (spread bridge.now) (spread change.now) }
{
    let mut next = 0;
    let mut y_count = 0;
    let mut ys = bridge;
    let mut x_count = 0;
    let mut xs = change;
    'cells: loop {
        match take_turn(row, next, y_count, ys, x_count, xs) {
            Turn::Done(answer) => return answer,
            Turn::Go {
                place,
                y_count: j,
                ys: zs,
                x_count: k,
                xs: ws,
            } => {
                next = place;
                y_count = j;
                ys = zs;
                x_count = k;
                xs = ws;
            }
        }
    }
}
