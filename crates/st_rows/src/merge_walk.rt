//! Operations on two listings of a row: each is a table of what a piece comes to.
ghost use Rattle.std.specs.Prelude.{◌≡◌, ◌+◌, ◌^◌, ◌<◌, ◌∷◌, [], ◌++◌, map, length, IfOk, OnOk, ℕ, Option, List as Seq};
ghost use Rattle.st_marks.specs.Row.{CellMark, spread};
ghost use Rattle.st_marks.specs.Listings.{cells_after, cells_before};
ghost use Rattle.st_rows.specs.Differences.{first_difference, IsApart};
ghost use Rattle.st_rows.specs.Changes.{may_list};
ghost use Rattle.st_rows.specs.Merged.{IsMerged};
ghost use Rattle.st_rows.specs.Pieces.{cells_of_piece, IsOfCells, IsSingle};
ghost use Rattle.st_rows.specs.Reading.{cell_of};
ghost use Rattle.st_rows.specs.Heads.{marks_left};
ghost use Rattle.st_rows.specs.Turns.{IsTurn};
ghost use Rattle.st_rows.specs.Walks.{CellPiece, Both, First, Then, in_turn, beside};

use crate::mark_builder::push;
use crate::pieces::{Piece, Turn, turn_alike, turn_beside, turn_in_turn, turn_in_turn_alike};
use st_ids::{List, Or};
use st_kind::Apart;
use st_marks::Mark;
use std::alloc::{AllocError, Global};

/// What each piece of two listings comes to: the mark of a counted run or of one cell, by a table that `cell` states cell by
/// cell. A call is asked only for pieces whose marks are of one cell each.
pub trait Table {
    ghost cell: { Self → CellPiece → CellMark };

    fn mark(&self, piece: Piece) -> Mark
        requires { IsOfCells piece }
        ensures { spread (result ∷ []) ≡ map (cell self.now) (cells_of_piece piece) };
}

/// Adds what the table makes of a piece.
#[inline(always)]
fn push_piece<T: Table>(table: &T, out: &mut List<Mark>, piece: Piece) -> Result<(), AllocError>
    requires piece { IsOfCells piece }
    requires merged { IsMerged out.old }
    requires room { length (spread out.old) + length (cells_of_piece piece) < 2 ^ 32 }
    ensures merged { OnOk result (IsMerged out.new) }
    ensures cells { OnOk result (spread out.new ≡ spread out.old ++ map (T.cell table.now) (cells_of_piece piece)) }
{
    push(out, table.mark(piece))
}

/// Adds what the table makes of a cell that both find.
#[inline(never)]
fn push_both<T: Table>(
    table: &T,
    out: &mut List<Mark>,
    x: &Mark,
    y: &Mark,
) -> Result<(), AllocError>
    requires first { IsSingle x.now }
    requires then { IsSingle y.now }
    requires merged { IsMerged out.old }
    requires room { length (spread out.old) + 1 < 2 ^ 32 }
    ensures merged { OnOk result (IsMerged out.new) }
    ensures cells { OnOk result (spread out.new ≡ spread out.old ++ T.cell table.now (Both (cell_of x.now) (cell_of y.now)) ∷ []) }
{
    push_piece(table, out, Piece::Both(*x, *y))
}

/// Adds what the table makes of a cell that the first listing makes.
#[inline(never)]
fn push_first<T: Table>(table: &T, out: &mut List<Mark>, x: &Mark) -> Result<(), AllocError>
    requires one { IsSingle x.now }
    requires merged { IsMerged out.old }
    requires room { length (spread out.old) + 1 < 2 ^ 32 }
    ensures merged { OnOk result (IsMerged out.new) }
    ensures cells { OnOk result (spread out.new ≡ spread out.old ++ T.cell table.now (First (cell_of x.now)) ∷ []) }
{
    push_piece(table, out, Piece::First(*x))
}

/// Adds what the table makes of a cell that the second listing makes.
#[inline(never)]
fn push_then<T: Table>(table: &T, out: &mut List<Mark>, y: &Mark) -> Result<(), AllocError>
    requires one { IsSingle y.now }
    requires merged { IsMerged out.old }
    requires room { length (spread out.old) + 1 < 2 ^ 32 }
    ensures merged { OnOk result (IsMerged out.new) }
    ensures cells { OnOk result (spread out.new ≡ spread out.old ++ T.cell table.now (Then (cell_of y.now)) ∷ []) }
{
    push_piece(table, out, Piece::Then(*y))
}

/// How two listings are walked: the pieces that they come to, and the cell at which they first differ.
trait Walk {
    ghost pieces: { Seq CellMark → Seq CellMark → Seq CellPiece };

    ghost difference: { Seq CellMark → Seq CellMark → Option ℕ };

    fn turn<'a>(x_count: u32, xs: &'a [Mark], y_count: u32, ys: &'a [Mark]) -> Turn<'a>
        ensures { IsTurn pieces difference (marks_left x_count xs.now) (marks_left y_count ys.now) result };
}

/// The second listing finds what the first leaves.
struct InTurn;

/// Both listings find the same.
struct Beside;

/// It isn't asked whether both listings find the same.
struct Alike;

/// In turn, where it isn't asked whether the second listing finds what the first leaves.
struct InTurnAlike;

impl Walk for InTurn {
    ghost use Rattle.st_rows.specs.Turns.{difference_in_turn};
    ghost use Rattle.st_rows.specs.Walks.{in_turn};

    ghost pieces = { in_turn };

    ghost difference = { difference_in_turn };

    #[inline(always)]
    fn turn<'a>(x_count: u32, xs: &'a [Mark], y_count: u32, ys: &'a [Mark]) -> Turn<'a> {
        turn_in_turn(x_count, xs, y_count, ys)
    }
}

impl Walk for Beside {
    ghost use Rattle.st_rows.specs.Turns.{difference_beside};
    ghost use Rattle.st_rows.specs.Walks.{beside};

    ghost pieces = { beside };

    ghost difference = { difference_beside };

    #[inline(always)]
    fn turn<'a>(x_count: u32, xs: &'a [Mark], y_count: u32, ys: &'a [Mark]) -> Turn<'a> {
        turn_beside(x_count, xs, y_count, ys)
    }
}

impl Walk for Alike {
    ghost use Rattle.st_rows.specs.Turns.{no_difference};
    ghost use Rattle.st_rows.specs.Walks.{beside};

    ghost pieces = { beside };

    ghost difference = { no_difference };

    #[inline(always)]
    fn turn<'a>(x_count: u32, xs: &'a [Mark], y_count: u32, ys: &'a [Mark]) -> Turn<'a> {
        turn_alike(x_count, xs, y_count, ys)
    }
}

impl Walk for InTurnAlike {
    ghost use Rattle.st_rows.specs.Turns.{no_difference};
    ghost use Rattle.st_rows.specs.Walks.{in_turn};

    ghost pieces = { in_turn };

    ghost difference = { no_difference };

    #[inline(always)]
    fn turn<'a>(x_count: u32, xs: &'a [Mark], y_count: u32, ys: &'a [Mark]) -> Turn<'a> {
        turn_in_turn_alike(x_count, xs, y_count, ys)
    }
}

/// Walks through two listings and writes the marks that the table makes of each piece, or answers the first cell, counted from
/// 0 among those that the second finds, at which the listings differ.
fn write_pieces<W: Walk, T: Table>(
    table: &T,
    out: &mut List<Mark>,
    first: &[Mark],
    then: &[Mark],
) -> Result<(), Or<Apart>>
    requires none { out.old ≡ [] }
    requires room { length (W.pieces (spread first.now) (spread then.now)) < 2 ^ 32 }
    requires found { length (cells_before (spread then.now)) < 2 ^ 32 }
    ensures merged { OnOk result (IsMerged out.new) }
    ensures cells { OnOk result (spread out.new ≡ map (T.cell table.now) (W.pieces (spread first.now) (spread then.now))) }
    ensures apart { IsApart (W.difference (spread first.now) (spread then.now)) result }
{
    let mut found = 0;
    let mut x_left = 0;
    let mut x_rest = first;
    let mut y_left = 0;
    let mut y_rest = then;
    'cells: loop {
        match W::turn(x_left, x_rest, y_left, y_rest) {
            Turn::Done => return Ok(()),
            Turn::Apart => return Err(Or::Fault(Apart { place: found })),
            Turn::Counted {
                count,
                x_count,
                xs,
                y_count,
                ys,
            } => {
                push_piece(table, out, Piece::Counted(count))?;
                found += count;
                x_left = x_count;
                x_rest = xs;
                y_left = y_count;
                y_rest = ys;
            }
            Turn::Both {
                x,
                y,
                x_count,
                xs,
                y_count,
                ys,
            } => {
                push_both(table, out, x, y)?;
                found += 1;
                x_left = x_count;
                x_rest = xs;
                y_left = y_count;
                y_rest = ys;
            }
            Turn::First { x, xs } => {
                push_first(table, out, x)?;
                x_left = 0;
                x_rest = xs;
            }
            Turn::Then { y, ys } => {
                push_then(table, out, y)?;
                y_left = 0;
                y_rest = ys;
            }
        }
    }
}

/// Lays two listings over each other: the marks that the table makes of each piece, or the first cell at which they differ.
fn lay<W: Walk, T: Table>(
    alloc: Global,
    table: &T,
    first: &[Mark],
    then: &[Mark],
) -> Result<List<Mark>, Or<Apart>>
    requires room { length (W.pieces (spread first.now) (spread then.now)) < 2 ^ 32 }
    requires found { length (cells_before (spread then.now)) < 2 ^ 32 }
    ensures merged { IfOk result (λ marks. IsMerged marks) }
    ensures cells { IfOk result (λ marks. spread marks ≡ map (T.cell table.now) (W.pieces (spread first.now) (spread then.now))) }
    ensures apart { IsApart (W.difference (spread first.now) (spread then.now)) result }
{
    let mut out = List::new(alloc);
    write_pieces::<W, T>(table, &mut out, first, then)?;
    Ok(out)
}

/// Lays a listing over one that finds what it leaves: `first` are the marks of a row up to a state, `then` those from that
/// state on. Answers the marks that the table makes of each piece, or the first cell, counted from 0 among those between the
/// two, at which the listings differ. `then` is of fewer than 2^32 cells.
pub fn lay_in_turn<T: Table>(
    alloc: Global,
    table: &T,
    first: &[Mark],
    then: &[Mark],
) -> Result<List<Mark>, Or<Apart>>
    requires { length (spread then.now) < 2 ^ 32 }
    ensures merged { IfOk result (λ marks. IsMerged marks) }
    ensures cells { IfOk result (λ marks. spread marks ≡ map (T.cell table.now) (in_turn (spread first.now) (spread then.now))) }
    ensures apart { IsApart (first_difference (cells_after (spread first.now)) (cells_before (spread then.now))) result }
{
    lay::<InTurn, T>(alloc, table, first, then)
}

/// Lays a listing over one that finds the same: both are marks of a row from one state on. What `first` makes at a place
/// stands left of what `then` makes there. Answers the marks that the table makes of each piece, or the first cell, counted
/// from 0 among those that both find, at which the listings differ. Both together are of fewer than 2^32 cells.
pub fn lay_beside<T: Table>(
    alloc: Global,
    table: &T,
    first: &[Mark],
    then: &[Mark],
) -> Result<List<Mark>, Or<Apart>>
    requires { may_list (spread first.now) (spread then.now) < 2 ^ 32 }
    ensures merged { IfOk result (λ marks. IsMerged marks) }
    ensures cells { IfOk result (λ marks. spread marks ≡ map (T.cell table.now) (beside (spread first.now) (spread then.now))) }
    ensures apart { IsApart (first_difference (cells_before (spread first.now)) (cells_before (spread then.now))) result }
{
    lay::<Beside, T>(alloc, table, first, then)
}

/// Lays a listing over one, as `lay_beside` does, but doesn't ask whether they find the same: so one may count an empty cell that
/// the other names. Where one listing ends, the walk ends.
pub fn lay_alike<T: Table>(
    alloc: Global,
    table: &T,
    first: &[Mark],
    then: &[Mark],
) -> Result<List<Mark>, AllocError>
    requires { may_list (spread first.now) (spread then.now) < 2 ^ 32 }
    ensures merged { IfOk result (λ marks. IsMerged marks) }
    ensures cells { IfOk result (λ marks. spread marks ≡ map (T.cell table.now) (beside (spread first.now) (spread then.now))) }
{
    match lay::<Alike, T>(alloc, table, first, then) {
        Ok(marks) => Ok(marks),
        Err(Or::NoMemory) => Err(AllocError),
        Err(Or::Fault(_)) => unreachable!(),
    }
}

/// Lays a listing over one that finds what it leaves, as `lay_in_turn` does, but doesn't ask whether it does: so one may count an
/// empty cell that the other names. Where one listing ends, the walk ends. `then` is of fewer than 2^32 cells.
pub fn lay_in_turn_alike<T: Table>(
    alloc: Global,
    table: &T,
    first: &[Mark],
    then: &[Mark],
) -> Result<List<Mark>, AllocError>
    requires { length (spread then.now) < 2 ^ 32 }
    ensures merged { IfOk result (λ marks. IsMerged marks) }
    ensures cells { IfOk result (λ marks. spread marks ≡ map (T.cell table.now) (in_turn (spread first.now) (spread then.now))) }
{
    match lay::<InTurnAlike, T>(alloc, table, first, then) {
        Ok(marks) => Ok(marks),
        Err(Or::NoMemory) => Err(AllocError),
        Err(Or::Fault(_)) => unreachable!(),
    }
}
