//! Two listings of one row, laid over each other piece by piece.
ghost use Rattle.std.specs.Prelude.{◌≡◌, ◌<◌, false, List as Seq};
ghost use Rattle.st_marks.specs.Row.{CellMark};
ghost use Rattle.st_rows.specs.Heads.{marks_left, is_make, AreCountsOf, IsFirst, IsMakeOf, IsOne};
ghost use Rattle.st_rows.specs.Turns.{IsTurnAlike, IsTurnInTurn, IsTurnInTurnAlike, IsTurnBeside};

use crate::cell_view::{finds_left, finds_same};
use crate::front_mark::{Head, next};
use st_marks::Mark;

/// What two listings say at one place: so many cells that both count, what each says of one cell that both find, or what
/// one of them says of a cell that it makes.
#[derive(Clone, Copy)]
pub enum Piece {
    Counted(u32),
    Both(Mark, Mark),
    First(Mark),
    Then(Mark),
}

/// The next piece, whose marks are lent, and what is left of the listings that it takes from; or that the listings differ at
/// the next cell.
pub enum Turn<'a> {
    Done,
    Apart,
    Counted {
        count: u32,
        x_count: u32,
        xs: &'a [Mark],
        y_count: u32,
        ys: &'a [Mark],
    },
    Both {
        x: &'a Mark,
        y: &'a Mark,
        x_count: u32,
        xs: &'a [Mark],
        y_count: u32,
        ys: &'a [Mark],
    },
    First {
        x: &'a Mark,
        xs: &'a [Mark],
    },
    Then {
        y: &'a Mark,
        ys: &'a [Mark],
    },
}

/// The mark that makes a cell, if one comes first.
#[inline(always)]
fn make_of<'a>(head: Head<'a>) -> Option<&'a Mark>
    ensures { IsMakeOf head.entry result }
{
    match head {
        Head::End => None,
        Head::Many(_) => None,
        Head::Make(mark) => Some(mark),
        Head::Cell(_) => None,
    }
}

/// How many counted cells come first in each of two listings, if some do in both.
#[inline(always)]
fn counts_of(x: Head, y: Head) -> Option<(u32, u32)>
    ensures { AreCountsOf x.entry y.entry result }
{
    match x {
        Head::Many(p) => match y {
            Head::Many(q) => Some((p, q)),
            _ => None,
        },
        _ => None,
    }
}

/// The first cell of what comes first, and how many counted cells stand behind it.
#[inline(always)]
pub fn one<'a>(head: Head<'a>) -> Option<(&'a Mark, u32)>
    ensures { IsOne head.entry result }
{
    match head {
        Head::End => None,
        Head::Many(k) => {
            if k > 0 {
                Some((&Mark::Skip(1), k - 1))
            } else {
                None
            }
        }
        Head::Make(mark) => Some((mark, 0)),
        Head::Cell(mark) => Some((mark, 0)),
    }
}

/// The counted cells that come first in both listings.
#[inline(always)]
fn counted_turn<'a>(p: u32, xs: &'a [Mark], q: u32, ys: &'a [Mark]) -> Turn<'a>
    ensures in_turn { 0 < p → 0 < q → IsTurnInTurn (marks_left p xs.now) (marks_left q ys.now) result }
    ensures beside { 0 < p → 0 < q → IsTurnBeside (marks_left p xs.now) (marks_left q ys.now) result }
    ensures alike { 0 < p → 0 < q → IsTurnAlike (marks_left p xs.now) (marks_left q ys.now) result }
    ensures in_turn_alike { 0 < p → 0 < q → IsTurnInTurnAlike (marks_left p xs.now) (marks_left q ys.now) result }
{
    let count = if p < q { p } else { q };
    Turn::Counted {
        count,
        x_count: p - count,
        xs,
        y_count: q - count,
        ys,
    }
}

/// The next cell, which the first listing leaves and the second finds.
#[inline(always)]
fn pair_in_turn<'a>(x: Head<'a>, xs: &'a [Mark], y: Head<'a>, ys: &'a [Mark]) -> Turn<'a>
    requires { is_make y ≡ false }
    ensures { (c d : Seq CellMark) → IsFirst c x.entry xs.now → IsFirst d y.entry ys.now → IsTurnInTurn c d result }
{
    match one(x) {
        None => match one(y) {
            None => Turn::Done,
            Some(_) => Turn::Apart,
        },
        Some((a, x_count)) => match one(y) {
            None => Turn::Apart,
            Some((b, y_count)) => {
                if finds_left(a, b) {
                    Turn::Both {
                        x: a,
                        y: b,
                        x_count,
                        xs,
                        y_count,
                        ys,
                    }
                } else {
                    Turn::Apart
                }
            }
        },
    }
}

/// The next cell, which both listings find.
#[inline(always)]
fn pair_beside<'a>(x: Head<'a>, xs: &'a [Mark], y: Head<'a>, ys: &'a [Mark]) -> Turn<'a>
    requires first { is_make x ≡ false }
    requires then { is_make y ≡ false }
    ensures { (c d : Seq CellMark) → IsFirst c x.entry xs.now → IsFirst d y.entry ys.now → IsTurnBeside c d result }
{
    match one(x) {
        None => match one(y) {
            None => Turn::Done,
            Some(_) => Turn::Apart,
        },
        Some((a, x_count)) => match one(y) {
            None => Turn::Apart,
            Some((b, y_count)) => {
                if finds_same(a, b) {
                    Turn::Both {
                        x: a,
                        y: b,
                        x_count,
                        xs,
                        y_count,
                        ys,
                    }
                } else {
                    Turn::Apart
                }
            }
        },
    }
}

/// One turn, where the second listing finds what the first leaves and makes no cell.
#[inline(always)]
fn found_in_turn<'a>(x: Head<'a>, xs: &'a [Mark], y: Head<'a>, ys: &'a [Mark]) -> Turn<'a>
    requires { is_make y ≡ false }
    ensures { (c d : Seq CellMark) → IsFirst c x.entry xs.now → IsFirst d y.entry ys.now → IsTurnInTurn c d result }
{
    match counts_of(x, y) {
        Some((p, q)) => counted_turn(p, xs, q, ys),
        None => pair_in_turn(x, xs, y, ys),
    }
}

/// One turn, where both listings find the same and make no cell.
#[inline(always)]
fn found_beside<'a>(x: Head<'a>, xs: &'a [Mark], y: Head<'a>, ys: &'a [Mark]) -> Turn<'a>
    requires first { is_make x ≡ false }
    requires then { is_make y ≡ false }
    ensures { (c d : Seq CellMark) → IsFirst c x.entry xs.now → IsFirst d y.entry ys.now → IsTurnBeside c d result }
{
    match counts_of(x, y) {
        Some((p, q)) => counted_turn(p, xs, q, ys),
        None => pair_beside(x, xs, y, ys),
    }
}

/// One turn, where the second listing finds what the first leaves; so many counted cells stand before the marks.
#[inline(always)]
pub fn turn_in_turn<'a>(x_count: u32, xs: &'a [Mark], y_count: u32, ys: &'a [Mark]) -> Turn<'a>
    ensures { IsTurnInTurn (marks_left x_count xs.now) (marks_left y_count ys.now) result }
{
    let (y, y_rest) = next(y_count, ys);
    match make_of(y) {
        Some(made) => Turn::Then {
            y: made,
            ys: y_rest,
        },
        None => {
            let (x, x_rest) = next(x_count, xs);
            found_in_turn(x, x_rest, y, y_rest)
        }
    }
}

/// One turn behind the cells that the first listing makes, where both listings find the same.
#[inline(always)]
fn turn_found<'a>(x: Head<'a>, x_rest: &'a [Mark], y_count: u32, ys: &'a [Mark]) -> Turn<'a>
    requires { is_make x ≡ false }
    ensures { (c : Seq CellMark) → IsFirst c x.entry x_rest.now → IsTurnBeside c (marks_left y_count ys.now) result }
{
    let (y, y_rest) = next(y_count, ys);
    match make_of(y) {
        Some(made) => Turn::Then {
            y: made,
            ys: y_rest,
        },
        None => found_beside(x, x_rest, y, y_rest),
    }
}

/// One turn, where both listings find the same; so many counted cells stand before the marks.
#[inline(always)]
pub fn turn_beside<'a>(x_count: u32, xs: &'a [Mark], y_count: u32, ys: &'a [Mark]) -> Turn<'a>
    ensures { IsTurnBeside (marks_left x_count xs.now) (marks_left y_count ys.now) result }
{
    let (x, x_rest) = next(x_count, xs);
    match make_of(x) {
        Some(made) => Turn::First {
            x: made,
            xs: x_rest,
        },
        None => turn_found(x, x_rest, y_count, ys),
    }
}

/// The next cell, where it isn't asked whether both listings find the same.
#[inline(always)]
fn pair_alike<'a>(x: Head<'a>, xs: &'a [Mark], y: Head<'a>, ys: &'a [Mark]) -> Turn<'a>
    requires first { is_make x ≡ false }
    requires then { is_make y ≡ false }
    ensures { (c d : Seq CellMark) → IsFirst c x.entry xs.now → IsFirst d y.entry ys.now → IsTurnAlike c d result }
{
    match one(x) {
        None => Turn::Done,
        Some((a, x_count)) => match one(y) {
            None => Turn::Done,
            Some((b, y_count)) => Turn::Both {
                x: a,
                y: b,
                x_count,
                xs,
                y_count,
                ys,
            },
        },
    }
}

/// One turn, where neither listing makes a cell.
#[inline(always)]
fn found_alike<'a>(x: Head<'a>, xs: &'a [Mark], y: Head<'a>, ys: &'a [Mark]) -> Turn<'a>
    requires first { is_make x ≡ false }
    requires then { is_make y ≡ false }
    ensures { (c d : Seq CellMark) → IsFirst c x.entry xs.now → IsFirst d y.entry ys.now → IsTurnAlike c d result }
{
    match counts_of(x, y) {
        Some((p, q)) => counted_turn(p, xs, q, ys),
        None => pair_alike(x, xs, y, ys),
    }
}

/// One turn behind the cells that the first listing makes.
#[inline(always)]
fn turn_found_alike<'a>(x: Head<'a>, x_rest: &'a [Mark], y_count: u32, ys: &'a [Mark]) -> Turn<'a>
    requires { is_make x ≡ false }
    ensures { (c : Seq CellMark) → IsFirst c x.entry x_rest.now → IsTurnAlike c (marks_left y_count ys.now) result }
{
    let (y, y_rest) = next(y_count, ys);
    match make_of(y) {
        Some(made) => Turn::Then {
            y: made,
            ys: y_rest,
        },
        None => found_alike(x, x_rest, y, y_rest),
    }
}

/// One turn of a walk that doesn't ask whether both listings find the same; so many counted cells stand before the marks.
#[inline(always)]
pub fn turn_alike<'a>(x_count: u32, xs: &'a [Mark], y_count: u32, ys: &'a [Mark]) -> Turn<'a>
    ensures { IsTurnAlike (marks_left x_count xs.now) (marks_left y_count ys.now) result }
{
    let (x, x_rest) = next(x_count, xs);
    match make_of(x) {
        Some(made) => Turn::First {
            x: made,
            xs: x_rest,
        },
        None => turn_found_alike(x, x_rest, y_count, ys),
    }
}

/// The next cell of two listings in turn, where it isn't asked whether the second finds what the first leaves.
#[inline(always)]
fn pair_in_turn_alike<'a>(x: Head<'a>, xs: &'a [Mark], y: Head<'a>, ys: &'a [Mark]) -> Turn<'a>
    requires { is_make y ≡ false }
    ensures { (c d : Seq CellMark) → IsFirst c x.entry xs.now → IsFirst d y.entry ys.now → IsTurnInTurnAlike c d result }
{
    match one(x) {
        None => Turn::Done,
        Some((a, x_count)) => match one(y) {
            None => Turn::Done,
            Some((b, y_count)) => Turn::Both {
                x: a,
                y: b,
                x_count,
                xs,
                y_count,
                ys,
            },
        },
    }
}

/// One turn of two listings in turn, where the second makes no cell.
#[inline(always)]
fn found_in_turn_alike<'a>(x: Head<'a>, xs: &'a [Mark], y: Head<'a>, ys: &'a [Mark]) -> Turn<'a>
    requires { is_make y ≡ false }
    ensures { (c d : Seq CellMark) → IsFirst c x.entry xs.now → IsFirst d y.entry ys.now → IsTurnInTurnAlike c d result }
{
    match counts_of(x, y) {
        Some((p, q)) => counted_turn(p, xs, q, ys),
        None => pair_in_turn_alike(x, xs, y, ys),
    }
}

/// One turn of a walk of two listings in turn that doesn't ask whether the second finds what the first leaves; so many counted
/// cells stand before the marks.
#[inline(always)]
pub fn turn_in_turn_alike<'a>(
    x_count: u32,
    xs: &'a [Mark],
    y_count: u32,
    ys: &'a [Mark],
) -> Turn<'a>
    ensures { IsTurnInTurnAlike (marks_left x_count xs.now) (marks_left y_count ys.now) result }
{
    let (y, y_rest) = next(y_count, ys);
    match make_of(y) {
        Some(made) => Turn::Then {
            y: made,
            ys: y_rest,
        },
        None => {
            let (x, x_rest) = next(x_count, xs);
            found_in_turn_alike(x, x_rest, y, y_rest)
        }
    }
}
