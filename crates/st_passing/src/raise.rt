//! A change's row over a step's that it doesn't meet: its counts rise where they stand.
ghost use Rattle.std.specs.Prelude.{◌≡◌, ◌||◌, ◌<◌, ◌+◌, ◌-◌, ◌^◌, length, OnOk, OnErr, IfOk, true, false, List as Seq};
ghost use Rattle.st_marks.specs.declared.marks.Mark.{Mark as AnyMark};
ghost use Rattle.st_marks.specs.Listings.{cells_before, cells_made};
ghost use Rattle.st_marks.specs.Row.{spread};
ghost use Rattle.st_passing.specs.Passing.{cell_passes, counted_passes as counted_pass, do_not_meet, fill_passes as fill_pass, gap_passes as gap_pass, leave_passes as leave_pass, made_passes, raised, stay_passes as stays};
ghost use Rattle.st_rows.specs.Merged.{IsMerged};
ghost use Rattle.st_rows.specs.Pieces.{IsSingle};
ghost use Rattle.st_rows.specs.Reading.{cell_of};
ghost use Rattle.st_passing.specs.declared.raise.Seat.{Seat as Place};
ghost use Rattle.st_passing.specs.Raising.{count_or_none, ends_count as ends, IsGo, IsSeat, count_by, past as if_past, with_counts, with_counts_beside, with_counts_by};

use st_ids::List;
use st_marks::{How, Mark};
use st_rows::{Turn, turn_alike};
use std::alloc::AllocError;

/// Where one more cell is counted: in a Skip of so many cells, or in a new one.
#[derive(Clone, Copy)]
pub enum Seat {
    In(usize, u32),
    Before(usize),
}

/// Whether a mark can have a count before it that isn't one with it.
#[inline(always)]
fn ends_count(marks: &[Mark]) -> bool
    ensures { result ≡ ends marks.now }
{
    match marks {
        [] => true,
        [Mark::Skip(_), ..] => false,
        [Mark::Make { .. }, ..] => false,
        _ => true,
    }
}

/// What a search for that place does at a mark: it counts there, or before it, or goes on with so many cells left.
#[derive(Clone, Copy)]
enum Go {
    In(u32),
    Before,
    On(u32),
}

// Whether a cell is counted at the end of a count: at a place among all cells, or where no more are made there.
#[inline(always)]
fn may_end(among: bool, more: &[Mark]) -> bool
    ensures { result ≡ (among || ends more.now) }
{
    among || ends_count(more)
}

// At a mark that counts so many cells.
#[inline(always)]
fn go_in(k: u32, among: bool, left: u32, more: &[Mark]) -> Go
    ensures { (m : AnyMark) → m ≡ AnyMark.Skip k → IsGo among m left more.now result }
{
    if left < k {
        return Go::In(k);
    }
    if left == k && may_end(among, more) {
        return Go::In(k);
    }
    Go::On(left - k)
}

// At a mark of one cell.
#[inline(always)]
fn go_past(left: u32) -> Go
    ensures { result ≡ if_past left }
{
    if left == 0 {
        Go::Before
    } else {
        Go::On(left - 1)
    }
}

#[inline(always)]
fn go_of(mark: Mark, among: bool, left: u32, more: &[Mark]) -> Go
    ensures { IsGo among mark left more.now result }
{
    match mark {
        Mark::Skip(k) => go_in(k, among, left, more),
        Mark::Make { .. } => { if among { go_past(left) } else { Go::On(left) } }
        _ => go_past(left),
    }
}

/// How many cells a mark counts.
#[inline(always)]
fn count_of(mark: Mark) -> u32
    ensures { result ≡ count_or_none mark }
{
    match mark {
        Mark::Skip(k) => k,
        _ => 0,
    }
}

/// Before a mark: in the one before that, if it counts cells, and else in a new one.
#[inline(always)]
fn seat_at(at: usize, count: u32) -> Seat
    requires { 0 < count → 0 < at }
    ensures new { count ≡ 0 → result ≡ Place.Before at }
    ensures old { 0 < count → result ≡ Place.In (at - 1) count }
{
    if count > 0 {
        Seat::In(at - 1, count)
    } else {
        Seat::Before(at)
    }
}

/// Where one more cell is counted: at a place among all cells, or else behind so many that the marks find, and behind those that
/// they make there.
#[inline(always)]
fn seat_of(marks: &[Mark], among: bool, place: u32) -> Seat
    ensures { IsSeat marks.now (count_by among place (spread marks.now)) result }
{
    let mut at = 0;
    let mut left = place;
    let mut count = 0;
    let mut rest = marks;
    while let [mark, more @ ..] = rest {
        match go_of(*mark, among, left, more) {
            Go::In(k) => return Seat::In(at, k),
            Go::Before => return seat_at(at, count),
            Go::On(j) => left = j,
        }
        count = count_of(*mark);
        at += 1;
        rest = more;
    }
    seat_at(at, count)
}

/// Counts one more cell.
#[inline(always)]
fn count_at(marks: &mut List<Mark>, among: bool, place: u32) -> Result<(), AllocError>
    requires { length (spread marks.old) + 1 < 2 ^ 32 }
    ensures cells { OnOk result (spread marks.new ≡ count_by among place (spread marks.old)) }
    ensures merged { IsMerged marks.old → OnOk result (IsMerged marks.new) }
{
    match seat_of(marks.as_slice(), among, place) {
        Seat::In(at, k) => {
            if let Some(mark) = marks.get_mut(at) {
                *mark = Mark::Skip(k + 1);
            }
            Ok(())
        }
        Seat::Before(at) => {
            marks.insert(at, Mark::Skip(1))?;
            Ok(())
        }
    }
}

/// Counts the cells that another listing of the row makes.
#[inline(always)]
fn count_all(marks: &mut List<Mark>, among: bool, other: &[Mark]) -> Result<(), AllocError>
    requires room { length (spread marks.old) + length (cells_made (spread other.now)) < 2 ^ 32 }
    requires places { length (spread other.now) < 2 ^ 32 }
    ensures cells { OnOk result (spread marks.new ≡ with_counts_by among 0 (spread marks.old) (spread other.now)) }
    ensures merged { IsMerged marks.old → OnOk result (IsMerged marks.new) }
{
    let mut place = 0;
    let mut rest = other;
    while let [mark, more @ ..] = rest {
        match *mark {
            Mark::Skip(k) => place += k,
            Mark::Make { .. } => {
                count_at(marks, among, place)?;
                place += 1;
            }
            _ => place += 1,
        }
        rest = more;
    }
    Ok(())
}

/// Counts the cells that a step makes, in a change's row that finds as many cells as the step does: where the two don't meet, the
/// change's row after the step is this. After an `Err` the row is spent.
pub fn raise_counts(marks: &mut List<Mark>, step: &[Mark]) -> Result<(), AllocError>
    requires room { length (spread marks.old) + length (cells_made (spread step.now)) < 2 ^ 32 }
    requires places { length (spread step.now) < 2 ^ 32 }
    ensures cells { OnOk result (spread marks.new ≡ with_counts 0 (spread marks.old) (spread step.now)) }
    ensures merged { IsMerged marks.old → OnOk result (IsMerged marks.new) }
{
    count_all(marks, false, step)
}

/// Counts the cells that a change makes, in a step's row, where the change counts those that the step makes already: where the two
/// don't meet, the step's row after the change is this. After an `Err` the row is spent.
pub fn raise_beside(marks: &mut List<Mark>, change: &[Mark]) -> Result<(), AllocError>
    requires room { length (spread marks.old) + length (cells_made (spread change.now)) < 2 ^ 32 }
    requires places { length (spread change.now) < 2 ^ 32 }
    ensures cells { OnOk result (spread marks.new ≡ with_counts_beside 0 (spread marks.old) (spread change.now)) }
    ensures merged { IsMerged marks.old → OnOk result (IsMerged marks.new) }
{
    count_all(marks, true, change)
}

/// What a table says of each piece: whether the change and the step pass each other there.
#[inline(always)]
fn stay_passes(y: &Mark) -> bool
    requires { IsSingle y.now }
    ensures { result ≡ stays (cell_of y.now) }
{
    match *y {
        Mark::Skip(_) => true,
        Mark::Touch { how: How::Stay, .. } => true,
        _ => false,
    }
}

/// Where the change counts a cell and the step says something of it.
#[inline(always)]
fn counted_passes(y: &Mark) -> bool
    requires { IsSingle y.now }
    ensures { result ≡ counted_pass false (cell_of y.now) }
{
    match *y {
        Mark::Touch { how: How::Here, .. } => false,
        Mark::Make { .. } => false,
        _ => true,
    }
}

/// Where the change names an empty cell, or brings a node into one.
#[inline(always)]
fn is_counted(y: &Mark) -> bool
    requires { IsSingle y.now }
    ensures skip { result ≡ leave_pass false (cell_of y.now) }
{
    match *y {
        Mark::Skip(_) => true,
        _ => false,
    }
}

/// Where the change brings a node into a cell.
#[inline(always)]
fn fill_passes(y: &Mark) -> bool
    requires { IsSingle y.now }
    ensures { result ≡ fill_pass false (cell_of y.now) }
{
    match *y {
        Mark::Skip(_) => true,
        Mark::Gap(_) => true,
        _ => false,
    }
}

/// Where the change names an empty cell.
#[inline(always)]
fn gap_passes(y: &Mark) -> bool
    requires { IsSingle y.now }
    ensures { result ≡ gap_pass false (cell_of y.now) }
{
    match *y {
        Mark::Skip(_) => true,
        Mark::Gap(_) => true,
        Mark::Fill { .. } => true,
        _ => false,
    }
}

/// Whether they pass each other at a cell that both find.
#[inline(always)]
fn both_pass(x: &Mark, y: &Mark) -> bool
    requires first { IsSingle x.now }
    requires then { IsSingle y.now }
    ensures { result ≡ cell_passes false (cell_of x.now) (cell_of y.now) }
{
    match *x {
        Mark::Skip(_) => counted_passes(y),
        Mark::Gap(_) => gap_passes(y),
        Mark::Touch {
            how: How::Leave,
            ..
        } => is_counted(y),
        Mark::Touch { .. } => stay_passes(y),
        Mark::Make { .. } => false,
        Mark::Fill { .. } => fill_passes(y),
    }
}

/// Whether a mark makes a cell.
#[inline(always)]
fn is_made(x: &Mark) -> bool
    requires { IsSingle x.now }
    ensures { result ≡ made_passes false (cell_of x.now) }
{
    match *x {
        Mark::Make { .. } => true,
        _ => false,
    }
}

/// Whether a change's row and a step's, both with empty cells counted, don't meet: each then says after the other what it says
/// before, with the cells counted that the other makes.
pub fn does_not_meet(change: &[Mark], step: &[Mark]) -> bool
    ensures { result ≡ do_not_meet false (spread change.now) (spread step.now) }
{
    let mut x_left = 0;
    let mut x_rest = change;
    let mut y_left = 0;
    let mut y_rest = step;
    'cells: loop {
        match turn_alike(x_left, x_rest, y_left, y_rest) {
            Turn::Done => return true,
            Turn::Apart => unreachable!(),
            Turn::Counted {
                count: _,
                x_count,
                xs,
                y_count,
                ys,
            } => {
                x_left = x_count;
                x_rest = xs;
                y_left = y_count;
                y_rest = ys;
            }
            Turn::Both {
                x,
                y,
                x_count,
                xs,
                y_count,
                ys,
            } => {
                if !both_pass(x, y) {
                    return false;
                }
                x_left = x_count;
                x_rest = xs;
                y_left = y_count;
                y_rest = ys;
            }
            Turn::First { x, xs } => {
                if !is_made(x) {
                    return false;
                }
                x_left = 0;
                x_rest = xs;
            }
            Turn::Then { y, ys } => {
                if !is_made(y) {
                    return false;
                }
                y_left = 0;
                y_rest = ys;
            }
        }
    }
}

/// Raises the counts of a change's row by the cells that a step makes in it, where the two don't meet; both count empty cells.
/// `false` says that they meet; then the row is as it was.
pub fn raise_in_place(marks: &mut List<Mark>, step: &[Mark]) -> Result<bool, AllocError>
    requires room { length (spread marks.old) + length (cells_made (spread step.now)) < 2 ^ 32 }
    requires places { length (spread step.now) < 2 ^ 32 }
    ensures meets { IfOk result (λ b. b ≡ do_not_meet false (spread marks.old) (spread step.now)) }
    ensures cells { length (cells_before (spread marks.old)) ≡ length (cells_before (spread step.now)) → IfOk result (λ b. b ≡ true → spread marks.new ≡ raised (spread marks.old) (spread step.now)) }
    ensures merged { IsMerged marks.old → OnOk result (IsMerged marks.new) }
    ensures unchanged { IfOk result (λ b. b ≡ false → marks.new ≡ marks.old) }
{
    if does_not_meet(marks.as_slice(), step) {
        raise_counts(marks, step)?;
        Ok(true)
    } else {
        Ok(false)
    }
}
