//! A list, kept as runs.
ghost use Rattle.std.specs.Prelude.{◌≡◌, ◌↔◌, ◌<◌, ◌≤◌, ◌+◌, ◌-◌, ◌^◌, ◌++◌, [], length, slice_get, option_copied, take, drop, vec_len, vec_capacity, IfOk, IfSome, IsErr, IsErrOf, OnOk, OnErr, MatchOption};
ghost use Rattle.std.specs.List.{flat_map};
ghost use Rattle.st_runs.specs.Places.{IsCut, StandsAt};
ghost use Rattle.st_ids.specs.declared.fault.Or;

use crate::run::Run;
use st_ids::Or;
use std::alloc::{AllocError, Global};
use std::marker::Model;

/// A place past the end of a list.
#[derive(Clone, Copy, Debug, PartialEq, Eq)]
pub struct Range;

/// Where an item stands: in which of the kept runs, counted from 0, and how many of that run's
/// items stand before it.
#[derive(Clone, Copy, Debug, PartialEq, Eq)]
pub struct RunPlace {
    pub run: usize,
    pub offset: u32,
}

/// A list of items, kept as runs. Contracts see the kept runs, and the list is
/// `flat_map R.items` of them.
#[derive(Drop)]
pub struct Runs<R: Run> {
    runs: Vec<R>,
    total: u64,
}

impl<R: Run> Model for Runs<R> {
    ghost use Rattle.std.specs.Prelude.{◌≡◌, length, List as Seq};
    ghost use Rattle.std.specs.List.{flat_map};

    ghost Value = { Seq R };

    ghost view = { λ r. r.runs.items };

    ghost invariant = { λ r. r.total ≡ length (flat_map R.items r.runs.items) };
}

impl<R: Run + Drop> Runs<R> {
    /// The empty list.
    pub fn new(alloc: Global) -> Self
        ensures { result ≡ [] }
    {
        Runs {
            runs: Vec::new(alloc),
            total: 0,
        }
    }

    /// The kept run at a place, counted from 0.
    pub fn run(&self, i: usize) -> Option<&R>
        ensures { option_copied result ≡ slice_get self.now i }
    {
        self.runs.get(i)
    }

    /// How many items there are.
    pub fn len(&self) -> u64
        ensures { result ≡ length (flat_map R.items self.now) }
    {
        self.total
    }

    /// Puts the items of a run at the end, in the last run where that takes them in. After an
    /// `Err` nothing has changed.
    pub fn push(&mut self, run: R) -> Result<(), AllocError>
        requires { length (flat_map R.items self.old) + length (R.items run) < 2 ^ 32 }
        ensures ok { OnOk result (flat_map R.items self.new ≡ flat_map R.items self.old ++ R.items run) }
        ensures err { OnErr result (self.new ≡ self.old) }
    {
        let size = u64::from(run.size());
        put(&mut self.runs, run)?;
        self.total += size;
        Ok(())
    }

    /// Where the item at a place stands, counted from 0.
    pub fn nth(&self, place: u64) -> Result<RunPlace, Range>
        ensures ok { IfOk result (λ p. StandsAt R.items self.now place p.run p.offset) }
        ensures range { IsErr result ↔ (length (flat_map R.items self.now) ≤ place) }
    {
        find(self.runs.as_slice(), place)
    }

    /// Cuts the list at a place: keeps the items before it, and gives the others. After an `Err`
    /// nothing has changed.
    pub fn split(&mut self, place: u64) -> Result<Runs<R>, Or<Range>>
        ensures ok { IfOk result (λ rest. IsCut (flat_map R.items self.old) place (flat_map R.items self.new) (flat_map R.items rest)) }
        ensures range { IsErrOf result (Or.Fault (record {})) ↔ (length (flat_map R.items self.old) < place) }
        ensures err { OnErr result (self.new ≡ self.old) }
    {
        if place > self.total {
            return Err(Or::Fault(Range));
        }
        let runs = cut(&mut self.runs, place)?;
        let total = self.total - place;
        self.total = place;
        Ok(Runs { runs, total })
    }

    /// Takes some items out at a place, and puts those of another list there. After an `Err`
    /// nothing has changed, and the other list is gone.
    pub fn splice(&mut self, place: u64, count: u64, with: Runs<R>) -> Result<(), Or<Range>>
        requires { place + count ≤ length (flat_map R.items self.old) → length (flat_map R.items self.old) - count + length (flat_map R.items with) < 2 ^ 32 }
        ensures ok { OnOk result (flat_map R.items self.new ≡ take place (flat_map R.items self.old) ++ (flat_map R.items with ++ drop (place + count) (flat_map R.items self.old))) }
        ensures range { IsErrOf result (Or.Fault (record {})) ↔ (length (flat_map R.items self.old) < place + count) }
        ensures err { OnErr result (self.new ≡ self.old) }
    {
        if place > self.total || count > self.total - place {
            return Err(Or::Fault(Range));
        }
        let Runs { runs, total } = with;
        replace(&mut self.runs, place, place + count, runs)?;
        self.total = self.total - count + total;
        Ok(())
    }

    /// Puts the items of another list at the end. The runs on both sides of the seam stay apart.
    /// After an `Err` nothing has changed, and the other list is gone.
    pub fn join(&mut self, other: Runs<R>) -> Result<(), AllocError>
        requires { length (flat_map R.items self.old) + length (flat_map R.items other) < 2 ^ 32 }
        ensures ok { OnOk result (flat_map R.items self.new ≡ flat_map R.items self.old ++ flat_map R.items other) }
        ensures err { OnErr result (self.new ≡ self.old) }
    {
        let Runs { mut runs, total } = other;
        self.runs.append(&mut runs)?;
        self.total += total;
        Ok(())
    }
}

// Melds a run into the last one, or hands it back.
fn meld_last<R: Run + Drop>(runs: &mut Vec<R>, run: R) -> Option<R>
    ensures { MatchOption result (flat_map R.items runs.new.items ≡ flat_map R.items runs.old.items ++ R.items run)
        (λ back. (back ≡ run) × (runs.new.items ≡ runs.old.items)) }
{
    match runs.last_mut() {
        Some(last) => last.meld(run),
        None => Some(run),
    }
}

// Puts the items of a run behind those of the kept runs.
fn put<R: Run + Drop>(runs: &mut Vec<R>, run: R) -> Result<(), AllocError>
    ensures ok { OnOk result (flat_map R.items runs.new.items ≡ flat_map R.items runs.old.items ++ R.items run) }
    ensures err { OnErr result (runs.new.items ≡ runs.old.items) }
{
    match meld_last(runs, run) {
        Some(back) => Ok(runs.push(back)?),
        None => Ok(()),
    }
}

// Where the item at a place stands.
fn find<R: Run>(runs: &[R], place: u64) -> Result<RunPlace, Range>
    ensures ok { IfOk result (λ p. StandsAt R.items runs.now place p.run p.offset) }
    ensures range { IsErr result ↔ (length (flat_map R.items runs.now) ≤ place) }
{
    let mut rest = place;
    for (i, run) in runs.iter().enumerate() {
        let size = run.size();
        if rest < u64::from(size) {
            return Ok(RunPlace {
                run: i,
                offset: rest as u32,
            });
        }
        rest -= u64::from(size);
    }
    Err(Range)
}

// Cuts the first run at a place strictly inside: takes its front away, and leaves the rest.
fn cut_first<R: Run + Drop>(runs: &mut Vec<R>, at: u32) -> R
    requires some { 0 < at }
    requires within { IfSome (slice_get runs.old.items 0) (λ r. at < length (R.items r)) }
    requires first { 0 < vec_len runs.old }
    ensures whole { flat_map R.items runs.old.items ≡ R.items result ++ flat_map R.items runs.new.items }
    ensures len { vec_len runs.new ≡ vec_len runs.old }
    ensures front { length (R.items result) ≡ at }
{
    let rest = runs[0].cut(at);
    std::mem::replace(&mut runs[0], rest)
}

// Cuts the kept runs where an item stands.
fn cut_at<R: Run + Drop>(runs: &mut Vec<R>, at: RunPlace) -> Result<Vec<R>, AllocError>
    requires kept { IfSome (slice_get runs.old.items at.run) (λ r. at.offset < length (R.items r)) }
    requires within { at.run < vec_len runs.old }
    ensures whole { IfOk result (λ rest. flat_map R.items runs.old.items ≡ flat_map R.items runs.new.items ++ flat_map R.items rest.items) }
    ensures front { OnOk result (length (flat_map R.items runs.new.items) ≡ length (flat_map R.items (take at.run runs.old.items)) + at.offset) }
    ensures len { IfOk result (λ rest. vec_len runs.new + vec_len rest ≤ vec_len runs.old + 1) }
    ensures room { OnOk result (vec_capacity runs.old ≤ vec_capacity runs.new) }
    ensures err { OnErr result (runs.new.items ≡ runs.old.items) }
{
    let mut rest = runs.split_off(at.run)?;
    if at.offset > 0 {
        let front = cut_first(&mut rest, at.offset);
        runs.push(front)?;
    }
    Ok(rest)
}

// The same at a place of the list, or at its end.
fn cut<R: Run + Drop>(runs: &mut Vec<R>, place: u64) -> Result<Vec<R>, AllocError>
    requires { place ≤ length (flat_map R.items runs.old.items) }
    ensures ok { IfOk result (λ rest. IsCut (flat_map R.items runs.old.items) place (flat_map R.items runs.new.items) (flat_map R.items rest.items)) }
    ensures len { IfOk result (λ rest. vec_len runs.new + vec_len rest ≤ vec_len runs.old + 1) }
    ensures room { OnOk result (vec_capacity runs.old ≤ vec_capacity runs.new) }
    ensures err { OnErr result (runs.new.items ≡ runs.old.items) }
{
    match find(runs.as_slice(), place) {
        Ok(at) => cut_at(runs, at),
        Err(Range) => {
            let len = runs.len();
            runs.split_off(len)
        }
    }
}

// Keeps the items before the one that stands at a place of the kept runs.
fn keep_to<R: Run + Drop>(runs: &mut Vec<R>, at: RunPlace)
    requires kept { IfSome (slice_get runs.old.items at.run) (λ r. at.offset < length (R.items r)) }
    requires within { at.run < vec_len runs.old }
    ensures front { flat_map R.items runs.new.items ≡ take (length (flat_map R.items (take at.run runs.old.items)) + at.offset) (flat_map R.items runs.old.items) }
    ensures len { vec_len runs.new ≤ vec_len runs.old }
    ensures room { vec_capacity runs.new ≡ vec_capacity runs.old }
{
    if at.offset == 0 {
        runs.truncate(at.run);
        return;
    }
    runs.truncate(at.run + 1);
    let _rest = runs[at.run].cut(at.offset);
}

// Keeps the items before a place.
fn keep<R: Run + Drop>(runs: &mut Vec<R>, place: u64)
    requires { place ≤ length (flat_map R.items runs.old.items) }
    ensures front { flat_map R.items runs.new.items ≡ take place (flat_map R.items runs.old.items) }
    ensures len { vec_len runs.new ≤ vec_len runs.old }
    ensures room { vec_capacity runs.new ≡ vec_capacity runs.old }
{
    if let Ok(at) = find(runs.as_slice(), place) {
        keep_to(runs, at);
    }
}

// Puts other runs in the place of the items from one place to another. All the memory that it
// takes, it takes before anything changes.
fn replace<R: Run + Drop>(
    runs: &mut Vec<R>,
    from: u64,
    to: u64,
    mut with: Vec<R>,
) -> Result<(), AllocError>
    requires order { from ≤ to }
    requires within { to ≤ length (flat_map R.items runs.old.items) }
    ensures ok { OnOk result (flat_map R.items runs.new.items ≡ take from (flat_map R.items runs.old.items) ++ (flat_map R.items with.items ++ drop to (flat_map R.items runs.old.items))) }
    ensures err { OnErr result (runs.new.items ≡ runs.old.items) }
{
    runs.reserve(with.len() + 1)?;
    let mut rest = cut(runs, to)?;
    keep(runs, from);
    runs.append(&mut with)?;
    runs.append(&mut rest)?;
    Ok(())
}
