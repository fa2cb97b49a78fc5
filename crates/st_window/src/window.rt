//! A window on the log.
ghost use Rattle.std.specs.Prelude.{◌≡◌, ◌<◌, ◌≤◌, [], ◌∷◌, ◌++◌, length, IfOk, IfErr, IsErr, OnOk, OnErr, ◌↔◌, option_copied};
ghost use Rattle.std.specs.List.{All};
ghost use Rattle.std.specs.List.Sorted.{IsNonDecreasingBy};
ghost use Rattle.st_window.specs.Window.{RiseFrom, kept_above, kept_with};

use crate::kept::{Gone, Kept, copy_all, count_up_to, drop_front, find_rev};
use st_ids::{Copied, List, Rev};
use std::alloc::{AllocError, Global};
use std::marker::Model;

/// The commits above a floor, in order. Contracts see the floor and the list of those commits.
///
/// Commits that are dropped stay before `start` until they are more than half of the list, and then they go together. So a
/// floor that rises takes no memory, and all in all no more moves than a few for each commit that it drops.
#[derive(Drop)]
pub struct Window {
    kept: List<Kept>,
    start: usize,
    floor: u32,
}

impl Model for Window {
    ghost use Rattle.std.specs.Prelude.{◌≤◌, ◌*◌, drop, length};
    ghost use Rattle.st_window.specs.Window.{WindowView, RiseFrom as rise_from};

    ghost Value = { WindowView };

    ghost view = { λ w. record { floor = w.floor; kept = drop w.start w.kept } };

    ghost invariant = { λ w. (2 * w.start ≤ length w.kept) × rise_from w.floor (drop w.start w.kept) };
}

impl Window {
    /// No commits, above a floor.
    pub fn new(alloc: Global, floor: u32) -> Window
        ensures { result ≡ record { floor = floor; kept = [] } }
    {
        Window {
            kept: List::new(alloc),
            start: 0,
            floor,
        }
    }

    // The commits that are kept.
    fn live(&self) -> &[Kept]
        ensures kept { result.now ≡ self.now.kept }
        ensures in_turn { IsNonDecreasingBy (λ k. k.n) result.now }
    {
        let (_, live) = self.kept.as_slice().split_at(self.start);
        live
    }

    /// The number up to which commits are dropped. The numbers of those that are kept rise from it.
    pub fn floor(&self) -> u32
        ensures floor { result ≡ self.now.floor }
        ensures rise { RiseFrom self.now.floor self.now.kept }
    {
        self.floor
    }

    /// How many commits are kept.
    pub fn count(&self) -> usize
        ensures { result ≡ length self.now.kept }
    {
        self.kept.len() - self.start
    }

    /// Keeps one more commit. After an `Err` nothing has changed.
    pub fn push(&mut self, kept: Kept) -> Result<(), AllocError>
        requires floor { self.old.floor < kept.n }
        requires last { All (λ k. k.n < kept.n) self.old.kept }
        ensures ok { OnOk result
            (self.new ≡ record { floor = self.old.floor; kept = self.old.kept ++ kept ∷ [] }) }
        ensures err { OnErr result (self.new ≡ self.old) }
    {
        self.kept.push(kept)?;
        Ok(())
    }

    /// The first commit that has a revision. It goes through the commits.
    pub fn find(&self, rev: Rev) -> Option<&Kept>
        ensures { option_copied result ≡ kept_with rev self.now.kept }
    {
        find_rev(self.live(), rev)
    }

    /// The commits whose number is above this one, found by halving.
    pub fn since(&self, n: u32) -> Result<&[Kept], Gone>
        ensures ok { IfOk result (λ ks. ks.now ≡ kept_above n self.now.kept) }
        ensures gone { IfErr result (λ g. g.floor ≡ self.now.floor) }
        ensures below { IsErr result ↔ (n < self.now.floor) }
    {
        if n < self.floor {
            return Err(Gone { floor: self.floor });
        }
        let live = self.live();
        let (_, later) = live.split_at(count_up_to(live, n));
        Ok(later)
    }

    /// Drops the commits up to a floor that isn't lower.
    pub fn advance(&mut self, floor: u32)
        requires { self.old.floor ≤ floor }
        ensures { self.new ≡ record { floor = floor; kept = kept_above floor self.old.kept } }
    {
        let dropped = self.start + count_up_to(self.live(), floor);
        self.floor = floor;
        self.start = drop_front(&mut self.kept, dropped);
    }
}

impl Copied for Window {
    fn copy(&self, alloc: Global) -> Result<Self, AllocError> {
        let kept = copy_all(alloc, self.live())?;
        Ok(Window {
            kept,
            start: 0,
            floor: self.floor,
        })
    }
}
