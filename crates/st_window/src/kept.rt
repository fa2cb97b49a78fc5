//! A commit that is kept, and lists of such commits.
ghost use Rattle.std.specs.Prelude.{◌≡◌, ◌≤◌, ◌*◌, length, drop, IfOk, option_copied};
ghost use Rattle.std.specs.List.Sorted.{IsNonDecreasingBy};
ghost use Rattle.st_window.specs.Window.{kept_above, kept_with};

use st_clusters::IdRange;
use st_ids::{Copied, List, Rev, is_same_rev};
use st_marks::{Change, Step, Verdict};
use std::alloc::{AllocError, Global};

/// A commit that a client received: its number in the log, the ids that it took, the change as it is listed in the document
/// of the commits before it, the step from that document to the one after it, and its verdict there.
#[derive(Drop)]
pub struct Kept {
    pub n: u32,
    pub ids: IdRange,
    pub change: Change,
    pub step: Step,
    pub verdict: Verdict,
}

/// Commits that were asked for are dropped already: all up to the floor are.
#[derive(Clone, Copy, Debug, PartialEq, Eq)]
pub struct Gone {
    pub floor: u32,
}

impl Copied for Kept {
    fn copy(&self, alloc: Global) -> Result<Self, AllocError> {
        let change = self.change.copy(alloc)?;
        let step = self.step.copy(alloc)?;
        Ok(Kept {
            n: self.n,
            ids: self.ids,
            change,
            step,
            verdict: self.verdict,
        })
    }
}

/// Copies of commits, in order.
pub(crate) fn copy_all(alloc: Global, all: &[Kept]) -> Result<List<Kept>, AllocError>
    ensures { IfOk result (λ ks. ks ≡ all.now) }
{
    let mut copies = List::new(alloc);
    for kept in all {
        copies.push(kept.copy(alloc)?)?;
    }
    Ok(copies)
}

/// The first commit that has a revision.
pub(crate) fn find_rev(all: &[Kept], rev: Rev) -> Option<&Kept>
    ensures { option_copied result ≡ kept_with rev all.now }
{
    all.iter().find(|kept| is_same_rev(kept.change.rev, rev))
}

/// How many commits have a number up to this one, by halving.
pub(crate) fn count_up_to(all: &[Kept], n: u32) -> usize
    requires { IsNonDecreasingBy (λ k. k.n) all.now }
    ensures within { result ≤ length all.now }
    ensures rest { drop result all.now ≡ kept_above n all.now }
{
    all.partition_point(|kept| kept.n <= n)
}

/// Takes so many commits out at the front, if they are more than half. Tells how many of them stay.
pub(crate) fn drop_front(all: &mut List<Kept>, dropped: usize) -> usize
    requires { dropped ≤ length all.old }
    ensures rest { drop result all.new ≡ drop dropped all.old }
    ensures half { 2 * result ≤ length all.new }
{
    let left = all.len() - dropped;
    if dropped <= left {
        return dropped;
    }
    let none = List::new(all.allocator());
    let mut items = std::mem::replace(all, none).into_vec();
    items.rotate_left(dropped);
    items.truncate(left);
    *all = List::from_vec(items);
    0
}
