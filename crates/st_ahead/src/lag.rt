//! What a session hasn't received.
ghost use Rattle.std.specs.Prelude.{Bool, ℕ, ◌≡◌, ◌≤◌, ◌++◌, [], length, map, OnOk, List as Seq};
ghost use Rattle.st_lists.specs.declared.lists.Entry.{Entry};
ghost use Rattle.st_marks.specs.Document.{Document};
ghost use Rattle.st_window_laws.specs.Windows.{IsWindowOf};
ghost use Rattle.st_seats.specs.Seats.{IsWrittenFrom};
ghost use Rattle.st_ahead.specs.Lags.{IsLagAt};
ghost use Rattle.st_ahead.specs.inside.Lists.{ahead_above, ahead_of};

use st_ids::{Copied, List};
use st_marks::Step;
use st_window::{Kept, Window};
use std::alloc::{AllocError, Global};

/// A commit that a session hasn't received: its number in the log, and the step that it is over what the session sent.
#[derive(Drop)]
pub struct Ahead {
    pub n: u32,
    pub step: Step,
}

/// What a session that is connected hasn't received: its known reference, and the commits of others behind that, up to the entry of
/// a number behind which it sent nothing. Commits behind that number stand in the window alone.
#[derive(Drop)]
pub struct Lag {
    pub reference: u32,
    pub last: u32,
    pub ahead: List<Ahead>,
}

// Those go whose number isn't above this one.
fn drop_up_to(ahead: &mut List<Ahead>, n: u32)
    ensures { ahead.new ≡ ahead_above n ahead.old }
{
    let none = List::new(ahead.allocator());
    let mut items = std::mem::replace(ahead, none).into_vec();
    items.retain(|one| one.n > n);
    *ahead = List::from_vec(items);
}

// Commits that are kept come behind the others, with copies of their steps.
fn push_kept(alloc: Global, ahead: &mut List<Ahead>, kept: &[Kept]) -> Result<(), AllocError>
    ensures { OnOk result (ahead.new ≡ ahead.old ++ map ahead_of kept.now) }
{
    for one in kept {
        let step = one.step.copy(alloc)?;
        ahead.push(Ahead { n: one.n, step })?;
    }
    Ok(())
}

impl Lag {
    /// That of a session that has received the log up to the entry of a number, and sent nothing since.
    pub fn at(alloc: Global, n: u32) -> Lag
        ensures { result ≡ record { reference = n; last = n; ahead = [] } }
    {
        Lag {
            reference: n,
            last: n,
            ahead: List::new(alloc),
        }
    }

    /// The session has received the log up to a reference that isn't lower: what is up to it isn't ahead any more.
    pub fn raise(&mut self, reference: u32)
        ensures { (l : Bool) (O : Document) (log : Seq Entry) (session known : ℕ)
            → known ≤ reference → reference ≤ length log
            → IsLagAt l O log session known self.old → IsLagAt l O log session reference self.new }
    {
        drop_up_to(&mut self.ahead, reference);
        self.reference = reference;
        self.last = self.last.max(reference);
    }

    /// What the window has of the commits behind the last entry up to which the lag goes is ahead now, up to the entry of a number, the
    /// last one of the log. The session has none there. It copies their steps. After an `Err` the lag is spent.
    pub fn catch_up(
        &mut self,
        alloc: Global,
        window: &Window,
        entries: u32,
    ) -> Result<(), AllocError>
        ensures { OnOk result ((l : Bool) (O : Document) (log : Seq Entry) (session reference : ℕ)
            → IsWrittenFrom O log session reference
            → IsWindowOf l O log window.now → window.now.floor ≤ reference → entries ≡ length log
            → IsLagAt l O log session reference self.old
            → IsLagAt l O log session reference self.new × (self.new.last ≡ entries)) }
    {
        match window.since(self.last) {
            Err(_) => Ok(()),
            Ok(kept) => {
                push_kept(alloc, &mut self.ahead, kept)?;
                self.last = entries;
                Ok(())
            }
        }
    }
}
