//! The window over a session's commits, each of which comes when the one before it is received.
ghost use Rattle.std.specs.Prelude.{◌≡◌, ◌<◌, ◌≤◌, ◌+◌, OnOk};
ghost use Rattle.std.specs.List.{All};

use st_clusters::IdRange;
use st_ids::{Copied, List, Rev};
use st_marks::{Change, Step, Verdict};
use st_window::{Kept, Window};
use std::alloc::{AllocError, Global};

fn revision(num: u32) -> Rev {
    Rev { session: 1, num }
}

fn change(alloc: Global, rev: Rev) -> Change {
    Change {
        rev,
        under: revision(0),
        base: true,
        need: List::new(alloc),
        new: List::new(alloc),
        rows: List::new(alloc),
        regs: List::new(alloc),
        loose: List::new(alloc),
        schema: None,
    }
}

fn step(alloc: Global) -> Step {
    Step {
        new: List::new(alloc),
        rows: List::new(alloc),
        regs: List::new(alloc),
        loose: List::new(alloc),
        schema: None,
    }
}

// The commit that is an entry of that number, and changes nothing.
fn commit(alloc: Global, n: u32) -> Kept
    ensures { result.n ≡ n }
{
    Kept {
        n,
        ids: IdRange {
            session: 1,
            first: n,
            count: 1,
        },
        change: change(alloc, revision(n)),
        step: step(alloc),
        verdict: Verdict::Sound,
    }
}

// The commit of the next number comes, and the floor is the number before.
fn follow(alloc: Global, window: &mut Window, n: u32) -> Result<bool, AllocError>
    requires floor { window.old.floor < n }
    requires last { All (λ k. k.n < n) window.old.kept }
    ensures floor { OnOk result (window.new.floor < n + 1) }
    ensures last { OnOk result (All (λ k. k.n < n + 1) window.new.kept) }
{
    window.push(commit(alloc, n))?;
    window.advance(n - 1);
    Ok(window.count() == 1)
}

// Entry 1 is a join, and then come 200 commits. Whether one is kept after each.
fn follow_all(alloc: Global, window: &mut Window) -> Result<bool, AllocError>
    requires floor { window.old.floor < 2 }
    requires last { All (λ k. k.n < 2) window.old.kept }
    ensures { OnOk result (window.new.floor ≤ 201) }
{
    let mut one_each = true;
    for n in 2..202 {
        let one = follow(alloc, window, n)?;
        one_each = one_each && one;
    }
    Ok(one_each)
}

fn has_last(window: &Window) -> bool {
    window.since(200).is_ok() && window.find(revision(201)).is_some()
}

fn has_none(window: &Window) -> bool {
    window.count() == 0 && window.floor() == 201 && window.since(200).is_err()
}

fn copy_has_last(alloc: Global, window: &Window) -> Result<bool, AllocError> {
    let copy = window.copy(alloc)?;
    Ok(has_last(&copy))
}

// The last one is there for who asks, and after an ack none is kept.
fn follow_and_ack(alloc: Global, window: &mut Window) -> Result<bool, AllocError>
    requires floor { window.old.floor < 2 }
    requires last { All (λ k. k.n < 2) window.old.kept }
{
    let one_each = follow_all(alloc, window)?;
    let copied = copy_has_last(alloc, window)?;
    window.advance(201);
    Ok(one_each && copied && has_none(window))
}

fn followed(alloc: Global) -> Result<bool, AllocError> {
    let mut window = Window::new(alloc, 0);
    follow_and_ack(alloc, &mut window)
}

#[test]
fn windows_answer(rt: HostRuntime) -> Result<(), AllocError> {
    let alloc = rt.alloc();
    let done = followed(alloc)?;
    assert!(rt; done, "{done}");
    Ok(())
}
