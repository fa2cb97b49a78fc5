//! A session that has received all before each of its commits: no more than the last one is kept, and nothing of it when it is gone.

use crate::changes::{change_with_text, ids, make, uuid_of};
use crate::shop::{Counting, list};
use st_marks::Mark;
use std::alloc::{AllocError, Global};
use std::test::Fail;

/// How many commits there are.
const COMMITS: u32 = 200;

// The commit of a number puts a text at the front. Whether it alone is kept then.
fn is_kept_alone(alloc: Global, manager: &mut Counting, num: u32) -> Result<bool, AllocError> {
    let cells = num.saturating_add(1);
    let change = change_with_text(alloc, 1, num, &[make(1, num), Mark::Skip(cells)])?;
    let received = manager.receive_known(alloc, change, 1, num, ids(1, num, 1));
    Ok(received.is_ok() && manager.window().count() == 1)
}

// How many commits aren't kept alone.
fn count_wrong(alloc: Global, manager: &mut Counting) -> Result<u32, AllocError> {
    let mut wrong: u32 = 0;
    for num in 1..=COMMITS {
        if !is_kept_alone(alloc, manager, num)? {
            wrong = wrong.saturating_add(1);
        }
    }
    Ok(wrong)
}

// The session tells that it has received all.
fn nothing_stays(alloc: Global, manager: &mut Counting) -> bool {
    let reference = COMMITS.saturating_add(1);
    manager.receive_ack(alloc, 1, reference).is_ok() && manager.window().count() == 0
}

// And leaves.
fn has_left(alloc: Global, manager: &mut Counting) -> bool {
    manager.receive_leave(alloc, 1).is_ok() && !manager.has(1) && manager.kept_bridge(1).is_err()
}

fn window_is_short(alloc: Global, manager: &mut Counting) -> Result<bool, AllocError> {
    let joined = manager.receive_join(alloc, 1, uuid_of(1)).is_ok();
    let wrong = count_wrong(alloc, manager)?;
    Ok(joined && wrong == 0 && nothing_stays(alloc, manager) && has_left(alloc, manager))
}

fn window_of_list(alloc: Global) -> Result<bool, Fail> {
    let forest = list(alloc)?;
    let mut manager = Counting::start(alloc, forest, 0, None);
    Ok(window_is_short(alloc, &mut manager)?)
}

#[test]
fn windows_are_short(rt: HostRuntime) -> Result<(), Fail> {
    let short = window_of_list(rt.alloc())?;
    assert!(rt; short);
    Ok(())
}
