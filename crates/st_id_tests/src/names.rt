//! Final numbers, op-space numbers and stable ids of the worked example.

use crate::sessions::{ONE, add, compressor_in_use, put, two};
use st_clusters::{At, Compressor, IdRange, Unknown};
use st_ids::{List, Rev};
use std::alloc::{AllocError, Global};
use std::test::Fail;

fn rev(session: u32, num: u32) -> Rev {
    Rev { session, num }
}

fn goes_from_own_to_final(alloc: Global) -> Option<bool> {
    let mut ids = two(alloc)?;
    let begun = put(&mut ids, 1, 1, 512) && put(&mut ids, 2, 1, 1) && ids.generate(1) == Ok(513);
    let before = ids.to_op(1, rev(1, 513)) == Ok(-513) && ids.from_op(1, -513) == Ok(rev(1, 513));
    let after = put(&mut ids, 1, 513, 1) && ids.to_op(1, rev(1, 513)) == Ok(1025);
    Some(begun && before && after && ids.from_op(1, -513) == Err(Unknown))
}

fn numbers(alloc: Global) -> Option<bool> {
    let ids = compressor_in_use(alloc)?;
    let first = ids.to_final(rev(1, 512)) == Ok(512) && ids.to_final(rev(2, 1)) == Ok(513);
    let ends = ids.to_final(rev(0, 0)) == Ok(0) && ids.to_final(rev(2, 2)) == Err(Unknown);
    let back = ids.from_op(2, 1025) == Ok(rev(1, 513)) && ids.from_op(2, 514) == Err(Unknown);
    let third = ids
        .cluster(2)
        .is_some_and(|c| c.session == 1 && c.first_final == 1025);
    Some(first && ends && back && third && ids.clusters().len() == 3)
}

fn stable_ids(alloc: Global) -> Option<bool> {
    let mut ids = compressor_in_use(alloc)?;
    let last = 0xffffffff_ffff_4fff_bfff_ffffffffffff;
    let round = 0x00000000_0000_4000_8000_000000000000;
    let joined = add(alloc, &mut ids, last) == Some(3) && put(&mut ids, 3, 1, 2);
    let far = ids.stable(rev(1, 513)) == Ok(ONE + 0x200)
        && ids.find(ONE + 0x200) == Ok(rev(1, 513));
    let over = ids.stable(rev(3, 2)) == Ok(round) && ids.find(round) == Ok(rev(3, 2));
    let none = ids.stable(rev(0, 0)) == Err(Unknown) && ids.find(ONE + 0x201) == Err(Unknown);
    Some(joined && far && over && none)
}

// The table before the last range, as session 1 saw it, which had generated one id more, and as a
// session saw it that the table doesn't have.
fn sees(ids: &Compressor, later: &List<IdRange>, own: u32) -> bool {
    let at = At {
        ids,
        own,
        have: 514,
        later,
    };
    let old = at.to_op(rev(1, 512)) == Ok(512) && at.from_op(1025) == Err(Unknown);
    let new = at.to_op(rev(own, 514)) == Ok(-514) && at.from_op(-514) == Ok(rev(own, 514));
    old && new && at.from_op(-515) == Err(Unknown)
}

fn saw(alloc: Global) -> Result<Option<bool>, AllocError> {
    let mut later = List::new(alloc);
    later.push(IdRange {
        session: 1,
        first: 513,
        count: 1,
    })?;
    let Some(ids) = compressor_in_use(alloc) else {
        return Ok(None);
    };
    Ok(Some(sees(&ids, &later, 1) && sees(&ids, &later, 0)))
}

#[test]
fn final_numbers(rt: HostRuntime) -> Result<(), Fail> {
    let alloc = rt.alloc();
    let (own, all) = (goes_from_own_to_final(alloc), numbers(alloc));
    assert!(rt; own == Some(true) && all == Some(true));
    Ok(())
}

#[test]
fn uuids(rt: HostRuntime) -> Result<(), Fail> {
    let alloc = rt.alloc();
    let (stable, seen) = (stable_ids(alloc), saw(alloc)?);
    assert!(rt; stable == Some(true) && seen == Some(true));
    Ok(())
}
