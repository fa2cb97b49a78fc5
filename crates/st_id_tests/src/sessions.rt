//! Sessions, ranges and refusals.

use st_clusters::{Compressor, IdFault, IdRange};
use st_ids::Or;
use std::alloc::Global;
use std::test::Fail;

/// The UUIDs that sessions 1 and 2 have by default.
pub const ONE: u128 = 0x00000000_0000_4004_8000_000000000000;

pub const TWO: u128 = 0x00000000_0000_4008_8000_000000000000;

/// Adds a session.
pub fn add(alloc: Global, ids: &mut Compressor, uuid: u128) -> Option<u32> {
    if ids.sessions().len() < 65535 {
        ids.add_session(alloc, uuid).ok()
    } else {
        None
    }
}

/// A table of the two sessions.
pub fn two(alloc: Global) -> Option<Compressor> {
    let mut ids = Compressor::new(alloc);
    let first = add(alloc, &mut ids, ONE);
    let second = add(alloc, &mut ids, TWO);
    if first == Some(1) && second == Some(2) {
        Some(ids)
    } else {
        None
    }
}

/// Finalises a range.
pub fn put(ids: &mut Compressor, session: u32, first: u32, count: u32) -> bool {
    let range = IdRange {
        session,
        first,
        count,
    };
    ids.finalize(range).is_ok()
}

/// The three ranges of the worked example: 512 ids, one of the other session, one more.
pub fn compressor_in_use(alloc: Global) -> Option<Compressor> {
    let mut ids = two(alloc)?;
    if put(&mut ids, 1, 1, 512) && put(&mut ids, 2, 1, 1) && put(&mut ids, 1, 513, 1) {
        Some(ids)
    } else {
        None
    }
}

fn is_range(range: Result<IdRange, IdFault>, first: u32, count: u32) -> bool {
    range
        == Ok(IdRange {
            session: 1,
            first,
            count,
        })
}

fn generates(ids: &mut Compressor) -> bool {
    ids.generate(1) == Ok(1) && ids.generate(1) == Ok(2) && ids.generate(1) == Ok(3)
}

fn takes_again(alloc: Global) -> Option<bool> {
    let mut ids = two(alloc)?;
    let made = generates(&mut ids);
    let took = is_range(ids.take_range(1), 1, 3) && is_range(ids.take_range(1), 4, 0);
    let back = ids.rewind(1).is_ok() && is_range(ids.take_range(1), 1, 3);
    let rest = put(&mut ids, 1, 1, 2) && ids.rewind(1).is_ok() && is_range(ids.take_range(1), 3, 1);
    Some(made && took && back && rest)
}

fn refuses_uuids(alloc: Global) -> Option<bool> {
    let mut ids = two(alloc)?;
    let old = ids.sessions().len();
    let clash = old < 65535
        && ids.add_session(alloc, TWO + 0xffff_ffff)
            == Err(Or::Fault(IdFault::Clash { session: 2 }));
    let no_v4 = ids.sessions().len() < 65535
        && ids.add_session(alloc, 0) == Err(Or::Fault(IdFault::NotV4));
    let free = ids.clash(TWO + 0x1_0000_0000).is_none() && ids.clash(ONE) == Some(1);
    Some(clash && no_v4 && free && ids.uuid(1) == Some(ONE) && ids.uuid(3).is_none())
}

fn refuses_ranges(alloc: Global) -> Option<bool> {
    let mut ids = compressor_in_use(alloc)?;
    let range = IdRange {
        session: 1,
        first: 513,
        count: 1,
    };
    let order = ids.finalize(range) == Err(Or::Fault(IdFault::RangeOrder { next: 514 }));
    let none = ids.rewind(3) == Err(IdFault::Session) && ids.generate(0) == Err(IdFault::Session);
    Some(order && none && ids.finalised_count(1) == Some(513))
}

fn is_full(alloc: Global) -> Option<bool> {
    let mut ids = two(alloc)?;
    let most = put(&mut ids, 1, 1, 4_294_967_294);
    Some(most && ids.generate(1) == Err(IdFault::Full) && !put(&mut ids, 1, 4_294_967_295, 1))
}

#[test]
fn ranges(rt: HostRuntime) -> Result<(), Fail> {
    let alloc = rt.alloc();
    let (taken, order, full) = (takes_again(alloc), refuses_ranges(alloc), is_full(alloc));
    assert!(rt; taken == Some(true) && order == Some(true) && full == Some(true));
    Ok(())
}

fn copies(alloc: Global) -> Option<bool> {
    let ids = compressor_in_use(alloc)?;
    let copy = ids.copy(alloc).ok()?;
    Some(copy.clusters() == ids.clusters() && copy.uuid(2) == Some(TWO))
}

#[test]
fn uuids(rt: HostRuntime) -> Result<(), Fail> {
    let alloc = rt.alloc();
    let (refused, copied) = (refuses_uuids(alloc), copies(alloc));
    assert!(rt; refused == Some(true) && copied == Some(true));
    Ok(())
}
