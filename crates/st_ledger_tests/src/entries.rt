//! A session that joins, tells what it received, commits, and leaves.
ghost use Rattle.std.specs.Prelude.{[], IfOk};
ghost use Rattle.st_lists.specs.Log.{log_with};
ghost use Rattle.st_lists.specs.declared.lists.Body.TheVariants.{Ack, Join};
ghost use Rattle.st_ledger.specs.Stands.{StandsFor};

use st_clusters::IdRange;
use st_ids::Rev;
use st_ledger::Ledger;
use std::alloc::Global;
use std::test::Fail;

// The UUID of the first session, 00000000-0000-4004-8000-000000000000.
const UUID: u128 = 302314465251988986658816;

// The session has joined.
fn joined(alloc: Global) -> Result<Ledger, Fail>
    ensures { IfOk result (λ l. StandsFor l (log_with [] 1 (Join 302314465251988986658816))) }
{
    let mut ledger = Ledger::new(alloc);
    match ledger.enter_join(alloc, 1, UUID) {
        Ok(()) => Ok(ledger),
        Err(_) => Err(Fail::from("no session")),
    }
}

// And tells that it received its join.
fn told(alloc: Global) -> Result<Ledger, Fail>
    ensures { IfOk result (λ l. StandsFor l (log_with (log_with [] 1 (Join 302314465251988986658816)) 1 (Ack 1))) }
{
    let mut ledger = joined(alloc)?;
    ledger.enter_ack(1, 1)?;
    Ok(ledger)
}

fn leaves(alloc: Global) -> Result<bool, Fail> {
    let mut ledger = told(alloc)?;
    let there = ledger.is_connected(1) && ledger.known_reference(1) == 1;
    ledger.enter_leave(alloc, 1)?;
    Ok(there && !ledger.is_connected(1))
}

fn commits(alloc: Global) -> Result<bool, Fail> {
    let mut ledger = joined(alloc)?;
    let ids = IdRange {
        session: 1,
        first: 1,
        count: 2,
    };
    let rev = Rev { session: 1, num: 1 };
    match ledger.enter_commit(1, 1, ids, rev, 1) {
        Ok(()) => Ok(ledger.carried(1) == 2),
        Err(_) => Ok(false),
    }
}

#[test]
fn entries_are_noted(rt: HostRuntime) -> Result<(), Fail> {
    let alloc = rt.alloc();
    let (a, b) = (leaves(alloc)?, commits(alloc)?);
    assert!(rt; a && b, "{a} {b}");
    Ok(())
}
