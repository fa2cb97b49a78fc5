//! Changes pushed through a step by a rebaser that never has memory: none are pushed, and one is not.
ghost use Rattle.std.specs.Prelude.{true};

use st_ids::{List, OPENING, Rev};
use st_marks::{Change, Step, Verdict};
use st_rebaser::{Carrier, Effected, Rebaser, push_through};
use std::alloc::{AllocError, Global};
use std::test::Fail;

/// A rebaser that never has memory.
struct Poor;

impl Carrier for Poor {
    ghost listed = { true };

    fn carry(
        _alloc: Global,
        _change: &mut Change,
        _verdict: &mut Verdict,
        _step: &mut Step,
    ) -> Result<(), AllocError> {
        Err(AllocError)
    }
}

impl Rebaser for Poor {
    fn effect(_alloc: Global, _change: &Change) -> Result<Effected, AllocError> {
        Err(AllocError)
    }

    fn compose(_alloc: Global, _first: &Step, _then: &Step) -> Result<Step, AllocError> {
        Err(AllocError)
    }

    fn splice(_alloc: Global, _step: &mut Step, _then: &Step) -> Result<(), AllocError> {
        Err(AllocError)
    }

    fn strip(_alloc: Global, _first: &Step, _whole: &Step) -> Result<Step, AllocError> {
        Err(AllocError)
    }

    fn invert(_alloc: Global, _step: &Step) -> Result<Step, AllocError> {
        Err(AllocError)
    }

    fn revert(_alloc: Global, _step: &Step, _rev: Rev, _under: Rev) -> Result<Change, AllocError> {
        Err(AllocError)
    }

    fn join(_alloc: Global, _first: &Change, _then: &Change) -> Result<Change, AllocError> {
        Err(AllocError)
    }
}

fn nothing(alloc: Global) -> Step {
    Step {
        new: List::new(alloc),
        rows: List::new(alloc),
        regs: List::new(alloc),
        loose: List::new(alloc),
        schema: None,
    }
}

fn empty_change(alloc: Global) -> Change {
    Change {
        rev: OPENING,
        under: OPENING,
        base: true,
        need: List::new(alloc),
        new: List::new(alloc),
        rows: List::new(alloc),
        regs: List::new(alloc),
        loose: List::new(alloc),
        schema: None,
    }
}

// Whether so many changes, with so many verdicts, are pushed.
fn pushes(alloc: Global, count: u32, judged: u32) -> Result<bool, Fail> {
    let mut changes = List::new(alloc);
    let mut verdicts = List::new(alloc);
    for _ in 0..count {
        changes.push(empty_change(alloc))?;
    }
    for _ in 0..judged {
        verdicts.push(Verdict::Sound)?;
    }
    let mut step = nothing(alloc);
    Ok(push_through::<Poor>(alloc, &mut changes, &mut verdicts, &mut step).is_ok())
}

#[test]
fn pushes_answer(rt: HostRuntime) -> Result<(), Fail> {
    let alloc = rt.alloc();
    let (none, unjudged) = (pushes(alloc, 0, 0)?, pushes(alloc, 1, 0)?);
    let one = pushes(alloc, 1, 1)?;
    assert!(rt; none && unjudged && !one, "{none} {unjudged} {one}");
    Ok(())
}
