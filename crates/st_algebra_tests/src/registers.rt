//! Registers as a kind of field: each call once, with ample memory.

use st_ids::{Atom, Copied, NodeId, Or, Rev};
use st_kind::{Apart, FieldKind, rebase_over_both};
use st_marks::How;
use st_register::{
    RegChange, RegHeld, RegSwap, Register, registers_are_joined, registers_are_listed,
    registers_are_of_documents, registers_hold,
};
use std::alloc::{AllocError, Global};
use std::test::Fail;

const REV: Rev = Rev { session: 2, num: 1 };

// Nodes that are there already.
const A: NodeId = NodeId(Atom {
    rev: Rev { session: 1, num: 1 },
    at: 0,
});

const B: NodeId = NodeId(Atom {
    rev: Rev { session: 1, num: 1 },
    at: 1,
});

// A node that the commit makes.
const Q: NodeId = NodeId(Atom { rev: REV, at: 0 });

const HELD: RegHeld = RegHeld { node: Some(A) };

// Clears the register and puts the new node there.
const SET: RegChange = RegChange {
    rev: REV,
    in_new: false,
    held: Some(A),
    how: How::Stay,
    clear: true,
    fill: Some(Q),
    fill_new: true,
};

// Puts the occupant elsewhere.
const TAKE: RegChange = RegChange {
    rev: REV,
    in_new: false,
    held: Some(A),
    how: How::Leave,
    clear: false,
    fill: None,
    fill_new: false,
};

const SWAP: RegSwap = RegSwap {
    before: Some(A),
    after: Some(B),
};

const EMPTIED: RegSwap = RegSwap {
    before: Some(B),
    after: None,
};

// The change that sets the register, where another is there.
fn set(held: Option<NodeId>) -> RegChange {
    RegChange { held, ..SET }
}

fn goes_after(alloc: Global) -> bool {
    Register::over(&SET, &HELD)
        && Register::after(alloc, &HELD, &SWAP) == Ok(RegHeld { node: Some(B) })
}

fn takes_effect(alloc: Global) -> Result<bool, AllocError> {
    let effect = Register::effect(alloc, &SET, false)?;
    Ok(
        effect
            == RegSwap {
                before: Some(A),
                after: Some(Q),
            },
    )
}

fn goes_back(alloc: Global) -> Result<bool, AllocError> {
    let back = Register::invert(alloc, &SWAP)?;
    Ok(
        back == RegSwap {
            before: Some(B),
            after: Some(A),
        },
    )
}

fn is_composed(alloc: Global) -> bool {
    Register::compose(alloc, &SWAP, &EMPTIED)
        == Ok(RegSwap {
            before: Some(A),
            after: None,
        })
}

fn is_joined(alloc: Global) -> bool {
    Register::join(alloc, &TAKE, &set(None))
        == Ok(RegChange {
            how: How::Leave,
            ..SET
        })
}

fn is_rebased(alloc: Global) -> bool {
    Register::rebase(alloc, &SET, &SWAP) == Ok(set(Some(B)))
}

// The change was carried out, and is void after the step.
fn is_bridged(alloc: Global) -> bool {
    Register::bridge(alloc, &SWAP, &SET, false, true)
        == Ok(RegSwap {
            before: Some(Q),
            after: Some(B),
        })
}

fn is_apart(alloc: Global) -> bool {
    Register::compose(alloc, &SWAP, &SWAP) == Err(Or::Fault(Apart { place: 0 }))
}

fn is_copied(alloc: Global) -> Result<bool, AllocError> {
    Ok(HELD.copy(alloc)? == HELD && SET.copy(alloc)? == SET && SWAP.copy(alloc)? == SWAP)
}

// The change over two steps, in turn and at once.
fn over_both(alloc: Global) -> Result<bool, Or<Apart>> {
    let sides = rebase_over_both::<Register>(alloc, &SET, &SWAP, &EMPTIED)?;
    Ok(sides.in_turn == set(None) && sides.at_once == set(None))
}

#[test]
fn first_use(rt: HostRuntime) -> Result<(), Fail> {
    let alloc = rt.alloc();
    registers_are_joined();
    registers_are_listed();
    registers_are_of_documents();
    registers_hold();
    let (effect, back) = (takes_effect(alloc)?, goes_back(alloc)?);
    let copied = is_copied(alloc)?;
    assert!(rt;
        goes_after(alloc) && effect && back && copied,
        "{effect} {back} {copied}"
    );
    Ok(())
}

#[test]
fn two_arguments(rt: HostRuntime) {
    let alloc = rt.alloc();
    let (composed, joined) = (is_composed(alloc), is_joined(alloc));
    let (rebased, bridged) = (is_rebased(alloc), is_bridged(alloc));
    let (apart, both) = (is_apart(alloc), over_both(alloc) == Ok(true));
    assert!(rt;
        composed && joined && rebased && bridged && apart && both,
        "{composed} {joined} {rebased} {bridged} {apart} {both}"
    );
}
