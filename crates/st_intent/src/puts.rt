//! The rules on puts.
ghost use Rattle.std.specs.Prelude.{◌≡◌};
ghost use Rattle.std.specs.List.{list_all};
ghost use Rattle.st_intent.specs.inside.Rules.{is_nowhere, fills_cleared, put_holds, puts_hold};

use crate::distinct::{put_cells_are_distinct, put_registers_are_distinct, puts_are_distinct};
use crate::finds::{is_cleared, is_new, is_put};
use st_ids::{Atom, NodeId, Rev};
use st_marks::{Intent, Put, To};

// Whether a put leads nowhere.
fn is_nowhere(to: &To) -> bool
    ensures { result ≡ is_nowhere to.now }
{
    match to {
        To::Nowhere => true,
        _ => false,
    }
}

// Whether the register that a put fills is cleared.
fn fills_cleared(intent: &Intent, to: &To) -> bool
    ensures { result ≡ fills_cleared intent.now to.now }
{
    match to {
        To::Register(field) => is_cleared(intent, field),
        _ => true,
    }
}

// Whether a put by itself obeys the rules.
fn put_holds(intent: &Intent, put: &Put) -> bool
    ensures { result ≡ put_holds intent.now put.now }
{
    !(is_new(intent, put.node) && is_nowhere(&put.to)) && fills_cleared(intent, &put.to)
}

// Whether each put by itself obeys the rules.
fn each_put_holds(intent: &Intent) -> bool
    ensures { result ≡ list_all (put_holds intent.now) intent.now.put }
{
    intent.put.as_slice().iter().all(|p| put_holds(intent, p))
}

/// Whether the puts obey the rules.
pub fn puts_hold(intent: &Intent) -> bool
    ensures { result ≡ puts_hold intent.now }
{
    let root = NodeId(Atom {
        rev: Rev { session: 0, num: 0 },
        at: 0,
    });
    let puts = intent.put.as_slice();
    each_put_holds(intent)
        && !is_put(intent, root)
        && puts_are_distinct(puts)
        && put_cells_are_distinct(puts)
        && put_registers_are_distinct(puts)
}
