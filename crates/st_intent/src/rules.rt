//! All rules together.
ghost use Rattle.std.specs.Prelude.{◌≡◌, ◌↔◌, ◌<◌, true, not, nat_lt, length};
ghost use Rattle.std.specs.List.{list_all};
ghost use Rattle.st_intent.specs.inside.Rules.{has_nothing, schema_holds, others_hold, is_intent as is_intent_by};
ghost use Rattle.st_marks.specs.Intent.{IsIntent, is_new as is_new_by};

use crate::finds::is_new;
use crate::groups::{groups_hold, new_names_hold};
use crate::puts::puts_hold;
use crate::rings::no_ring_holds;
use st_marks::Intent;

// Whether an intent has nothing but perhaps a schema.
fn has_nothing(intent: &Intent) -> bool
    ensures { result ≡ has_nothing intent.now }
{
    intent.new.as_slice().is_empty()
        && intent.groups.as_slice().is_empty()
        && intent.clear.as_slice().is_empty()
        && intent.put.as_slice().is_empty()
        && intent.need.as_slice().is_empty()
}

// Whether a change of schema has nothing else.
fn schema_holds(intent: &Intent) -> bool
    ensures { result ≡ schema_holds intent.now intent.now.schema }
{
    match &intent.schema {
        None => true,
        Some(_) => has_nothing(intent),
    }
}

// Whether no cleared register has the empty key.
fn keys_hold(intent: &Intent) -> bool
    ensures { result ≡ list_all (λ f. nat_lt 0 (length f.key.0)) intent.now.clear }
{
    intent.clear.as_slice().iter().all(|f| f.key.0.len() > 0)
}

// Whether no needed node is new.
fn needs_hold(intent: &Intent) -> bool
    ensures { result ≡ list_all (λ n. not (is_new_by intent.now n)) intent.now.need }
{
    intent.need.as_slice().iter().all(|n| !is_new(intent, *n))
}

// Whether the rules on registers, needs, rings and the schema are obeyed.
fn others_hold(intent: &Intent) -> bool
    ensures { result ≡ others_hold intent.now }
{
    keys_hold(intent) && needs_hold(intent) && no_ring_holds(intent) && schema_holds(intent)
}

// Whether the tests of all rules pass.
fn all_hold(intent: &Intent) -> bool
    ensures { result ≡ is_intent_by intent.now }
{
    new_names_hold(intent) && groups_hold(intent) && puts_hold(intent) && others_hold(intent)
}

/// Whether an intent obeys the rules that an intent has to obey in itself. It takes the time of comparing all names of
/// one list with one another.
pub fn is_intent(intent: &Intent) -> bool
    ensures { (result ≡ true) ↔ IsIntent intent.now }
{
    all_hold(intent)
}
