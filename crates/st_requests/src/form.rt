//! Requests read from values, by their form alone.
ghost use Rattle.std.specs.Prelude.{◌≡◌, ◌∷◌, [], codes, option_map, IfOk};
ghost use Rattle.serde_json.specs.Find.{as_str};
ghost use Rattle.serde_json.specs.View.{view};
ghost use Rattle.st_mark_reader.specs.Reading.{member_of};
ghost use Rattle.st_requests.specs.Form.{carried_out, change_in, change_over, form_of, if_named, request_named, rev_in, step_back, step_in, step_over, taken_back, two_changes, two_steps};

use crate::request::Request;
use serde_json::Value;
use st_change_reader::{read_change, read_step};
use st_ids::Rev;
use st_mark_reader::{Plain, ReadNames, is_named};
use st_marks::{Change, Step};
use std::alloc::{AllocError, Global};

fn change_in(alloc: Global, value: &Value, name: &str) -> Result<Option<Change>, AllocError>
    ensures { IfOk result (λ o. o ≡ change_in name.now (view value.now)) }
{
    match value.get(name) {
        None => Ok(None),
        Some(member) => read_change(alloc, &Plain, member),
    }
}

fn step_in(alloc: Global, value: &Value, name: &str) -> Result<Option<Step>, AllocError>
    ensures { IfOk result (λ o. o ≡ step_in name.now (view value.now)) }
{
    match value.get(name) {
        None => Ok(None),
        Some(member) => read_step(alloc, &Plain, member),
    }
}

fn rev_in(value: &Value, name: &str) -> Option<Rev>
    ensures { result ≡ rev_in name.now (view value.now) }
{
    Plain.rev(value.get(name)?)
}

fn two_steps(alloc: Global, value: &Value) -> Result<Option<Request>, AllocError>
    ensures { IfOk result (λ o. o ≡ two_steps (view value.now)) }
{
    let Some(first) = step_in(alloc, value, "first")? else {
        return Ok(None);
    };
    match step_in(alloc, value, "then")? {
        None => Ok(None),
        Some(then) => Ok(Some(Request::Compose { first, then })),
    }
}

fn two_changes(alloc: Global, value: &Value) -> Result<Option<Request>, AllocError>
    ensures { IfOk result (λ o. o ≡ two_changes (view value.now)) }
{
    let Some(first) = change_in(alloc, value, "first")? else {
        return Ok(None);
    };
    match change_in(alloc, value, "then")? {
        None => Ok(None),
        Some(then) => Ok(Some(Request::Join { first, then })),
    }
}

fn step_back(alloc: Global, value: &Value) -> Result<Option<Request>, AllocError>
    ensures { IfOk result (λ o. o ≡ step_back (view value.now)) }
{
    match step_in(alloc, value, "step")? {
        None => Ok(None),
        Some(step) => Ok(Some(Request::Invert { step })),
    }
}

fn change_over(alloc: Global, value: &Value) -> Result<Option<Request>, AllocError>
    ensures { IfOk result (λ o. o ≡ change_over (view value.now)) }
{
    let Some(change) = change_in(alloc, value, "change")? else {
        return Ok(None);
    };
    match step_in(alloc, value, "over")? {
        None => Ok(None),
        Some(over) => Ok(Some(Request::Rebase { change, over })),
    }
}

fn step_over(alloc: Global, value: &Value) -> Result<Option<Request>, AllocError>
    ensures { IfOk result (λ o. o ≡ step_over (view value.now)) }
{
    let Some(change) = change_in(alloc, value, "change")? else {
        return Ok(None);
    };
    match step_in(alloc, value, "step")? {
        None => Ok(None),
        Some(step) => Ok(Some(Request::Bridge { change, step })),
    }
}

fn carried_out(alloc: Global, value: &Value) -> Result<Option<Request>, AllocError>
    ensures { IfOk result (λ o. o ≡ carried_out (view value.now)) }
{
    match change_in(alloc, value, "change")? {
        None => Ok(None),
        Some(change) => Ok(Some(Request::Effect { change })),
    }
}

fn taken_back(alloc: Global, value: &Value) -> Result<Option<Request>, AllocError>
    ensures { IfOk result (λ o. o ≡ taken_back (view value.now)) }
{
    let Some(rev) = rev_in(value, "rev") else {
        return Ok(None);
    };
    let Some(under) = rev_in(value, "under") else {
        return Ok(None);
    };
    match step_in(alloc, value, "step")? {
        None => Ok(None),
        Some(step) => Ok(Some(Request::Revert { step, rev, under })),
    }
}

fn if_compose(alloc: Global, value: &Value) -> Result<Option<Request>, AllocError>
    ensures { IfOk result (λ o. o ≡ if_named (codes "do" ∷ codes "first" ∷ codes "then" ∷ []) two_steps (view value.now)) }
{
    if is_named(value, &["do", "first", "then"]) {
        two_steps(alloc, value)
    } else {
        Ok(None)
    }
}

fn if_join(alloc: Global, value: &Value) -> Result<Option<Request>, AllocError>
    ensures { IfOk result (λ o. o ≡ if_named (codes "do" ∷ codes "first" ∷ codes "then" ∷ []) two_changes (view value.now)) }
{
    if is_named(value, &["do", "first", "then"]) {
        two_changes(alloc, value)
    } else {
        Ok(None)
    }
}

fn if_invert(alloc: Global, value: &Value) -> Result<Option<Request>, AllocError>
    ensures { IfOk result (λ o. o ≡ if_named (codes "do" ∷ codes "step" ∷ []) step_back (view value.now)) }
{
    if is_named(value, &["do", "step"]) {
        step_back(alloc, value)
    } else {
        Ok(None)
    }
}

fn if_rebase(alloc: Global, value: &Value) -> Result<Option<Request>, AllocError>
    ensures { IfOk result (λ o. o ≡ if_named (codes "change" ∷ codes "do" ∷ codes "over" ∷ []) change_over (view value.now)) }
{
    if is_named(value, &["change", "do", "over"]) {
        change_over(alloc, value)
    } else {
        Ok(None)
    }
}

fn if_bridge(alloc: Global, value: &Value) -> Result<Option<Request>, AllocError>
    ensures { IfOk result (λ o. o ≡ if_named (codes "change" ∷ codes "do" ∷ codes "step" ∷ []) step_over (view value.now)) }
{
    if is_named(value, &["change", "do", "step"]) {
        step_over(alloc, value)
    } else {
        Ok(None)
    }
}

fn if_effect(alloc: Global, value: &Value) -> Result<Option<Request>, AllocError>
    ensures { IfOk result (λ o. o ≡ if_named (codes "change" ∷ codes "do" ∷ []) carried_out (view value.now)) }
{
    if is_named(value, &["change", "do"]) {
        carried_out(alloc, value)
    } else {
        Ok(None)
    }
}

fn if_revert(alloc: Global, value: &Value) -> Result<Option<Request>, AllocError>
    ensures { IfOk result (λ o. o ≡ if_named (codes "do" ∷ codes "rev" ∷ codes "step" ∷ codes "under" ∷ []) taken_back (view value.now)) }
{
    if is_named(value, &["do", "rev", "step", "under"]) {
        taken_back(alloc, value)
    } else {
        Ok(None)
    }
}

// The request of a word, by the value's members.
fn request_named(alloc: Global, word: &str, value: &Value) -> Result<Option<Request>, AllocError>
    ensures { IfOk result (λ o. o ≡ request_named word.now (view value.now)) }
{
    if word == "compose" {
        if_compose(alloc, value)
    } else if word == "join" {
        if_join(alloc, value)
    } else if word == "invert" {
        if_invert(alloc, value)
    } else if word == "rebase" {
        if_rebase(alloc, value)
    } else if word == "bridge" {
        if_bridge(alloc, value)
    } else if word == "effect" {
        if_effect(alloc, value)
    } else if word == "revert" {
        if_revert(alloc, value)
    } else {
        Ok(None)
    }
}

// The word of a request.
fn word_of(value: &Value) -> Option<&str>
    ensures { option_map (λ t. t.now) result ≡ member_of as_str (codes "do") (view value.now) }
{
    value.get("do")?.as_str()
}

/// The request that a value is of the form of, if it is of one.
pub(crate) fn form_of(alloc: Global, value: &Value) -> Result<Option<Request>, AllocError>
    ensures { IfOk result (λ o. o ≡ form_of (view value.now)) }
{
    match word_of(value) {
        None => Ok(None),
        Some(word) => request_named(alloc, word, value),
    }
}
