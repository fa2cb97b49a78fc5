//! Steps read from the value of a line.
ghost use Rattle.std.specs.Prelude.{◌≡◌, codes, IfOk, option_map};
ghost use Rattle.serde_json.specs.View.{view};
ghost use Rattle.st_script.specs.Steps.{target_of, span_of, goal_of, act_view, step_view, step_word, plain_act, read_insert, read_remove, read_move, read_set, read_clear, read_join, read_need, read_undo, read_upgrade, read_edit, read_of, act_of, step_of};

use crate::member::{
    client, count, has_only, item, items, key_member, number_member, number_or_zero, path_member,
    rev_member, schema_member, uuid_member,
};
use crate::step::{Act, EditAct, TraceStep};
use serde_json::Value;
use st_ids::{Key, Path};
use std::alloc::{AllocError, Global};

// A field of a node.
#[derive(Drop)]
struct Target {
    at: Path,
    key: Key,
}

// Some items of a row.
#[derive(Clone, Copy)]
struct Span {
    index: u32,
    count: u32,
}

// Where items are moved to.
#[derive(Drop)]
struct Goal {
    to: Path,
    to_key: Key,
    to_index: u32,
}

fn read_target(
    alloc: Global,
    value: &Value,
    path: &str,
    key: &str,
) -> Result<Option<Target>, AllocError>
    ensures { IfOk result (λ t. t ≡ target_of path.now key.now (view value.now)) }
{
    let Some(at) = path_member(alloc, value, path)? else {
        return Ok(None);
    };
    match key_member(alloc, value, key)? {
        None => Ok(None),
        Some(key) => Ok(Some(Target { at, key })),
    }
}

fn read_span(value: &Value) -> Option<Span>
    ensures { result ≡ span_of (view value.now) }
{
    let index = number_member(value, "index")?;
    let count = count(value)?;
    Some(Span { index, count })
}

fn read_goal(alloc: Global, value: &Value) -> Result<Option<Goal>, AllocError>
    ensures { IfOk result (λ g. g ≡ goal_of (view value.now)) }
{
    let Some(to_index) = number_or_zero(value, "to_index") else {
        return Ok(None);
    };
    let Some(target) = read_target(alloc, value, "to", "to_key")? else {
        return Ok(None);
    };
    let Target { at, key } = target;
    Ok(Some(Goal {
        to: at,
        to_key: key,
        to_index,
    }))
}

fn read_insert(alloc: Global, value: &Value) -> Result<Option<Act>, AllocError>
    ensures { IfOk result (λ a. option_map act_view a ≡ read_insert (view value.now)) }
{
    if !has_only(value, "at branch client do index items key") {
        return Ok(None);
    }
    let Some(Target { at, key }) = read_target(alloc, value, "at", "key")? else {
        return Ok(None);
    };
    let Some(index) = number_member(value, "index") else {
        return Ok(None);
    };
    let Some(items) = items(alloc, value)? else {
        return Ok(None);
    };
    Ok(Some(Act::Edit(EditAct::Insert {
        at,
        key,
        index,
        items,
    })))
}

fn read_remove(alloc: Global, value: &Value) -> Result<Option<Act>, AllocError>
    ensures { IfOk result (λ a. option_map act_view a ≡ read_remove (view value.now)) }
{
    if !has_only(value, "at branch client count do index key") {
        return Ok(None);
    }
    let Some(Target { at, key }) = read_target(alloc, value, "at", "key")? else {
        return Ok(None);
    };
    let Some(Span { index, count }) = read_span(value) else {
        return Ok(None);
    };
    Ok(Some(Act::Edit(EditAct::Remove {
        at,
        key,
        index,
        count,
    })))
}

fn read_move(alloc: Global, value: &Value) -> Result<Option<Act>, AllocError>
    ensures { IfOk result (λ a. option_map act_view a ≡ read_move (view value.now)) }
{
    if !has_only(
        value,
        "at branch client count do index key to to_index to_key",
    ) {
        return Ok(None);
    }
    let Some(Target { at, key }) = read_target(alloc, value, "at", "key")? else {
        return Ok(None);
    };
    let Some(Span { index, count }) = read_span(value) else {
        return Ok(None);
    };
    let Some(goal) = read_goal(alloc, value)? else {
        return Ok(None);
    };
    let Goal {
        to,
        to_key,
        to_index,
    } = goal;
    Ok(Some(Act::Edit(EditAct::Move {
        at,
        key,
        index,
        count,
        to,
        to_key,
        to_index,
    })))
}

fn read_set(alloc: Global, value: &Value) -> Result<Option<Act>, AllocError>
    ensures { IfOk result (λ a. option_map act_view a ≡ read_set (view value.now)) }
{
    if !has_only(value, "at branch client do item key") {
        return Ok(None);
    }
    let Some(Target { at, key }) = read_target(alloc, value, "at", "key")? else {
        return Ok(None);
    };
    match item(alloc, value)? {
        None => Ok(None),
        Some(item) => Ok(Some(Act::Edit(EditAct::Set { at, key, item }))),
    }
}

fn read_clear(alloc: Global, value: &Value) -> Result<Option<Act>, AllocError>
    ensures { IfOk result (λ a. option_map act_view a ≡ read_clear (view value.now)) }
{
    if !has_only(value, "at branch client do key") {
        return Ok(None);
    }
    match read_target(alloc, value, "at", "key")? {
        None => Ok(None),
        Some(Target { at, key }) => Ok(Some(Act::Edit(EditAct::Clear { at, key }))),
    }
}

fn read_join(value: &Value) -> Option<Act>
    ensures { option_map act_view result ≡ read_join (view value.now) }
{
    if !has_only(value, "client do uuid") {
        return None;
    }
    let uuid = uuid_member(value)?;
    Some(Act::Join { uuid })
}

fn read_need(alloc: Global, value: &Value) -> Result<Option<Act>, AllocError>
    ensures { IfOk result (λ a. option_map act_view a ≡ read_need (view value.now)) }
{
    if !has_only(value, "at branch client do") {
        return Ok(None);
    }
    match path_member(alloc, value, "at")? {
        None => Ok(None),
        Some(at) => Ok(Some(Act::Need { at })),
    }
}

fn read_undo(value: &Value) -> Option<Act>
    ensures { option_map act_view result ≡ read_undo (view value.now) }
{
    if !has_only(value, "client do rev") {
        return None;
    }
    let rev = rev_member(value, "rev")?;
    Some(Act::Undo { rev })
}

fn read_upgrade(alloc: Global, value: &Value) -> Result<Option<Act>, AllocError>
    ensures { IfOk result (λ a. option_map act_view a ≡ read_upgrade (view value.now)) }
{
    if !has_only(value, "client do schema") {
        return Ok(None);
    }
    match schema_member(alloc, value)? {
        None => Ok(None),
        Some(schema) => Ok(Some(Act::Upgrade { schema })),
    }
}

// An act without members of its own, where a value has no members but those of the names.
fn plain(value: &Value, names: &str, act: Act) -> Option<Act>
    ensures { option_map act_view result ≡ plain_act names.now (act_view act) (view value.now) }
{
    if has_only(value, names) {
        Some(act)
    } else {
        None
    }
}

// The edit of a word.
fn read_edit(alloc: Global, word: &str, value: &Value) -> Result<Option<Act>, AllocError>
    ensures { IfOk result (λ a. option_map act_view a ≡ read_edit word.now (view value.now)) }
{
    match word {
        "insert" => read_insert(alloc, value),
        "remove" => read_remove(alloc, value),
        "move" => read_move(alloc, value),
        "set" => read_set(alloc, value),
        "clear" => read_clear(alloc, value),
        _ => Ok(None),
    }
}

// The act of a word, which is an edit's where it is no other act's.
fn read_of(alloc: Global, word: &str, value: &Value) -> Result<Option<Act>, AllocError>
    ensures { IfOk result (λ a. option_map act_view a ≡ read_of word.now (view value.now)) }
{
    match word {
        "join" => Ok(read_join(value)),
        "need" => read_need(alloc, value),
        "begin" => Ok(plain(value, "branch client do", Act::Begin)),
        "commit" => Ok(plain(value, "branch client do", Act::Commit)),
        "abort" => Ok(plain(value, "branch client do", Act::Abort)),
        "fork" => Ok(plain(value, "branch client do", Act::Fork)),
        "rebase" => Ok(plain(value, "branch client do", Act::Rebase)),
        "merge" => Ok(plain(value, "branch client do", Act::Merge)),
        "drop_branch" => Ok(plain(value, "branch client do", Act::DropBranch)),
        "undo" => Ok(read_undo(value)),
        "upgrade" => read_upgrade(alloc, value),
        "sequence" => Ok(plain(value, "client do", Act::Sequence)),
        "ack" => Ok(plain(value, "client do", Act::Ack)),
        "deliver" => Ok(plain(value, "client do", Act::Deliver)),
        "leave" => Ok(plain(value, "client do", Act::Leave)),
        "drop" => Ok(plain(value, "client do", Act::Drop)),
        "reconnect" => Ok(plain(value, "client do", Act::Reconnect)),
        "show" => Ok(plain(value, "branch client do", Act::Show)),
        "pending" => Ok(plain(value, "client do", Act::Pending)),
        _ => read_edit(alloc, word, value),
    }
}

// The word of a step.
fn word(value: &Value) -> Option<&str>
    ensures { option_map (λ t. t.now) result ≡ step_word (view value.now) }
{
    value.get("do")?.as_str()
}

// What a value does.
fn read_act(alloc: Global, value: &Value) -> Result<Option<Act>, AllocError>
    ensures { IfOk result (λ a. option_map act_view a ≡ act_of (view value.now)) }
{
    match word(value) {
        None => Ok(None),
        Some(word) => read_of(alloc, word, value),
    }
}

/// The step of a value: its client, its branch, and what it does.
pub(crate) fn read_step(alloc: Global, value: &Value) -> Result<Option<TraceStep>, AllocError>
    ensures { IfOk result (λ s. option_map step_view s ≡ step_of (view value.now)) }
{
    let Some(branch) = number_or_zero(value, "branch") else {
        return Ok(None);
    };
    let Some(client) = client(alloc, value)? else {
        return Ok(None);
    };
    match read_act(alloc, value)? {
        None => Ok(None),
        Some(act) => Ok(Some(TraceStep {
            client,
            branch,
            act,
        })),
    }
}
