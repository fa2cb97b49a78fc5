//! Steps written as lines.
ghost use Rattle.std.specs.Prelude.{ℕ, List as Seq, ◌≡◌, ◌≤◌, false, true, [], ◌∷◌, ◌++◌, Some, Ok, Err, codes, map, IfOk, OnOk};
ghost use Rattle.serde_json.specs.Data.{number, unsigned, string, array, object, no_members, member, put, depth};
ghost use Rattle.serde_json.specs.Read.{max_depth};
ghost use Rattle.serde_json.specs.View.{view as value_view, members_view};
ghost use Rattle.serde_json.specs.Written.{has_float, compact_text};
ghost use Rattle.st_ids.specs.Or.{IfRefused};
ghost use Rattle.st_json.specs.Line.{line_value};
ghost use Rattle.st_schema.specs.Shape.{has_shape, all_have_shape};
ghost use Rattle.st_schema.specs.TreeText.{tree_data, trees_data};
ghost use Rattle.st_schema.specs.Written.{schema_data};
ghost use Rattle.st_tree.specs.Node.{view, trees_view};
ghost use Rattle.st_tree.specs.Size.{check_of, check_items};
ghost use Rattle.st_script.specs.Line.{step_of_line};
ghost use Rattle.st_script.specs.Steps.{edit_view, step_view};
ghost use Rattle.st_script.specs.StepText.{places_data, path_data, items_data, plain_data, join_data, actor_members, need_data, undo_data, upgrade_data, site_members, edit_data, step_data, step_text, edit_limits, limits_of, edit_has_shape, trees_have_shape, IsReadBack, FitsLine};

use crate::step::{Act, EditAct, TraceStep};
use serde_json::{Map, Value};
use st_idcodec::uuid_value;
use st_ids::{Key, List, Or, Path, Place, Rev, Text};
use st_schema::{Schema, write_tree};
use st_tree::{Tree, TreeFault, check, check_trees};
use std::alloc::{AllocError, Global};

// Puts the key and the index of a place at the end.
fn push_place(alloc: Global, place: &Place, items: &mut Vec<Value>) -> Result<(), AllocError>
    ensures { OnOk result (map value_view items.new.items ≡ map value_view items.old.items ++ places_data (place.now ∷ [])) }
{
    items.push(Value::String(String::from_str(alloc, place.key.0.as_str())?))?;
    items.push(Value::from(place.index))?;
    Ok(())
}

// The keys and indexes of a path in turn.
fn path_value(alloc: Global, path: &Path) -> Result<Value, AllocError>
    ensures { IfOk result (λ v. value_view v ≡ path_data path.now) }
{
    let mut items = Vec::new(alloc);
    for place in path.as_slice() {
        push_place(alloc, place, &mut items)?;
    }
    Ok(Value::Array(items))
}

// The value of a tree within the limits.
fn tree_value(alloc: Global, tree: &Tree) -> Result<Value, AllocError>
    requires { check_of (view tree.now) ≡ Ok tt }
    ensures { IfOk result (λ v. has_shape (view tree.now) ≡ true → value_view v ≡ tree_data (view tree.now)) }
{
    match write_tree(alloc, tree) {
        Ok(value) => Ok(value),
        Err(Or::NoMemory) => Err(AllocError),
        Err(Or::Fault(_)) => unreachable!(),
    }
}

// The values of trees that are within the limits together.
fn items_value(alloc: Global, trees: &List<Tree>) -> Result<Value, AllocError>
    requires { check_items (trees_view trees.now) ≡ Ok tt }
    ensures { IfOk result (λ v. all_have_shape (trees_view trees.now) ≡ true → value_view v ≡ array (trees_data (trees_view trees.now))) }
{
    let mut items = Vec::new(alloc);
    for tree in trees.as_slice() {
        items.push(tree_value(alloc, tree)?)?;
    }
    Ok(Value::Array(items))
}

// Puts a member into an object.
#[tactic(auto, using(crate::proofs::Written::member_put))]
fn put_value(
    alloc: Global,
    members: &mut Map<String, Value>,
    name: &str,
    value: Value,
) -> Result<(), AllocError>
    ensures { OnOk result (members_view members.new.entries ≡ put name.now (value_view value) (members_view members.old.entries)) }
{
    members.insert(String::from_str(alloc, name)?, value)?;
    Ok(())
}

fn put_text(
    alloc: Global,
    members: &mut Map<String, Value>,
    name: &str,
    text: &str,
) -> Result<(), AllocError>
    ensures { OnOk result (members_view members.new.entries ≡ put name.now (string text.now) (members_view members.old.entries)) }
{
    let text = Value::String(String::from_str(alloc, text)?);
    put_value(alloc, members, name, text)
}

fn put_number(
    alloc: Global,
    members: &mut Map<String, Value>,
    name: &str,
    count: u32,
) -> Result<(), AllocError>
    ensures { OnOk result (members_view members.new.entries ≡ put name.now (number (unsigned count)) (members_view members.old.entries)) }
{
    put_value(alloc, members, name, Value::from(count))
}

fn put_path(
    alloc: Global,
    members: &mut Map<String, Value>,
    name: &str,
    path: &Path,
) -> Result<(), AllocError>
    ensures { OnOk result (members_view members.new.entries ≡ put name.now (path_data path.now) (members_view members.old.entries)) }
{
    let path = path_value(alloc, path)?;
    put_value(alloc, members, name, path)
}

// A step that names a client alone.
fn plain_value(alloc: Global, word: &str, client: &Text) -> Result<Value, AllocError>
    ensures { IfOk result (λ v. value_view v ≡ plain_data word.now client.now) }
{
    let mut members = Map::new(alloc);
    put_text(alloc, &mut members, "client", client.as_str())?;
    put_text(alloc, &mut members, "do", word)?;
    Ok(Value::Object(members))
}

// A join of a session with a UUID that is told.
fn told_join_value(alloc: Global, client: &Text, uuid: u128) -> Result<Value, AllocError>
    ensures { IfOk result (λ v. value_view v ≡ join_data client.now (Some uuid)) }
{
    let mut members = Map::new(alloc);
    put_text(alloc, &mut members, "client", client.as_str())?;
    put_text(alloc, &mut members, "do", "join")?;
    let uuid = uuid_value(alloc, uuid)?;
    put_value(alloc, &mut members, "uuid", uuid)?;
    Ok(Value::Object(members))
}

// A join, with the UUID of its session if one is told.
fn join_value(alloc: Global, client: &Text, uuid: Option<u128>) -> Result<Value, AllocError>
    ensures { IfOk result (λ v. value_view v ≡ join_data client.now uuid) }
{
    match uuid {
        None => plain_value(alloc, "join", client),
        Some(uuid) => told_join_value(alloc, client, uuid),
    }
}

// An undo of the commit of a revision.
fn undo_value(alloc: Global, client: &Text, rev: Rev) -> Result<Value, AllocError>
    ensures { IfOk result (λ v. value_view v ≡ undo_data client.now rev) }
{
    let mut members = Map::new(alloc);
    put_text(alloc, &mut members, "client", client.as_str())?;
    put_text(alloc, &mut members, "do", "undo")?;
    let rev = rev.text(alloc)?;
    put_text(alloc, &mut members, "rev", rev.as_str())?;
    Ok(Value::Object(members))
}

// Puts a schema.
fn put_schema(
    alloc: Global,
    members: &mut Map<String, Value>,
    schema: &Schema,
) -> Result<(), AllocError>
    ensures { OnOk result (members_view members.new.entries ≡ put (codes "schema") (schema_data schema.now) (members_view members.old.entries)) }
{
    let schema = schema.value(alloc)?;
    put_value(alloc, members, "schema", schema)
}

// An upgrade to a schema.
fn upgrade_value(alloc: Global, client: &Text, schema: &Schema) -> Result<Value, AllocError>
    ensures { IfOk result (λ v. value_view v ≡ upgrade_data client.now schema.now) }
{
    let mut members = Map::new(alloc);
    put_text(alloc, &mut members, "client", client.as_str())?;
    put_text(alloc, &mut members, "do", "upgrade")?;
    put_schema(alloc, &mut members, schema)?;
    Ok(Value::Object(members))
}

// Who does a step, and on which branch, with the step's word.
fn actor_members(
    alloc: Global,
    word: &str,
    client: &Text,
    branch: u32,
) -> Result<Map<String, Value>, AllocError>
    ensures { IfOk result (λ m. members_view m.entries ≡ actor_members word.now client.now branch) }
{
    let mut members = Map::new(alloc);
    put_number(alloc, &mut members, "branch", branch)?;
    put_text(alloc, &mut members, "client", client.as_str())?;
    put_text(alloc, &mut members, "do", word)?;
    Ok(members)
}

// A step that names a client and a branch alone.
fn actor_value(alloc: Global, word: &str, step: &TraceStep) -> Result<Value, AllocError>
    ensures { IfOk result (λ v. value_view v ≡ object (actor_members word.now step.now.client step.now.branch)) }
{
    let members = actor_members(alloc, word, &step.client, step.branch)?;
    Ok(Value::Object(members))
}

// A need of the node that a path leads to.
fn need_value(alloc: Global, step: &TraceStep, at: &Path) -> Result<Value, AllocError>
    ensures { IfOk result (λ v. value_view v ≡ need_data step.now.client step.now.branch at.now) }
{
    let mut members = actor_members(alloc, "need", &step.client, step.branch)?;
    put_path(alloc, &mut members, "at", at)?;
    Ok(Value::Object(members))
}

// Who edits which field, with the step's word.
fn site_members(
    alloc: Global,
    word: &str,
    step: &TraceStep,
    at: &Path,
    key: &Key,
) -> Result<Map<String, Value>, AllocError>
    ensures { IfOk result (λ m. members_view m.entries ≡ site_members word.now step.now.client step.now.branch at.now key.now) }
{
    let mut members = actor_members(alloc, word, &step.client, step.branch)?;
    put_path(alloc, &mut members, "at", at)?;
    put_text(alloc, &mut members, "key", key.0.as_str())?;
    Ok(members)
}

// A step over some items of a row, with its other members.
fn span_value(
    alloc: Global,
    others: Map<String, Value>,
    index: u32,
    count: u32,
) -> Result<Value, AllocError>
    ensures { IfOk result (λ v. value_view v ≡ object (put (codes "count") (number (unsigned count)) (put (codes "index") (number (unsigned index)) (members_view others.entries)))) }
{
    let mut members = others;
    put_number(alloc, &mut members, "index", index)?;
    put_number(alloc, &mut members, "count", count)?;
    Ok(Value::Object(members))
}

// Puts where items are moved to.
fn put_goal(
    alloc: Global,
    members: &mut Map<String, Value>,
    to: &Path,
    to_key: &Key,
    to_index: u32,
) -> Result<(), AllocError>
    ensures { OnOk result (members_view members.new.entries ≡ put (codes "to_index") (number (unsigned to_index)) (put (codes "to_key") (string to_key.now.0) (put (codes "to") (path_data to.now) (members_view members.old.entries)))) }
{
    put_path(alloc, members, "to", to)?;
    put_text(alloc, members, "to_key", to_key.0.as_str())?;
    put_number(alloc, members, "to_index", to_index)
}

// An insert, with its other members.
fn insert_value(
    alloc: Global,
    others: Map<String, Value>,
    index: u32,
    items: &List<Tree>,
) -> Result<Value, AllocError>
    requires { check_items (trees_view items.now) ≡ Ok tt }
    ensures { IfOk result (λ v. all_have_shape (trees_view items.now) ≡ true → value_view v ≡ object (put (codes "items") (array (trees_data (trees_view items.now))) (put (codes "index") (number (unsigned index)) (members_view others.entries)))) }
{
    let mut members = others;
    put_number(alloc, &mut members, "index", index)?;
    let items = items_value(alloc, items)?;
    put_value(alloc, &mut members, "items", items)?;
    Ok(Value::Object(members))
}

// A set, with its other members.
fn set_value(alloc: Global, others: Map<String, Value>, item: &Tree) -> Result<Value, AllocError>
    requires { check_of (view item.now) ≡ Ok tt }
    ensures { IfOk result (λ v. has_shape (view item.now) ≡ true → value_view v ≡ object (put (codes "item") (tree_data (view item.now)) (members_view others.entries))) }
{
    let mut members = others;
    let item = tree_value(alloc, item)?;
    put_value(alloc, &mut members, "item", item)?;
    Ok(Value::Object(members))
}

// The value of a step that is an edit whose trees are within the limits.
fn edit_value(alloc: Global, step: &TraceStep, edit: &EditAct) -> Result<Value, AllocError>
    requires { edit_limits (edit_view edit.now) ≡ Ok tt }
    ensures { IfOk result (λ v. edit_has_shape (edit_view edit.now) ≡ true
        → value_view v ≡ edit_data step.now.client step.now.branch (edit_view edit.now)) }
{
    match edit {
        EditAct::Insert {
            at,
            key,
            index,
            items,
        } => {
            let others = site_members(alloc, "insert", step, at, key)?;
            insert_value(alloc, others, *index, items)
        }
        EditAct::Remove {
            at,
            key,
            index,
            count,
        } => {
            let others = site_members(alloc, "remove", step, at, key)?;
            span_value(alloc, others, *index, *count)
        }
        EditAct::Move {
            at,
            key,
            index,
            count,
            to,
            to_key,
            to_index,
        } => {
            let mut others = site_members(alloc, "move", step, at, key)?;
            put_goal(alloc, &mut others, to, to_key, *to_index)?;
            span_value(alloc, others, *index, *count)
        }
        EditAct::Set { at, key, item } => {
            let others = site_members(alloc, "set", step, at, key)?;
            set_value(alloc, others, item)
        }
        EditAct::Clear { at, key } => {
            let members = site_members(alloc, "clear", step, at, key)?;
            Ok(Value::Object(members))
        }
    }
}

// The value of a step whose trees are within the limits.
fn step_value(alloc: Global, step: &TraceStep) -> Result<Value, AllocError>
    requires { limits_of (step_view step.now) ≡ Ok tt }
    ensures { IfOk result (λ v. trees_have_shape (step_view step.now) ≡ true → value_view v ≡ step_data (step_view step.now)) }
{
    match &step.act {
        Act::Join { uuid } => join_value(alloc, &step.client, *uuid),
        Act::Edit(edit) => edit_value(alloc, step, edit),
        Act::Need { at } => need_value(alloc, step, at),
        Act::Begin => actor_value(alloc, "begin", step),
        Act::Commit => actor_value(alloc, "commit", step),
        Act::Abort => actor_value(alloc, "abort", step),
        Act::Fork => actor_value(alloc, "fork", step),
        Act::Rebase => actor_value(alloc, "rebase", step),
        Act::Merge => actor_value(alloc, "merge", step),
        Act::DropBranch => actor_value(alloc, "drop_branch", step),
        Act::Undo { rev } => undo_value(alloc, &step.client, *rev),
        Act::Upgrade { schema } => upgrade_value(alloc, &step.client, schema),
        Act::Sequence => plain_value(alloc, "sequence", &step.client),
        Act::Ack => plain_value(alloc, "ack", &step.client),
        Act::Deliver => plain_value(alloc, "deliver", &step.client),
        Act::Leave => plain_value(alloc, "leave", &step.client),
        Act::Drop => plain_value(alloc, "drop", &step.client),
        Act::Reconnect => plain_value(alloc, "reconnect", &step.client),
        Act::Show => actor_value(alloc, "show", step),
        Act::Pending => plain_value(alloc, "pending", &step.client),
    }
}

// The line of a value, with its line feed.
fn value_line(alloc: Global, value: &Value) -> Result<Text, AllocError>
    ensures text { IfOk result (λ t. has_float (value_view value.now) ≡ false → t ≡ compact_text (value_view value.now) ++ 10 ∷ []) }
    ensures back { OnOk result (has_float (value_view value.now) ≡ false → depth (value_view value.now) ≤ max_depth → line_value (compact_text (value_view value.now)) ≡ Some (value_view value.now)) }
{
    let mut line = value.to_string(alloc)?;
    line.push_str("\n")?;
    Ok(Text::from_string(line))
}

// Nothing, where the trees of an edit keep the limits.
fn edit_limits(edit: &EditAct) -> Result<(), TreeFault>
    ensures { result ≡ edit_limits (edit_view edit.now) }
{
    match edit {
        EditAct::Insert { items, .. } => check_trees(items),
        EditAct::Set { item, .. } => check(item),
        EditAct::Remove { .. } => Ok(()),
        EditAct::Move { .. } => Ok(()),
        EditAct::Clear { .. } => Ok(()),
    }
}

// Nothing, where the trees of a step keep the limits.
fn limits(step: &TraceStep) -> Result<(), TreeFault>
    ensures { result ≡ limits_of (step_view step.now) }
{
    match &step.act {
        Act::Join { .. } => Ok(()),
        Act::Edit(edit) => edit_limits(edit),
        Act::Need { .. } => Ok(()),
        Act::Begin => Ok(()),
        Act::Commit => Ok(()),
        Act::Abort => Ok(()),
        Act::Fork => Ok(()),
        Act::Rebase => Ok(()),
        Act::Merge => Ok(()),
        Act::DropBranch => Ok(()),
        Act::Undo { .. } => Ok(()),
        Act::Upgrade { .. } => Ok(()),
        Act::Sequence => Ok(()),
        Act::Ack => Ok(()),
        Act::Deliver => Ok(()),
        Act::Leave => Ok(()),
        Act::Drop => Ok(()),
        Act::Reconnect => Ok(()),
        Act::Show => Ok(()),
        Act::Pending => Ok(()),
    }
}

// The line of a step whose trees are within the limits.
fn line_within(alloc: Global, step: &TraceStep) -> Result<Text, AllocError>
    requires { limits_of (step_view step.now) ≡ Ok tt }
    ensures text { IfOk result (λ t. trees_have_shape (step_view step.now) ≡ true → t ≡ step_text (step_view step.now) ++ 10 ∷ []) }
    ensures back { OnOk result (trees_have_shape (step_view step.now) ≡ true → FitsLine (step_view step.now) → step_of_line (step_text (step_view step.now)) ≡ Ok (step_view step.now)) }
    ensures again { IfOk result (λ t. (bytes : Seq ℕ) → step_of_line bytes ≡ Ok (step_view step.now) → IsReadBack t (step_view step.now)) }
{
    let value = step_value(alloc, step)?;
    value_line(alloc, &value)
}

/// The line of a step, with its line feed: every member that the step has, also one that may be
/// left out, in byte order of the names. A join, an undo, an upgrade, a sequence, an ack, a deliver,
/// a leave, a drop, a reconnect and a pending have no member for the branch, which is 0 there. A step whose
/// trees pass the limits is refused, an insert's together. The line is told where the trees have the shape of trees that values show,
/// and is read as the step. So it is of each step that was read of a line.
pub fn step_line(alloc: Global, step: &TraceStep) -> Result<Text, Or<TreeFault>>
    ensures text { IfOk result (λ t. trees_have_shape (step_view step.now) ≡ true → t ≡ step_text (step_view step.now) ++ 10 ∷ []) }
    ensures within { OnOk result (limits_of (step_view step.now) ≡ Ok tt) }
    ensures bad { IfRefused result (λ e. limits_of (step_view step.now) ≡ Err e) }
    ensures back { OnOk result (trees_have_shape (step_view step.now) ≡ true → FitsLine (step_view step.now) → step_of_line (step_text (step_view step.now)) ≡ Ok (step_view step.now)) }
    ensures again { IfOk result (λ t. (bytes : Seq ℕ) → step_of_line bytes ≡ Ok (step_view step.now) → IsReadBack t (step_view step.now)) }
{
    match limits(step) {
        Err(fault) => Err(Or::Fault(fault)),
        Ok(()) => Ok(line_within(alloc, step)?),
    }
}
