//! Why a step is refused, and how a refusal is written.
ghost use Rattle.std.specs.Prelude.{◌≡◌, IfOk};
ghost use Rattle.serde_json.specs.View.{view};
ghost use Rattle.st_script.specs.AnswerText.{limit_word, limit_data, no_data, no_node_data, not_allowed_data, gone_data, not_wider_data, refusal_data};

use serde_json::{Value, json};
use st_ids::{Limit, LimitOf};
use std::alloc::{AllocError, Global};

/// Why a step is refused. A refused step changes nothing.
#[derive(Clone, Copy, Debug, PartialEq, Eq)]
pub enum Refusal {
    /// A present client has the name.
    Taken,
    /// The span of the session's stable ids meets that of an earlier session.
    Clash,
    /// No present client has the name.
    NoClient,
    /// The client was dropped and has not connected again.
    NotConnected,
    /// The client is connected.
    Connected,
    /// The client has no such branch, or it is the main one, which has no parent.
    NoBranch,
    /// The client has a branch that was made of this one.
    HasChildren,
    /// The pair of that number, from 0, of a path leads to no live node.
    NoNode { depth: u32 },
    /// The node has no such field, or the field is not of a kind that the edit takes.
    Kind,
    /// An index, or an index plus a count, is past the row.
    Range,
    /// A node would be moved beneath itself.
    Inside,
    /// The schema does not allow the new or moved node of that number, from 0.
    NotAllowed { at: u32 },
    /// A transaction is open on the branch, or on the parent that it is merged into.
    Unfinished,
    /// No transaction is open on the branch.
    NotBegun,
    /// The revision is of no commit that the client received or has pending on its main branch.
    NoCommit,
    /// The revision is of another session's commit.
    NotOwn,
    /// The number of the commit is at or below the floor, down to which the log can't be undone.
    Gone { floor: u32 },
    /// The commit is void where the client stands.
    VoidCommit,
    /// The client's queue is empty.
    NothingToSend,
    /// The client received the whole log.
    NothingNew,
    /// The schema isn't wider than the one that is last in effect: the old type of that number, from 0,
    /// fails, or the root's list where it is the count of old types.
    NotWider { at: u32 },
    /// A count would pass its bound.
    Limit(Limit),
}

fn limit_word(of: LimitOf) -> &'static str
    ensures { result.now ≡ limit_word of }
{
    match of {
        LimitOf::Clients => "clients",
        LimitOf::Log => "log",
        LimitOf::Names => "names",
        LimitOf::Commit => "commit",
        LimitOf::Pending => "pending",
        LimitOf::Branches => "branches",
        LimitOf::Branch => "branch",
        LimitOf::Unsequenced => "unsequenced",
        LimitOf::Schemas => "schemas",
    }
}

fn limit_value(alloc: Global, limit: Limit) -> Result<Value, AllocError>
    ensures { IfOk result (λ v. view v ≡ limit_data limit) }
{
    let word = limit_word(limit.of);
    let kept = limit.kept;
    json!(in alloc; {"kept": kept, "no": "Limit", "of": word})
}

fn no_node_value(alloc: Global, depth: u32) -> Result<Value, AllocError>
    ensures { IfOk result (λ v. view v ≡ no_node_data depth) }
{
    json!(in alloc; {"depth": depth, "no": "NoNode"})
}

fn not_allowed_value(alloc: Global, at: u32) -> Result<Value, AllocError>
    ensures { IfOk result (λ v. view v ≡ not_allowed_data at) }
{
    json!(in alloc; {"at": at, "no": "NotAllowed"})
}

fn gone_value(alloc: Global, floor: u32) -> Result<Value, AllocError>
    ensures { IfOk result (λ v. view v ≡ gone_data floor) }
{
    json!(in alloc; {"floor": floor, "no": "Gone"})
}

fn not_wider_value(alloc: Global, at: u32) -> Result<Value, AllocError>
    ensures { IfOk result (λ v. view v ≡ not_wider_data at) }
{
    json!(in alloc; {"at": at, "no": "NotWider"})
}

fn no_value(alloc: Global, name: &str) -> Result<Value, AllocError>
    ensures { IfOk result (λ v. view v ≡ no_data name.now) }
{
    json!(in alloc; {"no": name})
}

// The value of a refusal.
pub(crate) fn refusal_value(alloc: Global, refusal: Refusal) -> Result<Value, AllocError>
    ensures { IfOk result (λ v. view v ≡ refusal_data refusal) }
{
    match refusal {
        Refusal::Taken => no_value(alloc, "Taken"),
        Refusal::Clash => no_value(alloc, "Clash"),
        Refusal::NoClient => no_value(alloc, "NoClient"),
        Refusal::NotConnected => no_value(alloc, "NotConnected"),
        Refusal::Connected => no_value(alloc, "Connected"),
        Refusal::NoBranch => no_value(alloc, "NoBranch"),
        Refusal::HasChildren => no_value(alloc, "HasChildren"),
        Refusal::NoNode { depth } => no_node_value(alloc, depth),
        Refusal::Kind => no_value(alloc, "Kind"),
        Refusal::Range => no_value(alloc, "Range"),
        Refusal::Inside => no_value(alloc, "Inside"),
        Refusal::NotAllowed { at } => not_allowed_value(alloc, at),
        Refusal::Unfinished => no_value(alloc, "Unfinished"),
        Refusal::NotBegun => no_value(alloc, "NotBegun"),
        Refusal::NoCommit => no_value(alloc, "NoCommit"),
        Refusal::NotOwn => no_value(alloc, "NotOwn"),
        Refusal::Gone { floor } => gone_value(alloc, floor),
        Refusal::VoidCommit => no_value(alloc, "VoidCommit"),
        Refusal::NothingToSend => no_value(alloc, "NothingToSend"),
        Refusal::NothingNew => no_value(alloc, "NothingNew"),
        Refusal::NotWider { at } => not_wider_value(alloc, at),
        Refusal::Limit(limit) => limit_value(alloc, limit),
    }
}
