//! What is answered to a header or a step, and the line of an answer.
ghost use Rattle.std.specs.Prelude.{◌≡◌, [], ◌∷◌, ◌++◌, codes, IfOk, OnOk};
ghost use Rattle.std.specs.List.{flat_map, join_by};
ghost use Rattle.serde_json.specs.Data.{object, member, no_members, number, unsigned, string, put};
ghost use Rattle.serde_json.specs.View.{view, members_view};
ghost use Rattle.serde_json.specs.Written.{compact_text};
ghost use Rattle.st_ids.specs.Names.{rev_text};
ghost use Rattle.st_script.specs.AnswerText.{ok_data, join_data, rev_data, sequence_data, ack_data, void_data, deliver_data, entry_data, reconnect_data, fork_data, revs_data, void_revs_data, commit_data, refusal_data, show_text, pending_text, answer_line};

use crate::refusal::{Refusal, refusal_value};
use serde_json::{Map, Value, json};
use st_ids::{List, NodeId, Rev, Text};
use st_json::write_line;
use st_marks::Verdict;
use std::alloc::{AllocError, Global};

/// The answer to a header or a step. The tree of `Show` and each of the changes of `Pending` are JSON texts; `void` of
/// `Pending` names the pending commits that are void, in their order. The revision of `Need` and
/// `Begin` is that of the transaction, and that of `Commit` is none where it made no commit; that
/// of `Undo` and `Upgrade` is the revision of the new commit. `branch` of `Fork` is the number of the new branch.
/// `void` of `Rebase` and `Merge` names the commits of the branch that are void on its parent, in
/// their order. The `reference` of `Ack` is the number of the last entry of the log that the client
/// received. `n` is the number of an entry of the log: of the client's own Join or Leave, or of the
/// one that was sequenced or delivered. `sent` of `Reconnect` is how many texts then wait to be
/// sent.
#[derive(Drop)]
pub enum Answer {
    Header,
    Join {
        n: u32,
        s: u32,
    },
    Insert {
        rev: Rev,
    },
    Remove {
        rev: Rev,
    },
    Move {
        rev: Rev,
    },
    Set {
        rev: Rev,
    },
    Clear {
        rev: Rev,
    },
    Need {
        rev: Rev,
    },
    Begin {
        rev: Rev,
    },
    Commit {
        rev: Option<Rev>,
    },
    Abort,
    Fork {
        branch: u32,
    },
    Rebase {
        void: List<Rev>,
    },
    Merge {
        void: List<Rev>,
    },
    DropBranch,
    Undo {
        rev: Rev,
    },
    Upgrade {
        rev: Rev,
    },
    Sequence {
        min: u32,
        n: u32,
    },
    Ack {
        reference: u32,
    },
    Deliver {
        n: u32,
        void: Verdict,
    },
    Leave {
        n: u32,
    },
    Drop {
        n: u32,
    },
    Reconnect {
        n: u32,
        sent: u32,
    },
    Show {
        tree: Text,
    },
    Pending {
        pending: List<Text>,
        void: List<Rev>,
    },
    No(Refusal),
}

fn ok_value(alloc: Global, word: &str) -> Result<Value, AllocError>
    ensures { IfOk result (λ v. view v ≡ ok_data word.now) }
{
    json!(in alloc; {"ok": word})
}

fn join_value(alloc: Global, n: u32, s: u32) -> Result<Value, AllocError>
    ensures { IfOk result (λ v. view v ≡ join_data n s) }
{
    json!(in alloc; {"n": n, "ok": "join", "s": s})
}

// The answer to an edit, or to a word of a transaction, with the revision of its commit.
fn rev_value(alloc: Global, word: &str, rev: Rev) -> Result<Value, AllocError>
    ensures { IfOk result (λ v. view v ≡ rev_data word.now rev) }
{
    let text = rev.text(alloc)?;
    let rev = text.as_str();
    json!(in alloc; {"ok": word, "rev": rev})
}

fn no_commit_value(alloc: Global) -> Result<Value, AllocError>
    ensures { IfOk result (λ v. view v ≡ commit_data None) }
{
    json!(in alloc; {"ok": "commit", "rev": null})
}

// The answer to the end of a transaction, with the revision of its commit, if it made one.
fn commit_value(alloc: Global, rev: Option<Rev>) -> Result<Value, AllocError>
    ensures { IfOk result (λ v. view v ≡ commit_data rev) }
{
    match rev {
        None => no_commit_value(alloc),
        Some(rev) => rev_value(alloc, "commit", rev),
    }
}

fn sequence_value(alloc: Global, min: u32, n: u32) -> Result<Value, AllocError>
    ensures { IfOk result (λ v. view v ≡ sequence_data min n) }
{
    json!(in alloc; {"min": min, "n": n, "ok": "sequence"})
}

fn ack_value(alloc: Global, reference: u32) -> Result<Value, AllocError>
    ensures { IfOk result (λ v. view v ≡ ack_data reference) }
{
    json!(in alloc; {"ok": "ack", "ref": reference})
}

fn schema_value(alloc: Global, under: Rev) -> Result<Value, AllocError>
    ensures { IfOk result (λ v. view v ≡ void_data (Verdict.Schema under)) }
{
    let text = under.text(alloc)?;
    let rev = text.as_str();
    json!(in alloc; {"schema": rev})
}

fn need_value(alloc: Global, node: NodeId) -> Result<Value, AllocError>
    ensures { IfOk result (λ v. view v ≡ void_data (Verdict.Need node)) }
{
    let text = node.0.text(alloc)?;
    let node = text.as_str();
    json!(in alloc; {"need": node})
}

fn cycle_value(alloc: Global, node: NodeId) -> Result<Value, AllocError>
    ensures { IfOk result (λ v. view v ≡ void_data (Verdict.Cycle node)) }
{
    let text = node.0.text(alloc)?;
    let node = text.as_str();
    json!(in alloc; {"cycle": node})
}

/// Why a commit is void, as it is told: null for a sound one.
pub fn void_value(alloc: Global, verdict: Verdict) -> Result<Value, AllocError>
    ensures { IfOk result (λ v. view v ≡ void_data verdict) }
{
    match verdict {
        Verdict::Sound => Ok(Value::Null),
        Verdict::Schema(under) => schema_value(alloc, under),
        Verdict::Need(node) => need_value(alloc, node),
        Verdict::Cycle(node) => cycle_value(alloc, node),
    }
}

// Puts the number of a delivery into its answer.
fn put_delivery(alloc: Global, members: &mut Map<String, Value>, n: u32) -> Result<(), AllocError>
    ensures { OnOk result (members_view members.new.entries
        ≡ put (codes "ok") (string (codes "deliver")) (put (codes "n") (number (unsigned n)) (members_view members.old.entries))) }
{
    serde_json::put(members, alloc, "n", Value::from(n))?;
    let word = String::from_str(alloc, "deliver")?;
    serde_json::put(members, alloc, "ok", Value::String(word))?;
    Ok(())
}

// Puts into it why the commit is void.
fn put_void(
    alloc: Global,
    members: &mut Map<String, Value>,
    void: Verdict,
) -> Result<(), AllocError>
    ensures { OnOk result (members_view members.new.entries ≡ put (codes "void") (void_data void) (members_view members.old.entries)) }
{
    let void = void_value(alloc, void)?;
    serde_json::put(members, alloc, "void", void)?;
    Ok(())
}

fn deliver_value(alloc: Global, n: u32, void: Verdict) -> Result<Value, AllocError>
    ensures { IfOk result (λ v. view v ≡ deliver_data n void) }
{
    let mut members = Map::new(alloc);
    put_delivery(alloc, &mut members, n)?;
    put_void(alloc, &mut members, void)?;
    Ok(Value::Object(members))
}

// The answer to a step that entered a Leave into the log, with its number there.
fn entry_value(alloc: Global, word: &str, n: u32) -> Result<Value, AllocError>
    ensures { IfOk result (λ v. view v ≡ entry_data word.now n) }
{
    json!(in alloc; {"n": n, "ok": word})
}

fn reconnect_value(alloc: Global, n: u32, sent: u32) -> Result<Value, AllocError>
    ensures { IfOk result (λ v. view v ≡ reconnect_data n sent) }
{
    json!(in alloc; {"n": n, "ok": "reconnect", "sent": sent})
}

fn fork_value(alloc: Global, branch: u32) -> Result<Value, AllocError>
    ensures { IfOk result (λ v. view v ≡ fork_data branch) }
{
    json!(in alloc; {"branch": branch, "ok": "fork"})
}

// A list of revisions.
fn revs_value(alloc: Global, revs: &List<Rev>) -> Result<Value, AllocError>
    ensures { IfOk result (λ v. view v ≡ revs_data revs.now) }
{
    let mut items = Vec::new(alloc);
    for rev in revs.as_slice() {
        items.push(rev_item(alloc, *rev)?)?;
    }
    Ok(Value::Array(items))
}

fn rev_item(alloc: Global, rev: Rev) -> Result<Value, AllocError>
    ensures { IfOk result (λ v. view v ≡ string (rev_text rev)) }
{
    let text = rev.text(alloc)?;
    Ok(Value::String(String::from_str(alloc, text.as_str())?))
}

// The answer to a rebase or a merge, with the revisions of the commits that are void there.
fn void_revs_value(alloc: Global, word: &str, void: &List<Rev>) -> Result<Value, AllocError>
    ensures { IfOk result (λ v. view v ≡ void_revs_data word.now void.now) }
{
    let revs = revs_value(alloc, void)?;
    json!(in alloc; {"ok": word, "void": revs})
}

// The line of a tree, which is a JSON text.
fn show_line(alloc: Global, tree: &str) -> Result<Text, AllocError>
    ensures { IfOk result (λ t. t ≡ show_text tree.now ++ 10 ∷ []) }
{
    let mut line = Text::from_str(alloc, "{\"ok\":\"show\",\"tree\":")?;
    line.push_str(tree)?;
    line.push_str("}")?;
    line.push_str("\n")?;
    Ok(line)
}

// Puts texts behind a line, each with a comma before it.
fn push_others(line: &mut Text, texts: &[Text]) -> Result<(), AllocError>
    ensures { OnOk result (line.new ≡ line.old ++ flat_map (λ t. codes "," ++ t) texts.now) }
{
    for text in texts {
        line.push_str(",")?;
        line.push_str(text.as_str())?;
    }
    Ok(())
}

// Puts texts behind a line, with a comma between each two.
fn push_texts(line: &mut Text, texts: &[Text]) -> Result<(), AllocError>
    ensures { OnOk result (line.new ≡ line.old ++ join_by (λ t. t) (codes ",") texts.now) }
{
    let Some((first, others)) = texts.split_first() else {
        return Ok(());
    };
    line.push_str(first.as_str())?;
    push_others(line, others)
}

// The JSON text of a list of revisions.
#[tactic(auto, using(crate::proofs::Revisions::list_plain))]
fn revs_text(alloc: Global, revs: &List<Rev>) -> Result<Text, AllocError>
    ensures { IfOk result (λ t. t ≡ compact_text (revs_data revs.now)) }
{
    let value = revs_value(alloc, revs)?;
    Ok(Text::from_string(value.to_string(alloc)?))
}

// Puts the changes behind a line, and the text of the list of those that are void.
fn push_pending(line: &mut Text, changes: &[Text], void: &str) -> Result<(), AllocError>
    ensures { OnOk result (line.new ≡ line.old ++ join_by (λ t. t) (codes ",") changes.now ++ codes "],\"void\":" ++ void.now) }
{
    push_texts(line, changes)?;
    line.push_str("],\"void\":")?;
    line.push_str(void)?;
    Ok(())
}

// The line of changes, which are JSON texts, and of the revisions of those that are void.
fn pending_line(alloc: Global, changes: &List<Text>, void: &List<Rev>) -> Result<Text, AllocError>
    ensures { IfOk result (λ t. t ≡ pending_text changes.now void.now ++ 10 ∷ []) }
{
    let void = revs_text(alloc, void)?;
    let mut line = Text::from_str(alloc, "{\"ok\":\"pending\",\"pending\":[")?;
    push_pending(&mut line, changes.as_slice(), void.as_str())?;
    line.push_str("}")?;
    line.push_str("\n")?;
    Ok(line)
}

fn ok_line(alloc: Global, word: &str) -> Result<Text, AllocError>
    ensures { IfOk result (λ t. t ≡ compact_text (ok_data word.now) ++ 10 ∷ []) }
{
    let value = ok_value(alloc, word)?;
    write_line(alloc, &value)
}

fn join_line(alloc: Global, n: u32, s: u32) -> Result<Text, AllocError>
    ensures { IfOk result (λ t. t ≡ compact_text (join_data n s) ++ 10 ∷ []) }
{
    let value = join_value(alloc, n, s)?;
    write_line(alloc, &value)
}

fn rev_line(alloc: Global, word: &str, rev: Rev) -> Result<Text, AllocError>
    ensures { IfOk result (λ t. t ≡ compact_text (rev_data word.now rev) ++ 10 ∷ []) }
{
    let value = rev_value(alloc, word, rev)?;
    write_line(alloc, &value)
}

fn commit_line(alloc: Global, rev: Option<Rev>) -> Result<Text, AllocError>
    ensures { IfOk result (λ t. t ≡ compact_text (commit_data rev) ++ 10 ∷ []) }
{
    let value = commit_value(alloc, rev)?;
    write_line(alloc, &value)
}

fn sequence_line(alloc: Global, min: u32, n: u32) -> Result<Text, AllocError>
    ensures { IfOk result (λ t. t ≡ compact_text (sequence_data min n) ++ 10 ∷ []) }
{
    let value = sequence_value(alloc, min, n)?;
    write_line(alloc, &value)
}

fn ack_line(alloc: Global, reference: u32) -> Result<Text, AllocError>
    ensures { IfOk result (λ t. t ≡ compact_text (ack_data reference) ++ 10 ∷ []) }
{
    let value = ack_value(alloc, reference)?;
    write_line(alloc, &value)
}

fn deliver_line(alloc: Global, n: u32, void: Verdict) -> Result<Text, AllocError>
    ensures { IfOk result (λ t. t ≡ compact_text (deliver_data n void) ++ 10 ∷ []) }
{
    let value = deliver_value(alloc, n, void)?;
    write_line(alloc, &value)
}

fn entry_line(alloc: Global, word: &str, n: u32) -> Result<Text, AllocError>
    ensures { IfOk result (λ t. t ≡ compact_text (entry_data word.now n) ++ 10 ∷ []) }
{
    let value = entry_value(alloc, word, n)?;
    write_line(alloc, &value)
}

fn reconnect_line(alloc: Global, n: u32, sent: u32) -> Result<Text, AllocError>
    ensures { IfOk result (λ t. t ≡ compact_text (reconnect_data n sent) ++ 10 ∷ []) }
{
    let value = reconnect_value(alloc, n, sent)?;
    write_line(alloc, &value)
}

fn fork_line(alloc: Global, branch: u32) -> Result<Text, AllocError>
    ensures { IfOk result (λ t. t ≡ compact_text (fork_data branch) ++ 10 ∷ []) }
{
    let value = fork_value(alloc, branch)?;
    write_line(alloc, &value)
}

fn void_revs_line(alloc: Global, word: &str, void: &List<Rev>) -> Result<Text, AllocError>
    ensures { IfOk result (λ t. t ≡ compact_text (void_revs_data word.now void.now) ++ 10 ∷ []) }
{
    let value = void_revs_value(alloc, word, void)?;
    write_line(alloc, &value)
}

fn no_line(alloc: Global, refusal: Refusal) -> Result<Text, AllocError>
    ensures { IfOk result (λ t. t ≡ compact_text (refusal_data refusal) ++ 10 ∷ []) }
{
    let value = refusal_value(alloc, refusal)?;
    write_line(alloc, &value)
}

/// The line of an answer, with its line feed.
pub fn answer_line(alloc: Global, answer: &Answer) -> Result<Text, AllocError>
    ensures { IfOk result (λ t. t ≡ answer_line answer.now) }
{
    match answer {
        Answer::Header => ok_line(alloc, "header"),
        Answer::Join { n, s } => join_line(alloc, *n, *s),
        Answer::Insert { rev } => rev_line(alloc, "insert", *rev),
        Answer::Remove { rev } => rev_line(alloc, "remove", *rev),
        Answer::Move { rev } => rev_line(alloc, "move", *rev),
        Answer::Set { rev } => rev_line(alloc, "set", *rev),
        Answer::Clear { rev } => rev_line(alloc, "clear", *rev),
        Answer::Need { rev } => rev_line(alloc, "need", *rev),
        Answer::Begin { rev } => rev_line(alloc, "begin", *rev),
        Answer::Commit { rev } => commit_line(alloc, *rev),
        Answer::Abort => ok_line(alloc, "abort"),
        Answer::Fork { branch } => fork_line(alloc, *branch),
        Answer::Rebase { void } => void_revs_line(alloc, "rebase", void),
        Answer::Merge { void } => void_revs_line(alloc, "merge", void),
        Answer::DropBranch => ok_line(alloc, "drop_branch"),
        Answer::Undo { rev } => rev_line(alloc, "undo", *rev),
        Answer::Upgrade { rev } => rev_line(alloc, "upgrade", *rev),
        Answer::Sequence { min, n } => sequence_line(alloc, *min, *n),
        Answer::Ack { reference } => ack_line(alloc, *reference),
        Answer::Deliver { n, void } => deliver_line(alloc, *n, *void),
        Answer::Leave { n } => entry_line(alloc, "leave", *n),
        Answer::Drop { n } => entry_line(alloc, "drop", *n),
        Answer::Reconnect { n, sent } => reconnect_line(alloc, *n, *sent),
        Answer::Show { tree } => show_line(alloc, tree.as_str()),
        Answer::Pending { pending, void } => pending_line(alloc, pending, void),
        Answer::No(refusal) => no_line(alloc, *refusal),
    }
}
