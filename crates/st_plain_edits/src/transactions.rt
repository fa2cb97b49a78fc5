//! Transactions that are open on a client's main line.
ghost use Rattle.std.specs.Prelude.{◌≡◌, ◌+◌, ◌^◌, ◌<◌, ◌≤◌, ◌-◌, min, length, IfOk, IfSome, OnOk, Ok};
ghost use Rattle.std.specs.Option.{option_map_or};
ghost use Rattle.st_marks.specs.declared.intents.Intent.{Intent as Meant};
ghost use Rattle.st_marks.specs.Document.{IsSoundInForm};
ghost use Rattle.st_marks.specs.Intent.{Fits, group_cells};
ghost use Rattle.st_doc.specs.Doc.{document_of};
ghost use Rattle.st_edits.specs.Resolve.{need as need_in};
ghost use Rattle.st_heads.specs.Transactions.{HasOpen};
ghost use Rattle.st_lists.specs.Open.{IsWithPart, with_open};
ghost use Rattle.st_lists.specs.Clients.{KeepsIds, joined_of, with_edited};
ghost use Rattle.st_lists.specs.Lines.{main_line};
ghost use Rattle.st_lists.specs.Names.{names_made, unsequenced};
ghost use Rattle.st_world.specs.declared.edit_word.EditWord.{EditWord as Word};
ghost use Rattle.st_world.specs.declared.edit_word.EditWord.TheVariants as word;
ghost use Rattle.st_world.specs.World.{IsAfterNeed, abort, begin, cells_given, commit, after_commit, next_names};
ghost use Rattle.st_lists.specs.Limits.{names_limit};
ghost use Rattle.st_plain_edits.specs.Taking.{CanJoin, CanTake, HasAborted, HasCommitted, HasCommittedOf, HasJoined, HasNumbersLeft, HasPart, HasTakenNeed, IsJoinedIn};

use crate::edits::{answer_of, next_names, refusal_of, take_in};
use st_heads::{Head, Replica};
use st_ids::{Or, Path, Rev};
use st_lists::{
    Client, Transaction, enqueue, names_edited, names_limit_passed, names_made,
    pending_limit_passed,
};
use st_marks::Intent;
use st_resolve::need as need_node;
use st_script::{Answer, Refusal};
use st_world::EditWord;
use std::alloc::{AllocError, Global};

// How many numbers of cells an edit gives.
fn cells_given(done: EditWord, part: &Intent) -> u64
    requires { length part.now.new + length (group_cells part.now) ≤ 2048 }
    ensures { result ≡ cells_given done part.now }
{
    let cells = names_made(part) - part.new.len() as u64;
    if done == EditWord::Set {
        cells + 1
    } else {
        cells
    }
}

// Counts the numbers that an edit gives.
fn count_numbers(transaction: &mut Transaction, done: EditWord, part: &Intent)
    requires { (transaction.old.nodes + length part.now.new) + (transaction.old.cells + cells_given done part.now) ≤ 2048 }
    ensures { transaction.new ≡ record transaction.old {
      nodes = transaction.old.nodes + length part.now.new;
      cells = transaction.old.cells + cells_given done part.now;
    } }
{
    transaction.nodes += part.new.len() as u32;
    transaction.cells += cells_given(done, part) as u32;
}

// Joins a part to what was edited before.
fn add_part(
    alloc: Global,
    transaction: &mut Transaction,
    names: &mut u64,
    head: &mut Head,
    done: EditWord,
    part: Intent,
) -> Result<(), AllocError>
    requires line { IsSoundInForm (document_of head.old.doc) }
    requires can { CanJoin head.old transaction.old done part }
    requires names { names.old + names_made part ≤ 16384 }
    ensures transaction { OnOk result ((J : Meant) × IsWithPart transaction.old.joined part J
        × (transaction.new ≡ with_edited transaction.old J (length part.new) (cells_given done part))) }
    ensures kept { OnOk result (HasPart head.old names.old part transaction.new.joined head.new names.new) }
{
    *names += names_made(&part);
    count_numbers(transaction, done, &part);
    head.edit(alloc, &mut transaction.joined, part)?;
    Ok(())
}

/// Joins a part to what was edited before in the transaction that is open on a line, if it passes no limit beside so many
/// names that wait at the client.
pub fn join_part(
    alloc: Global,
    transaction: &mut Transaction,
    names: &mut u64,
    head: &mut Head,
    done: EditWord,
    part: Intent,
) -> Result<Answer, AllocError>
    requires line { IsSoundInForm (document_of head.old.doc) }
    requires few { names.old ≤ 16384 }
    requires can { CanJoin head.old transaction.old done part }
    ensures answer { IfOk result (IsJoinedIn transaction.old done part (names_limit names.old part) transaction.new) }
    ensures kept { OnOk result (HasJoined head.old names.old part (names_limit names.old part) transaction.new.joined head.new names.new) }
{
    if let Some(limit) = names_limit_passed(*names, &part) {
        return Ok(Answer::No(Refusal::Limit(limit)));
    }
    add_part(alloc, transaction, names, head, done, part)?;
    Ok(answer_of(done, transaction.rev))
}

/// Has the open transaction need the node that a path leads to in the tree that a client shows, or refuses it.
pub fn need(
    alloc: Global,
    client: &mut Client,
    kept: &mut Replica,
    at: &Path,
) -> Result<Answer, AllocError>
    requires few { client.old.ids + 1 < 2 ^ 32 }
    requires taken { KeepsIds client.old }
    requires short { length at.now < 2 ^ 32 }
    requires pending { length client.old.pending ≤ 256 }
    requires names { kept.old.names ≡ unsequenced client.old }
    requires few_names { unsequenced client.old ≤ 16384 }
    requires sound { IsSoundInForm (document_of kept.old.main.doc) }
    requires open { HasOpen kept.old.main (joined_of client.old) }
    requires can { (N : Meant) → need_in (with_open (document_of kept.old.main.doc) (joined_of client.old)) (next_names client.old client.old.transaction) at.now ≡ Ok N
        → CanTake kept.old.main client.old.transaction word.Need N }
    ensures answer { IfOk result (IsAfterNeed client.old 0 client.old.transaction
        (need_in (with_open (document_of kept.old.main.doc) (joined_of client.old)) (next_names client.old client.old.transaction) at.now) client.new) }
    ensures kept { OnOk result (HasTakenNeed client.old client.old.transaction kept.old
        (need_in (with_open (document_of kept.old.main.doc) (joined_of client.old)) (next_names client.old client.old.transaction) at.now) client.new kept.new) }
{
    if client.transaction.is_none() {
        return Ok(Answer::No(Refusal::NotBegun));
    }
    match need_node(alloc, kept.main.shown_doc(), next_names(client), at) {
        Ok(intent) => {
            let answer = take_in(alloc, client, kept, EditWord::Need, intent)?;
            Ok(answer)
        }
        Err(Or::Fault(fault)) => Ok(Answer::No(refusal_of(fault))),
        Err(Or::NoMemory) => Err(AllocError),
    }
}

/// Begins a transaction, which is made under a schema of that revision.
pub fn begin(client: &mut Client, under: Rev) -> Answer
    requires few { client.old.ids + 1 < 2 ^ 32 }
    requires pending { length client.old.pending ≤ 256 }
    ensures { begin client.old 0 (main_line client.old) client.old.transaction under ≡ (client.new, result) }
{
    if client.transaction.is_some() {
        return Answer::No(Refusal::Unfinished);
    }
    if let Some(limit) = pending_limit_passed(client) {
        return Answer::No(Refusal::Limit(limit));
    }
    client.ids += 1;
    let session = client.session;
    let num = client.ids;
    let rev = Rev { session, num };
    client.transaction = Some(Transaction {
        rev,
        under,
        joined: None,
        nodes: 0,
        cells: 0,
    });
    Answer::Begin { rev }
}

// Commits what was edited, if anything was.
fn commit_joined(
    alloc: Global,
    client: &mut Client,
    kept: &mut Replica,
    rev: Rev,
    joined: Option<Intent>,
) -> Result<Answer, AllocError>
    requires few { client.old.ids + 1 < 2 ^ 32 }
    requires taken { KeepsIds client.old }
    requires sound { IsSoundInForm (document_of kept.old.main.doc) }
    requires fits { IfSome joined (Fits (document_of kept.old.main.doc)) }
    ensures answer { IfOk result (λ a. after_commit client.old 0 rev joined ≡ (client.new, a)) }
    ensures kept { OnOk result (HasCommittedOf kept.old joined kept.new) }
{
    match joined {
        None => Ok(Answer::Commit { rev: None }),
        Some(joined) => {
            kept.main.commit(alloc, &joined)?;
            enqueue(alloc, client, joined)?;
            Ok(Answer::Commit { rev: Some(rev) })
        }
    }
}

/// Commits the open transaction: what was edited in it is one commit, of the revision that it has.
pub fn commit(alloc: Global, client: &mut Client, kept: &mut Replica) -> Result<Answer, AllocError>
    requires few { client.old.ids + 1 < 2 ^ 32 }
    requires taken { KeepsIds client.old }
    requires sound { IsSoundInForm (document_of kept.old.main.doc) }
    requires fits { IfSome (joined_of client.old) (Fits (document_of kept.old.main.doc)) }
    ensures answer { IfOk result (λ a. commit client.old 0 client.old.transaction ≡ (client.new, a)) }
    ensures kept { OnOk result (HasCommitted client.old.transaction kept.old kept.new) }
{
    match client.transaction.take() {
        None => Ok(Answer::No(Refusal::NotBegun)),
        Some(transaction) => {
            let rev = transaction.rev;
            let answer = commit_joined(alloc, client, kept, rev, transaction.joined)?;
            Ok(answer)
        }
    }
}

/// Aborts the open transaction: what was edited in it is dropped.
pub fn abort(client: &mut Client, kept: &mut Replica) -> Answer
    requires names { kept.old.names ≡ unsequenced client.old }
    requires few_names { unsequenced client.old ≤ 16384 }
    ensures answer { abort client.old 0 client.old.transaction ≡ (client.new, result) }
    ensures kept { HasAborted client.old.transaction kept.old kept.new }
{
    match client.transaction.take() {
        None => Answer::No(Refusal::NotBegun),
        Some(transaction) => {
            kept.names -= names_edited(&transaction.joined);
            kept.main.abort();
            Answer::Abort
        }
    }
}
