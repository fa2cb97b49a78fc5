//! Edits of the tree that a client shows: what they mean, and what becomes of it where no transaction is open.
ghost use Rattle.std.specs.Prelude.{◌≡◌, ◌+◌, ◌^◌, ◌<◌, ◌≤◌, [], ◌∷◌, ◌++◌, length, IfOk, OnOk, Ok, Err};
ghost use Rattle.st_ids.specs.Or.{IfRefused};
ghost use Rattle.st_marks.specs.declared.intents.Intent.{Intent as Meant};
ghost use Rattle.st_marks.specs.Document.{IsSoundInForm};
ghost use Rattle.st_marks.specs.Intent.{Fits};
ghost use Rattle.st_doc.specs.Doc.{document_of};
ghost use Rattle.st_edits.specs.Resolve.{IsWithin, resolve};
ghost use Rattle.st_heads.specs.Transactions.{HasOpen};
ghost use Rattle.st_lists.specs.Open.{with_open};
ghost use Rattle.st_script.specs.Steps.{edit_view};
ghost use Rattle.st_lists.specs.Clients.{KeepsIds, joined_of, with_commit, with_new_commit};
ghost use Rattle.st_lists.specs.Limits.{limit_passed, own_limit_passed, pending_limit_passed};
ghost use Rattle.st_lists.specs.Lines.{Line, main_line};
ghost use Rattle.st_lists.specs.Names.{names_made, unsequenced};
ghost use Rattle.st_lists.specs.declared.lists.Body.TheVariants.{Commit};
ghost use Rattle.st_lists.specs.declared.lists.Client.{Client as Present};
ghost use Rattle.st_world.specs.World.{IsAfterEdit, answer_of, next_names, refusal_of, with_new_on, word_of};
ghost use Rattle.st_edits.specs.InEffect.{last_in_effect};
ghost use Rattle.st_world.specs.Edits.{edit_of};
ghost use Rattle.st_lists.specs.Limits.{limit_on, line_limit, names_limit};
ghost use Rattle.st_plain_edits.specs.Taking.{CanTake, HasTaken, HasNumbersLeft, HasTakenIn, IsPending, IsTakenIn};
ghost use Rattle.st_heads.specs.Replicas.{IsCommitted};

use crate::transactions::join_part;
use st_doc::Doc;
use st_edits::NameCounters;
use st_heads::{Replica, commit_new};
use st_ids::{Limit, Or, Rev};
use st_lists::{Client, Transaction, names_limit_passed, pending_limit_passed};
use st_marks::Intent;
use st_resolve::{clear, insert, move_items, remove, set};
use st_schema::Schema;
use st_script::{Answer, EditAct, Refusal};
use st_tree::EditFault;
use st_world::EditWord;
use std::alloc::{AllocError, Global};

/// Which answer an edit gets that is accepted.
pub fn word_of(edit: &EditAct) -> EditWord
    ensures { result ≡ word_of (edit_view edit.now) }
{
    match edit {
        EditAct::Insert { .. } => EditWord::Insert,
        EditAct::Remove { .. } => EditWord::Remove,
        EditAct::Move { .. } => EditWord::Move,
        EditAct::Set { .. } => EditWord::Set,
        EditAct::Clear { .. } => EditWord::Clear,
    }
}

/// The intent that an edit means in a document under a schema, or its first refusal.
pub fn resolve_edit(
    alloc: Global,
    doc: &Doc,
    schema: &Schema,
    given: NameCounters,
    edit: &EditAct,
) -> Result<Intent, Or<EditFault>>
    requires within { IsWithin (edit_of edit.now) }
    requires nodes { given.nodes < 2 ^ 31 }
    requires cells { given.cells < 2 ^ 31 }
    ensures ok { IfOk result (λ i. resolve (document_of doc.now) schema.now given (edit_of edit.now) ≡ Ok i) }
    ensures bad { IfRefused result (λ e. resolve (document_of doc.now) schema.now given (edit_of edit.now) ≡ Err e) }
{
    match edit {
        EditAct::Insert {
            at,
            key,
            index,
            items,
        } => insert(alloc, doc, schema, given, at, key, *index, items),
        EditAct::Remove {
            at,
            key,
            index,
            count,
        } => remove(alloc, doc, schema, given, at, key, *index, *count),
        EditAct::Move {
            at,
            key,
            index,
            count,
            to,
            to_key,
            to_index,
        } => move_items(
            alloc, doc, schema, given, at, key, *index, *count, to, to_key, *to_index,
        ),
        EditAct::Set { at, key, item } => set(alloc, doc, schema, given, at, key, item),
        EditAct::Clear { at, key } => clear(alloc, doc, schema, given, at, key),
    }
}

/// The answer to an edit that is accepted, with the revision of its commit.
pub fn answer_of(done: EditWord, rev: Rev) -> Answer
    ensures { result ≡ answer_of done rev }
{
    match done {
        EditWord::Insert => Answer::Insert { rev },
        EditWord::Remove => Answer::Remove { rev },
        EditWord::Move => Answer::Move { rev },
        EditWord::Set => Answer::Set { rev },
        EditWord::Clear => Answer::Clear { rev },
        EditWord::Need => Answer::Need { rev },
    }
}

/// What is refused of an edit.
pub fn refusal_of(fault: EditFault) -> Refusal
    ensures { result ≡ refusal_of fault }
{
    match fault {
        EditFault::NoNode { depth } => Refusal::NoNode { depth },
        EditFault::Kind => Refusal::Kind,
        EditFault::Range => Refusal::Range,
        EditFault::Inside => Refusal::Inside,
        EditFault::NotAllowed { at } => Refusal::NotAllowed { at },
        EditFault::Limit(limit) => Refusal::Limit(limit),
    }
}

/// The names that an edit on a line may give, where its client has that session and has generated so many ids: those of the
/// next commit, or the next ones of the transaction that is open on the line.
pub fn next_names_of(session: u32, ids: u32, transaction: &Option<Transaction>) -> NameCounters
    requires { ids + 1 < 2 ^ 32 }
    ensures { (c : Present) → c.session ≡ session → c.ids ≡ ids → result ≡ next_names c transaction.now }
{
    match transaction {
        None => {
            let num = ids + 1;
            NameCounters {
                rev: Rev { session, num },
                nodes: 0,
                cells: 0,
            }
        }
        Some(transaction) => NameCounters {
            rev: transaction.rev,
            nodes: transaction.nodes,
            cells: transaction.cells,
        },
    }
}

/// The names that an edit on the main line may give.
pub fn next_names(client: &Client) -> NameCounters
    requires { client.now.ids + 1 < 2 ^ 32 }
    ensures { result ≡ next_names client.now client.now.transaction }
{
    next_names_of(client.session, client.ids, &client.transaction)
}

// The limit that one more pending commit would pass, if there is one.
fn limit_passed(client: &Client, names: u64, intent: &Intent) -> Option<Limit>
    requires names { names ≡ unsequenced client.now }
    requires few { unsequenced client.now ≤ 16384 }
    requires pending { length client.now.pending ≤ 256 }
    ensures { result ≡ limit_passed client.now 0 (main_line client.now) intent.now }
{
    match pending_limit_passed(client) {
        Some(limit) => Some(limit),
        None => names_limit_passed(names, intent),
    }
}

// Keeps a commit as pending, if it passes no limit.
fn add_pending(
    alloc: Global,
    client: &mut Client,
    kept: &mut Replica,
    done: EditWord,
    intent: Intent,
) -> Result<Answer, AllocError>
    requires few { client.old.ids + 1 < 2 ^ 32 }
    requires taken { KeepsIds client.old }
    requires pending { length client.old.pending ≤ 256 }
    requires names { kept.old.names ≡ unsequenced client.old }
    requires few_names { unsequenced client.old ≤ 16384 }
    requires sound { IsSoundInForm (document_of kept.old.main.doc) }
    requires fits { Fits (document_of kept.old.main.doc) intent }
    ensures answer { IfOk result (λ a. with_new_on client.old 0 done intent (limit_passed client.old 0 (main_line client.old) intent) ≡ (client.new, a)) }
    ensures kept { OnOk result (IsPending kept.old intent (limit_passed client.old 0 (main_line client.old) intent) kept.new) }
{
    if let Some(limit) = limit_passed(client, kept.names, &intent) {
        return Ok(Answer::No(Refusal::Limit(limit)));
    }
    commit_new(alloc, client, kept, intent)?;
    let session = client.session;
    let num = client.ids;
    Ok(answer_of(done, Rev { session, num }))
}

/// Takes in what an edit means: as a part of the transaction that is open, or as a commit of its own.
pub fn take_in(
    alloc: Global,
    client: &mut Client,
    kept: &mut Replica,
    done: EditWord,
    intent: Intent,
) -> Result<Answer, AllocError>
    requires few { client.old.ids + 1 < 2 ^ 32 }
    requires taken { KeepsIds client.old }
    requires pending { length client.old.pending ≤ 256 }
    requires names { kept.old.names ≡ unsequenced client.old }
    requires few_names { unsequenced client.old ≤ 16384 }
    requires sound { IsSoundInForm (document_of kept.old.main.doc) }
    requires can { CanTake kept.old.main client.old.transaction done intent }
    ensures answer { IfOk result (IsTakenIn client.old 0 (main_line client.old) client.old.transaction done intent client.new) }
    ensures kept { OnOk result (HasTakenIn client.old client.old.transaction kept.old intent client.new kept.new) }
{
    let Some(transaction) = client.transaction.as_mut() else {
        let answer = add_pending(alloc, client, kept, done, intent)?;
        return Ok(answer);
    };
    let answer = join_part(
        alloc,
        transaction,
        &mut kept.names,
        &mut kept.main,
        done,
        intent,
    )?;
    Ok(answer)
}

/// Makes an edit of the tree that a client shows, or refuses it.
pub fn edit(
    alloc: Global,
    schema: &Schema,
    client: &mut Client,
    kept: &mut Replica,
    edit: &EditAct,
) -> Result<Answer, AllocError>
    requires few { client.old.ids + 1 < 2 ^ 32 }
    requires taken { KeepsIds client.old }
    requires within { IsWithin (edit_of edit.now) }
    requires pending { length client.old.pending ≤ 256 }
    requires names { kept.old.names ≡ unsequenced client.old }
    requires few_names { unsequenced client.old ≤ 16384 }
    requires sound { IsSoundInForm (document_of kept.old.main.doc) }
    requires open { HasOpen kept.old.main (joined_of client.old) }
    requires given { HasNumbersLeft client.old.transaction }
    requires can { (N : Meant) → resolve (with_open (document_of kept.old.main.doc) (joined_of client.old)) schema.now (next_names client.old client.old.transaction) (edit_of edit.now) ≡ Ok N
        → CanTake kept.old.main client.old.transaction (word_of (edit_view edit.now)) N }
    ensures answer { IfOk result (IsAfterEdit client.old 0 (main_line client.old) client.old.transaction (word_of (edit_view edit.now))
        (resolve (with_open (document_of kept.old.main.doc) (joined_of client.old)) schema.now (next_names client.old client.old.transaction) (edit_of edit.now)) client.new) }
    ensures kept { OnOk result (HasTaken client.old client.old.transaction kept.old
        (resolve (with_open (document_of kept.old.main.doc) (joined_of client.old)) schema.now (next_names client.old client.old.transaction) (edit_of edit.now)) client.new kept.new) }
{
    match resolve_edit(
        alloc,
        kept.main.shown_doc(),
        schema,
        next_names(client),
        edit,
    ) {
        Ok(intent) => {
            let answer = take_in(alloc, client, kept, word_of(edit), intent)?;
            Ok(answer)
        }
        Err(Or::Fault(fault)) => Ok(Answer::No(refusal_of(fault))),
        Err(Or::NoMemory) => Err(AllocError),
    }
}
