//! Edits and transactions on a branch beside the main one. The commits of a branch are the client's alone.
ghost use Rattle.std.specs.Prelude.{◌≡◌, ◌+◌, ◌^◌, ◌<◌, ◌≤◌, ◌∷◌, ◌++◌, [], ℕ, length, IfOk, IfSome, OnOk, None, Ok};
ghost use Rattle.std.specs.List.{AllByRecursion};
ghost use Rattle.std.specs.Option.{option_map_or};
ghost use Rattle.st_marks.specs.declared.intents.Intent.{Intent as Meant};
ghost use Rattle.st_marks.specs.Document.{IsSoundInForm};
ghost use Rattle.st_marks.specs.Intent.{Fits};
ghost use Rattle.st_doc.specs.Doc.{document_of};
ghost use Rattle.st_edits.specs.Resolve.{IsWithin, need as need_in, resolve};
ghost use Rattle.st_heads.specs.Transactions.{HasOpen};
ghost use Rattle.st_lists.specs.Open.{with_open};
ghost use Rattle.st_lists.specs.Limits.{own_limit_passed};
ghost use Rattle.st_lists.specs.Lines.{branch_line, edited_on};
ghost use Rattle.st_lists.specs.Names.{names_made};
ghost use Rattle.st_script.specs.Steps.{edit_view};
ghost use Rattle.st_world.specs.declared.edit_word.EditWord.TheVariants as word;
ghost use Rattle.st_world.specs.World.{next_names, word_of};
ghost use Rattle.st_heads.specs.Replicas.{IsAtBranch};
ghost use Rattle.st_lists.specs.Lines.{branch_place};
ghost use Rattle.st_heads.specs.declared.heads.Head.{Head as HeadOf};
ghost use Rattle.st_lists.specs.declared.lists.Branch.{Branch as BranchOf};
ghost use Rattle.st_world.specs.Edits.{edit_of};
ghost use Rattle.st_lists.specs.Limits.{names_limit};
ghost use Rattle.st_plain_edits.specs.Taking.{CanTake};
ghost use Rattle.st_plain_edits.specs.BranchEdits.{CanEditOn, HasAbortedAt, HasBegunAt, HasCommittedAt, HasEditedAt, HasNeededAt, IsNoBranch, shown_on, HasAbortedOn, HasBegunOn, HasCommittedOn, HasEndedOn, HasNeededOn, HasOwnTaken, HasTakenOf, HasTakenOn, IsAbortedOn, IsCommittedOf, IsCommittedOn, IsNeededOn, IsOwnTaken, IsTakenOf, IsTakenOn, own_limit};

use crate::edits::{answer_of, next_names_of, refusal_of, resolve_edit, word_of};
use crate::transactions::join_part;
use st_edits::NameCounters;
use st_heads::{Head, Replica, last_in_effect};
use st_ids::{Limit, Or, Path, Rev};
use st_lists::{
    Branch, Client, Transaction, branch_place, names_edited, names_limit_passed, names_made,
    next_rev, own_limit_passed,
};
use st_marks::Intent;
use st_resolve::need as need_node;
use st_schema::Schema;
use st_script::{Answer, EditAct, Refusal};
use st_world::EditWord;
use std::alloc::{AllocError, Global};

// The limit that one more commit of a branch's own would pass by their number, if it passes one.
fn own_limit_on(branch: &Branch) -> Option<Limit>
    requires { length branch.now.own ≤ 256 }
    ensures { result ≡ own_limit_passed branch.now.number (branch_line branch.now) 1 }
{
    own_limit_passed(branch.number, branch.own.len(), 1)
}

// The limit that one more commit of a branch's own would pass, if it passes one.
fn limit_passed(branch: &Branch, names: u64, intent: &Intent) -> Option<Limit>
    requires own { length branch.now.own ≤ 256 }
    requires names { names ≤ 16384 }
    ensures { result ≡ own_limit branch.now names intent.now }
{
    match own_limit_on(branch) {
        Some(limit) => Some(limit),
        None => names_limit_passed(names, intent),
    }
}

// Takes in a commit of a branch's own, of the revision `next`, if it passes no limit.
fn add_own(
    alloc: Global,
    next: Rev,
    ids: &mut u32,
    names: &mut u64,
    branch: &mut Branch,
    head: &mut Head,
    done: EditWord,
    intent: Intent,
) -> Result<Answer, AllocError>
    requires few { ids.old + 1 < 2 ^ 32 }
    requires own { length branch.old.own ≤ 256 }
    requires names { names.old ≤ 16384 }
    requires sound { IsSoundInForm (document_of head.old.doc) }
    requires fits { Fits (document_of head.old.doc) intent }
    ensures branch { IfOk result (IsOwnTaken done next intent (own_limit branch.old names.old intent) branch.old ids.old branch.new ids.new) }
    ensures head { OnOk result (HasOwnTaken head.old names.old intent (own_limit branch.old names.old intent) head.new names.new) }
{
    if let Some(limit) = limit_passed(branch, *names, &intent) {
        return Ok(Answer::No(Refusal::Limit(limit)));
    }
    *names += names_made(&intent);
    head.carry(alloc, &intent)?;
    branch.own.push(intent)?;
    *ids += 1;
    Ok(answer_of(done, next))
}

// Takes in what an edit of a branch means: as a part of the transaction that is open there, or as a commit of its own.
fn take_on(
    alloc: Global,
    next: Rev,
    ids: &mut u32,
    names: &mut u64,
    branch: &mut Branch,
    head: &mut Head,
    done: EditWord,
    intent: Intent,
) -> Result<Answer, AllocError>
    requires few { ids.old + 1 < 2 ^ 32 }
    requires own { length branch.old.own ≤ 256 }
    requires names { names.old ≤ 16384 }
    requires sound { IsSoundInForm (document_of head.old.doc) }
    requires can { CanTake head.old branch.old.transaction done intent }
    ensures branch { IfOk result (IsTakenOn done next intent branch.old.transaction names.old branch.old ids.old branch.new ids.new) }
    ensures head { OnOk result (HasTakenOn head.old names.old intent branch.old branch.new head.new names.new) }
{
    let Some(transaction) = branch.transaction.as_mut() else {
        let answer = add_own(alloc, next, ids, names, branch, head, done, intent)?;
        return Ok(answer);
    };
    let answer = join_part(alloc, transaction, names, head, done, intent)?;
    Ok(answer)
}

// Makes an edit of the tree that a branch shows, or refuses it. `given` has the names that it may give; those of a commit
// of its own are of the next id.
fn edit_branch(
    alloc: Global,
    schema: &Schema,
    given: NameCounters,
    ids: &mut u32,
    names: &mut u64,
    branch: &mut Branch,
    head: &mut Head,
    edit: &EditAct,
) -> Result<Answer, AllocError>
    requires few { ids.old + 1 < 2 ^ 32 }
    requires within { IsWithin (edit_of edit.now) }
    requires own { length branch.old.own ≤ 256 }
    requires names { names.old ≤ 16384 }
    requires sound { IsSoundInForm (document_of head.old.doc) }
    requires open { HasOpen head.old (edited_on (branch_line branch.old)) }
    requires nodes { given.nodes < 2 ^ 31 }
    requires cells { given.cells < 2 ^ 31 }
    requires can { (N : Meant) → resolve (with_open (document_of head.old.doc) (edited_on (branch_line branch.old))) schema.now given (edit_of edit.now) ≡ Ok N
        → CanTake head.old branch.old.transaction (word_of (edit_view edit.now)) N }
    ensures branch { IfOk result (IsTakenOf (word_of (edit_view edit.now)) given.rev
        (resolve (with_open (document_of head.old.doc) (edited_on (branch_line branch.old))) schema.now given (edit_of edit.now)) branch.old.transaction names.old branch.old ids.old branch.new ids.new) }
    ensures head { OnOk result (HasTakenOf head.old names.old
        (resolve (with_open (document_of head.old.doc) (edited_on (branch_line branch.old))) schema.now given (edit_of edit.now)) branch.old branch.new head.new names.new) }
{
    match resolve_edit(alloc, head.shown_doc(), schema, given, edit) {
        Ok(intent) => {
            let answer = take_on(
                alloc,
                given.rev,
                ids,
                names,
                branch,
                head,
                word_of(edit),
                intent,
            )?;
            Ok(answer)
        }
        Err(Or::Fault(fault)) => Ok(Answer::No(refusal_of(fault))),
        Err(Or::NoMemory) => Err(AllocError),
    }
}

// Has the transaction that is open on a branch need the node that a path leads to in the tree shown there, or refuses it.
fn need_on_branch(
    alloc: Global,
    given: NameCounters,
    ids: &mut u32,
    names: &mut u64,
    branch: &mut Branch,
    head: &mut Head,
    at: &Path,
) -> Result<Answer, AllocError>
    requires few { ids.old + 1 < 2 ^ 32 }
    requires short { length at.now < 2 ^ 32 }
    requires own { length branch.old.own ≤ 256 }
    requires names { names.old ≤ 16384 }
    requires sound { IsSoundInForm (document_of head.old.doc) }
    requires open { HasOpen head.old (edited_on (branch_line branch.old)) }
    requires can { (N : Meant) → need_in (with_open (document_of head.old.doc) (edited_on (branch_line branch.old))) given at.now ≡ Ok N → CanTake head.old branch.old.transaction word.Need N }
    ensures branch { IfOk result (IsNeededOn given.rev (need_in (with_open (document_of head.old.doc) (edited_on (branch_line branch.old))) given at.now) branch.old.transaction names.old branch.old ids.old branch.new ids.new) }
    ensures head { OnOk result (HasNeededOn head.old names.old (need_in (with_open (document_of head.old.doc) (edited_on (branch_line branch.old))) given at.now) branch.old branch.new head.new names.new) }
{
    if branch.transaction.is_none() {
        return Ok(Answer::No(Refusal::NotBegun));
    }
    match need_node(alloc, head.shown_doc(), given, at) {
        Ok(intent) => {
            let answer = take_on(
                alloc,
                given.rev,
                ids,
                names,
                branch,
                head,
                EditWord::Need,
                intent,
            )?;
            Ok(answer)
        }
        Err(Or::Fault(fault)) => Ok(Answer::No(refusal_of(fault))),
        Err(Or::NoMemory) => Err(AllocError),
    }
}

// Begins a transaction on a branch, of the revision `next`, made under a schema of that revision.
fn begin_on_branch(next: Rev, under: Rev, ids: &mut u32, branch: &mut Branch) -> Answer
    requires few { ids.old + 1 < 2 ^ 32 }
    requires own { length branch.old.own ≤ 256 }
    ensures { HasBegunOn next under branch.old ids.old branch.new ids.new result }
{
    if branch.transaction.is_some() {
        return Answer::No(Refusal::Unfinished);
    }
    if let Some(limit) = own_limit_on(branch) {
        return Answer::No(Refusal::Limit(limit));
    }
    *ids += 1;
    branch.transaction = Some(Transaction {
        rev: next,
        under,
        joined: None,
        nodes: 0,
        cells: 0,
    });
    Answer::Begin { rev: next }
}

// Commits what was edited, if anything was.
fn commit_joined(
    alloc: Global,
    branch: &mut Branch,
    head: &mut Head,
    rev: Rev,
    joined: Option<Intent>,
) -> Result<Answer, AllocError>
    requires sound { IsSoundInForm (document_of head.old.doc) }
    requires fits { IfSome joined (Fits (document_of head.old.doc)) }
    ensures branch { IfOk result (IsCommittedOf rev joined branch.old branch.new) }
    ensures head { OnOk result (HasCommittedOn joined head.old head.new) }
{
    match joined {
        None => Ok(Answer::Commit { rev: None }),
        Some(joined) => {
            head.commit(alloc, &joined)?;
            branch.own.push(joined)?;
            Ok(Answer::Commit { rev: Some(rev) })
        }
    }
}

// Commits the transaction that is open on a branch.
fn commit_on_branch(
    alloc: Global,
    branch: &mut Branch,
    head: &mut Head,
) -> Result<Answer, AllocError>
    requires sound { IsSoundInForm (document_of head.old.doc) }
    requires fits { IfSome (edited_on (branch_line branch.old)) (Fits (document_of head.old.doc)) }
    ensures branch { IfOk result (IsCommittedOn branch.old.transaction branch.old branch.new) }
    ensures head { OnOk result (HasEndedOn branch.old.transaction head.old head.new) }
{
    match branch.transaction.take() {
        None => Ok(Answer::No(Refusal::NotBegun)),
        Some(transaction) => {
            let rev = transaction.rev;
            let answer = commit_joined(alloc, branch, head, rev, transaction.joined)?;
            Ok(answer)
        }
    }
}

// Aborts the transaction that is open on a branch.
fn abort_on_branch(names: &mut u64, branch: &mut Branch, head: &mut Head) -> Answer
    requires few { option_map_or names_made (edited_on (branch_line branch.old)) 0 ≤ names.old }
    requires names { names.old ≤ 16384 }
    ensures branch { IsAbortedOn branch.old.transaction branch.old branch.new result }
    ensures head { HasAbortedOn branch.old.transaction names.old head.old names.new head.new }
{
    match branch.transaction.take() {
        None => Answer::No(Refusal::NotBegun),
        Some(transaction) => {
            *names -= names_edited(&transaction.joined);
            head.abort();
            Answer::Abort
        }
    }
}

/// Makes an edit of the tree that the branch of a number shows, or refuses it.
pub fn edit(
    alloc: Global,
    schema: &Schema,
    client: &mut Client,
    kept: &mut Replica,
    number: u32,
    edit: &EditAct,
) -> Result<Answer, AllocError>
    requires few { client.old.ids + 1 < 2 ^ 32 }
    requires within { IsWithin (edit_of edit.now) }
    requires names { kept.old.names ≤ 16384 }
    requires can { (j : ℕ) (b : BranchOf) (k : HeadOf) → IsAtBranch client.old kept.old number j b k → CanEditOn client.old b k }
    requires take { (j : ℕ) (b : BranchOf) (k : HeadOf) → IsAtBranch client.old kept.old number j b k → (N : Meant)
        → resolve (shown_on b k) schema.now (next_names client.old b.transaction) (edit_of edit.now) ≡ Ok N → CanTake k b.transaction (word_of (edit_view edit.now)) N }
    ensures there { IfOk result (λ a. (j : ℕ) (b : BranchOf) (k : HeadOf) → IsAtBranch client.old kept.old number j b k
        → HasEditedAt client.old kept.old j b k (word_of (edit_view edit.now)) (resolve (shown_on b k) schema.now (next_names client.old b.transaction) (edit_of edit.now)) client.new kept.new a) }
    ensures absent { IfOk result (λ a. branch_place number client.old.branches ≡ None → IsNoBranch client.old kept.old client.new kept.new a) }
{
    let session = client.session;
    let Some(place) = branch_place(client.branches.as_slice(), number) else {
        return Ok(Answer::No(Refusal::NoBranch));
    };
    let Some(branch) = client.branches.get_mut(place) else {
        return Ok(Answer::No(Refusal::NoBranch));
    };
    let Some(head) = kept.branches.get_mut(place) else {
        return Ok(Answer::No(Refusal::NoBranch));
    };
    let given = next_names_of(session, client.ids, &branch.transaction);
    let ids = &mut client.ids;
    let answer = edit_branch(
        alloc,
        schema,
        given,
        ids,
        &mut kept.names,
        branch,
        head,
        edit,
    )?;
    Ok(answer)
}

/// Has the transaction that is open on the branch of a number need the node that a path leads to in the tree shown there, or
/// refuses it.
pub fn need(
    alloc: Global,
    client: &mut Client,
    kept: &mut Replica,
    number: u32,
    at: &Path,
) -> Result<Answer, AllocError>
    requires few { client.old.ids + 1 < 2 ^ 32 }
    requires short { length at.now < 2 ^ 32 }
    requires names { kept.old.names ≤ 16384 }
    requires can { (j : ℕ) (b : BranchOf) (k : HeadOf) → IsAtBranch client.old kept.old number j b k → CanEditOn client.old b k }
    requires take { (j : ℕ) (b : BranchOf) (k : HeadOf) → IsAtBranch client.old kept.old number j b k → (N : Meant)
        → need_in (shown_on b k) (next_names client.old b.transaction) at.now ≡ Ok N → CanTake k b.transaction word.Need N }
    ensures there { IfOk result (λ a. (j : ℕ) (b : BranchOf) (k : HeadOf) → IsAtBranch client.old kept.old number j b k
        → HasNeededAt client.old kept.old j b k (need_in (shown_on b k) (next_names client.old b.transaction) at.now) client.new kept.new a) }
    ensures absent { IfOk result (λ a. branch_place number client.old.branches ≡ None → IsNoBranch client.old kept.old client.new kept.new a) }
{
    let session = client.session;
    let Some(place) = branch_place(client.branches.as_slice(), number) else {
        return Ok(Answer::No(Refusal::NoBranch));
    };
    let Some(branch) = client.branches.get_mut(place) else {
        return Ok(Answer::No(Refusal::NoBranch));
    };
    let Some(head) = kept.branches.get_mut(place) else {
        return Ok(Answer::No(Refusal::NoBranch));
    };
    let given = next_names_of(session, client.ids, &branch.transaction);
    let ids = &mut client.ids;
    let answer = need_on_branch(alloc, given, ids, &mut kept.names, branch, head, at)?;
    Ok(answer)
}

/// Begins a transaction on the branch of a number, made under the schema that is last in effect there, or refuses it.
pub fn begin(client: &mut Client, kept: &Replica, number: u32) -> Answer
    requires few { client.old.ids + 1 < 2 ^ 32 }
    requires own { AllByRecursion (λ (b : BranchOf). length b.own ≤ 256) client.old.branches }
    ensures there { (j : ℕ) (b : BranchOf) (k : HeadOf) → IsAtBranch client.old kept.now number j b k → HasBegunAt client.old j b k client.new result }
    ensures absent { branch_place number client.old.branches ≡ None → IsNoBranch client.old kept.now client.new kept.now result }
{
    let next = next_rev(client);
    let Some(place) = branch_place(client.branches.as_slice(), number) else {
        return Answer::No(Refusal::NoBranch);
    };
    let Some(branch) = client.branches.get_mut(place) else {
        return Answer::No(Refusal::NoBranch);
    };
    let Some(head) = kept.branches.get(place) else {
        return Answer::No(Refusal::NoBranch);
    };
    begin_on_branch(next, last_in_effect(&head.doc), &mut client.ids, branch)
}

/// Commits the transaction that is open on the branch of a number: what was edited in it is one commit of the branch's own,
/// of the revision that it has.
pub fn commit(
    alloc: Global,
    client: &mut Client,
    kept: &mut Replica,
    number: u32,
) -> Result<Answer, AllocError>
    requires can { (j : ℕ) (b : BranchOf) (k : HeadOf) → IsAtBranch client.old kept.old number j b k → CanEditOn client.old b k × IfSome (edited_on (branch_line b)) (Fits (document_of k.doc)) }
    ensures there { IfOk result (λ a. (j : ℕ) (b : BranchOf) (k : HeadOf) → IsAtBranch client.old kept.old number j b k → HasCommittedAt client.old kept.old j b k client.new kept.new a) }
    ensures absent { IfOk result (λ a. branch_place number client.old.branches ≡ None → IsNoBranch client.old kept.old client.new kept.new a) }
{
    let Some(place) = branch_place(client.branches.as_slice(), number) else {
        return Ok(Answer::No(Refusal::NoBranch));
    };
    let Some(branch) = client.branches.get_mut(place) else {
        return Ok(Answer::No(Refusal::NoBranch));
    };
    let Some(head) = kept.branches.get_mut(place) else {
        return Ok(Answer::No(Refusal::NoBranch));
    };
    let answer = commit_on_branch(alloc, branch, head)?;
    Ok(answer)
}

/// Aborts the transaction that is open on the branch of a number: what was edited in it is dropped.
pub fn abort(client: &mut Client, kept: &mut Replica, number: u32) -> Answer
    requires names { kept.old.names ≤ 16384 }
    requires counted { (j : ℕ) (b : BranchOf) (k : HeadOf) → IsAtBranch client.old kept.old number j b k → option_map_or names_made (edited_on (branch_line b)) 0 ≤ kept.old.names }
    ensures there { (j : ℕ) (b : BranchOf) (k : HeadOf) → IsAtBranch client.old kept.old number j b k → HasAbortedAt client.old kept.old j b k client.new kept.new result }
    ensures absent { branch_place number client.old.branches ≡ None → IsNoBranch client.old kept.old client.new kept.new result }
{
    let Some(place) = branch_place(client.branches.as_slice(), number) else {
        return Answer::No(Refusal::NoBranch);
    };
    let Some(branch) = client.branches.get_mut(place) else {
        return Answer::No(Refusal::NoBranch);
    };
    let Some(head) = kept.branches.get_mut(place) else {
        return Answer::No(Refusal::NoBranch);
    };
    abort_on_branch(&mut kept.names, branch, head)
}
