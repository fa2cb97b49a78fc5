//! What a client does with its branches: it begins one, brings one up to date, merges one, or drops one.
ghost use Rattle.std.specs.Prelude.{◌≡◌, ◌==◌, ◌+◌, ◌-◌, ◌^◌, ◌<◌, ◌≤◌, ℕ, [], ◌∷◌, ◌++◌, List as Seq, fold, is_some, length, option_copied, option_map, slice_get, slice_set, IfOk, IfSome, OnOk, None, Some};
ghost use Rattle.std.specs.List.{AllByRecursion, remove as without};
ghost use Rattle.st_marks.specs.Document.{Document, IsSoundInForm};
ghost use Rattle.st_marks.specs.declared.intents.Intent.{Intent as Meant};
ghost use Rattle.st_doc.specs.Doc.{document_of};
ghost use Rattle.st_log_laws.specs.Turns.{FitInTurn};
ghost use Rattle.st_heads.specs.Heads.{HasCarried};
ghost use Rattle.st_heads.specs.declared.heads.Head.{Head as HeadOf};
ghost use Rattle.st_heads.specs.declared.ways.Carried.{Carried as CarriedOf};
ghost use Rattle.st_lists.specs.Clients.{KeepsIds, with_commit};
ghost use Rattle.st_lists.specs.Limits.{branches_limit_passed};
ghost use Rattle.st_lists.specs.Lines.{Line, branch_line, branch_of, has_children, line_of, main_line};
ghost use Rattle.st_lists.specs.Names.{names_on, unsequenced};
ghost use Rattle.st_lists.specs.declared.lists.Branch.{Branch as BranchOf};
ghost use Rattle.st_world.specs.Branches.{fork, refusal_to_fork, refusal_to_merge, refusal_to_rebase};
ghost use Rattle.st_plain_branches.specs.Branches.{HasDropped, HasForked, HasMerged, HasMergedInto, HasNoLine, HasRebased, IsNewHead, branch_over, ground_of, state_of, void_among, with_ground, without_head, without_place};
ghost use Rattle.st_heads.specs.Replicas.{head_of};
ghost use Rattle.st_lists.specs.Lines.{branch_place};

use st_doc::Doc;
use st_heads::{Carried, Head, Replica};
use st_ids::{Copied, Limit, LimitOf, List, Rev};
use st_lists::{
    Branch, Client, branch_place, enqueue, find_branch, names_edited, names_in, own_limit_passed,
};
use st_marks::Intent;
use st_script::{Answer, Refusal};
use std::alloc::{AllocError, Global};

/// How many branches a client may have beside the main one.
const MOST_BRANCHES: usize = 16;

/// Of a line: whether a transaction is open on it, and how many commits of its own it has.
#[derive(Clone, Copy)]
pub struct LineState {
    pub is_open: bool,
    pub own: usize,
}

// What a branch's line is like.
fn state_of(branch: &Branch) -> LineState
    ensures { result ≡ state_of (branch_line branch.now) }
{
    LineState {
        is_open: branch.transaction.is_some(),
        own: branch.own.len(),
    }
}

/// What the line of a number is like, if the client has it.
pub fn line_state(client: &Client, number: u32) -> Option<LineState>
    ensures { result ≡ option_map state_of (line_of client.now number) }
{
    if number == 0 {
        return Some(LineState {
            is_open: client.transaction.is_some(),
            own: client.pending.len(),
        });
    }
    let branch = find_branch(client, number)?;
    Some(state_of(branch))
}

// Whether a branch stands on that of a number.
fn has_children(client: &Client, number: u32) -> bool
    ensures { result ≡ has_children client.now number }
{
    client
        .branches
        .as_slice()
        .iter()
        .any(|branch| branch.parent == number)
}

// The limit that one more branch would pass, if it passes one.
fn branches_limit_passed(client: &Client) -> Option<Limit>
    requires { length client.now.branches ≤ 16 }
    ensures { result ≡ branches_limit_passed client.now }
{
    let count = client.branches.len();
    if count >= MOST_BRANCHES {
        let of = LimitOf::Branches;
        let kept = count as u32;
        return Some(Limit { of, kept });
    }
    None
}

// Copies of commits, put behind others.
fn push_copies(alloc: Global, list: &mut List<Intent>, intents: &[Intent]) -> Result<(), AllocError>
    ensures { OnOk result (list.new ≡ list.old ++ intents.now) }
{
    for intent in intents {
        let intent = intent.copy(alloc)?;
        list.push(intent)?;
    }
    Ok(())
}

/// What a branch stands on: the commits of so many entries of the log, and then those of its base.
#[derive(Drop)]
pub struct Ground {
    pub received: u32,
    pub base: List<Intent>,
}

// What a branch stands on that is made of another one.
fn ground_on(alloc: Global, branch: &Branch) -> Result<Ground, AllocError>
    ensures { IfOk result (λ g. g ≡ ground_of (branch_line branch.now)) }
{
    let mut base = branch.base.copy(alloc)?;
    push_copies(alloc, &mut base, branch.own.as_slice())?;
    Ok(Ground {
        received: branch.received,
        base,
    })
}

// What a branch stands on that is made of the main line.
fn ground_on_main(alloc: Global, client: &Client) -> Result<Ground, AllocError>
    ensures { IfOk result (λ g. g ≡ ground_of (main_line client.now)) }
{
    Ok(Ground {
        received: client.received,
        base: client.pending.copy(alloc)?,
    })
}

// What a branch stands on that is made of the line of a number, if the client has it.
fn ground_of(alloc: Global, client: &Client, number: u32) -> Result<Option<Ground>, AllocError>
    ensures { IfOk result (λ g. g ≡ option_map ground_of (line_of client.now number)) }
{
    if number == 0 {
        let ground = ground_on_main(alloc, client)?;
        return Ok(Some(ground));
    }
    match find_branch(client, number) {
        None => Ok(None),
        Some(branch) => {
            let ground = ground_on(alloc, branch)?;
            Ok(Some(ground))
        }
    }
}

/// The head of the line of a number, of which it is kept, if the client has it.
pub fn head_of<'a>(client: &Client, kept: &'a Replica, number: u32) -> Option<&'a Head>
    ensures { option_copied result ≡ head_of client.now kept.now number }
{
    if number == 0 {
        return Some(&kept.main);
    }
    let place = branch_place(client.branches.as_slice(), number)?;
    kept.branches.get(place)
}

/// The revisions of the commits that came out void.
pub fn void_revs(
    alloc: Global,
    own: &[Intent],
    carried: &[Carried],
) -> Result<List<Rev>, AllocError>
    ensures { IfOk result (λ revs. revs ≡ void_among own.now carried.now) }
{
    let mut revs = List::new(alloc);
    let mut i = 0;
    'all: while i < own.len() && i < carried.len() {
        if carried[i].void {
            revs.push(own[i].rev)?;
        }
        i += 1;
    }
    Ok(revs)
}

// ## Forking

// Why a line is not forked, if it is not.
fn refusal_to_fork(client: &Client, line: LineState) -> Option<Refusal>
    requires { length client.now.branches ≤ 16 }
    ensures { (l : Line) → state_of l ≡ line → result ≡ refusal_to_fork client.now l }
{
    if line.is_open {
        return Some(Refusal::Unfinished);
    }
    match branches_limit_passed(client) {
        Some(limit) => Some(Refusal::Limit(limit)),
        None => None,
    }
}

// The head of a branch that begins over a document.
fn head_over(alloc: Global, doc: &Doc) -> Result<Head, AllocError>
    ensures { IfOk result (IsNewHead (document_of doc.now)) }
{
    Ok(Head {
        doc: doc.copy(alloc)?,
        own: List::new(alloc),
        edited: None,
    })
}

// Puts a branch behind the others, and its head.
fn add_branch(
    alloc: Global,
    client: &mut Client,
    kept: &mut Replica,
    parent: u32,
    ground: Ground,
    head: Head,
) -> Result<(), AllocError>
    requires { client.old.forks + 1 < 2 ^ 32 }
    ensures client { OnOk result (client.new ≡ record client.old { forks = client.old.forks + 1; branches = client.old.branches ++ branch_over (client.old.forks + 1) parent ground ∷ [] }) }
    ensures kept { OnOk result (kept.new ≡ record kept.old { branches = kept.old.branches ++ head ∷ [] }) }
{
    client.forks += 1;
    client.branches.push(Branch {
        number: client.forks,
        parent,
        received: ground.received,
        base: ground.base,
        own: List::new(alloc),
        transaction: None,
    })?;
    kept.branches.push(head)?;
    Ok(())
}

/// Begins a branch on the line of a number, whose document is copied, or refuses it.
#[tactic(auto, using(crate::proofs::Branched::head_there))]
pub fn fork(
    alloc: Global,
    client: &mut Client,
    kept: &mut Replica,
    number: u32,
) -> Result<Answer, AllocError>
    requires few { length client.old.branches ≤ 16 }
    requires forks { client.old.forks + 1 < 2 ^ 32 }
    requires heads { length kept.old.branches ≡ length client.old.branches }
    ensures answer { IfOk result (λ a. (l : Line) → line_of client.old number ≡ Some l → fork client.old number l (refusal_to_fork client.old l) ≡ (client.new, a)) }
    ensures kept { OnOk result ((l : Line) → line_of client.old number ≡ Some l → HasForked (head_of client.old kept.old number) (refusal_to_fork client.old l) kept.old kept.new) }
    ensures none { IfOk result (λ a. line_of client.old number ≡ None → HasNoLine client.old kept.old client.new kept.new a) }
{
    let Some(line) = line_state(client, number) else {
        return Ok(Answer::No(Refusal::NoBranch));
    };
    if let Some(refusal) = refusal_to_fork(client, line) {
        return Ok(Answer::No(refusal));
    }
    let Some(ground) = ground_of(alloc, client, number)? else {
        return Ok(Answer::No(Refusal::NoBranch));
    };
    let Some(head) = head_of(client, kept, number) else {
        return Ok(Answer::No(Refusal::NoBranch));
    };
    let head = head_over(alloc, &head.doc)?;
    add_branch(alloc, client, kept, number, ground, head)?;
    let branch = client.forks;
    Ok(Answer::Fork { branch })
}

// ## Rebasing

// Puts the branch at a place on other ground, with the head that it has there.
fn set_ground(client: &mut Client, kept: &mut Replica, place: usize, ground: Ground, head: Head)
    requires there { place < length client.old.branches }
    requires head { place < length kept.old.branches }
    ensures client { (b : BranchOf) → slice_get client.old.branches place ≡ Some b → client.new ≡ record client.old { branches = slice_set client.old.branches place (with_ground b ground) } }
    ensures kept { kept.new ≡ record kept.old { branches = slice_set kept.old.branches place head } }
{
    if let Some(branch) = client.branches.get_mut(place) {
        branch.received = ground.received;
        branch.base = ground.base;
    }
    if let Some(old) = kept.branches.get_mut(place) {
        *old = head;
    }
}

/// Has the branch of a number stand on its parent's line as that is now, or refuses it: its own commits are carried out
/// over a copy of the parent's document. Told are the revisions of those that are void there.
pub fn rebase(
    alloc: Global,
    client: &mut Client,
    kept: &mut Replica,
    number: u32,
) -> Result<Answer, AllocError>
    requires heads { length kept.old.branches ≡ length client.old.branches }
    requires can { (j : ℕ) (b : BranchOf) (p : HeadOf) → branch_place number client.old.branches ≡ Some j → slice_get client.old.branches j ≡ Some b → head_of client.old kept.old b.parent ≡ Some p
        → IsSoundInForm (document_of p.doc) × FitInTurn (document_of p.doc) b.own }
    ensures none { IfOk result (λ a. branch_place number client.old.branches ≡ None → HasNoLine client.old kept.old client.new kept.new a) }
    ensures rebased { IfOk result (λ a. (j : ℕ) (b : BranchOf) (l : Line) (p : HeadOf) → branch_place number client.old.branches ≡ Some j → slice_get client.old.branches j ≡ Some b
        → line_of client.old b.parent ≡ Some l → head_of client.old kept.old b.parent ≡ Some p → HasRebased client.old kept.old j b l p (refusal_to_rebase b) client.new kept.new a) }
{
    let Some(place) = branch_place(client.branches.as_slice(), number) else {
        return Ok(Answer::No(Refusal::NoBranch));
    };
    let Some(branch) = client.branches.get(place) else {
        return Ok(Answer::No(Refusal::NoBranch));
    };
    if branch.transaction.is_some() {
        return Ok(Answer::No(Refusal::Unfinished));
    }
    let Some(ground) = ground_of(alloc, client, branch.parent)? else {
        return Ok(Answer::No(Refusal::NoBranch));
    };
    let Some(parent) = head_of(client, kept, branch.parent) else {
        return Ok(Answer::No(Refusal::NoBranch));
    };
    let head = Head::over(alloc, &parent.doc, branch.own.as_slice())?;
    let void = void_revs(alloc, branch.own.as_slice(), head.own.as_slice())?;
    set_ground(client, kept, place, ground, head);
    Ok(Answer::Rebase { void })
}

// ## Merging

// Why a branch is not merged into a line, if it is not.
fn refusal_to_merge(client: &Client, branch: &Branch, parent: LineState) -> Option<Refusal>
    requires own { length branch.now.own ≤ 256 }
    requires parent { parent.own ≤ 256 }
    ensures { (l : Line) → state_of l ≡ parent → result ≡ refusal_to_merge client.now branch.now.number branch.now l }
{
    if branch.transaction.is_some() {
        return Some(Refusal::Unfinished);
    }
    if parent.is_open {
        return Some(Refusal::Unfinished);
    }
    if has_children(client, branch.number) {
        return Some(Refusal::HasChildren);
    }
    match own_limit_passed(branch.parent, parent.own, branch.own.len()) {
        Some(limit) => Some(Refusal::Limit(limit)),
        None => None,
    }
}

// Carries out commits at a head; told are the revisions of those that are void there.
fn carry_all(alloc: Global, head: &mut Head, intents: &[Intent]) -> Result<List<Rev>, AllocError>
    requires sound { IsSoundInForm (document_of head.old.doc) }
    requires fit { FitInTurn (document_of head.old.doc) intents.now }
    ensures head { OnOk result (HasCarried head.old intents.now head.new) }
    ensures void { IfOk result (λ revs. (ks : Seq CarriedOf) → head.new.own ≡ head.old.own ++ ks → revs ≡ void_among intents.now ks) }
{
    let before = head.own.len();
    head.extend(alloc, intents)?;
    void_revs(alloc, intents, head.own.as_slice().split_at(before).1)
}

// Keeps copies of commits as pending, and in the queue.
#[tactic(auto, using(std::proofs::lemmas::List::Sums::fold_more))]
fn enqueue_all(alloc: Global, client: &mut Client, intents: &[Intent]) -> Result<(), AllocError>
    requires few { client.old.ids + 1 < 2 ^ 32 }
    requires taken { KeepsIds client.old }
    ensures { OnOk result (client.new ≡ fold (λ d N. with_commit d N) client.old intents.now) }
{
    for intent in intents {
        let intent = intent.copy(alloc)?;
        enqueue(alloc, client, intent)?;
    }
    Ok(())
}

// Merges commits into the main line: they come behind its own, as commits that are pending.
fn merge_main(
    alloc: Global,
    client: &mut Client,
    kept: &mut Replica,
    intents: &[Intent],
) -> Result<List<Rev>, AllocError>
    requires few { client.old.ids + 1 < 2 ^ 32 }
    requires taken { KeepsIds client.old }
    requires sound { IsSoundInForm (document_of kept.old.main.doc) }
    requires fit { FitInTurn (document_of kept.old.main.doc) intents.now }
    ensures client { OnOk result (client.new ≡ fold (λ d N. with_commit d N) client.old intents.now) }
    ensures kept { OnOk result (HasCarried kept.old.main intents.now kept.new.main) }
    ensures others { OnOk result (kept.new ≡ record kept.old { main = kept.new.main }) }
    ensures void { IfOk result (λ revs. (ks : Seq CarriedOf) → kept.new.main.own ≡ kept.old.main.own ++ ks → revs ≡ void_among intents.now ks) }
{
    let revs = carry_all(alloc, &mut kept.main, intents)?;
    enqueue_all(alloc, client, intents)?;
    Ok(revs)
}

// Merges commits into another branch: they come behind its own.
fn merge_branch(
    alloc: Global,
    branch: &mut Branch,
    head: &mut Head,
    intents: &[Intent],
) -> Result<List<Rev>, AllocError>
    requires sound { IsSoundInForm (document_of head.old.doc) }
    requires fit { FitInTurn (document_of head.old.doc) intents.now }
    ensures branch { OnOk result (branch.new ≡ record branch.old { own = branch.old.own ++ intents.now }) }
    ensures head { OnOk result (HasCarried head.old intents.now head.new) }
    ensures void { IfOk result (λ revs. (ks : Seq CarriedOf) → head.new.own ≡ head.old.own ++ ks → revs ≡ void_among intents.now ks) }
{
    let revs = carry_all(alloc, head, intents)?;
    push_copies(alloc, &mut branch.own, intents)?;
    Ok(revs)
}

// Takes the branch at a place away, and its head.
fn take_branch(client: &mut Client, kept: &mut Replica, place: usize) -> Branch
    requires there { place < length client.old.branches }
    requires head { place < length kept.old.branches }
    ensures branch { slice_get client.old.branches place ≡ Some result }
    ensures client { client.new ≡ record client.old { branches = without client.old.branches place } }
    ensures kept { kept.new ≡ record kept.old { branches = without kept.old.branches place } }
{
    let _ = kept.branches.remove(place);
    client.branches.remove(place)
}

// Merges commits into the line of a number.
fn merge_into(
    alloc: Global,
    client: &mut Client,
    kept: &mut Replica,
    number: u32,
    intents: &[Intent],
) -> Result<Answer, AllocError>
    requires few { client.old.ids + 1 < 2 ^ 32 }
    requires taken { KeepsIds client.old }
    requires heads { length kept.old.branches ≡ length client.old.branches }
    requires can { (p : HeadOf) → head_of client.old kept.old number ≡ Some p → IsSoundInForm (document_of p.doc) × FitInTurn (document_of p.doc) intents.now }
    ensures { IfOk result (λ a. (p : HeadOf) → head_of client.old kept.old number ≡ Some p → HasMergedInto client.old kept.old number p intents.now client.new kept.new a) }
{
    if number == 0 {
        let void = merge_main(alloc, client, kept, intents)?;
        return Ok(Answer::Merge { void });
    }
    let Some(place) = branch_place(client.branches.as_slice(), number) else {
        return Ok(Answer::No(Refusal::NoBranch));
    };
    let Some(branch) = client.branches.get_mut(place) else {
        return Ok(Answer::No(Refusal::NoBranch));
    };
    let Some(head) = kept.branches.get_mut(place) else {
        return Ok(Answer::No(Refusal::NoBranch));
    };
    let void = merge_branch(alloc, branch, head, intents)?;
    Ok(Answer::Merge { void })
}

/// Merges the branch of a number into its parent, or refuses it: the branch's own commits are carried out behind its
/// parent's, in the parent's document, and the branch is gone. Told are the revisions of those that are void there.
pub fn merge(
    alloc: Global,
    client: &mut Client,
    kept: &mut Replica,
    number: u32,
) -> Result<Answer, AllocError>
    requires few { client.old.ids + 1 < 2 ^ 32 }
    requires taken { KeepsIds client.old }
    requires heads { length kept.old.branches ≡ length client.old.branches }
    requires own { AllByRecursion (λ (b : BranchOf). length b.own ≤ 256) client.old.branches }
    requires pending { length client.old.pending ≤ 256 }
    requires can { (j : ℕ) (b : BranchOf) (p : HeadOf) → branch_place number client.old.branches ≡ Some j → slice_get client.old.branches j ≡ Some b
        → head_of (without_place client.old j) (without_head kept.old j) b.parent ≡ Some p → IsSoundInForm (document_of p.doc) × FitInTurn (document_of p.doc) b.own }
    ensures none { IfOk result (λ a. branch_place number client.old.branches ≡ None → HasNoLine client.old kept.old client.new kept.new a) }
    ensures merged { IfOk result (λ a. (j : ℕ) (b : BranchOf) (l : Line) (p : HeadOf) → branch_place number client.old.branches ≡ Some j → slice_get client.old.branches j ≡ Some b
        → line_of client.old b.parent ≡ Some l → head_of (without_place client.old j) (without_head kept.old j) b.parent ≡ Some p
        → HasMerged client.old kept.old j b p (refusal_to_merge client.old number b l) client.new kept.new a) }
{
    let Some(place) = branch_place(client.branches.as_slice(), number) else {
        return Ok(Answer::No(Refusal::NoBranch));
    };
    let Some(branch) = client.branches.get(place) else {
        return Ok(Answer::No(Refusal::NoBranch));
    };
    let Some(parent) = line_state(client, branch.parent) else {
        return Ok(Answer::No(Refusal::NoBranch));
    };
    if let Some(refusal) = refusal_to_merge(client, branch, parent) {
        return Ok(Answer::No(refusal));
    }
    let branch = take_branch(client, kept, place);
    merge_into(alloc, client, kept, branch.parent, branch.own.as_slice())
}

// ## Dropping

// How many names wait on a branch.
fn names_on(branch: &Branch) -> u64
    requires { names_on branch.now ≤ 16384 }
    ensures { result ≡ names_on branch.now }
{
    let edited = match &branch.transaction {
        None => 0,
        Some(transaction) => names_edited(&transaction.joined),
    };
    edited + names_in(branch.own.as_slice())
}

/// Drops the branch of a number with all that is on it, or refuses it.
pub fn drop_branch(client: &mut Client, kept: &mut Replica, number: u32) -> Answer
    requires heads { length kept.old.branches ≡ length client.old.branches }
    requires names { kept.old.names ≡ unsequenced client.old }
    requires few_names { unsequenced client.old ≤ 16384 }
    ensures none { branch_place number client.old.branches ≡ None → HasNoLine client.old kept.old client.new kept.new result }
    ensures dropped { (j : ℕ) (b : BranchOf) → branch_place number client.old.branches ≡ Some j → slice_get client.old.branches j ≡ Some b
        → HasDropped client.old kept.old j b (has_children client.old number) client.new kept.new result }
{
    let Some(place) = branch_place(client.branches.as_slice(), number) else {
        return Answer::No(Refusal::NoBranch);
    };
    if has_children(client, number) {
        return Answer::No(Refusal::HasChildren);
    }
    let branch = take_branch(client, kept, place);
    kept.names -= names_on(&branch);
    Answer::DropBranch
}
