//! The documents that are kept of a session's author.
ghost use Rattle.std.specs.List.{list_any};
ghost use Rattle.std.specs.Prelude.{true, false, ◌≡◌, ◌≤◌, ◌^◌, ◌<◌, ℕ, List as Seq, None, length, drop, take, unwrap_or, IfOk, OnOk};
ghost use Rattle.st_doc.specs.Doc.{document_of};
ghost use Rattle.st_log_laws.specs.Turns.{FitInTurn};
ghost use Rattle.st_lists.specs.Log.{commits_by, commits_in};
ghost use Rattle.st_lists.specs.declared.lists.Entry.{Entry as Logged};
ghost use Rattle.st_marks.specs.Document.{Document, IsSoundInForm};
ghost use Rattle.st_valid.specs.Author.{author_list};
ghost use Rattle.st_author_docs.specs.Authors.{CanGoTo, IsAuthorOf, LeadsTo, written_over};
ghost use Rattle.st_author_docs.specs.inside.Going.{HasGoneOn, is_others};

use crate::carrying::{carry_entries, carry_own};
use st_doc::Doc;
use st_lists::{Body, Entry, count_own};
use std::alloc::{AllocError, Global};

/// What is kept of a session: the document of the log's entries up to a reference, and the one over which the session
/// writes there, which has the session's own commits after the reference too. So many entries of the log were gone
/// through.
#[derive(Drop)]
pub struct AuthorDoc {
    pub(crate) at: u32,
    pub(crate) seen: u32,
    pub(crate) base: Doc,
    pub(crate) head: Option<Doc>,
}

// The entries after so many, up to so many.
fn entries_between(log: &[Entry], from: u32, to: u32) -> &[Entry]
    requires order { from ≤ to }
    requires within { to ≤ length log.now }
    ensures { result.now ≡ drop from (take to log.now) }
{
    &log[from as usize..to as usize]
}

// The entries after so many.
fn entries_after(log: &[Entry], from: u32) -> &[Entry]
    requires { from ≤ length log.now }
    ensures { result.now ≡ drop from log.now }
{
    &log[from as usize..]
}

// Whether an entry is a commit of another session.
fn is_others(entry: &Entry, session: u32) -> bool
    ensures { result ≡ is_others session entry.now }
{
    match &entry.body {
        Body::Join { .. } | Body::Leave | Body::Ack { .. } => false,
        Body::Commit { .. } => entry.session != session,
    }
}

// Whether there is a commit of another session among entries.
fn has_others(entries: &[Entry], session: u32) -> bool
    ensures { result ≡ list_any (is_others session) entries.now }
{
    entries.iter().any(|entry| is_others(entry, session))
}

// A head that is there, or else a copy of the base.
fn head_or_copy(alloc: Global, head: Option<Doc>, base: &Doc) -> Result<Doc, AllocError>
    ensures { IfOk result (λ d. document_of d ≡ document_of (unwrap_or head base.now)) }
{
    match head {
        Some(head) => Ok(head),
        None => base.copy(alloc),
    }
}

impl AuthorDoc {
    /// What is kept of a session whose commits are all among so many entries, the first ones, to whose document it begins.
    pub fn start(base: Doc, at: u32) -> AuthorDoc
        ensures at { result.at ≡ at }
        ensures seen { result.seen ≡ at }
        ensures is { (O : Document) (log : Seq Logged) (session : ℕ) → at ≤ length log
            → LeadsTo O (commits_in (take at log)) base → IsAuthorOf O log session result }
    {
        AuthorDoc {
            at,
            seen: at,
            base,
            head: None,
        }
    }

    /// The reference.
    pub fn at(&self) -> u32
        ensures { result ≡ self.now.at }
    {
        self.at
    }

    /// How many entries of the log were gone through.
    pub fn seen(&self) -> u32
        ensures { result ≡ self.now.seen }
    {
        self.seen
    }

    /// The document over which the session writes at the reference, by the entries that were gone through.
    pub fn doc(&self) -> &Doc
        ensures { (O : Document) (log : Seq Logged) (session : ℕ) → IsAuthorOf O log session self.now
            → LeadsTo O (author_list (take self.now.seen log) session self.now.at) result.now }
    {
        match &self.head {
            None => &self.base,
            Some(head) => head,
        }
    }

    // Carries out a session's commits among entries in the head, which is made where it isn't there.
    fn carry_in_head(
        &mut self,
        alloc: Global,
        entries: &[Entry],
        session: u32,
    ) -> Result<(), AllocError>
        requires sound { IsSoundInForm (document_of (written_over self.old)) }
        requires fit { FitInTurn (document_of (written_over self.old))
            (commits_by session entries.now) }
        ensures { OnOk result (HasGoneOn self.old (commits_by session entries.now) self.new) }
    {
        let mut head = head_or_copy(alloc, self.head.take(), &self.base)?;
        carry_own(alloc, &mut head, entries, session)?;
        self.head = Some(head);
        Ok(())
    }

    // Goes through entries, and makes a head only where there is a commit of the session's own.
    fn go_through(
        &mut self,
        alloc: Global,
        entries: &[Entry],
        session: u32,
    ) -> Result<(), AllocError>
        requires sound { IsSoundInForm (document_of (written_over self.old)) }
        requires fit { FitInTurn (document_of (written_over self.old))
            (commits_by session entries.now) }
        ensures { OnOk result (HasGoneOn self.old (commits_by session entries.now) self.new) }
    {
        if count_own(entries, session) == 0 {
            return Ok(());
        }
        self.carry_in_head(alloc, entries, session)?;
        Ok(())
    }

    // Goes through the entries that have come since, at the reference that is known.
    fn follow(&mut self, alloc: Global, log: &[Entry], session: u32) -> Result<(), AllocError>
        requires few { length log.now < 2 ^ 32 }
        requires fit { CanGoTo log.now session self.old self.old.at }
        ensures at { OnOk result (self.new.at ≡ self.old.at) }
        ensures seen { OnOk result (self.new.seen ≡ length log.now) }
        ensures is { OnOk result ((O : Document) → IsAuthorOf O log.now session self.old
            → IsAuthorOf O log.now session self.new) }
    {
        let come = entries_after(log, self.seen);
        self.go_through(alloc, come, session)?;
        self.seen = log.len() as u32;
        Ok(())
    }

    // Moves the base on to a later reference. The head is let go, and no entry after the reference is gone through.
    fn move_base(
        &mut self,
        alloc: Global,
        log: &[Entry],
        session: u32,
        reference: u32,
    ) -> Result<(), AllocError>
        requires later { self.old.at ≤ reference }
        requires within { reference ≤ length log.now }
        requires fit { CanGoTo log.now session self.old reference }
        ensures at { OnOk result (self.new.at ≡ reference) }
        ensures is { OnOk result ((O : Document) → IsAuthorOf O log.now session self.old
            → IsAuthorOf O log.now session self.new) }
    {
        self.head = None;
        let passed = entries_between(log, self.at, reference);
        carry_entries(alloc, &mut self.base, passed)?;
        self.at = reference;
        self.seen = reference;
        Ok(())
    }

    // Moves the base on under the head, which has the commits up to a later reference already: they are the session's own.
    fn move_under_head(
        &mut self,
        alloc: Global,
        log: &[Entry],
        session: u32,
        reference: u32,
    ) -> Result<(), AllocError>
        requires later { self.old.at ≤ reference }
        requires within { reference ≤ length log.now }
        requires few { length log.now < 2 ^ 32 }
        requires own { list_any (is_others session) (drop self.old.at (take reference log.now))
            ≡ false }
        requires fit { CanGoTo log.now session self.old reference }
        ensures at { OnOk result (self.new.at ≡ reference) }
        ensures is { OnOk result ((O : Document) → IsAuthorOf O log.now session self.old
            → IsAuthorOf O log.now session self.new) }
    {
        self.follow(alloc, log, session)?;
        let passed = entries_between(log, self.at, reference);
        carry_entries(alloc, &mut self.base, passed)?;
        self.at = reference;
        Ok(())
    }

    // Whether there is a head to be kept at a later reference: no other session has a commit up to that, and this one has
    // one after it.
    fn keeps_head(&self, log: &[Entry], session: u32, reference: u32) -> bool
        requires later { self.now.at ≤ reference }
        requires within { reference ≤ length log.now }
        ensures { result ≡ true
            → list_any (is_others session) (drop self.now.at (take reference log.now)) ≡ false }
    {
        let passed = entries_between(log, self.at, reference);
        !has_others(passed, session)
            && self.head.is_some()
            && count_own(entries_after(log, reference), session) > 0
    }

    // Goes on to a reference, where it rises.
    fn rise(
        &mut self,
        alloc: Global,
        log: &[Entry],
        session: u32,
        reference: u32,
    ) -> Result<(), AllocError>
        requires later { self.old.at ≤ reference }
        requires within { reference ≤ length log.now }
        requires few { length log.now < 2 ^ 32 }
        requires fit { CanGoTo log.now session self.old reference }
        ensures at { OnOk result (self.new.at ≡ reference) }
        ensures is { OnOk result ((O : Document) → IsAuthorOf O log.now session self.old
            → IsAuthorOf O log.now session self.new) }
    {
        if self.at == reference {
            return Ok(());
        }
        if self.keeps_head(log, session, reference) {
            self.move_under_head(alloc, log, session, reference)?;
            return Ok(());
        }
        self.move_base(alloc, log, session, reference)?;
        Ok(())
    }

    /// Goes on to a reference and to the end of the log, after which `doc` is the document over which the session writes
    /// there. Where the reference stays, only the entries that have come are looked at, and where it rises, the base is
    /// carried over those up to it; it is copied where own commits come first after the reference, unless all commits that
    /// it passes are the session's own. After an `Err` nothing is promised of what is kept.
    pub fn go_to(
        &mut self,
        alloc: Global,
        log: &[Entry],
        session: u32,
        reference: u32,
    ) -> Result<(), AllocError>
        requires later { self.old.at ≤ reference }
        requires within { reference ≤ length log.now }
        requires few { length log.now < 2 ^ 32 }
        requires fit { CanGoTo log.now session self.old reference }
        ensures at { OnOk result (self.new.at ≡ reference) }
        ensures seen { OnOk result (self.new.seen ≡ length log.now) }
        ensures is { OnOk result ((O : Document) → IsAuthorOf O log.now session self.old
            → IsAuthorOf O log.now session self.new) }
    {
        self.rise(alloc, log, session, reference)?;
        self.follow(alloc, log, session)?;
        Ok(())
    }
}
