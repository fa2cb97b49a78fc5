//! The documents over which the authors of a log write.
ghost use Rattle.std.specs.BTreeMap.{get};
ghost use Rattle.std.specs.Ordering.{nat_cmp};
ghost use Rattle.std.specs.Prelude.{◌≡◌, ◌≤◌, ◌<◌, ◌^◌, ℕ, None, Some, [], length, take, IfOk, IfSome, OnOk, List as Seq};
ghost use Rattle.st_author_docs.specs.Authors.{IsAuthorOf, LeadsTo};
ghost use Rattle.st_doc.specs.Doc.{document_of};
ghost use Rattle.st_lists.specs.Log.{commits_in};
ghost use Rattle.st_lists.specs.declared.lists.Entry.{Entry as Logged};
ghost use Rattle.st_marks.specs.Document.{Document, IsSoundInForm};
ghost use Rattle.st_replay.specs.Stands.{AreAuthorsOf};
ghost use Rattle.st_replay.specs.inside.Going.{CanGo, IsAt};
ghost use Rattle.st_valid.specs.Author.{author_list};

use st_author_docs::AuthorDoc;
use st_doc::Doc;
use st_lists::Entry;
use std::alloc::{AllocError, Global};
use std::collections::BTreeMap;

/// What is kept of the authors of a log, by session, and the document with which the log opens.
#[derive(Drop)]
pub struct Authors {
    pub(crate) opening: Doc,
    pub(crate) docs: BTreeMap<u32, AuthorDoc>,
}

// What is kept of a session that has received nothing.
fn new_author(alloc: Global, opening: &Doc) -> Result<AuthorDoc, AllocError>
    requires { IsSoundInForm (document_of opening.now) }
    ensures at { IfOk result (λ a. a.at ≡ 0) }
    ensures is { IfOk result (λ a. (log : Seq Logged) (session : ℕ)
        → IsAuthorOf (document_of opening.now) log session a) }
{
    let base = opening.copy(alloc)?;
    Ok(AuthorDoc::start(base, 0))
}

// What is kept of a session, where that can go on to a reference, and else of one that has received nothing.
fn or_new_author(
    alloc: Global,
    kept: Option<AuthorDoc>,
    opening: &Doc,
    reference: u32,
) -> Result<AuthorDoc, AllocError>
    requires { IsSoundInForm (document_of opening.now) }
    ensures at { IfOk result (λ a. a.at ≤ reference) }
    ensures is { IfOk result (λ a. (log : Seq Logged) (session : ℕ)
        → IfSome kept (IsAuthorOf (document_of opening.now) log session)
        → IsAuthorOf (document_of opening.now) log session a) }
{
    if let Some(author) = kept {
        if author.at() <= reference {
            return Ok(author);
        }
    }
    new_author(alloc, opening)
}

impl Authors {
    /// Those of the empty log.
    pub(crate) fn start(alloc: Global, opening: Doc) -> Authors
        ensures { AreAuthorsOf (document_of opening) [] result }
    {
        Authors {
            opening,
            docs: BTreeMap::new(alloc),
        }
    }

    // Takes out what is kept of a session, or begins anew where that can't go on to a reference.
    fn take_author(
        &mut self,
        alloc: Global,
        session: u32,
        reference: u32,
    ) -> Result<AuthorDoc, AllocError>
        requires { IsSoundInForm (document_of self.old.opening) }
        ensures at { IfOk result (λ a. a.at ≤ reference) }
        ensures is { IfOk result (λ a. (O : Document) (log : Seq Logged) → AreAuthorsOf O log self.old
            → IsAuthorOf O log session a) }
        ensures rest { OnOk result ((O : Document) (log : Seq Logged) → AreAuthorsOf O log self.old
            → AreAuthorsOf O log self.new) }
    {
        let kept = self.docs.remove(&session);
        let author = or_new_author(alloc, kept, &self.opening, reference)?;
        Ok(author)
    }

    // Keeps that of a session.
    fn keep_author(&mut self, session: u32, author: AuthorDoc) -> Result<(), AllocError>
        ensures kept { OnOk result (get nat_cmp self.new.docs session ≡ Some author) }
        ensures are { OnOk result ((O : Document) (log : Seq Logged) → AreAuthorsOf O log self.old
            → IsAuthorOf O log session author → AreAuthorsOf O log self.new) }
    {
        self.docs.insert(session, author)?;
        Ok(())
    }

    /// Goes on with a session to a reference, behind the whole log. For each reference a document is copied once at most, where the
    /// session has commits after it; for one before that to which the session went last, it is made anew from the opening. After
    /// an `Err` nothing is promised of the value.
    pub(crate) fn go_to(
        &mut self,
        alloc: Global,
        log: &[Entry],
        session: u32,
        reference: u32,
    ) -> Result<(), AllocError>
        requires within { reference ≤ length log.now }
        requires few { length log.now < 2 ^ 32 }
        requires can { CanGo log.now session reference self.old }
        ensures at { OnOk result (IsAt log.now session reference self.new) }
        ensures are { OnOk result ((O : Document) → AreAuthorsOf O log.now self.old
            → AreAuthorsOf O log.now self.new) }
    {
        let mut author = self.take_author(alloc, session, reference)?;
        author.go_to(alloc, log, session, reference)?;
        self.keep_author(session, author)?;
        Ok(())
    }

    /// The document over which a session writes at the reference that it has gone to.
    pub(crate) fn doc(&self, session: u32) -> Option<&Doc>
        ensures some { IfSome result (λ d. (O : Document) (log : Seq Logged) (reference : ℕ)
            → AreAuthorsOf O log self.now → IsAt log session reference self.now
            → LeadsTo O (author_list log session reference) d.now) }
        ensures none { result ≡ None → (log : Seq Logged) (reference : ℕ)
            → IsAt log session reference self.now → ⊥ }
    {
        let author = self.docs.get(&session)?;
        Some(author.doc())
    }

    /// Begins with a session that joins, at the document of the entries up to its join.
    pub(crate) fn join(
        &mut self,
        alloc: Global,
        session: u32,
        doc: &Doc,
        at: u32,
    ) -> Result<(), AllocError>
        ensures { OnOk result ((O : Document) (log : Seq Logged) → AreAuthorsOf O log self.old
            → at ≤ length log → LeadsTo O (commits_in (take at log)) doc.now
            → AreAuthorsOf O log self.new) }
    {
        let base = doc.copy(alloc)?;
        self.keep_author(session, AuthorDoc::start(base, at))?;
        Ok(())
    }

    /// Lets go what is kept of a session that leaves.
    pub(crate) fn leave(&mut self, session: u32)
        ensures { (O : Document) (log : Seq Logged) → AreAuthorsOf O log self.old
            → AreAuthorsOf O log self.new }
    {
        let _ = self.docs.remove(&session);
    }
}
