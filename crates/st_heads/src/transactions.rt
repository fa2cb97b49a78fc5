//! A transaction that is open on a line: what is edited in it is carried out in a copy of the line's document.
ghost use Rattle.std.specs.Prelude.{◌≡◌, Option, Some, None, unwrap_or, [], ◌∷◌, IfOk, OnOk};
ghost use Rattle.st_marks.specs.declared.intents.Intent.{Intent};
ghost use Rattle.st_marks.specs.CarryOut.{full};
ghost use Rattle.st_marks.specs.Document.{Document, HasShortRows, IsSoundInForm};
ghost use Rattle.st_marks.specs.Intent.{Fits};
ghost use Rattle.st_doc.specs.Doc.{document_of};
ghost use Rattle.st_lists.specs.Open.{with_open, IsSoundPart, IsWithPart};
ghost use Rattle.st_heads.specs.Transactions.{HasOpen, IsOpen};
ghost use Rattle.st_heads.specs.inside.Parts.{CanFollow};

use crate::heads::Head;
use st_doc::Doc;
use st_join::join;
use st_marks::Intent;
use std::alloc::{AllocError, Global};

// What was edited so far, with one part more.
fn with_part(alloc: Global, joined: &Option<Intent>, part: Intent) -> Result<Intent, AllocError>
    ensures { (D : Document) → IsSoundInForm D → CanFollow D joined.now part → IfOk result (IsWithPart joined.now part) }
{
    match joined {
        None => Ok(part),
        Some(first) => join(alloc, first, &part),
    }
}

// The document in which the transaction goes on: the one that it has, or a copy of the line's.
fn open_doc(alloc: Global, edited: Option<Doc>, doc: &Doc) -> Result<Doc, AllocError>
    ensures { IfOk result (λ d. document_of d ≡ document_of (unwrap_or edited doc.now)) }
{
    match edited {
        Some(open) => Ok(open),
        None => doc.copy(alloc),
    }
}

impl Head {
    ghost use Rattle.st_heads.specs.Heads.{HasCarried};

    /// The document that is shown: the line's, with what the open transaction has edited.
    pub fn shown_doc(&self) -> &Doc
        ensures { (joined : Option Intent) → HasOpen self.now joined → document_of result.now ≡ with_open (document_of self.now.doc) joined }
    {
        match &self.edited {
            Some(open) => open,
            None => &self.doc,
        }
    }

    /// Edits in the open transaction: the part is carried out in the document shown, where it has to be sound, and is
    /// joined to what was edited before. The line's document and its commits stay as they are; the first edit copies it.
    /// After an `Err` nothing is promised of either.
    pub fn edit(
        &mut self,
        alloc: Global,
        joined: &mut Option<Intent>,
        part: Intent,
    ) -> Result<(), AllocError>
        requires line { IsSoundInForm (document_of self.old.doc) }
        requires going { IsOpen self.old joined.old part.rev part.under }
        requires part { IsSoundPart (with_open (document_of self.old.doc) joined.old) part }
        ensures line { OnOk result ((self.new.doc ≡ self.old.doc) × (self.new.own ≡ self.old.own)) }
        ensures part { OnOk result ((K : Intent) × (joined.new ≡ Some K) × IsWithPart joined.old part K) }
        ensures shown { OnOk result (with_open (document_of self.old.doc) joined.new ≡ full (with_open (document_of self.old.doc) joined.old) part) }
        ensures going { OnOk result (IsOpen self.new joined.new part.rev part.under) }
    {
        let mut doc = open_doc(alloc, self.edited.take(), &self.doc)?;
        doc.carry(alloc, &part)?;
        *joined = Some(with_part(alloc, joined, part)?);
        self.edited = Some(doc);
        Ok(())
    }

    /// Lets go of what the open transaction has edited.
    pub fn abort(&mut self)
        ensures { self.new ≡ record self.old { edited = None } }
    {
        self.edited = None;
    }

    /// Commits an intent, which the caller takes from what the transaction has edited: it is carried out by its verdict in
    /// the line's document, in place, as `carry` does it, and what was edited is let go of. After an `Err` nothing is
    /// promised of the head.
    pub fn commit(&mut self, alloc: Global, joined: &Intent) -> Result<(), AllocError>
        requires sound { IsSoundInForm (document_of self.old.doc) }
        requires fits { Fits (document_of self.old.doc) joined.now }
        ensures carried { OnOk result (HasCarried (record self.old { edited = None }) (joined.now ∷ []) self.new) }
        ensures still_sound { OnOk result (HasShortRows (full (document_of self.old.doc) joined.now) → IsSoundInForm (document_of self.new.doc)) }
    {
        self.abort();
        self.carry(alloc, joined)
    }
}
