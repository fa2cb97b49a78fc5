//! The head of a line of commits: the document after them, and how each came out.
ghost use Rattle.std.specs.Prelude.{◌≡◌, ◌∷◌, [], None, IfOk, OnOk, if◌then◌else◌};
ghost use Rattle.st_marks.specs.CarryOut.{full};
ghost use Rattle.st_marks.specs.Document.{HasShortRows, IsSoundInForm};
ghost use Rattle.st_marks.specs.Intent.{Fits};
ghost use Rattle.st_marks.specs.Verdict.{IsVerdict, carried_document};
ghost use Rattle.st_doc.specs.Doc.{document_of};
ghost use Rattle.st_log_laws.specs.Turns.{FitInTurn};
ghost use Rattle.st_heads.specs.Remembered.{AreCarried, no_way};
ghost use Rattle.st_lists.specs.Voids.{is_void as is_void_by};

use crate::back::way_back;
use crate::ways::{Carried, Way};
use st_doc::Doc;
use st_ids::List;
use st_marks::{Intent, Verdict};
use std::alloc::{AllocError, Global};

/// The head of a line: the document after its commits, how each of its own commits came out, and, where a transaction is
/// open in which something was edited, the document with it carried out.
#[derive(Drop)]
pub struct Head {
    pub doc: Doc,
    pub own: List<Carried>,
    pub edited: Option<Doc>,
}

// Whether a verdict says that the commit is void.
fn is_void(verdict: &Verdict) -> bool
    ensures { result ≡ is_void_by verdict.now }
{
    match verdict {
        Verdict::Sound => false,
        _ => true,
    }
}

// The way back that is kept: none over a commit that is void.
fn kept_way(alloc: Global, void: bool, back: Way) -> Way
    ensures { result ≡ (if void then no_way else back) }
{
    if void {
        Way {
            clear: List::new(alloc),
            put: List::new(alloc),
        }
    } else {
        back
    }
}

// How a commit of that verdict came out.
fn outcome_of(alloc: Global, verdict: &Verdict, back: Way) -> Carried
    ensures void { result.void ≡ is_void_by verdict.now }
    ensures back { result.back ≡ (if result.void then no_way else back) }
{
    let void = is_void(verdict);
    let back = kept_way(alloc, void, back);
    Carried { void, back }
}

/// Carries out an intent that fits, in place, and says how it came out. The way back is made before. After an `Err`
/// nothing is promised of the document.
pub fn carry_one(alloc: Global, doc: &mut Doc, intent: &Intent) -> Result<Carried, AllocError>
    requires sound { IsSoundInForm (document_of doc.old) }
    requires fits { Fits (document_of doc.old) intent.now }
    ensures run { IfOk result (λ k. AreCarried (document_of doc.old) (intent.now ∷ []) (k ∷ []) (document_of doc.new)) }
    ensures still_sound { OnOk result (HasShortRows (full (document_of doc.old) intent.now) → IsSoundInForm (document_of doc.new)) }
{
    let back = way_back(alloc, doc, intent)?;
    let verdict = doc.carry(alloc, intent)?;
    Ok(outcome_of(alloc, &verdict, back))
}

impl Head {
    ghost use Rattle.st_heads.specs.Heads.{HasCarried};

    /// Carries out a commit that fits, in place, and remembers how it came out. It takes the time that the intent's names
    /// and the rows that it grows ask for. After an `Err` nothing is promised of the head.
    pub fn carry(&mut self, alloc: Global, intent: &Intent) -> Result<(), AllocError>
        requires sound { IsSoundInForm (document_of self.old.doc) }
        requires fits { Fits (document_of self.old.doc) intent.now }
        ensures carried { OnOk result (HasCarried self.old (intent.now ∷ []) self.new) }
        ensures still_sound { OnOk result (HasShortRows (full (document_of self.old.doc) intent.now) → IsSoundInForm (document_of self.new.doc)) }
    {
        let carried = carry_one(alloc, &mut self.doc, intent)?;
        self.own.push(carried)?;
        Ok(())
    }

    /// Carries out commits that fit one after the other, as `carry` does each.
    pub fn extend(&mut self, alloc: Global, intents: &[Intent]) -> Result<(), AllocError>
        requires sound { IsSoundInForm (document_of self.old.doc) }
        requires fit { FitInTurn (document_of self.old.doc) intents.now }
        ensures carried { OnOk result (HasCarried self.old intents.now self.new) }
        ensures still_sound { OnOk result (IsSoundInForm (document_of self.new.doc)) }
    {
        for intent in intents {
            self.carry(alloc, intent)?;
        }
        Ok(())
    }

    /// The head of commits that fit one after the other over a document, which is copied.
    pub fn over(alloc: Global, doc: &Doc, intents: &[Intent]) -> Result<Head, AllocError>
        requires sound { IsSoundInForm (document_of doc.now) }
        requires fit { FitInTurn (document_of doc.now) intents.now }
        ensures carried { IfOk result (λ h. AreCarried (document_of doc.now) intents.now h.own (document_of h.doc)) }
        ensures no_edit { IfOk result (λ h. h.edited ≡ None) }
        ensures sound { IfOk result (λ h. IsSoundInForm (document_of h.doc)) }
    {
        let mut head = Head {
            doc: doc.copy(alloc)?,
            own: List::new(alloc),
            edited: None,
        };
        head.extend(alloc, intents)?;
        Ok(head)
    }
}
