//! The texts of commits that are carried out one after the other, each as the change that it is where it comes.
ghost use Rattle.std.specs.Prelude.{◌≡◌, [], ◌∷◌, ◌++◌, List as Seq, ℕ, IfOk, OnOk};
ghost use Rattle.st_marks.specs.CarryOut.{full};
ghost use Rattle.st_marks.specs.Document.{HasShortRows, IsSoundInForm};
ghost use Rattle.st_marks.specs.Intent.{Fits};
ghost use Rattle.st_marks.specs.Run.{Run};
ghost use Rattle.st_doc.specs.Doc.{document_of};
ghost use Rattle.st_log_laws.specs.Turns.{FitInTurn};
ghost use Rattle.st_world.specs.Texts.{AreTextsOf, IsTextOf};

use st_change_codec::change_text;
use st_doc::Doc;
use st_embed::embed;
use st_ids::{List, Text};
use st_marks::Intent;
use std::alloc::{AllocError, Global};

// The text of the change of an intent in a document.
fn text_in(alloc: Global, doc: &Doc, intent: &Intent) -> Result<Text, AllocError>
    requires sound { IsSoundInForm (document_of doc.now) }
    requires fits { Fits (document_of doc.now) intent.now }
    ensures { IfOk result (IsTextOf (document_of doc.now) intent.now) }
{
    let change = embed(alloc, doc, intent)?;
    change_text(alloc, &change)
}

// Carries out an intent.
fn carry(alloc: Global, doc: &mut Doc, intent: &Intent) -> Result<(), AllocError>
    requires sound { IsSoundInForm (document_of doc.old) }
    requires fits { Fits (document_of doc.old) intent.now }
    ensures after { OnOk result (Run (document_of doc.old) (intent.now ∷ []) (document_of doc.new)) }
    ensures still_sound { OnOk result (HasShortRows (full (document_of doc.old) intent.now) → IsSoundInForm (document_of doc.new)) }
{
    let _ = doc.carry(alloc, intent)?;
    Ok(())
}

// Puts the text of an intent behind others, and carries the intent out.
fn push_text(
    alloc: Global,
    doc: &mut Doc,
    texts: &mut List<Text>,
    intent: &Intent,
) -> Result<(), AllocError>
    requires sound { IsSoundInForm (document_of doc.old) }
    requires fits { Fits (document_of doc.old) intent.now }
    ensures text { OnOk result ((text : Seq ℕ) × IsTextOf (document_of doc.old) intent.now text × (texts.new ≡ texts.old ++ text ∷ [])) }
    ensures after { OnOk result (Run (document_of doc.old) (intent.now ∷ []) (document_of doc.new)) }
    ensures still_sound { OnOk result (HasShortRows (full (document_of doc.old) intent.now) → IsSoundInForm (document_of doc.new)) }
{
    texts.push(text_in(alloc, doc, intent)?)?;
    carry(alloc, doc, intent)
}

// The texts of intents that are carried out in a document.
fn carry_all(alloc: Global, doc: &mut Doc, intents: &[Intent]) -> Result<List<Text>, AllocError>
    requires sound { IsSoundInForm (document_of doc.old) }
    requires fit { FitInTurn (document_of doc.old) intents.now }
    ensures { IfOk result (AreTextsOf (document_of doc.old) intents.now) }
{
    let mut texts = List::new(alloc);
    for intent in intents {
        push_text(alloc, doc, &mut texts, intent)?;
    }
    Ok(texts)
}

/// The texts of intents that fit one after the other over a document, which is copied: each as the change that it is in
/// the document after those before it.
pub fn texts_in_turn(alloc: Global, doc: &Doc, intents: &[Intent]) -> Result<List<Text>, AllocError>
    requires sound { IsSoundInForm (document_of doc.now) }
    requires fit { FitInTurn (document_of doc.now) intents.now }
    ensures { IfOk result (AreTextsOf (document_of doc.now) intents.now) }
{
    let mut doc = doc.copy(alloc)?;
    carry_all(alloc, &mut doc, intents)
}
