//! The last two tests of a commit: of its context, and of its schema.
ghost use Rattle.std.specs.Prelude.{◌≡◌, ◌↔◌, true, IfOk, List as Seq};
ghost use Rattle.st_doc.specs.Doc.{document_of};
ghost use Rattle.st_ids.specs.Or.{IfRefused};
ghost use Rattle.st_lists.specs.Log.{commits_in};
ghost use Rattle.st_makers.specs.Makers.{KnowsMakers};
ghost use Rattle.st_marks.specs.Document.{Document, IsSoundInForm};
ghost use Rattle.st_marks.specs.Run.{Run};
ghost use Rattle.st_marks.specs.declared.intents.Intent.{Intent as Wanted};
ghost use Rattle.st_replay.specs.inside.Judging.{IsJudged, IsTurnedDown, Keeps};
ghost use Rattle.st_valid.specs.Author.{author_list};
ghost use Rattle.st_valid.specs.declared.message.ReplayCause.TheVariants as cause;

use crate::meant::authors_intent;
use st_doc::Doc;
use st_ids::Or;
use st_keeps::passes_schema;
use st_lists::Entry;
use st_makers::Makers;
use st_marks::{Change, Intent};
use st_schema_texts::{KnownSchemas, has_room_for_schema};
use st_valid::ReplayCause;
use std::alloc::{AllocError, Global};

// Whether a commit keeps to the schema that it names, where that was in effect for its author.
fn keeps_to_schema(
    alloc: Global,
    schemas: &mut KnownSchemas,
    makers: &Makers,
    doc: &Doc,
    base: bool,
    intent: &Intent,
) -> Result<bool, AllocError>
    ensures { IfOk result (λ b. (O : Document) (Ns : Seq Wanted) → KnowsMakers O Ns makers.now
        → (b ≡ true) ↔ (base ≡ true → Keeps O (document_of doc.now) Ns intent.now)) }
{
    if !base {
        return Ok(true);
    }
    if !has_room_for_schema(doc, intent) {
        return Ok(false);
    }
    passes_schema(alloc, schemas, makers, doc, intent)
}

// A commit, if it does.
fn if_kept(
    alloc: Global,
    schemas: &mut KnownSchemas,
    makers: &Makers,
    doc: &Doc,
    base: bool,
    intent: Intent,
) -> Result<Intent, Or<ReplayCause>>
    ensures same { IfOk result (λ N. N ≡ intent) }
    ensures kept { IfOk result (λ _. (O : Document) (Ns : Seq Wanted) → KnowsMakers O Ns makers.now
        → base ≡ true → Keeps O (document_of doc.now) Ns intent) }
    ensures cause { IfRefused result (λ c. c ≡ cause.Schema) }
    ensures refused { IfRefused result (λ _. (O : Document) (Ns : Seq Wanted)
        → KnowsMakers O Ns makers.now
        → (base ≡ true → Keeps O (document_of doc.now) Ns intent) → ⊥) }
{
    match keeps_to_schema(alloc, schemas, makers, doc, base, &intent) {
        Ok(true) => Ok(intent),
        Ok(false) => Err(Or::Fault(ReplayCause::Schema)),
        Err(_) => Err(Or::NoMemory),
    }
}

/// The intent that a change means in its author's document, by the makers of all nodes in the log and the schemas that were read.
/// `Context` where it means none, and `Schema` where its intent doesn't keep to its schema.
pub(crate) fn judge_change(
    alloc: Global,
    schemas: &mut KnownSchemas,
    makers: &Makers,
    doc: &Doc,
    log: &[Entry],
    session: u32,
    reference: u32,
    change: &Change,
) -> Result<Intent, Or<ReplayCause>>
    requires sound { IsSoundInForm (document_of doc.now) }
    ensures passed { IfOk result (λ N. (O : Document)
        → Run O (author_list log.now session reference) (document_of doc.now)
        → KnowsMakers O (commits_in log.now) makers.now
        → IsJudged O log.now session reference change.now N) }
    ensures refused { IfRefused result (λ c. (O : Document)
        → Run O (author_list log.now session reference) (document_of doc.now)
        → KnowsMakers O (commits_in log.now) makers.now
        → IsTurnedDown O log.now session reference change.now c) }
{
    match authors_intent(alloc, doc, log, session, reference, change) {
        Ok(Some(intent)) => if_kept(alloc, schemas, makers, doc, change.base, intent),
        Ok(None) => Err(Or::Fault(ReplayCause::Context)),
        Err(_) => Err(Or::NoMemory),
    }
}
