//! The schemas in effect in a document.
ghost use Rattle.std.specs.Prelude.{◌≡◌, ◌↔◌, ◌<◌, true, None, List as Seq, length, IfSome};
ghost use Rattle.std.specs.List.{find, position};
ghost use Rattle.std.specs.Option.{option_copied};
ghost use Rattle.st_ids.specs.Order.{same_rev};
ghost use Rattle.st_ids.specs.declared.names.Rev.{Rev as Name};
ghost use Rattle.st_marks.specs.Document.{revs};
ghost use Rattle.st_doc.specs.Doc.{document_of};
ghost use Rattle.st_edits.specs.Keeping.{HasRoomForSchema, IsUpTo, text_at};

use st_doc::Doc;
use st_ids::{Rev, Text, is_same_rev};
use st_marks::{Intent, SchemaEntry};

// The first entry of a revision.
fn entry_of(entries: &[SchemaEntry], rev: Rev) -> Option<&SchemaEntry>
    ensures { option_copied result ≡ find (λ e. same_rev e.rev rev) entries.now }
{
    entries.iter().find(|e| is_same_rev(e.rev, rev))
}

// The place of the first entry of a revision.
fn place_of(entries: &[SchemaEntry], rev: Rev) -> Option<usize>
    ensures { result ≡ position (λ e. same_rev e.rev rev) entries.now }
{
    entries.iter().position(|e| is_same_rev(e.rev, rev))
}

// The entries up to that of a revision, it among them.
fn front_in(entries: &[SchemaEntry], rev: Rev) -> Option<&[SchemaEntry]>
    ensures some { IfSome result (λ es. IsUpTo rev (revs entries.now) (revs es.now)) }
    ensures none { result ≡ None → (front : Seq Name) → IsUpTo rev (revs entries.now) front → ⊥ }
{
    let at = place_of(entries, rev)?;
    Some(&entries[..=at])
}

/// The text of the schema of a revision that is in effect.
pub fn text_at(doc: &Doc, rev: Rev) -> Option<&Text>
    ensures { option_copied result ≡ text_at (document_of doc.now).schemas rev }
{
    let entry = entry_of(doc.schemas(), rev)?;
    Some(&entry.text)
}

/// The entries in effect up to that of a revision, it among them. None where the revision isn't in effect.
pub fn front_to(doc: &Doc, rev: Rev) -> Option<&[SchemaEntry]>
    ensures some { IfSome result (λ es. IsUpTo rev (revs (document_of doc.now).schemas) (revs es.now)) }
    ensures none { result ≡ None → (front : Seq Name) → IsUpTo rev (revs (document_of doc.now).schemas) front → ⊥ }
{
    front_in(doc.schemas(), rev)
}

/// Whether one more schema may come into effect, if an intent brings one: at most 64 are.
pub fn has_room_for_schema(doc: &Doc, intent: &Intent) -> bool
    ensures { (result ≡ true) ↔ HasRoomForSchema (document_of doc.now) intent.now }
{
    match &intent.schema {
        None => true,
        Some(_) => doc.schemas().len() < 64,
    }
}
