//! Whether the schema under which a commit was made is in effect after a step.
ghost use Rattle.std.specs.Prelude.{◌≡◌, ◌↔◌, ◌||◌, ◌&&◌, not, IsTrue};
ghost use Rattle.std.specs.List.{list_any};
ghost use Rattle.std.specs.Option.{option_map_or};
ghost use Rattle.st_ids.specs.Order.{same_rev};
ghost use Rattle.st_marks.specs.declared.intents.Intent.{Intent};
ghost use Rattle.st_marks.specs.declared.schemas.SchemaEntry.{SchemaEntry as Entry};
ghost use Rattle.st_marks.specs.Document.{Document, last_of};
ghost use Rattle.st_marks.specs.Extends.{IsExtendedBy};
ghost use Rattle.st_marks.specs.Verdict.{IsBaseInEffect};
ghost use Rattle.st_mention_laws.specs.Shown.{Shows, ShowsStep};
ghost use Rattle.st_lean.specs.inside.Base.{IsBaseOver};

use st_ids::{Rev, is_same_rev};
use st_marks::{Change, SchemaEntry, SchemaStep, Step};

// Whether one of some entries has a revision.
fn has_rev(entries: &[SchemaEntry], rev: Rev) -> bool
    ensures { result ≡ list_any (λ (e : Entry). same_rev e.rev rev) entries.now }
{
    entries.iter().any(|entry| is_same_rev(entry.rev, rev))
}

// The revision of the last entry after a step.
fn last_after(part: &SchemaStep) -> Rev
    ensures { result ≡ option_map_or (λ (e : Entry). e.rev) (last_of part.now.add) part.now.on }
{
    match part.add.as_slice().last() {
        None => part.on,
        Some(entry) => entry.rev,
    }
}

// Whether the schema of a commit that changes data is in effect after a step.
fn base_over_data(part: &SchemaStep, under: Rev, base: bool) -> bool
    ensures { result ≡ (list_any (λ (e : Entry). same_rev e.rev under) part.now.add || (base && not (list_any (λ (e : Entry). same_rev e.rev under) part.now.cut))) }
{
    has_rev(part.add.as_slice(), under) || (base && !has_rev(part.cut.as_slice(), under))
}

// Whether the schema of a commit that changes the schema is the last in effect after a step.
fn base_over_schema(part: &SchemaStep, under: Rev) -> bool
    ensures { result ≡ same_rev (option_map_or (λ (e : Entry). e.rev) (last_of part.now.add) part.now.on) under }
{
    is_same_rev(last_after(part), under)
}

// Whether the schema of a commit is in effect after a step that changes the schemas so.
fn base_over(part: &SchemaStep, change: &Change) -> bool
    ensures { IsBaseOver part.now change.now result }
{
    match &change.schema {
        None => base_over_data(part, change.under, change.base),
        Some(_) => base_over_schema(part, change.under),
    }
}

/// Whether the schema under which a commit was made is in effect after a step (for a change of schema: is the last in effect).
/// Linear in the entries that come and go.
pub fn base_after(change: &Change, step: &Step) -> bool
    ensures { (D E : Document) (N : Intent) → IsExtendedBy D E → Shows D N change.now → ShowsStep D E step.now
        → IsTrue result ↔ IsBaseInEffect E N }
{
    match &step.schema {
        None => change.base,
        Some(part) => base_over(part, change),
    }
}
