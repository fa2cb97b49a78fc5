//! The schema entries before a step.
ghost use Rattle.std.specs.Prelude.{◌≡◌, ◌≢◌, ◌↔◌, ◌++◌, IsTrue, IfSome};
ghost use Rattle.std.specs.List.{AllByRecursion, list_any};
ghost use Rattle.st_ids.specs.Order.{same_rev};
ghost use Rattle.st_marks.specs.declared.schemas.SchemaEntry.{SchemaEntry as Entry};
ghost use Rattle.st_marks.specs.Document.{last_of, revs};
ghost use Rattle.st_marks.specs.Verdict.{HasBase};
ghost use Rattle.st_author_laws.specs.Back.{schemas_by};

use st_ids::{List, Rev, Text, is_same_rev};
use st_marks::{Change, SchemaEntry, SchemaStep};

/// Entries in two parts, one behind the other.
#[derive(Clone, Copy)]
pub struct Entries<'a> {
    pub front: &'a [SchemaEntry],
    pub behind: &'a [SchemaEntry],
}

/// The entries before a step, of which those after it are told.
pub fn entries_before<'a>(entries: &'a [SchemaEntry], step: &'a Option<SchemaStep>) -> Entries<'a>
    ensures { result.front.now ++ result.behind.now ≡ schemas_by step.now entries.now }
{
    match step {
        None => Entries {
            front: entries,
            behind: &[],
        },
        Some(s) => Entries {
            front: &entries[..entries.len().saturating_sub(s.add.len())],
            behind: s.cut.as_slice(),
        },
    }
}

// Whether an entry is of a revision.
fn has_rev(entries: &[SchemaEntry], rev: Rev) -> bool
    ensures { result ≡ list_any (λ (e : Entry). same_rev e.rev rev) entries.now }
{
    for entry in entries {
        if is_same_rev(entry.rev, rev) {
            return true;
        }
    }
    false
}

// Whether an entry of either part is of a revision.
fn has_rev_in(entries: &Entries<'_>, rev: Rev) -> bool
    ensures { result ≡ list_any (λ (e : Entry). same_rev e.rev rev) (entries.now.front.now ++ entries.now.behind.now) }
{
    has_rev(entries.front, rev) || has_rev(entries.behind, rev)
}

// The revision of the last entry.
fn last_rev(entries: &[SchemaEntry]) -> Option<Rev>
    ensures { result ≡ last_of (revs entries.now) }
{
    Some(entries.last()?.rev)
}

// The revision of the last entry of both parts.
fn last_rev_in(entries: &Entries<'_>) -> Option<Rev>
    ensures { result ≡ last_of (revs (entries.now.front.now ++ entries.now.behind.now)) }
{
    match last_rev(entries.behind) {
        None => last_rev(entries.front),
        last => last,
    }
}

// Whether the schema under which a change was made is among some entries, or the last of them for a change of schema.
fn has_base(entries: &Entries<'_>, schema: &Option<Text>, under: Rev) -> bool
    ensures { IsTrue result ↔ HasBase (entries.now.front.now ++ entries.now.behind.now) schema.now under }
{
    match schema {
        None => has_rev_in(entries, under),
        Some(_) => last_rev_in(entries) == Some(under),
    }
}

// Whether no entry is of a change's revision, for a change of schema.
fn brings_new_entry(entries: &Entries<'_>, schema: &Option<Text>, rev: Rev) -> bool
    ensures { IsTrue result ↔ IfSome schema.now (λ _. AllByRecursion (λ (e : Entry). e.rev ≢ rev) (entries.now.front.now ++ entries.now.behind.now)) }
{
    match schema {
        None => true,
        Some(_) => !has_rev_in(entries, rev),
    }
}

/// Whether a change says what is so of the schema under which it was made.
pub fn has_its_base(entries: &Entries<'_>, change: &Change) -> bool
    ensures { IsTrue result ↔ (IsTrue change.now.base ↔ HasBase (entries.now.front.now ++ entries.now.behind.now) change.now.schema change.now.under) }
{
    change.base == has_base(entries, &change.schema, change.under)
}

/// Whether the schema that a change brings, if any, is in effect under no entry of its revision.
pub fn has_its_schema(entries: &Entries<'_>, change: &Change) -> bool
    ensures { IsTrue result ↔ IfSome change.now.schema (λ _. AllByRecursion (λ (e : Entry). e.rev ≢ change.now.rev) (entries.now.front.now ++ entries.now.behind.now)) }
{
    brings_new_entry(entries, &change.schema, change.rev)
}
